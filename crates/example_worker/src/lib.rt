//! A core of one's own: it places every packet on the first worker, by the trait alone.
#![tactic(auto)]

ghost use Rattle.example_worker.specs.FirstWorker.{placing};

use cluster_node::{Cause, Event, Outcome, Packet, Passed};
use event_trace::Core;
use std::alloc::AllocError;

/// Places every packet on the first worker. It keeps nothing, so that nothing is ever installed or waits.
#[derive(Clone, Copy, Debug, PartialEq, Eq)]
pub struct FirstWorker;

impl Core for FirstWorker {
    type Setup = u16;

    ghost cluster = { λ workers. placing workers };

    ghost stands = { λ workers past core. Unit {0} };

    #[tactic(auto, unfolding(cluster_core::specs::Cluster::newest_on))]
    fn step(
        &mut self,
        setup: &u16,
        event: Event,
        packet: Option<Packet>,
    ) -> Result<Outcome, AllocError> {
        let _ = setup;
        let _ = packet;
        Ok(match event {
            Event::Install {
                node: _,
                version: _,
            } => Outcome::Installed,
            Event::Arrive {
                node: _,
                packet: _,
                refused: _,
            } => Outcome::Placed {
                worker: 0,
                floor: 0,
            },
            Event::Serve {
                node: _,
                worker,
                version: _,
                refused: _,
            } => Outcome::Dropped {
                packet: worker as u32,
                cause: Cause::NoService,
            },
            Event::Restart { node: _ } => Outcome::Restarted { lost: 0 },
        })
    }

    fn pass(
        &mut self,
        setup: &u16,
        node: u16,
        packet: u32,
        refused: &[bool; 16],
        body: &Packet,
        passed: &mut Passed,
    ) -> Result<(), AllocError> {
        let _ = setup;
        let _ = node;
        let _ = packet;
        let _ = refused;
        let _ = body;
        *passed = Passed::Through {
            worker: 0,
            floor: 0,
            outcome: Outcome::Dropped {
                packet: 0,
                cause: Cause::NoService,
            },
        };
        Ok(())
    }

    fn workers(setup: &u16) -> u16 {
        *setup
    }

    #[tactic(auto, unfolding(cluster_core::specs::Cluster::newest_on))]
    fn newest(&self, setup: &u16, node: u16) -> u32 {
        let _ = setup;
        let _ = node;
        0
    }

    #[tactic(auto, unfolding(cluster_core::specs::Cluster::waiting_on))]
    fn waiting(&self, setup: &u16, node: u16, worker: u16) -> u64 {
        let _ = setup;
        let _ = node;
        let _ = worker;
        0
    }
}

#[cfg(test)]
mod tests;
