//! A core that does nothing: what it is asked is in the trace's own record.
ghost use Rattle.driver_commands.specs.Noting.{noting};

use cluster_node::{Cause, Event, Outcome, Packet, Passed};
use event_trace::Core;
use std::alloc::AllocError;

/// Places no packet, so that nothing is served.
#[derive(Clone, Copy)]
pub(crate) struct IdleCore;

impl Core for IdleCore {
    type Setup = ();

    ghost cluster = { λ setup. noting };

    ghost stands = { λ setup past core. Unit {0} };

    #[tactic(auto, unfolding(cluster_core::specs::Cluster::newest_on))]
    fn step(
        &mut self,
        setup: &(),
        event: Event,
        packet: Option<Packet>,
    ) -> Result<Outcome, AllocError> {
        let _ = setup;
        let _ = packet;
        Ok(match event {
            Event::Install {
                node: _,
                version: _,
            } => Outcome::Installed,
            Event::Arrive {
                node: _,
                packet,
                refused: _,
            } => Outcome::Dropped {
                packet,
                cause: Cause::RingsFull,
            },
            Event::Serve {
                node: _,
                worker,
                version: _,
                refused: _,
            } => Outcome::Dropped {
                packet: worker as u32,
                cause: Cause::NoService,
            },
            Event::Restart { node: _ } => Outcome::Restarted { lost: 0 },
        })
    }

    fn pass(
        &mut self,
        setup: &(),
        node: u16,
        packet: u32,
        refused: &[bool; 16],
        body: &Packet,
        passed: &mut Passed,
    ) -> Result<(), AllocError> {
        let _ = setup;
        let _ = node;
        let _ = refused;
        let _ = body;
        *passed = Passed::Unplaced(Outcome::Dropped {
            packet,
            cause: Cause::RingsFull,
        });
        Ok(())
    }

    fn workers(setup: &()) -> u16 {
        let _ = setup;
        0
    }

    #[tactic(auto, unfolding(cluster_core::specs::Cluster::newest_on))]
    fn newest(&self, setup: &(), node: u16) -> u32 {
        let _ = setup;
        let _ = node;
        0
    }

    #[tactic(auto, unfolding(cluster_core::specs::Cluster::waiting_on))]
    fn waiting(&self, setup: &(), node: u16, worker: u16) -> u64 {
        let _ = setup;
        let _ = node;
        let _ = worker;
        0
    }
}
