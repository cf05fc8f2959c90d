//! The times of records, the lives of nodes and the clocks of workers.
ghost use Rattle.std.specs.Prelude.{◌≡◌, ◌+◌, ◌∷◌, [], ℕ, List, IfOk, OnOk, slice_index, option_copied};
ghost use Rattle.cluster_node.specs.declared.events.LogEntry.{LogEntry};
ghost use Rattle.event_trace.specs.Noting.{said_by};
ghost use Rattle.connection_changes.specs.Sites.{time_with, life_with, clock_begun, clock_with, site_in};
ghost use Rattle.connection_changes.specs.Books.{life_in, clock_in, site_served, AreClocksOf};

use crate::numbers::Numbers;
use crate::sites::{Arrived, Served, Site, arrived_by, begun_by, nowhere, served_by, site_if_sent};
use crate::worker_numbers::WorkerNumbers;
use cluster_node::{Event, Outcome, Packet};
use std::alloc::{AllocError, Global};

/// The time of each record that arrived, the life of each node, and the clock of each worker in its node's life.
#[derive(Drop)]
pub(crate) struct Clocks {
    times: Numbers,
    lives: Numbers,
    clocks: WorkerNumbers,
}

// The number of the next life. Where it has no room it is refused, as memory is.
fn next(life: u64) -> Result<u64, AllocError>
    ensures { IfOk result (λ n. n ≡ life + 1) }
{
    match life.checked_add(1) {
        Some(next) => Ok(next),
        None => Err(AllocError),
    }
}

impl Clocks {
    /// Those of no events.
    pub(crate) fn new(alloc: Global) -> Clocks
        ensures { AreClocksOf [] result }
    {
        Clocks {
            times: Numbers::new(alloc),
            lives: Numbers::new(alloc),
            clocks: WorkerNumbers::new(alloc),
        }
    }

    /// A record's time is known, where it was told.
    #[inline(always)]
    pub(crate) fn arrive(&mut self, arrived: Option<Arrived>) -> Result<(), AllocError>
        ensures times { OnOk result ((k : ℕ) → slice_index self.new.times.all.items k ≡ time_with arrived k (slice_index self.old.times.all.items k)) }
        ensures rest { self.new ≡ record self.old { times = self.new.times } }
    {
        match arrived {
            None => Ok(()),
            Some(arrived) => self.times.put(arrived.packet, arrived.at),
        }
    }

    // A node's life begins, with no clocks.
    #[inline(always)]
    fn begin(&mut self, begun: Option<u16>) -> Result<(), AllocError>
        ensures lives { OnOk result ((n : ℕ) → life_in self.new n ≡ life_with begun n (life_in self.old n)) }
        ensures clocks { OnOk result ((n w : ℕ) → clock_in self.new n w ≡ clock_begun begun n (clock_in self.old n w)) }
        ensures times { self.new.times ≡ self.old.times }
    {
        match begun {
            None => Ok(()),
            Some(node) => {
                self.clocks.forget(node);
                let node = u32::from(node);
                let life = next(self.lives.at(node))?;
                self.lives.put(node, life)
            }
        }
    }

    /// A worker serves a packet. The answer is where.
    #[inline(always)]
    pub(crate) fn serve(&mut self, served: Option<Served>) -> Result<Site, AllocError>
        ensures clocks { OnOk result ((n w : ℕ) →
            clock_in self.new n w ≡ clock_with served (λ k. slice_index self.old.times.all.items k) n w (clock_in self.old n w)) }
        ensures rest { self.new ≡ record self.old { clocks = self.new.clocks } }
        ensures site { IfOk result (λ x. x ≡ site_served served self.new) }
    {
        let Some(served) = served else {
            return Ok(nowhere());
        };
        let Served {
            node,
            worker,
            packet,
        } = served;
        let time = self.times.at(packet);
        let clock = self.clocks.raise(node, worker, time)?;
        let life = self.lives.at(u32::from(node));
        Ok(Site {
            packet,
            node,
            worker,
            time,
            life,
            clock,
        })
    }

    /// One event more, with the packet that it names where it is an arrival, and its outcome. The answer is where the event's
    /// packet was sent; where none was sent all numbers are 0. Where memory is refused nothing more is known of these.
    #[inline(always)]
    pub(crate) fn note(
        &mut self,
        event: &Event,
        packet: Option<&Packet>,
        outcome: &Outcome,
    ) -> Result<Site, AllocError>
        ensures clocks { (past : List LogEntry) → AreClocksOf past self.old →
            OnOk result (AreClocksOf (said_by event.now (option_copied packet.entry) outcome.now ∷ past) self.new) }
        ensures site { (past : List LogEntry) → AreClocksOf past self.old →
            IfOk result (λ x. x ≡ site_in (said_by event.now (option_copied packet.entry) outcome.now ∷ past) outcome.now) }
    {
        self.arrive(arrived_by(event, packet))?;
        self.begin(begun_by(event, outcome))?;
        let site = self.serve(served_by(event, outcome))?;
        Ok(site_if_sent(outcome, site))
    }
}
