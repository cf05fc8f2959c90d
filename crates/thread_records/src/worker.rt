//! One worker of a node in one life: its forwarder and the version that it used last.
ghost use Rattle.std.specs.Prelude.{◌≡◌, ◌<◌, ◌∷◌, ◌||◌, List, IfOk, IsTrue, IsNone, nat_lt};
ghost use Rattle.forwarder.specs.Forwarding.{unused};
ghost use Rattle.forwarder.specs.Serving.{Serving, told_after, told, serving_of, forwarding_of, IsForward};
ghost use Rattle.connection_table.specs.Touches.{last_touch};
ghost use Rattle.thread_records.specs.Steps.{is_behind, MatchStep};
ghost use Rattle.thread_records.specs.Workers.{limits_of};

use crate::step::Step;
use cluster_core::Setup;
use cluster_node::Item;
use connection_table::ConnTable;
use forwarder::Forwarder;
use hash_laws::FlowHash;
use selection::{PreparedVersion, Scheme};
use std::alloc::{AllocError, Global};
use std::fmt;
use std::marker::Model;

/// A worker. It serves under versions that ascend.
#[derive(Drop)]
pub struct Worker<S: Scheme, T: ConnTable> {
    used: u32,
    forwarder: Forwarder<S, T>,
}

impl<S: Scheme, T: ConnTable> fmt::Debug for Worker<S, T> {
    fn fmt<W: fmt::Write>(&self, f: &mut fmt::Formatter<W>) -> fmt::Result {
        f.debug_struct("Worker")
            .field("used", &self.used)
            .field("forwarder", &self.forwarder)
            .finish_non_exhaustive()
    }
}

impl<S: Scheme, T: ConnTable> Model for Worker<S, T> {
    ghost use Rattle.thread_records.specs.Workers.{Working};

    ghost Value = { Working };

    ghost view = { λ w. record { used = w.used; forwarding = w.forwarder } };
}

impl<S: Scheme, T: ConnTable> Worker<S, T> {
    /// A worker that has done nothing.
    pub fn make<H: FlowHash>(alloc: Global, setup: &Setup<S, H>) -> Result<Self, AllocError>
        ensures { IfOk result (λ w. w ≡ record { used = 0; forwarding = unused setup.now.capacity setup.now.idle }) }
    {
        Ok(Worker {
            used: 0,
            forwarder: Forwarder::keyed(
                alloc,
                setup.scheme(),
                setup.capacity(),
                setup.key(),
                setup.idle(),
            )?,
        })
    }

    /// Serves a packet under a version, unless the version is below the packet's floor or below one used before. By the
    /// clause `done` the answer is a function of all that this worker served before. An entry is refused only where memory
    /// was.
    pub fn step(&mut self, version: &PreparedVersion<S>, item: &Item) -> Step
        ensures behind { is_behind result ≡ (nat_lt version.now.number item.now.floor || nat_lt version.now.number self.old.used) }
        ensures same { MatchStep result (λ s. Unit {0}) (self.new ≡ self.old) }
        ensures used { MatchStep result (λ s. self.new.used ≡ version.now.number) (Unit {0}) }
        ensures due { MatchStep result (λ s. IsTrue s.unstored → IsNone (last_touch item.now.flow self.old.forwarding.entries)
            × IsForward s.choice) (Unit {0}) }
        ensures limits { limits_of self.new.forwarding ≡ limits_of self.old.forwarding }
        ensures done { let pick = S.pick version.now.scheme version.now.size in let limits = limits_of self.old.forwarding in
            (past : List Serving) → self.old.forwarding ≡ forwarding_of pick limits.capacity limits.idle past →
            MatchStep result
            (λ s. (s.choice ≡ (told_after pick limits.capacity limits.idle (told pick limits.capacity limits.idle past)
            (serving_of version.now item.now.flow item.now.at s.unstored)).choice)
            × (self.new.forwarding ≡ forwarding_of pick limits.capacity limits.idle (serving_of version.now item.now.flow item.now.at s.unstored ∷ past)))
            (Unit {0}) }
    {
        let number = version.number();
        if number < item.floor || number < self.used {
            return Step::Behind;
        }
        let served = self.forwarder.serve(version, &item.flow, item.at, false);
        self.used = number;
        Step::Done(served)
    }
}
