//! A worker with the record of what it handled.
ghost use Rattle.std.specs.Prelude.{◌≡◌, ◌++◌, ◌∷◌, ◌↔◌, [], List, IfOk, OnErr, All, Contains, ◌||◌, nat_lt, IsTrue, IsNone};
ghost use Rattle.std.specs.Arc.{arc_value};
ghost use Rattle.forwarder.specs.Forwarding.{unused};
ghost use Rattle.forwarder.specs.Serving.{IsForward};
ghost use Rattle.connection_table.specs.Touches.{last_touch};
ghost use Rattle.cluster_core.specs.Setups.{rules_for};
ghost use Rattle.thread_records.specs.Sources.{MadeOf, IsMadeOf, IsFrom, IsMore};
ghost use Rattle.thread_records.specs.Steps.{MatchStep, is_behind};
ghost use Rattle.thread_records.specs.Workers.{limits_of};
ghost use Rattle.thread_records.specs.Works.{WorkView, working_view, Worked, IsOf, IsWorkerOf};

use crate::source::Source;
use crate::step::Step;
use crate::worker::Worker;
use cluster_core::Setup;
use cluster_node::Item;
use connection_table::ConnTable;
use handled_list::{Handled, HandledList};
use hash_laws::FlowHash;
use pool_versions::Catalogue;
use selection::{PreparedVersion, Scheme};
use std::alloc::{AllocError, Global};
use std::fmt;
use std::marker::Model;
use std::sync::Arc;

/// A worker, what the versions that it used were made from, and what it handled in order. By its type all that it handled is
/// what one forwarder answers by those versions.
///
/// Of a version it keeps the services and members, which it may share with other owners. It keeps no tables but those of the
/// version used last.
#[derive(Drop)]
pub struct WorkerRecord<S: Scheme, T: ConnTable> {
    sources: Vec<Source<S>>,
    current: Option<Arc<PreparedVersion<S>>>,
    worker: Worker<S, T>,
    // The places of the worker's table, and how long an entry stands there after its last touch.
    capacity: u32,
    idle: Option<u64>,
    handled: HandledList,
}

impl<S: Scheme, T: ConnTable> fmt::Debug for WorkerRecord<S, T> {
    fn fmt<W: fmt::Write>(&self, f: &mut fmt::Formatter<W>) -> fmt::Result {
        f.debug_struct("WorkerRecord")
            .field("worker", &self.worker)
            .field("capacity", &self.capacity)
            .field("idle", &self.idle)
            .field("handled", &self.handled)
            .finish_non_exhaustive()
    }
}

impl<S: Scheme, T: ConnTable> Model for WorkerRecord<S, T> {
    ghost use Rattle.std.specs.Prelude.{◌≡◌, IfSome, Contains};
    ghost use Rattle.std.specs.Arc.{arc_value};
    ghost use Rattle.thread_records.specs.Sources.{MadeOf, IsMadeOf};
    ghost use Rattle.thread_records.specs.Workers.{limits_of};
    ghost use Rattle.thread_records.specs.Works.{WorkView, Worked};

    ghost Value = { WorkView S };

    ghost view = { λ r. record { made = r.sources.items; used = r.worker.used; forwarding = r.worker.forwarding; handled = r.handled.items } };

    ghost invariant = { λ r. Worked (λ s z. S.pick s z) (record {
      made = r.sources.items;
      used = r.worker.used;
      forwarding = r.worker.forwarding;
      handled = r.handled.items;
    }) × (limits_of r.worker.forwarding ≡ record { capacity = r.capacity; idle = r.idle })
        × IfSome r.current (λ p. (m : MadeOf S) × Contains r.sources.items m × IsMadeOf (arc_value p) m) };
}

// A worker handles a packet under a version, and what it handled is written. Where memory is refused nothing is done.
fn handle_under<S: Scheme, T: ConnTable>(
    worker: &mut Worker<S, T>,
    handled: &mut HandledList,
    version: &PreparedVersion<S>,
    item: &Item,
) -> Result<Step, AllocError>
    ensures done { IfOk result (λ step. MatchStep step
        (λ s. handled.new.items ≡ handled.old.items ++ record { item = item.now; version = version.now.number; choice = s.choice; unstored = s.unstored } ∷ [])
        ((worker.new ≡ worker.old) × (handled.new.items ≡ handled.old.items))) }
    ensures behind { IfOk result (λ step. is_behind step ≡ (nat_lt version.now.number item.now.floor || nat_lt version.now.number worker.old.used)) }
    ensures due { IfOk result (λ step. MatchStep step (λ s. IsTrue s.unstored → IsNone (last_touch item.now.flow worker.old.forwarding.entries)
        × IsForward s.choice) (Unit {0})) }
    ensures err { OnErr result ((worker.new ≡ worker.old) × (handled.new.items ≡ handled.old.items)) }
    ensures limits { limits_of worker.new.forwarding ≡ limits_of worker.old.forwarding }
    ensures again { (made : List (MadeOf S)) (m : MadeOf S) → Contains made m → IsMadeOf version.now m →
        Worked (λ s z. S.pick s z) (working_view made worker.old handled.old.items) →
        Worked (λ s z. S.pick s z) (working_view made worker.new handled.new.items) }
    ensures more { (made : List (MadeOf S)) (m : MadeOf S) → IsMadeOf version.now m →
        Worked (λ s z. S.pick s z) (working_view made worker.old handled.old.items) →
        IfOk result (λ step. MatchStep step (λ s. Worked (λ s z. S.pick s z) (working_view (made ++ m ∷ []) worker.new handled.new.items)) (Unit {0})) }
{
    handled.reserve()?;
    match worker.step(version, item) {
        Step::Behind => Ok(Step::Behind),
        Step::Done(served) => {
            handled.push_reserved(Handled {
                item: *item,
                version: version.number(),
                choice: served.choice,
                unstored: served.unstored,
            });
            Ok(Step::Done(served))
        }
    }
}

impl<S: Scheme, T: ConnTable> WorkerRecord<S, T> {
    /// A worker of a cluster that has used no version and handled nothing.
    pub fn make<H: FlowHash>(alloc: Global, setup: &Setup<S, H>) -> Result<Self, AllocError>
        ensures { IfOk result (λ r. r ≡ record { made = []; used = 0; forwarding = unused setup.now.capacity setup.now.idle; handled = [] }) }
    {
        Ok(WorkerRecord {
            sources: Vec::new(alloc),
            current: None,
            worker: Worker::make(alloc, setup)?,
            capacity: setup.capacity(),
            idle: setup.idle(),
            handled: HandledList::new(alloc),
        })
    }

    /// Handles a packet under a version, unless the version is below the packet's floor or below one used before. Where it
    /// has the number of the version used last, that one is used again. Where memory is refused nothing is done.
    pub fn handle(
        &mut self,
        version: &Arc<PreparedVersion<S>>,
        item: &Item,
    ) -> Result<Step, AllocError>
        ensures done { IfOk result (λ step. MatchStep step
            (λ s. self.new.handled ≡ self.old.handled ++ record {
              item = item.now;
              version = (arc_value version.now).number;
              choice = s.choice;
              unstored = s.unstored;
            } ∷ [])
            (self.new ≡ self.old)) }
        ensures behind { IfOk result (λ step. is_behind step ≡ (nat_lt (arc_value version.now).number item.now.floor
            || nat_lt (arc_value version.now).number self.old.used)) }
        ensures due { IfOk result (λ step. MatchStep step (λ s. IsTrue s.unstored → IsNone (last_touch item.now.flow self.old.forwarding.entries)
            × IsForward s.choice) (Unit {0})) }
        ensures err { OnErr result (self.new ≡ self.old) }
        ensures made { IsMore (arc_value version.now) self.old.made self.new.made }
        ensures limits { limits_of self.new.forwarding ≡ limits_of self.old.forwarding }
    {
        match &self.current {
            Some(kept) if kept.number() == version.number() => {
                handle_under(&mut self.worker, &mut self.handled, kept, item)
            }
            _ => self.handle_new(version, item),
        }
    }

    // The same, under a version that is none of those kept so far.
    fn handle_new(
        &mut self,
        version: &Arc<PreparedVersion<S>>,
        item: &Item,
    ) -> Result<Step, AllocError>
        ensures done { IfOk result (λ step. MatchStep step
            (λ s. self.new.handled ≡ self.old.handled ++ record {
              item = item.now;
              version = (arc_value version.now).number;
              choice = s.choice;
              unstored = s.unstored;
            } ∷ [])
            (self.new ≡ self.old)) }
        ensures behind { IfOk result (λ step. is_behind step ≡ (nat_lt (arc_value version.now).number item.now.floor
            || nat_lt (arc_value version.now).number self.old.used)) }
        ensures due { IfOk result (λ step. MatchStep step (λ s. IsTrue s.unstored → IsNone (last_touch item.now.flow self.old.forwarding.entries)
            × IsForward s.choice) (Unit {0})) }
        ensures err { OnErr result (self.new ≡ self.old) }
        ensures made { IsMore (arc_value version.now) self.old.made self.new.made }
        ensures limits { limits_of self.new.forwarding ≡ limits_of self.old.forwarding }
    {
        let source = Source::of(version)?;
        let kept = Arc::try_clone(version)?;
        self.sources.reserve(1)?;
        match handle_under(&mut self.worker, &mut self.handled, version, item) {
            Err(refusal) => Err(refusal),
            Ok(Step::Behind) => Ok(Step::Behind),
            Ok(Step::Done(served)) => {
                self.sources.push_reserved(source);
                self.current = Some(kept);
                Ok(Step::Done(served))
            }
        }
    }

    /// What it handled, in order. All of it is what one forwarder answers by the versions that it used.
    pub fn handled(&self) -> &HandledList
        ensures handled { result.now.items ≡ self.now.handled }
        ensures worked { Worked (λ s z. S.pick s z) self.now }
    {
        &self.handled
    }

    /// The same as a list that is the caller's. The rest of the record goes.
    pub fn into_handled(self) -> HandledList
        ensures handled { result.items ≡ self.handled }
        ensures worked { Worked (λ s z. S.pick s z) self }
    {
        let WorkerRecord { handled, .. } = self;
        handled
    }

    // Whether its table has the cluster's capacity and idle limit.
    #[tactic(auto, using(crate::proofs::Kept::one_limit, crate::proofs::Kept::same_limit))]
    fn has_limits<H: FlowHash>(&self, setup: &Setup<S, H>) -> bool
        ensures { IsTrue result ↔ (self.now.forwarding.capacity ≡ setup.now.capacity) × (self.now.forwarding.idle ≡ setup.now.idle) }
    {
        self.capacity == setup.capacity() && self.idle == setup.idle()
    }

    // Whether each version that it used is the catalogue's, prepared by the cluster's scheme and for its size.
    fn uses_own<H: FlowHash>(&self, setup: &Setup<S, H>, catalogue: &Catalogue) -> bool
        ensures { IsTrue result ↔ All (IsFrom (λ a b. S.eq a b) setup.now catalogue.now) self.now.made }
    {
        for at in 0..self.sources.len() {
            if !self.sources[at].is_from(setup, catalogue) {
                return false;
            }
        }
        true
    }

    /// Whether this is the record of a worker of the cluster. Its table has the cluster's capacity and idle limit. Each
    /// version that it used is the catalogue's version of that number, service by service, prepared by the cluster's scheme
    /// and for the cluster's table size. Then all that it handled is what the cluster's rules say (`of`).
    pub fn is_of<H: FlowHash>(&self, setup: &Setup<S, H>, catalogue: &Catalogue) -> bool
        ensures exact { IsTrue result ↔ IsWorkerOf (λ a b. S.eq a b) setup.now catalogue.now self.now }
        ensures of { IsTrue result → IsOf (λ s z. S.pick s z) (rules_for (λ s z. S.pick s z) (λ h. H.plain h) setup.now catalogue.now) self.now }
    {
        self.has_limits(setup) && self.uses_own(setup, catalogue)
    }
}

/// Whether these are records of workers of the cluster, all of them.
pub fn are_of<S: Scheme, H: FlowHash, T: ConnTable>(
    setup: &Setup<S, H>,
    catalogue: &Catalogue,
    workers: &[WorkerRecord<S, T>],
) -> bool
    ensures exact { IsTrue result ↔ All (IsWorkerOf (λ a b. S.eq a b) setup.now catalogue.now) workers.now }
    ensures of { IsTrue result → All (λ w. IsOf (λ s z. S.pick s z) (rules_for (λ s z. S.pick s z) (λ h. H.plain h) setup.now catalogue.now) w) workers.now }
{
    for at in 0..workers.len() {
        if !workers[at].is_of(setup, catalogue) {
            return false;
        }
    }
    true
}
