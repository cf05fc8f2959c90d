//! A worker of a node: the packets that wait at it, and the forwarder that serves them.
ghost use Rattle.std.specs.Prelude.{◌≡◌, ◌≤◌, ◌<◌, ◌∷◌, ◌++◌, [], ◌==◌, true, false, length, IfOk, OnOk, OnErr};
ghost use Rattle.forwarder.specs.Serving.{ups_in, told_in, after_told};
ghost use Rattle.cluster_node.specs.declared.serving.Taken.TheVariants.{Done};
ghost use Rattle.cluster_node.specs.WorkerView.{WorkerView};
ghost use Rattle.cluster_node.specs.Book.{step_of, serving_under};
ghost use Rattle.cluster_node.specs.PrivateSteps.{with_item};
ghost use Rattle.cluster_node.specs.Record.{cleared, fresh};

use connection_table::{ConnTable, TableKey};
use five_tuple::Flow;
use forwarder::{Choice, Forwarder};
use selection::{PreparedVersion, Scheme};
use std::alloc::{AllocError, Global};
use std::collections::VecDeque;
use std::fmt;
use std::marker::Model;
use std::mem::size_of;

/// A packet that waits at a worker, to be served under a version that is not below its floor.
#[derive(Clone, Copy, Debug, PartialEq, Eq)]
pub struct Item {
    pub packet: u32,
    pub flow: Flow,
    pub floor: u32,
    /// When it came, in microseconds.
    pub at: u64,
}

// A packet that waits is kept until it is served, so no field leaves a gap.
const _: () = prove!(size_of::<Item>() == 32);

/// What came of a worker's turn.
#[derive(Clone, Copy, Debug, PartialEq, Eq)]
pub enum Taken {
    /// No packet waits.
    Idle,
    /// The version is below the packet's floor, or below one that was used before.
    Behind,
    /// The next packet was served.
    Done { item: Item, choice: Choice },
}

/// A worker in one life of its node.
#[derive(Drop)]
pub(crate) struct Worker<S: Scheme, T: ConnTable> {
    queue: VecDeque<Item>,
    used: u32,
    forwarder: Forwarder<S, T>,
}

impl<S: Scheme, T: ConnTable> Model for Worker<S, T> {
    ghost use Rattle.cluster_node.specs.WorkerView.{WorkerView};

    ghost Value = { WorkerView };

    ghost view = { λ w. record { queue = w.queue.items; used = w.used; forwarding = w.forwarder } };
}

impl<S: Scheme, T: ConnTable> fmt::Debug for Worker<S, T> {
    fn fmt<W: fmt::Write>(&self, f: &mut fmt::Formatter<W>) -> fmt::Result {
        f.debug_struct("Worker")
            .field("queue", &self.queue)
            .field("used", &self.used)
            .field("forwarder", &self.forwarder)
            .finish()
    }
}

impl<S: Scheme, T: ConnTable> Worker<S, T> {
    // A worker that has done nothing.
    pub(crate) fn make(
        alloc: Global,
        scheme: S,
        capacity: u32,
        key: TableKey,
        idle: Option<u64>,
    ) -> Result<Self, AllocError>
        requires some { 0 < capacity }
        requires limit { capacity ≤ 1000000 }
        ensures { IfOk result (λ w. w ≡ fresh capacity idle) }
    {
        Ok(Worker {
            queue: VecDeque::new(alloc),
            used: 0,
            forwarder: Forwarder::keyed(alloc, scheme, capacity, key, idle)?,
        })
    }

    // Puts a packet at the end of the queue.
    pub(crate) fn put(&mut self, item: Item) -> Result<(), AllocError>
        ensures ok { OnOk result (self.new ≡ record self.old { queue = self.old.queue ++ item ∷ [] }) }
        ensures err { OnErr result (self.new ≡ self.old) }
    {
        self.queue.push_back(item)?;
        Ok(())
    }

    // Whether no packet waits.
    pub(crate) fn is_idle(&self) -> bool
        ensures { result ≡ (length self.now.queue == 0) }
    {
        self.queue.is_empty()
    }

    // How many packets wait.
    pub(crate) fn waiting(&self) -> usize
        ensures { result ≡ length self.now.queue }
    {
        self.queue.len()
    }

    // Serves the next packet.
    pub(crate) fn take(
        &mut self,
        version: &PreparedVersion<S>,
        refused: bool,
    ) -> Result<Taken, AllocError>
        ensures taken { IfOk result (λ t. t ≡ (step_of (S.pick version.now.scheme version.now.size)
            (λ x. ups_in version.now x) self.old version.now.number refused).taken) }
        ensures after { OnOk result (self.new ≡ (step_of (S.pick version.now.scheme version.now.size)
            (λ x. ups_in version.now x) self.old version.now.number refused).after) }
    {
        let Some(first) = self.queue.front() else {
            return Ok(Taken::Idle);
        };
        let item = *first;
        let number = version.number();
        if number < item.floor || number < self.used {
            return Ok(Taken::Behind);
        }
        let _ = self.queue.pop_front();
        let choice = self.serve(version, &item, refused)?;
        Ok(Taken::Done { item, choice })
    }

    // Serves a packet that isn't in the queue.
    #[inline(always)]
    fn serve(
        &mut self,
        version: &PreparedVersion<S>,
        item: &Item,
        refused: bool,
    ) -> Result<Choice, AllocError>
        ensures choice { IfOk result (λ c. c ≡ (told_in (S.pick version.now.scheme version.now.size) self.old.forwarding
            (serving_under (λ x. ups_in version.now x) version.now.number item.now refused)).choice) }
        ensures after { let t = told_in (S.pick version.now.scheme version.now.size) self.old.forwarding
            (serving_under (λ x. ups_in version.now x) version.now.number item.now refused) in
            OnOk result (self.new ≡ record { queue = self.old.queue; used = version.now.number; forwarding = after_told t self.old.forwarding }) }
    {
        let served = self.forwarder.serve(version, &item.flow, item.at, refused);
        self.used = version.number();
        if served.unstored && !refused {
            return Err(AllocError);
        }
        Ok(served.choice)
    }

    // Whether a packet that comes now is served next under a version.
    #[inline(always)]
    pub(crate) fn is_ready(&self, version: u32) -> bool
        ensures { result ≡ true → (self.now.queue ≡ []) × (self.now.used ≤ version) }
    {
        self.queue.is_empty() && self.used <= version
    }

    // Serves a packet that comes when none waits, under a version that is its floor.
    #[inline(always)]
    pub(crate) fn pass(
        &mut self,
        version: &PreparedVersion<S>,
        item: &Item,
    ) -> Result<Choice, AllocError>
        requires queue { self.old.queue ≡ [] }
        requires floor { item.now.floor ≡ version.now.number }
        requires used { self.old.used ≤ version.now.number }
        ensures taken { IfOk result (λ c. Done item.now c
            ≡ (step_of (S.pick version.now.scheme version.now.size) (λ x. ups_in version.now x) (with_item self.old item.now) version.now.number false).taken) }
        ensures after { OnOk result (self.new ≡ (step_of (S.pick version.now.scheme version.now.size) (λ x. ups_in version.now x)
            (with_item self.old item.now) version.now.number false).after) }
    {
        self.serve(version, item, false)
    }

    // Begins a new life: forgets all, and says how many packets waited.
    pub(crate) fn restart(&mut self) -> usize
        ensures lost { result ≡ length self.old.queue }
        ensures after { self.new ≡ cleared self.old }
    {
        let lost = self.queue.len();
        self.queue.clear();
        self.used = 0;
        self.forwarder.restart();
        lost
    }
}
