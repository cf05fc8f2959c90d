//! What all threads of a node's run share.
ghost use Rattle.std.specs.Prelude.{◌≡◌, ◌<◌, ◌≤◌, ◌+◌, [], length};
ghost use Rattle.std.specs.Arc.{arc_value};
ghost use Rattle.thread_roles.specs.Counts.{counted};
ghost use Rattle.thread_roles.specs.Shown.{number_of};

use crate::assignment::Assignment;
use crate::tally::ThreadShares;
use hash_laws::FlowHash;
use selection::Scheme;
use shared_versions::{Shared, SharedVersions};
use stats_book::{Names, Shares, StatsBook};
use std::alloc::AllocError;
use std::fmt;
use std::sync::Mutex;
use thread_records::Journal;

/// A node's assignment, and its shares of the counts. By its type the node is there and a ring has places. Nothing is counted on the
/// shares yet, and they have a part for its driver and one for each worker.
#[derive(Drop)]
pub struct NodeTask<'e, S: Scheme, H: FlowHash, G, B: Names> {
    /// What the node is to do.
    pub assignment: Assignment<'e, S, H>,
    /// The versions that were prepared for all nodes. A driver prepares any other when it installs it.
    pub prepared: &'e SharedVersions<S>,
    /// What is called round each serving.
    pub gate: &'e G,
    /// Where all threads count.
    pub book: &'e Mutex<StatsBook<B>>,
    /// What the node's threads count on.
    pub shares: Shares<B>,
    pub ghost there: { assignment.node < length assignment.setup.now.nodes },
    pub ghost some: { 0 < assignment.ring },
    pub ghost limit: { assignment.ring ≤ 65536 },
    pub ghost parts: { shares.parts ≡ assignment.setup.now.workers + 1 },
    pub ghost fresh: { shares ≡ counted shares.parts [] },
}

impl<S: Scheme, H: FlowHash, G, B: Names> fmt::Debug for NodeTask<'_, S, H, G, B> {
    fn fmt<W: fmt::Write>(&self, f: &mut fmt::Formatter<W>) -> fmt::Result {
        f.debug_struct("NodeTask")
            .field("assignment", &self.assignment)
            .finish_non_exhaustive()
    }
}

/// What all threads of a node's run share. None of them changes anything but the book.
pub struct NodePlan<'e, S: Scheme, H: FlowHash, G, B: Names> {
    /// What the node is to do.
    pub assignment: Assignment<'e, S, H>,
    /// The versions that were prepared for all nodes. A driver prepares any other when it installs it.
    pub prepared: &'e SharedVersions<S>,
    /// What is called round each serving.
    pub gate: &'e G,
    /// Where all threads count.
    pub book: &'e Mutex<StatsBook<B>>,
}

impl<S: Scheme, H: FlowHash, G, B: Names> fmt::Debug for NodePlan<'_, S, H, G, B> {
    fn fmt<W: fmt::Write>(&self, f: &mut fmt::Formatter<W>) -> fmt::Result {
        f.debug_struct("NodePlan")
            .field("assignment", &self.assignment)
            .finish_non_exhaustive()
    }
}

impl<'e, S: Scheme, H: FlowHash, G, B: Names> Clone for NodePlan<'e, S, H, G, B> {
    fn clone(&self) -> Result<Self, AllocError> {
        Ok(*self)
    }
}

impl<'e, S: Scheme, H: FlowHash, G, B: Names> Copy for NodePlan<'e, S, H, G, B> {}

/// How far a node got in its commands. By its type the version that is prepared is the one that was installed last.
#[derive(Drop)]
pub struct Progress<S: Scheme, B: Names> {
    /// What its driver has written.
    pub journal: Journal,
    /// The newest version installed, prepared. A life begins with it.
    pub newest: Option<Shared<S>>,
    /// The place of the next command, or that of the restart at which a life ends.
    pub at: usize,
    /// What was counted for what the driver has written.
    pub tally: ThreadShares<B>,
    pub ghost prepared: { number_of arc_value newest ≡ journal.newest },
}

impl<S: Scheme, B: Names> fmt::Debug for Progress<S, B> {
    fn fmt<W: fmt::Write>(&self, f: &mut fmt::Formatter<W>) -> fmt::Result {
        f.debug_struct("Progress")
            .field("journal", &self.journal)
            .field("at", &self.at)
            .finish_non_exhaustive()
    }
}
