//! Why a connection changed its server.
ghost use Rattle.std.specs.Prelude.{◌≡◌};
ghost use Rattle.selection.specs.Candidates.{candidates_of};
ghost use Rattle.run_report.specs.Causes.{Lookups, does_anybody_drain};
ghost use Rattle.connection_changes.specs.Changes.{is_past, moved_cause, cause_between, cause_in, cause_place, same_cause};

use crate::sites::Site;
use pool_versions::Catalogue;
use run_report::{Split, SplitCause, cause_where, does_anybody_drain};

/// Two packets of one flow that were sent to different servers, and where each was sent. No packet of that flow was sent
/// between them.
#[derive(Clone, Copy, Debug, PartialEq, Eq)]
pub struct Change {
    pub split: Split,
    pub first: Site,
    pub later: Site,
}

/// Why a connection changed its server: the first of these that holds.
#[derive(Clone, Copy, Debug, PartialEq, Eq)]
pub enum ChangeCause {
    /// Its server neither is up nor drains under the later serving's version, and hadn't drained before.
    Down,
    /// Its server neither is up nor drains any more, and drained before.
    Drained,
    /// Its packets came to another node.
    Node,
    /// Its node was restarted.
    Restart,
    /// Its packets came to another worker of the node.
    Worker,
    /// Its worker's clock went on by more than the idle limit.
    Idle,
    /// Its worker's table had no entry of it any more: other flows pushed it out, or none could be made.
    Evicted,
}

// Whether there is an idle limit, and the clock at the later send is past it.
fn is_past(idle: Option<u64>, first: &Site, later: &Site) -> bool
    ensures { result ≡ is_past idle first.now later.now }
{
    match idle {
        None => false,
        Some(limit) => later.clock.saturating_sub(first.clock) > limit,
    }
}

// Why a connection moved from a server that is up or drains.
fn moved_cause(idle: Option<u64>, first: &Site, later: &Site) -> ChangeCause
    ensures { result ≡ moved_cause idle first.now later.now }
{
    if first.node != later.node {
        ChangeCause::Node
    } else if first.life != later.life {
        ChangeCause::Restart
    } else if first.worker != later.worker {
        ChangeCause::Worker
    } else if is_past(idle, first, later) {
        ChangeCause::Idle
    } else {
        ChangeCause::Evicted
    }
}

/// Why a connection changed its server, by the cause of its split. `idle` is the limit in microseconds after which an entry of
/// a connection table no longer counts.
pub fn cause_between(cause: SplitCause, idle: Option<u64>, change: &Change) -> ChangeCause
    ensures { result ≡ cause_between cause idle change.now.first change.now.later }
{
    match cause {
        SplitCause::Down => ChangeCause::Down,
        SplitCause::Moved => moved_cause(idle, &change.first, &change.later),
        SplitCause::Drained => ChangeCause::Drained,
    }
}

/// The same, where it is known whether a member of a version drains.
pub(crate) fn cause_with(
    catalogue: &Catalogue,
    drains: bool,
    idle: Option<u64>,
    change: &Change,
) -> ChangeCause
    requires { drains ≡ does_anybody_drain catalogue.now.versions }
    ensures { (lookups : Lookups) → lookups.ups ≡ (λ v x. candidates_of catalogue.now v x) → lookups.versions ≡ catalogue.now.versions →
        result ≡ cause_in lookups idle change.now }
{
    cause_between(cause_where(catalogue, drains, &change.split), idle, change)
}

fn cause_place(cause: ChangeCause) -> u8
    ensures { result ≡ cause_place cause }
{
    match cause {
        ChangeCause::Down => 0,
        ChangeCause::Drained => 1,
        ChangeCause::Node => 2,
        ChangeCause::Restart => 3,
        ChangeCause::Worker => 4,
        ChangeCause::Idle => 5,
        ChangeCause::Evicted => 6,
    }
}

/// Whether two causes are one.
pub(crate) fn same_cause(one: ChangeCause, other: ChangeCause) -> bool
    ensures { result ≡ same_cause one other }
{
    cause_place(one) == cause_place(other)
}
