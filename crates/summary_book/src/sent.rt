//! Packets that were sent, as far as a cause depends on them where no idle limit is set.
ghost use Rattle.std.specs.Prelude.{◌≡◌};
ghost use Rattle.summary_book.specs.Sents.{sent_by, change_of};

use cluster_node::{Event, Outcome};
use connection_changes::{Change, Site};
use five_tuple::Flow;
use pool_versions::Backend;
use run_report::{Sending, Split, version_of};

/// A packet that was sent: its flow and its backend, and the node and the worker that sent it. `version` is the one under which
/// it was served, `origin` the one under which the backend was chosen, and `life` how many lives the node had before.
#[derive(Clone, Copy)]
pub(crate) struct Sent {
    pub(crate) flow: Flow,
    pub(crate) backend: Backend,
    pub(crate) version: u32,
    pub(crate) origin: u32,
    pub(crate) node: u16,
    pub(crate) worker: u16,
    pub(crate) life: u32,
}

impl Sent {
    ghost use Rattle.summary_book.specs.Sents.{sending_of, site_of};

    // The same as a sending without its number.
    fn sending(&self) -> Sending
        ensures { result ≡ sending_of self.now }
    {
        Sending {
            number: 0,
            flow: self.flow,
            version: self.version,
            backend: self.backend,
            origin: self.origin,
        }
    }

    // Where it was sent, without the record and the times.
    fn site(&self) -> Site
        ensures { result ≡ site_of self.now }
    {
        Site {
            packet: 0,
            node: self.node,
            worker: self.worker,
            time: 0,
            life: u64::from(self.life),
            clock: 0,
        }
    }
}

/// The change between two sends of a flow.
pub(crate) fn change_of(first: &Sent, later: &Sent) -> Change
    ensures { result ≡ change_of first.now later.now }
{
    Change {
        split: Split {
            first: first.sending(),
            later: later.sending(),
        },
        first: first.site(),
        later: later.site(),
    }
}

/// What an event sent, in such a life of its node.
#[inline(always)]
pub(crate) fn sent_by(event: &Event, outcome: &Outcome, life: u32) -> Option<Sent>
    ensures { result ≡ sent_by event.now outcome.now life }
{
    match outcome {
        Outcome::Forward {
            node,
            worker,
            flow,
            backend,
            origin,
            ..
        } => Some(Sent {
            flow: *flow,
            backend: *backend,
            version: version_of(event),
            origin: *origin,
            node: *node,
            worker: *worker,
            life,
        }),
        _ => None,
    }
}
