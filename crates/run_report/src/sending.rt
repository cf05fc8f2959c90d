//! Packets that were sent.
ghost use Rattle.std.specs.Prelude.{◌≡◌};
ghost use Rattle.run_report.specs.Splits.{version_of, sent_by};

use cluster_node::{Event, Outcome};
use five_tuple::Flow;
use pool_versions::Backend;

/// A packet that was sent: the number of its serving among the events, counted from 0, its flow, and its backend. Beside
/// these it has the version under which it was served, and the one under which the backend was chosen.
#[derive(Clone, Copy, Debug, PartialEq, Eq)]
pub struct Sending {
    pub number: u64,
    pub flow: Flow,
    pub version: u32,
    pub backend: Backend,
    pub origin: u32,
}

/// Two packets of one flow that were sent to different backends, with no packet of that flow sent between them.
#[derive(Clone, Copy, Debug, PartialEq, Eq)]
pub struct Split {
    pub first: Sending,
    pub later: Sending,
}

/// The version under which an event serves; 0 where it is no serving.
#[inline(always)]
pub fn version_of(event: &Event) -> u32
    ensures { result ≡ version_of event.now }
{
    match event {
        Event::Serve { version, .. } => *version,
        _ => 0,
    }
}

/// What was sent at the event of a number.
pub fn sent_by(number: u64, event: &Event, outcome: &Outcome) -> Option<Sending>
    ensures { result ≡ sent_by number event.now outcome.now }
{
    match outcome {
        Outcome::Forward {
            flow,
            backend,
            origin,
            ..
        } => Some(Sending {
            number,
            flow: *flow,
            version: version_of(event),
            backend: *backend,
            origin: *origin,
        }),
        _ => None,
    }
}
