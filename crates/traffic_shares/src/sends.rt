//! What events tell of the packets that were sent.
ghost use Rattle.std.specs.Prelude.{◌≡◌, option_copied};
ghost use Rattle.traffic_shares.specs.Sends.{measured_by, sent_by};

use cluster_node::{Event, Outcome, Packet};
use five_tuple::Flow;
use pool_versions::Backend;

/// The length of a record's datagram, as its packet's arrival tells it.
#[derive(Clone, Copy)]
pub(crate) struct Measured {
    pub(crate) packet: u32,
    pub(crate) len: u16,
}

/// A packet that was sent, with the version under which it was served.
#[derive(Clone, Copy)]
pub(crate) struct Sent {
    pub(crate) version: u32,
    pub(crate) node: u16,
    pub(crate) packet: u32,
    pub(crate) flow: Flow,
    pub(crate) backend: Backend,
}

/// The length of a record's datagram, where an event tells it.
pub(crate) fn measured_by(event: &Event, packet: Option<&Packet>) -> Option<Measured>
    ensures { result ≡ measured_by event.now (option_copied packet.entry) }
{
    let Event::Arrive { packet: number, .. } = *event else {
        return None;
    };
    match packet {
        Some(Packet::Good { len, .. }) => Some(Measured {
            packet: number,
            len: *len,
        }),
        Some(Packet::Bad(_)) => None,
        None => None,
    }
}

/// What was sent at an event.
pub(crate) fn sent_by(event: &Event, outcome: &Outcome) -> Option<Sent>
    ensures { result ≡ sent_by event.now outcome.now }
{
    let Event::Serve { version, .. } = *event else {
        return None;
    };
    match *outcome {
        Outcome::Forward {
            node,
            packet,
            flow,
            backend,
            ..
        } => Some(Sent {
            version,
            node,
            packet,
            flow,
            backend,
        }),
        _ => None,
    }
}
