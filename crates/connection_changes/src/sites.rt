//! Where packets were sent, and what events tell of it.
ghost use Rattle.std.specs.Prelude.{◌≡◌, option_copied, if◌then◌else◌};
ghost use Rattle.connection_changes.specs.Sites.{time_told, arrived_by, begun_by, served_by, is_sent, nowhere};

use cluster_node::{Event, Outcome, Packet};

/// Where a packet was sent: its number in the capture, its time, and the node and the worker that sent it. `life` is how many
/// lives the node had before, and `clock` the worker's clock. Both times are in microseconds. A clock is the greatest time of
/// the packets that the worker served in this life, this one among them.
#[derive(Clone, Copy, Debug, PartialEq, Eq)]
pub struct Site {
    pub packet: u32,
    pub node: u16,
    pub worker: u16,
    pub time: u64,
    pub life: u64,
    pub clock: u64,
}

/// The time of a record, as its packet's arrival tells it.
#[derive(Clone, Copy)]
pub(crate) struct Arrived {
    pub(crate) packet: u32,
    pub(crate) at: u64,
}

/// A packet that a worker sent or dropped.
#[derive(Clone, Copy)]
pub(crate) struct Served {
    pub(crate) node: u16,
    pub(crate) worker: u16,
    pub(crate) packet: u32,
}

/// Where nothing was sent: all numbers are 0.
#[inline(always)]
pub(crate) fn nowhere() -> Site
    ensures { result ≡ nowhere }
{
    Site {
        packet: 0,
        node: 0,
        worker: 0,
        time: 0,
        life: 0,
        clock: 0,
    }
}

// Whether a packet was sent.
#[inline(always)]
fn is_sent(outcome: &Outcome) -> bool
    ensures { result ≡ is_sent outcome.now }
{
    matches!(outcome, Outcome::Forward { .. })
}

/// The site, where a packet was sent.
#[inline(always)]
pub(crate) fn site_if_sent(outcome: &Outcome, site: Site) -> Site
    ensures { result ≡ (if is_sent outcome.now then site else nowhere) }
{
    if is_sent(outcome) { site } else { nowhere() }
}

/// The time of a record, where its arrival tells it.
#[inline(always)]
pub(crate) fn time_told(number: u32, packet: Option<&Packet>) -> Option<Arrived>
    ensures { result ≡ time_told number (option_copied packet.entry) }
{
    match packet {
        Some(Packet::Good { at, .. }) => Some(Arrived {
            packet: number,
            at: *at,
        }),
        Some(Packet::Bad(_)) => None,
        None => None,
    }
}

/// The time of a record, where an event tells it.
pub(crate) fn arrived_by(event: &Event, packet: Option<&Packet>) -> Option<Arrived>
    ensures { result ≡ arrived_by event.now (option_copied packet.entry) }
{
    match event {
        Event::Arrive { packet: number, .. } => time_told(*number, packet),
        _ => None,
    }
}

/// The node whose life an event begins.
pub fn begun_by(event: &Event, outcome: &Outcome) -> Option<u16>
    ensures { result ≡ begun_by event.now outcome.now }
{
    match (event, outcome) {
        (Event::Restart { node }, Outcome::Restarted { .. }) => Some(*node),
        _ => None,
    }
}

/// The packet that a worker serves by an event.
pub(crate) fn served_by(event: &Event, outcome: &Outcome) -> Option<Served>
    ensures { result ≡ served_by event.now outcome.now }
{
    match outcome {
        Outcome::Forward {
            node,
            worker,
            packet,
            ..
        } => Some(Served {
            node: *node,
            worker: *worker,
            packet: *packet,
        }),
        Outcome::Dropped { packet, .. } => match event {
            Event::Serve { node, worker, .. } => Some(Served {
                node: *node,
                worker: *worker,
                packet: *packet,
            }),
            _ => None,
        },
        _ => None,
    }
}
