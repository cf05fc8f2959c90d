//! The counts of a run.
ghost use Rattle.std.specs.Prelude.{◌≡◌, ◌≤◌, ◌<◌};
ghost use Rattle.cluster_core.specs.OutcomeCounts.{number, at_serving};

use cluster_node::Cause;

/// Totals of a run. The drops with the cause of number k, counted from 1 in the order of `Cause`, are at place k - 1. The
/// last place has how many packets were lost at restarts.
#[derive(Clone, Copy, Debug, PartialEq, Eq)]
pub struct Totals {
    /// Packets that arrived at a node.
    pub received: u64,
    /// Packets that were sent to a backend.
    pub forwarded: u64,
    /// Packets that were not, by cause.
    pub dropped: [u64; 13],
    /// Packets that wait at a worker.
    pub waiting: u64,
    /// Events that were refused.
    pub refused: u64,
}

/// Whether a packet is dropped for this cause when it is served, and not when it arrives.
pub fn at_serving(cause: Cause) -> bool
    ensures { result ≡ at_serving cause }
{
    matches!(cause, Cause::NoService | Cause::NoBackend)
}

/// A cause's number, counted from 1 in the order of [`Cause`].
pub fn number(cause: Cause) -> u8
    ensures number { result ≡ number cause }
    ensures some { 0 < result }
    ensures few { result ≤ 13 }
{
    match cause {
        Cause::NotIpv4 => 1,
        Cause::Truncated => 2,
        Cause::BadHeader => 3,
        Cause::BadChecksum => 4,
        Cause::Fragment => 5,
        Cause::NotTcpUdp => 6,
        Cause::BadTransport => 7,
        Cause::TooLarge => 8,
        Cause::NoService => 9,
        Cause::NoBackend => 10,
        Cause::NoVersion => 11,
        Cause::RingsFull => 12,
        Cause::LostAtRestart => 13,
    }
}
