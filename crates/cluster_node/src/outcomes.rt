//! The outcomes of events.
use five_tuple::Flow;
use pool_versions::Backend;

/// Why a packet was dropped.
#[derive(Clone, Copy, Debug, PartialEq, Eq)]
pub enum Cause {
    NotIpv4,
    Truncated,
    BadHeader,
    BadChecksum,
    Fragment,
    NotTcpUdp,
    BadTransport,
    TooLarge,
    NoService,
    NoBackend,
    NoVersion,
    RingsFull,
    LostAtRestart,
}

/// Why an event was refused. A refused event changes nothing.
///
/// An event has the first of these reasons that holds, in the order of its line:
/// - Install: `NoNode`, `UnknownVersion` (by the catalogue), `NotNewer`.
/// - Arrive: `NoNode`, `NoPacket`.
/// - Serve: `NoNode`, `NoWorker`, `Idle`, `UnknownVersion` (never installed), `VersionRange`.
/// - Restart: `NoNode`.
#[derive(Clone, Copy, Debug, PartialEq, Eq)]
pub enum Reason {
    /// There is no such node.
    NoNode,
    /// The node has no such worker.
    NoWorker,
    /// There is no such packet.
    NoPacket,
    /// The catalogue has no such version, or it was never installed on the node.
    UnknownVersion,
    /// The version is not above the node's newest.
    NotNewer,
    /// No packet waits.
    Idle,
    /// The version is below the packet's floor, or below one that the worker used before.
    VersionRange,
}

/// What became of a packet that arrived at a node and was served at once where it was placed.
#[derive(Clone, Copy, Debug, PartialEq, Eq)]
pub enum Passed {
    /// It wasn't placed: the outcome of its arrival.
    Unplaced(Outcome),
    /// It went through: it was placed on a worker, to be served under a version that is not below the floor. The serving had
    /// this outcome.
    Through {
        worker: u16,
        floor: u32,
        outcome: Outcome,
    },
}

/// The outcome of an event.
#[derive(Clone, Copy, Debug, PartialEq, Eq)]
pub enum Outcome {
    /// The version is the node's newest.
    Installed,
    /// The packet waits at a worker, to be served under a version that is not below the floor.
    Placed {
        worker: u16,
        floor: u32,
    },
    /// The packet was sent to a backend, which was chosen under the version `origin`.
    Forward {
        node: u16,
        worker: u16,
        packet: u32,
        flow: Flow,
        backend: Backend,
        origin: u32,
    },
    /// The packet was not sent.
    Dropped {
        packet: u32,
        cause: Cause,
    },
    /// A new life began; so many packets were waiting.
    Restarted {
        lost: u64,
    },
    /// Nothing happened.
    Refused(Reason),
}
