//! What is kept of an outcome.
use cluster_node::{Cause, Reason};
use five_tuple::Flow;
use std::mem::size_of;

const _: () = prove!(size_of::<Kept>() == 8);

const _: () = prove!(size_of::<Send>() == 32);

/// An outcome, in eight bytes, since fields lie in the order in which they stand here. What doesn't fit stands in another list,
/// at an index.
#[derive(Clone, Copy)]
pub(crate) enum Kept {
    Installed,
    Placed { worker: u16, floor: u32 },
    /// The packet was sent: its send's index.
    Sent(u32),
    Dropped { cause: Cause, packet: u32 },
    /// A new life began: the index of how many packets were waiting.
    Restarted(u32),
    Refused(Reason),
}

/// A packet that was sent, by its backend's place.
#[derive(Clone, Copy)]
pub(crate) struct Send {
    pub(crate) node: u16,
    pub(crate) worker: u16,
    pub(crate) packet: u32,
    pub(crate) flow: Flow,
    pub(crate) place: u32,
    pub(crate) origin: u32,
}
