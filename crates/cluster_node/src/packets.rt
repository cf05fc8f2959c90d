//! What is known of a packet.
use crate::outcomes::Cause;
use five_tuple::Flow;

/// A packet as it was read.
#[derive(Clone, Copy, Debug, PartialEq, Eq)]
pub enum Packet {
    /// A datagram of a flow, of so many bytes (its total length, RFC 791), that came at a time in microseconds.
    Good { flow: Flow, len: u16, at: u64 },
    /// Not a datagram that can be balanced, for a cause that reading has: NotIpv4 to TooLarge.
    Bad(Cause),
}
