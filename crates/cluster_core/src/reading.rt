//! Frames as packets.
ghost use Rattle.std.specs.Prelude.{◌≡◌, Some};
ghost use Rattle.ip_headers.specs.Ipv4.{view, ipv4_answer};
ghost use Rattle.five_tuple.specs.Flow.{flow_answer};
ghost use Rattle.cluster_core.specs.Reading.{cause_of, of_flow, of_datagram, packet_read};
ghost use Rattle.cluster_node.specs.Records.{WasRead};

use cluster_node::{Cause, Packet};
use five_tuple::flow_of;
use ip_headers::{IpFault, Ipv4View, Link, read_frame, read_ipv4};

// The longest datagram that can be wrapped in 24 more bytes.
const LONGEST: u16 = 65511;

fn cause_of(fault: IpFault) -> Cause
    ensures { result ≡ cause_of fault }
{
    match fault {
        IpFault::NotIpv4 => Cause::NotIpv4,
        IpFault::Truncated => Cause::Truncated,
        IpFault::BadHeader => Cause::BadHeader,
        IpFault::BadChecksum => Cause::BadChecksum,
        IpFault::Fragment => Cause::Fragment,
        IpFault::NotTcpUdp => Cause::NotTcpUdp,
        IpFault::BadTransport => Cause::BadTransport,
    }
}

#[inline(always)]
fn of_view(datagram: &Ipv4View<'_>, at: u64) -> Packet
    ensures { result ≡ of_flow (view datagram.now).total at (flow_answer (view datagram.now)) }
{
    match flow_of(datagram) {
        Err(fault) => Packet::Bad(cause_of(fault)),
        Ok(flow) => {
            if datagram.total > LONGEST {
                Packet::Bad(Cause::TooLarge)
            } else {
                Packet::Good {
                    flow,
                    len: datagram.total,
                    at,
                }
            }
        }
    }
}

#[inline(always)]
fn of_datagram(bytes: &[u8], at: u64, check: bool) -> Packet
    ensures { result ≡ of_datagram at (ipv4_answer check bytes.now) }
{
    match read_ipv4(bytes, check) {
        Err(fault) => Packet::Bad(cause_of(fault)),
        Ok(datagram) => of_view(&datagram, at),
    }
}

/// A frame of a link, which came at a time in microseconds, as a packet: the flow and the total length of its datagram and
/// that time. Or the first cause for which it can't be balanced (RFC 791, 793, 768). A datagram of more than 65511 bytes is
/// too large to be wrapped. With `check` the header's checksum is tested. No memory is taken.
#[tactic(auto, unfolding(crate::specs::Reading::packet_read), using(crate::proofs::Frames::was_read))]
#[inline(always)]
pub fn read_packet(link: Link, frame: &[u8], at: u64, check: bool) -> Packet
    ensures packet { result ≡ packet_read link frame.now at check }
    ensures cause { WasRead (Some result) }
{
    match read_frame(link, frame) {
        Err(fault) => Packet::Bad(cause_of(fault)),
        Ok(bytes) => of_datagram(bytes, at, check),
    }
}
