// The datagram in a frame.
ghost use Rattle.std.specs.Prelude.{◌≡◌, Ok, Err, MatchResult};
ghost use Rattle.ip_headers.specs.Ipv4.{frame_answer};

use super::{ETHERNET_HEADER, ETHERTYPE_IPV4, IpFault, Link};
use crate::places::u16_at;

/// The bytes of a frame from where its datagram begins: all of them, or those after an Ethernet
/// header. Truncated where that header isn't whole, NotIpv4 where its EtherType isn't 0x0800.
/// Padding after the datagram is still there; [`crate::read_ipv4`] cuts it off.
pub fn read_frame(link: Link, frame: &[u8]) -> Result<&[u8], IpFault>
    ensures { MatchResult result (λ bytes. frame_answer link frame.now ≡ Ok bytes.now) (λ fault. frame_answer link frame.now ≡ Err fault) }
{
    match link {
        Link::Ethernet => {
            if frame.len() < ETHERNET_HEADER {
                return Err(IpFault::Truncated);
            }
            if u16_at(frame, 12) != ETHERTYPE_IPV4 {
                return Err(IpFault::NotIpv4);
            }
            Ok(&frame[ETHERNET_HEADER..])
        }
        Link::RawIp | Link::Ipv4 => Ok(frame),
    }
}
