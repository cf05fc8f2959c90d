// The ports of a TCP or UDP header (RFC 793, 3.1; RFC 768).
ghost use Rattle.std.specs.Prelude.{◌≡◌};
ghost use Rattle.ip_headers.specs.Ipv4.{is_bad_tcp, is_bad_udp, ports_answer};

use super::{IpFault, Ipv4View, Ports, TCP, UDP};
use crate::places::u16_at;

fn is_bad_tcp(payload: &[u8]) -> bool
    ensures { result ≡ is_bad_tcp payload.now }
{
    if payload.len() < 20 {
        return true;
    }
    let offset = payload[12] / 16;
    offset < 5 || payload.len() < usize::from(offset) * 4
}

fn is_bad_udp(payload: &[u8]) -> bool
    ensures { result ≡ is_bad_udp payload.now }
{
    if payload.len() < 8 {
        return true;
    }
    let len = usize::from(u16_at(payload, 4));
    len < 8 || payload.len() < len
}

/// The ports of a datagram that carries TCP or UDP. A UDP length below the payload's is accepted;
/// checksums aren't tested.
pub fn read_ports(datagram: &Ipv4View<'_>) -> Result<Ports, IpFault>
    ensures { result ≡ ports_answer datagram.now.proto datagram.now.payload.now }
{
    let payload = datagram.payload;
    let is_bad = match datagram.proto {
        TCP => is_bad_tcp(payload),
        UDP => is_bad_udp(payload),
        _ => return Err(IpFault::NotTcpUdp),
    };
    if is_bad {
        return Err(IpFault::BadTransport);
    }
    Ok(Ports {
        sport: u16_at(payload, 0),
        dport: u16_at(payload, 2),
    })
}
