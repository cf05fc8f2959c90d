// A tunnelled datagram is unwrapped.
ghost use Rattle.std.specs.Prelude.{◌≡◌, ◌≤◌, length, Ok, Err, MatchResult};
ghost use Rattle.gre_tunnel.specs.Gre.{has_sum, gre_len, gre_fault, gre_answer, carried};

use super::{GreFault, Inner};
use ip_headers::{ETHERTYPE_IPV4, GRE, header_sum, read_ipv4, u16_at};

// The first word of a GRE header (RFC 2784, 2.1): whether there is a checksum, the bits 1 to 5 over ten others, and the version.
const HAS_SUM: u16 = 0x8000;

const RESERVED: u16 = 0x1f;

const BELOW_RESERVED: u32 = 10;

const VERSION: u16 = 0x07;

fn has_sum(payload: &[u8]) -> bool
    requires { 4 ≤ length payload.now }
    ensures { result ≡ has_sum payload.now }
{
    u16_at(payload, 0) & HAS_SUM != 0
}

fn gre_len(payload: &[u8]) -> usize
    requires { 4 ≤ length payload.now }
    ensures { result ≡ gre_len payload.now }
{
    if has_sum(payload) { 8 } else { 4 }
}

// The first fault of a GRE payload, if it has one.
fn gre_fault(payload: &[u8]) -> Option<GreFault>
    ensures { result ≡ gre_fault payload.now }
{
    if payload.len() < 4 || payload.len() < gre_len(payload) {
        return Some(GreFault::NotGre);
    }
    let first = u16_at(payload, 0);
    if (first >> BELOW_RESERVED) & RESERVED != 0 {
        return Some(GreFault::ReservedBits);
    }
    if first & VERSION != 0 {
        return Some(GreFault::BadVersion);
    }
    if u16_at(payload, 2) != ETHERTYPE_IPV4 {
        return Some(GreFault::BadType);
    }
    if has_sum(payload) && header_sum(payload) != 0 {
        return Some(GreFault::BadGreSum);
    }
    None
}

/// What a tunnelled datagram carries (RFC 2784, 2.1 to 2.6). The outer header is read with its
/// checksum tested; a fragment is NotGre, and bytes after its total length are no part of it. The
/// GRE header's bits 6 to 12 and its second reserved field are ignored.
pub fn unwrap(bytes: &[u8]) -> Result<Inner<'_>, GreFault>
    ensures { MatchResult result (λ inner. gre_answer bytes.now ≡ Ok (carried inner)) (λ fault. gre_answer bytes.now ≡ Err fault) }
{
    let Ok(datagram) = read_ipv4(bytes, true) else {
        return Err(GreFault::NotGre);
    };
    if datagram.proto != GRE {
        return Err(GreFault::NotGre);
    }
    let payload = datagram.payload;
    if let Some(fault) = gre_fault(payload) {
        return Err(fault);
    }
    Ok(Inner {
        node: datagram.src,
        backend: datagram.dst,
        bytes: &payload[gre_len(payload)..],
    })
}
