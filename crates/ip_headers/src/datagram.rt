// The IPv4 header (RFC 791, 3.1).
ghost use Rattle.std.specs.Prelude.{◌≡◌, ◌≤◌, length, false, Ok, Err, MatchResult};
ghost use Rattle.ip_headers.specs.Sum.{word_sum, folded};
ghost use Rattle.ip_headers.specs.Ipv4.{has, header_len, total_len, header_fault, ipv4_answer, view};

use super::{IpFault, Ipv4View, LEAST_HEADER};
use crate::checksum::folded_sum;
use crate::places::{u16_at, u32_at};

// The bit that more fragments follow, and the fragment offset (RFC 791, 3.1).
const FRAGMENT: u16 = 0x3fff;

fn header_length(bytes: &[u8]) -> usize
    requires { 1 ≤ length bytes.now }
    ensures { result ≡ header_len bytes.now }
{
    usize::from(bytes[0] % 16) * 4
}

fn total_length(bytes: &[u8]) -> usize
    requires { 20 ≤ length bytes.now }
    ensures { result ≡ total_len bytes.now }
{
    usize::from(u16_at(bytes, 2))
}

fn is_not_ipv4(bytes: &[u8]) -> bool
    ensures { result ≡ has false bytes.now IpFault.NotIpv4 }
{
    !bytes.is_empty() && bytes[0] / 16 != 4
}

fn is_truncated(bytes: &[u8]) -> bool
    ensures { result ≡ has false bytes.now IpFault.Truncated }
{
    bytes.len() < LEAST_HEADER
        || bytes.len() < header_length(bytes)
        || bytes.len() < total_length(bytes)
}

fn is_bad_header(bytes: &[u8]) -> bool
    requires { 20 ≤ length bytes.now }
    ensures { result ≡ has false bytes.now IpFault.BadHeader }
{
    header_length(bytes) < LEAST_HEADER || total_length(bytes) < header_length(bytes)
}

// A header without options, as most are, has a branch of its own: there the compiler knows the length
// and needs no loop.
#[inline(always)]
fn header_folded(header: &[u8]) -> u16
    ensures { result ≡ folded (word_sum header.now) }
{
    if header.len() == LEAST_HEADER {
        folded_sum(&header[..LEAST_HEADER])
    } else {
        folded_sum(header)
    }
}

fn is_bad_checksum(bytes: &[u8], check: bool) -> bool
    requires long { 20 ≤ length bytes.now }
    requires header { header_len bytes.now ≤ length bytes.now }
    ensures { result ≡ has check bytes.now IpFault.BadChecksum }
{
    check && header_folded(&bytes[..header_length(bytes)]) != 65535
}

fn is_fragment(bytes: &[u8]) -> bool
    requires { 20 ≤ length bytes.now }
    ensures { result ≡ has false bytes.now IpFault.Fragment }
{
    u16_at(bytes, 6) & FRAGMENT != 0
}

// The first fault of a header, if it has one.
fn header_fault(bytes: &[u8], check: bool) -> Option<IpFault>
    ensures { result ≡ header_fault check bytes.now }
{
    if is_not_ipv4(bytes) {
        return Some(IpFault::NotIpv4);
    }
    if is_truncated(bytes) {
        return Some(IpFault::Truncated);
    }
    if is_bad_header(bytes) {
        return Some(IpFault::BadHeader);
    }
    if is_bad_checksum(bytes, check) {
        return Some(IpFault::BadChecksum);
    }
    if is_fragment(bytes) {
        return Some(IpFault::Fragment);
    }
    None
}

/// Reads the datagram that begins at the first byte. Bytes after its total length are no part of
/// it. The header checksum is tested where `check` holds. Type of service, identification, the
/// don't fragment flag, time to live and options aren't tested.
pub fn read_ipv4(bytes: &[u8], check: bool) -> Result<Ipv4View<'_>, IpFault>
    ensures { MatchResult result (λ v. ipv4_answer check bytes.now ≡ Ok (view v)) (λ fault. ipv4_answer check bytes.now ≡ Err fault) }
{
    if let Some(fault) = header_fault(bytes, check) {
        return Err(fault);
    }
    let header = header_length(bytes);
    let total = total_length(bytes);
    Ok(Ipv4View {
        service: bytes[1],
        total: u16_at(bytes, 2),
        ident: u16_at(bytes, 4),
        flags: u16_at(bytes, 6),
        ttl: bytes[8],
        proto: bytes[9],
        sum: u16_at(bytes, 10),
        src: u32_at(bytes, 12),
        dst: u32_at(bytes, 16),
        options: &bytes[LEAST_HEADER..header],
        payload: &bytes[header..total],
    })
}
