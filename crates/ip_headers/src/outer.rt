// The outer header of a tunnelled datagram (RFC 791, 3.1; RFC 2784).
ghost use Rattle.std.specs.Prelude.{◌≡◌};
ghost use Rattle.ip_headers.specs.Outer.{outer_header};

use super::GRE;
use crate::checksum::header_sum;
use byteorder::{BigEndian, ByteOrder};

/// Writes the outer header of a datagram that is tunnelled by GRE: 20 bytes, don't fragment, time to
/// live 64, protocol 47, with its checksum. `total` counts the header's own bytes too.
#[inline(always)]
pub fn write_outer(out: &mut [u8; 20], total: u16, src: u32, dst: u32)
    ensures { out.new ≡ outer_header total src dst }
{
    *out = [
        0x45, 0, 0, 0, 0, 0, 0x40, 0, 64, GRE, 0, 0, 0, 0, 0, 0, 0, 0, 0, 0,
    ];
    BigEndian::write_u16(&mut out[2..4], total);
    BigEndian::write_u32(&mut out[12..16], src);
    BigEndian::write_u32(&mut out[16..20], dst);
    let sum = header_sum(out);
    BigEndian::write_u16(&mut out[10..12], sum);
}
