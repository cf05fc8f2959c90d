// A datagram is wrapped.
ghost use Rattle.std.specs.Prelude.{◌≡◌, ◌<◌, ◌+◌, ◌++◌, ◌⊎◌, ◌↔◌, [], length, Err, IsTrue, IfOk, IfErr, OnOk, OnErr, vec_len, vec_capacity};
ghost use Rattle.ip_headers.specs.Outer.{outer_header};
ghost use Rattle.gre_tunnel.specs.Gre.{joined, wrapped};

use super::GreFault;
use ip_headers::write_outer;
use std::alloc::{AllocError, Global};

const LARGEST_INNER: usize = 65_511;

#[inline(always)]
fn is_too_large(inner: &[u8]) -> bool
    ensures { IsTrue result ↔ 65511 < length inner.now }
{
    inner.len() > LARGEST_INNER
}

// What is before a datagram of so many bytes in a tunnel: the outer header and the GRE header.
#[inline(always)]
fn front(len: u16, node: u32, backend: u32) -> [u8; 24]
    requires { len < 65512 }
    ensures { result ≡ joined (outer_header (24 + len) node backend) [] }
{
    let mut outer = [0u8; 20];
    write_outer(&mut outer, len + 24, node, backend);
    let mut front = [0u8; 24];
    front[..20].copy_from_slice(&outer);
    front[22] = 8;
    front
}

// Both pieces, after what is in `room`, or neither.
#[inline(always)]
fn append_both(room: &mut Vec<u8>, front: &[u8; 24], inner: &[u8]) -> Result<(), AllocError>
    requires { length inner.now < 65512 }
    ensures joined { OnOk result (room.new.items ≡ room.old.items ++ (front.now ++ inner.now)) }
    ensures kept { OnErr result (room.new.items ≡ room.old.items) }
    ensures refused { OnErr result (vec_capacity room.old < vec_len room.old + (24 + length inner.now)) }
{
    room.reserve(inner.len() + 24)?;
    room.extend_from_slice(front)?;
    room.extend_from_slice(inner)?;
    Ok(())
}

/// Puts an outer header from `node` to `backend`, a GRE header (RFC 2784, 2.1) and the datagram
/// after what the room holds. The room grows only where it has less capacity than all its bytes
/// then need. A refusal leaves its bytes as they were: TooLarge where the datagram has more than
/// 65,511 bytes, or else Memory.
#[tactic(auto, unfolding(crate::specs::Gre::wrapped))]
#[inline(always)]
pub fn wrap_onto(inner: &[u8], node: u32, backend: u32, room: &mut Vec<u8>) -> Result<(), GreFault>
    ensures bytes { OnOk result (room.new.items ≡ room.old.items ++ wrapped node backend inner.now) }
    ensures size { OnOk result (length room.new.items ≡ length room.old.items + (24 + length inner.now)) }
    ensures large { (result ≡ Err GreFault.TooLarge) ↔ 65511 < length inner.now }
    ensures refused { IfErr result (λ fault. (fault ≡ GreFault.TooLarge) ⊎ (fault ≡ GreFault.Memory)) }
    ensures untouched { result ≡ Err GreFault.TooLarge → room.new ≡ room.old }
    ensures kept { result ≡ Err GreFault.Memory → room.new.items ≡ room.old.items }
    ensures small { result ≡ Err GreFault.Memory → vec_capacity room.old < vec_len room.old + (24 + length inner.now) }
{
    if is_too_large(inner) {
        return Err(GreFault::TooLarge);
    }
    match append_both(room, &front(inner.len() as u16, node, backend), inner) {
        Ok(()) => Ok(()),
        Err(_) => Err(GreFault::Memory),
    }
}

/// The datagram after an outer header and a GRE header, as `wrap_onto` writes them, in a room that
/// may be used again and again. The room grows only where it has less capacity than the wrapped
/// datagram has bytes. What was in it is gone, but for TooLarge: the datagram has more than 65,511
/// bytes.
pub fn wrap_into(inner: &[u8], node: u32, backend: u32, room: &mut Vec<u8>) -> Result<(), GreFault>
    ensures bytes { OnOk result (room.new.items ≡ wrapped node backend inner.now) }
    ensures size { OnOk result (length room.new.items ≡ 24 + length inner.now) }
    ensures large { (result ≡ Err GreFault.TooLarge) ↔ 65511 < length inner.now }
    ensures refused { IfErr result (λ fault. (fault ≡ GreFault.TooLarge) ⊎ (fault ≡ GreFault.Memory)) }
    ensures untouched { result ≡ Err GreFault.TooLarge → room.new ≡ room.old }
    ensures empty { result ≡ Err GreFault.Memory → room.new.items ≡ [] }
    ensures small { result ≡ Err GreFault.Memory → vec_capacity room.old < 24 + length inner.now }
{
    if is_too_large(inner) {
        return Err(GreFault::TooLarge);
    }
    room.clear();
    wrap_onto(inner, node, backend, room)
}

/// The datagram after an outer header and a GRE header, as `wrap_into` writes them, in memory of
/// its own. One growth is made, of exactly the bytes' number.
pub fn wrap(alloc: Global, inner: &[u8], node: u32, backend: u32) -> Result<Vec<u8>, GreFault>
    ensures bytes { IfOk result (λ v. v.items ≡ wrapped node backend inner.now) }
    ensures size { IfOk result (λ v. length v.items ≡ 24 + length inner.now) }
    ensures large { (result ≡ Err GreFault.TooLarge) ↔ 65511 < length inner.now }
    ensures refused { IfErr result (λ fault. (fault ≡ GreFault.TooLarge) ⊎ (fault ≡ GreFault.Memory)) }
{
    let mut bytes = Vec::new(alloc);
    wrap_into(inner, node, backend, &mut bytes)?;
    Ok(bytes)
}
