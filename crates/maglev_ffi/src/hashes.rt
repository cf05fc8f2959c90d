//! The hashes by number.
ghost use Rattle.std.specs.Prelude.{◌≡◌};
ghost use Rattle.maglev_ffi.specs.Slots.{hash_of_number};

use hash_laws::AnyHash;

/// The hash of a number: 0 FNV-1a, 1 SHA-256's head, 2 the sum.
pub(crate) fn hash_of(number: u32) -> Option<AnyHash>
    ensures { result ≡ hash_of_number number }
{
    match number {
        0 => Some(AnyHash::Fnv),
        1 => Some(AnyHash::Sha256),
        2 => Some(AnyHash::Sum),
        _ => None,
    }
}
