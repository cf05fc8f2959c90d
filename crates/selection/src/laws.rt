//! Which schemes pick without looking at the turn.
ghost use Rattle.std.specs.Prelude.{◌≡◌, true};

use crate::maglev::Maglev;
use crate::plain::PlainHash;
use crate::scheme::Scheme;
use hash_laws::FlowHash;

/// Maglev and plain hashing pick without looking at the turn, so that what is promised of such schemes is promised of them.
pub fn maglev_and_plain_hash_are_steady<H: FlowHash>() -> bool
    ensures { result ≡ true }
{
    Maglev::<H>::STEADY && PlainHash::<H>::STEADY
}
