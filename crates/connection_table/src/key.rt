//! What the hash of a table's flows begins with.
ghost use Rattle.std.specs.Prelude.{◌≡◌};
ghost use Rattle.connection_table.specs.Tied.{flow_hash};

use crate::hasher::KeyedHasher;
use byteorder::{ByteOrder, LittleEndian};
use five_tuple::Flow;
use std::hash::BuildHasher;
use std::random::RandomSource;
use std::{fmt, io};

/// What the hash of a table's flows begins with: two words. A flow's bytes are two words as well. Each meets one word of the
/// key by xor, the two are multiplied, and the halves of the product are joined by xor (as wyhash does). A product by a fixed
/// odd number then spreads the differences. So both operands are secret where the key is drawn.
///
/// Flows that were chosen before the key was drawn fall into a table's buckets as drawn ones do. This was measured, not proved:
/// in many patterns, and in families that were sought for collisions, a search took the same work as among drawn flows. The
/// method isn't proved universal. Two words that meet zero give zero, whatever the others are: one flow's
/// second word in 2^64 does that. It is no cipher: who learns the key, perhaps by timing many searches, can choose flows that
/// collide. No answer of a table depends on the key.
#[derive(Clone, Copy)]
pub struct TableKey {
    seed: KeyedHasher,
}

impl TableKey {
    /// The fixed key: the first 128 bits of the fraction of pi.
    pub fn fixed() -> TableKey {
        let seed = KeyedHasher {
            secret: 0x1319_8a2e_0370_7344,
            state: 0x243f_6a88_85a3_08d3,
        };
        TableKey { seed }
    }

    /// A key that is drawn, of 16 random bytes. The error is the system's.
    pub fn drawn(rt: &impl RandomSource) -> io::Result<TableKey> {
        let mut bytes = [0; 16];
        rt.fill_bytes(&mut bytes)?;
        let seed = KeyedHasher {
            secret: LittleEndian::read_u64(&bytes[8..]),
            state: LittleEndian::read_u64(&bytes),
        };
        Ok(TableKey { seed })
    }

    /// The hash of a flow, whose two halves are joined.
    #[inline(always)]
    pub fn hash_of(&self, flow: &Flow) -> u32
        ensures { result ≡ flow_hash self.now flow.now }
    {
        let hash = self.hash_one(*flow);
        ((hash ^ (hash >> 32)) & 0xFFFF_FFFF) as u32
    }
}

// The key itself isn't shown.
impl fmt::Debug for TableKey {
    fn fmt<W: fmt::Write>(&self, f: &mut fmt::Formatter<W>) -> fmt::Result {
        f.write_str("TableKey(..)")
    }
}

impl BuildHasher for TableKey {
    type Hasher = KeyedHasher;

    ghost build_hasher = { λ key. key.seed };

    #[inline(always)]
    fn build_hasher(&self) -> KeyedHasher {
        self.seed
    }
}
