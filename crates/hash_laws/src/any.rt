ghost use Rattle.std.specs.Prelude.{◌≡◌};

use super::{FlowHash, Fnv, Sha256Head, SumHash};

/// One of the listed hashes, chosen while the program runs.
#[derive(Clone, Copy, Debug, PartialEq, Eq)]
pub enum AnyHash {
    /// [`Fnv`], by the word `fnv`.
    Fnv,
    /// [`Sha256Head`], by the word `sha256`.
    Sha256,
    /// [`SumHash`], by the word `sum`.
    Sum,
}

impl AnyHash {
    ghost use Rattle.hash_laws.specs.Any.{hash_of_word};

    /// The hash that a word of a command line or a scenario names.
    pub fn of_word(word: &str) -> Option<AnyHash>
        ensures { result ≡ hash_of_word word.now }
    {
        match word {
            "fnv" => Some(AnyHash::Fnv),
            "sha256" => Some(AnyHash::Sha256),
            "sum" => Some(AnyHash::Sum),
            _ => None,
        }
    }
}

impl FlowHash for AnyHash {
    ghost use Rattle.hash_laws.specs.Any.{plain_of};
    ghost use Rattle.hash_laws.specs.contracts.any.AnyHash.{the_type};
    ghost use denote.Enum.Bare.{same_true};
    ghost use Rattle.std.proofs.Common.{ap};

    ghost plain = { plain_of };

    ghost equal_values_hash_alike = { λ x y e message. ap (λ h. plain_of h message) (same_true the_type tt x y e) };

    fn hash(&self, tag: u8, bytes: &[u8]) -> u64 {
        match self {
            AnyHash::Fnv => Fnv.hash(tag, bytes),
            AnyHash::Sha256 => Sha256Head.hash(tag, bytes),
            AnyHash::Sum => SumHash.hash(tag, bytes),
        }
    }
}
