//! What is wrong with drafts of versions.
ghost use Rattle.std.specs.Prelude.{◌≡◌};
ghost use Rattle.scenario_pools.specs.declared.fault.PoolsFault.TheVariants.{Memory};

use crate::bad_words::BadWord;
use std::alloc::AllocError;
use thiserror::Error;

/// The fault of drafts of versions: that of the first that has one.
#[derive(Clone, Copy, Debug, PartialEq, Eq, Drop, Error)]
pub enum PoolsFault {
    /// A word is no member, name or weight, or names a server that isn't there.
    #[error("a member isn't one, or isn't there")]
    BadMember,
    /// Versions written out have more than 1,048,576 services and members.
    #[error("the versions, written out, are too large")]
    TooMany,
    /// Memory was refused.
    #[error("out of memory")]
    Memory,
}

impl From<AllocError> for PoolsFault {
    ghost from_gives = { λ _ e. e ≡ Memory };

    fn from(_: AllocError) -> PoolsFault {
        PoolsFault::Memory
    }
}

/// Why drafts of versions were refused.
#[derive(Clone, Copy, Debug, PartialEq, Eq)]
pub struct Unwritten {
    /// The fault of the first draft that has one.
    pub fault: PoolsFault,
    /// The word for which it is refused, and the number of its version, from 0. None where the fault is another than BadMember.
    pub word: Option<(usize, BadWord)>,
}
