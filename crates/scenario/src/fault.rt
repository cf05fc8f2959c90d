//! What is wrong with a scenario.
ghost use Rattle.std.specs.Prelude.{◌≡◌};
ghost use Rattle.scenario.specs.declared.fault.ScenarioFault.TheVariants.{Memory};

use pool_versions::PoolFault;
use std::alloc::AllocError;
use thiserror::Error;

/// Why a scenario was refused: the first that holds in this order.
#[derive(Clone, Copy, Debug, PartialEq, Eq, Drop, Error)]
pub enum ScenarioFault {
    /// The text has more than 1,048,576 bytes.
    #[error("the scenario has more than 1,048,576 bytes")]
    TooLong,
    /// The text is no TOML 1.1 document in UTF-8, nests deeper than 80 levels, or holds an integer outside of 64 bits.
    #[error("the scenario isn't a TOML document")]
    BadToml,
    /// The format is missing or none of 1, 2 and 3.
    #[error("the format isn't 1, 2 or 3")]
    BadFormat,
    /// A key is missing or unknown, or its value is of a wrong type, out of range or not a listed word.
    #[error("a key is missing or unknown, or has no value that it may have")]
    BadKey,
    /// A member word isn't one.
    #[error("a member isn't NAME@ADDRESS")]
    BadMember,
    /// The versions, added in order, have this fault. It isn't `PoolFault::Memory`.
    #[error(transparent)]
    Pool(PoolFault),
    /// This step, from 0, isn't one of a scenario that is played so, or says more steps than have room, and all before it do
    /// neither.
    #[error("step {0} isn't a step of this command")]
    BadStep(u32),
    /// Memory was refused.
    #[error("out of memory")]
    Memory,
}

impl From<AllocError> for ScenarioFault {
    ghost from_gives = { λ _ e. e ≡ Memory };

    fn from(_: AllocError) -> ScenarioFault {
        ScenarioFault::Memory
    }
}
