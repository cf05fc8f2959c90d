//! Who shares a table, and why they can't be put in order.
ghost use Rattle.std.specs.Prelude.{◌≡◌};
ghost use Rattle.table_entrants.specs.declared.entrant.OrderFault.TheVariants.{Memory};

use backend_names::{Name, Weight};
use std::alloc::AllocError;
use thiserror::Error;

/// A name, its weight, and its place among the names as they were given.
#[derive(Clone, Copy, Debug)]
pub struct Entrant {
    pub name: Name,
    pub weight: Weight,
    pub place: u32,
}

/// Why names aren't put in order.
#[derive(Clone, Copy, Debug, PartialEq, Eq, Drop, Error)]
pub enum OrderFault {
    /// A name is there twice.
    #[error("a name is there twice")]
    DoubleName,
    /// Memory was refused.
    #[error("out of memory")]
    Memory,
}

impl From<AllocError> for OrderFault {
    ghost from_gives = { λ _ fault. fault ≡ Memory };

    fn from(_error: AllocError) -> OrderFault {
        OrderFault::Memory
    }
}
