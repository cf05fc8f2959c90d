//! Names that are entered one after the other.
ghost use Rattle.std.specs.Prelude.{◌≡◌, OnOk};
ghost use Rattle.table_entrants.specs.Ranking.{entered};

use crate::entrant::Entrant;
use backend_names::{Name, Weight};
use std::alloc::AllocError;

/// Enters one more name behind some others; its place is how many there are. A list of 2^32 names takes no more.
pub fn enter(entrants: &mut Vec<Entrant>, name: Name, weight: Weight) -> Result<(), AllocError>
    ensures { OnOk result (entrants.new.items ≡ entered entrants.old.items name weight) }
{
    let place = entrants.len();
    if place > u32::MAX as usize {
        return Err(AllocError);
    }
    entrants.push(Entrant {
        name,
        weight,
        place: place as u32,
    })?;
    Ok(())
}
