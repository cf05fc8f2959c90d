//! Why a table isn't filled.
ghost use Rattle.std.specs.Prelude.{◌≡◌};
ghost use Rattle.maglev_ffi.specs.Tables.{number_of};
ghost use Rattle.maglev_ffi.specs.declared.fault.Fault.TheVariants.{Memory};

use std::alloc::AllocError;

/// Why a table isn't filled. They are tested in this order; Memory may come wherever memory is taken.
#[derive(Clone, Copy, Debug, PartialEq, Eq, Drop)]
pub(crate) enum Fault {
    /// No listed size.
    BadSize,
    /// No listed hash.
    BadHash,
    /// Not one place a slot.
    BadRoom,
    /// A line that is no name.
    BadName,
    /// More names than slots.
    TooMany,
    /// Neither no weights nor one from 1 to 16 a name.
    BadWeight,
    /// A name twice.
    DoubleName,
    /// Memory was refused.
    Memory,
}

impl From<AllocError> for Fault {
    ghost from_gives = { λ _ fault. fault ≡ Memory };

    fn from(_error: AllocError) -> Fault {
        Fault::Memory
    }
}

impl Fault {
    /// The number that C sees.
    pub(crate) fn number(self) -> u32
        ensures { result ≡ number_of self }
    {
        match self {
            Fault::BadSize => 1,
            Fault::BadHash => 2,
            Fault::BadRoom => 3,
            Fault::BadName => 4,
            Fault::TooMany => 5,
            Fault::BadWeight => 6,
            Fault::DoubleName => 7,
            Fault::Memory => 8,
        }
    }
}
