//! A slot of a cache.
ghost use Rattle.std.specs.Prelude.{◌≡◌, false};
ghost use Rattle.connection_table.specs.Slots.{before_of, entry_of};

use crate::table::Entry;
use pool_versions::Backend;

/// An entry, or where it is vacant, the place for one.
#[derive(Clone, Copy)]
pub(crate) struct Slot {
    pub(crate) backend: Backend,
    pub(crate) version: u32,
    pub(crate) vacant: bool,
    pub(crate) last: u64,
}

/// The slot of an entry.
#[inline(always)]
pub(crate) fn slot_of(entry: &Entry) -> Slot
    ensures same { entry_of result ≡ entry.now }
    ensures full { result.vacant ≡ false }
{
    Slot {
        backend: entry.backend,
        version: entry.version,
        vacant: false,
        last: entry.last,
    }
}

/// The entry in a slot.
#[inline(always)]
pub(crate) fn entry_in(slot: &Slot) -> Entry
    ensures { result ≡ entry_of slot.now }
{
    Entry {
        backend: slot.backend,
        version: slot.version,
        last: slot.last,
    }
}

/// The entry in a slot, if it isn't vacant.
#[inline(always)]
pub(crate) fn before(slot: &Slot) -> Option<Entry>
    ensures { result ≡ before_of slot.now }
{
    if slot.vacant {
        return None;
    }
    Some(entry_in(slot))
}
