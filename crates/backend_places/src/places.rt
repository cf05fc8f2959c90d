//! Backends, each at a place that it keeps.
ghost use Rattle.std.specs.Prelude.{◌≡◌, ◌++◌, ◌∷◌, ◌⊎◌, [], true, false, Some, IfOk, IfSome, OnOk, OnErr, slice_get, option_copied};
ghost use Rattle.backend_places.specs.Places.{Keeps};

use backend_names::Name;
use pool_versions::Backend;
use std::alloc::{AllocError, Global};
use std::collections::BTreeMap;
use std::fmt;
use std::marker::Model;

/// How many hints there are: a power of two, so that an address's hint is found by its low bits.
const HINTS: usize = 64;

/// Backends, each at a place, from 0 on in the order in which they came. There are at most 4,294,967,296 of them; one more is
/// refused, as memory is.
#[derive(Drop)]
pub struct Backends {
    all: Vec<Backend>,
    // For the low bits of an address the place that was found last, once there was one. It is compared before it is believed.
    hints: Vec<u32>,
    // Where each was put. Addresses stand in front: mostly they differ, and are compared at once.
    places: BTreeMap<(u32, Name), u32>,
}

impl Model for Backends {
    ghost use Rattle.std.specs.Prelude.{List};
    ghost use Rattle.pool_versions.specs.declared.backend.Backend.{Backend};

    // the backends, that of place 0 in front
    ghost Value = { List Backend };

    ghost view = { λ b. b.all.items };
}

impl fmt::Debug for Backends {
    fn fmt<W: fmt::Write>(&self, f: &mut fmt::Formatter<W>) -> fmt::Result {
        f.debug_struct("Backends")
            .field("len", &self.all.len())
            .finish_non_exhaustive()
    }
}

impl Backends {
    /// No backends. This takes no memory.
    pub fn new(alloc: Global) -> Backends
        ensures { result ≡ [] }
    {
        Backends {
            all: Vec::new(alloc),
            hints: Vec::new(alloc),
            places: BTreeMap::new(alloc),
        }
    }

    /// The backend at a place.
    #[inline(always)]
    pub fn at(&self, place: u32) -> Option<&Backend>
        ensures { option_copied result ≡ slice_get self.now place }
    {
        self.all.get(place as usize)
    }

    /// Whether a place is this backend's.
    #[inline(always)]
    pub fn is_at(&self, place: u32, backend: &Backend) -> bool
        ensures there { result ≡ true → slice_get self.now place ≡ Some backend.now }
        ensures elsewhere { result ≡ false → slice_get self.now place ≡ Some backend.now → ⊥ }
    {
        match self.at(place) {
            None => false,
            Some(there) => *there == *backend,
        }
    }

    // The place at which this backend was put.
    fn find(&self, backend: &Backend) -> Option<u32>
        ensures { IfSome result (λ place. slice_get self.now place ≡ Some backend.now) }
    {
        let place = *self.places.get(&(backend.addr, backend.name))?;
        self.is_at(place, backend).then_some(place)
    }

    // Puts a backend after the others.
    fn push(&mut self, backend: &Backend) -> Result<u32, AllocError>
        ensures place { IfOk result (λ place. slice_get self.new place ≡ Some backend.now) }
        ensures others { Keeps self.old self.new }
        ensures grown { OnOk result (self.new ≡ self.old ++ backend.now ∷ []) }
        ensures refused { OnErr result (self.new ≡ self.old) }
    {
        let Ok(place) = u32::try_from(self.all.len()) else {
            return Err(AllocError);
        };
        let Ok(_) = self.places.insert((backend.addr, backend.name), place) else {
            return Err(AllocError);
        };
        let Ok(()) = self.all.push(*backend) else {
            return Err(AllocError);
        };
        Ok(place)
    }

    // The place of a backend that no hint told.
    fn find_or_push(&mut self, backend: &Backend) -> Result<u32, AllocError>
        ensures place { IfOk result (λ place. slice_get self.new place ≡ Some backend.now) }
        ensures others { Keeps self.old self.new }
        ensures grown { OnOk result ((self.new ≡ self.old) ⊎ (self.new ≡ self.old ++ backend.now ∷ [])) }
        ensures refused { OnErr result (self.new ≡ self.old) }
    {
        match self.find(backend) {
            Some(place) => Ok(place),
            None => self.push(backend),
        }
    }

    // A search for a backend with these low bits of its address begins here. Where memory for the hints is refused there are none.
    fn keep_hint(&mut self, backend: &Backend, place: u32)
        ensures { self.new ≡ self.old }
    {
        if self.hints.is_empty() {
            let _ = self.hints.resize(HINTS, 0);
        }
        if let Some(hint) = self.hints.get_mut(backend.addr as usize % HINTS) {
            *hint = place;
        }
    }

    /// The place of a backend: a new one where it has none. Where memory is refused, the others keep their places too.
    #[inline(always)]
    pub fn place_of(&mut self, backend: &Backend) -> Result<u32, AllocError>
        ensures place { IfOk result (λ place. slice_get self.new place ≡ Some backend.now) }
        ensures others { Keeps self.old self.new }
        ensures grown { OnOk result ((self.new ≡ self.old) ⊎ (self.new ≡ self.old ++ backend.now ∷ [])) }
        ensures refused { OnErr result (self.new ≡ self.old) }
    {
        let hint = self.hints.get(backend.addr as usize % HINTS);
        let told = hint.copied().unwrap_or(0);
        if self.is_at(told, backend) {
            return Ok(told);
        }
        let place = self.find_or_push(backend)?;
        self.keep_hint(backend, place);
        Ok(place)
    }
}
