//! What a scheme prepared of some backends, for every version in which they are the up ones, with the same weights.
ghost use Rattle.std.specs.Prelude.{◌≡◌, true, IsTrue, IfOk, IfErr, IfSome, Contains};
ghost use Rattle.std.specs.Arc.{arc_value};
ghost use Rattle.pool_versions.specs.Pool.{AscendsByName};
ghost use Rattle.selection.specs.Shared.{StandsFor, IsPreparedFor, IsLike};
ghost use Rattle.selection.specs.Faults.{IsPrepareFault};
ghost use Rattle.selection.specs.declared.scheme.PrepareFault.TheVariants.{Memory};

use crate::scheme::{PrepareFault, Scheme};
use crate::ups::{Ups, is_same};
use backend_names::TableSize;
use pool_versions::Backend;
use std::alloc::{AllocError, Global};
use std::marker::Model;
use std::sync::Arc;

/// Backends that are up, with their weights, and what a scheme prepared of them.
#[derive(Drop)]
pub(crate) struct Choices<S: Scheme> {
    scheme: S,
    size: TableSize,
    ups: Ups,
    // The cells in which a backend is looked for first, by its address.
    places: Vec<u32>,
    prepared: S::Prepared,
}

impl<S: Scheme> Model for Choices<S> {
    ghost use Rattle.selection.specs.Shared.{Chosen, IsPreparedFor};

    ghost Value = { Chosen S };

    ghost view = { λ a. record { scheme = a.scheme; size = a.size; ups = a.ups } };

    ghost invariant = { λ a. IsPreparedFor (λ c. S.is_prepared a.scheme a.size c a.prepared) a.ups };
}

// By what an address is multiplied: 2^32 by the golden ratio. Addresses at equal distances fall far apart then (Knuth, The Art
// of Computer Programming, 6.4).
const SPREAD: u32 = 0x9E37_79B1;

// What a cell has that is nobody's. No list has a place of this number.
const NOBODY: u32 = u32::MAX;

// How many cells an address has beside its first.
const FURTHER: usize = 4;

// The number's highest bits: a cell of so many, a power of two. It takes no division.
#[inline(always)]
fn highest(number: u32, cells: usize) -> usize {
    let shift = cells.leading_zeros().wrapping_add(1);
    (number as u64).wrapping_shl(32).wrapping_shr(shift) as usize
}

// The cell in which an address is looked for first. Nearly all consecutive addresses have one of their own.
#[inline(always)]
fn first_cell(addr: u32, cells: usize) -> usize {
    highest(addr.wrapping_mul(SPREAD), cells)
}

// The bits of an address, mixed, so that addresses of which many have one first cell fall apart (after MurmurHash3's finish).
#[inline(always)]
fn mixed(addr: u32) -> u32 {
    let bits = (addr ^ (addr >> 16)).wrapping_mul(0x85EB_CA6B);
    let bits = (bits ^ (bits >> 13)).wrapping_mul(0xC2B2_AE35);
    bits ^ (bits >> 16)
}

// One of the further cells of an address: they follow one another.
#[inline(always)]
fn further_cell(addr: u32, cells: usize, nth: usize) -> usize {
    highest(mixed(addr), cells).wrapping_add(nth) & cells.wrapping_sub(1)
}

fn is_free(places: &[u32], cell: usize) -> bool {
    matches!(places.get(cell), Some(&NOBODY))
}

// The cell of an address that is still free, if there is one.
fn free_cell(places: &[u32], addr: u32) -> Option<usize> {
    let first = first_cell(addr, places.len());
    if is_free(places, first) {
        return Some(first);
    }
    for nth in 0..FURTHER {
        let cell = further_cell(addr, places.len(), nth);
        if is_free(places, cell) {
            return Some(cell);
        }
    }
    None
}

// Puts a place into a free cell of its address.
fn expect(places: &mut [u32], addr: u32, place: usize) {
    if let (Some(cell), Ok(place)) = (free_cell(places, addr), u32::try_from(place)) {
        if let Some(held) = places.get_mut(cell) {
            *held = place;
        }
    }
}

// Cells that have the places of backends by their addresses, two to four for each. Nearly all find a cell of their own, and
// consecutive addresses mostly their first one. Nothing rests on them.
fn likely_places(alloc: Global, ups: &[Backend]) -> Result<Vec<u32>, AllocError> {
    let cells = match ups.len() {
        0 => 0,
        count => count.saturating_mul(2).next_power_of_two(),
    };
    let mut places = Vec::new(alloc);
    places.resize_with(cells, || NOBODY)?;
    for (place, backend) in ups.iter().enumerate() {
        expect(places.as_mut_slice(), backend.addr, place);
    }
    Ok(places)
}

// Several owners of what was prepared.
fn shared_by<S: Scheme>(
    alloc: Global,
    scheme: &S,
    size: TableSize,
    ups: Ups,
    prepared: S::Prepared,
) -> Result<Arc<Choices<S>>, PrepareFault>
    requires prepared { IsPreparedFor (λ c. S.is_prepared scheme.now size c prepared) ups }
    ensures ok { IfOk result (λ a. arc_value a ≡ record { scheme = scheme.now; size = size; ups = ups }) }
    ensures err { IfErr result (λ e. e ≡ Memory) }
{
    let places = likely_places(alloc, ups.backends())?;
    let choices = Choices {
        scheme: *scheme,
        size,
        ups,
        places,
        prepared,
    };
    match Arc::new(alloc, choices) {
        Ok(shared) => Ok(shared),
        Err(_) => Err(PrepareFault::Memory),
    }
}

impl<S: Scheme> Choices<S> {
    /// Prepares backends.
    pub(crate) fn make(
        alloc: Global,
        scheme: &S,
        size: TableSize,
        ups: Ups,
    ) -> Result<Arc<Choices<S>>, PrepareFault>
        ensures ok { IfOk result (λ a. StandsFor (λ s z c p. S.is_prepared s z c p) scheme.now size ups (arc_value a)) }
        ensures err { IfErr result (IsPrepareFault size ups.backends) }
    {
        let prepared = scheme.prepare(alloc, size, ups.backends(), ups.weights())?;
        shared_by(alloc, scheme, size, ups, prepared)
    }

    /// The same, with what was prepared of the same names and weights, if this was.
    pub(crate) fn make_like(
        alloc: Global,
        scheme: &S,
        size: TableSize,
        ups: Ups,
        other: &Choices<S>,
    ) -> Result<Arc<Choices<S>>, PrepareFault>
        ensures ok { IfOk result (λ a. StandsFor (λ s z c p. S.is_prepared s z c p) scheme.now size ups (arc_value a)) }
        ensures err { IfErr result (IsPrepareFault size ups.backends) }
    {
        let Some(like) = other.likewise(scheme, size, &ups) else {
            return Self::make(alloc, scheme, size, ups);
        };
        let prepared = scheme.prepare_like(alloc, size, ups.backends(), ups.weights(), like)?;
        shared_by(alloc, scheme, size, ups, prepared)
    }

    // Whether it is for an equal scheme and the size.
    fn is_for(&self, scheme: &S, size: TableSize) -> bool
        ensures size { IsTrue result → self.now.size ≡ size }
        ensures scheme { IsTrue result → S.eq self.now.scheme scheme.now ≡ true }
    {
        self.size.slots() == size.slots() && self.scheme == *scheme
    }

    // What an equal scheme prepared for this size of the same names and weights, if it did here.
    fn likewise(&self, scheme: &S, size: TableSize, ups: &Ups) -> Option<&S::Prepared>
        ensures { IfSome result (λ p. IsLike (λ c. S.is_prepared scheme.now size c p.now) ups.now.backends ups.now.weights) }
    {
        if !self.is_for(scheme, size) || !self.ups.is_like(ups) {
            return None;
        }
        Some(&self.prepared)
    }

    // Whether this is what an equal scheme prepared of these backends, of these weights, for this size.
    fn is_of(&self, scheme: &S, size: TableSize, ups: &Ups) -> bool
        ensures { IsTrue result → StandsFor (λ s z c p. S.is_prepared s z c p) scheme.now size ups.now self.now }
    {
        self.is_for(scheme, size) && self.ups.is(ups)
    }

    /// What an equal scheme prepared of these backends, of these weights, for this size, if this is it.
    pub(crate) fn shared(
        this: &Arc<Choices<S>>,
        scheme: &S,
        size: TableSize,
        ups: &Ups,
    ) -> Option<Arc<Choices<S>>>
        ensures { IfSome result (λ a. StandsFor (λ s z c p. S.is_prepared s z c p) scheme.now size ups.now (arc_value a)) }
    {
        if !this.is_of(scheme, size, ups) {
            return None;
        }
        Arc::try_clone(this).ok()
    }

    /// A number that depends on names and weights alone.
    pub(crate) fn key(&self) -> u64 {
        self.ups.key()
    }

    /// The backends, in ascending byte order of name.
    pub(crate) fn ups(&self) -> &[Backend]
        ensures ups { result.now ≡ self.now.ups.backends }
        ensures ascending { AscendsByName self.now.ups.backends }
    {
        self.ups.backends()
    }

    // Whether a cell has this backend.
    #[inline(always)]
    fn is_in_cell(&self, cell: usize, backend: &Backend) -> bool
        ensures { IsTrue result → Contains self.now.ups.backends backend.now }
    {
        let Some(place) = self.places.get(cell) else {
            return false;
        };
        match self.ups.backends().get(*place as usize) {
            Some(other) => is_same(backend, other),
            None => false,
        }
    }

    // Whether a backend is in one of the further cells of its address. They are filled in their order, so that none comes
    // behind a free one.
    fn is_further(&self, backend: &Backend) -> bool
        ensures { IsTrue result → Contains self.now.ups.backends backend.now }
    {
        let cells = self.places.len();
        for nth in 0..FURTHER {
            let cell = further_cell(backend.addr, cells, nth);
            if self.is_in_cell(cell, backend) {
                return true;
            }
            if is_free(self.places.as_slice(), cell) {
                return false;
            }
        }
        false
    }

    /// Whether a backend is where its address lets expect it. If it isn't, it may be elsewhere.
    #[inline(always)]
    pub(crate) fn is_where_expected(&self, backend: &Backend) -> bool
        ensures { IsTrue result → Contains self.now.ups.backends backend.now }
    {
        let first = first_cell(backend.addr, self.places.len());
        self.is_in_cell(first, backend) || self.is_further(backend)
    }

    /// What the scheme prepared.
    pub(crate) fn prepared(&self) -> &S::Prepared
        ensures { IsPreparedFor (λ c. S.is_prepared self.now.scheme self.now.size c result.now) self.now.ups }
    {
        &self.prepared
    }
}
