//! Places in the order of their last use, as a ring of links.
ghost use Rattle.std.specs.Prelude.{◌≡◌, ◌+◌, ◌-◌, ◌^◌, ◌<◌, ◌≤◌, max, [], ◌∷◌, map, length, slice_index, slice_index_or, IsOk, OnOk, OnErr, IfOk, List, ℕ};
ghost use Rattle.std.specs.Prelude.{vec_len, vec_capacity};
ghost use Rattle.std.specs.List.{Contains};
ghost use Rattle.recent_order.specs.Places.{without, ArePlaces};
ghost use Rattle.recent_order.specs.Sides.{no_links, older_of, newer_of, AreLinkedBy};

use std::alloc::{AllocError, Global};
use std::fmt;
use std::marker::Model;

// Both links of a place. They share a line of the cache, so that taking the place out of the ring touches three lines,
// not four.
#[derive(Clone, Copy)]
struct Links {
    // The place that was used next before it, of 0 the newest.
    older: u32,
    // The place that was used next after it, of 0 the oldest.
    newer: u32,
}

/// The places 1 to n in the order of their last use.
///
/// They are a ring of links with a sentinel at index 0, so that a use takes a few stores: no walk, no branch.
#[derive(Drop)]
pub struct RecentOrder {
    // Of each place its links, those of the sentinel in front. Empty, or one longer than there are places.
    links: Vec<Links>,
}

impl Model for RecentOrder {
    ghost use Rattle.std.specs.Prelude.{List, ℕ, map};
    ghost use Rattle.recent_order.specs.Links.{places_of, IsRing};
    ghost use Rattle.recent_order.specs.Sides.{older_of, newer_of};

    ghost Value = { List ℕ };

    ghost view = { λ o. places_of (map older_of o.links.items) };

    ghost invariant = { λ o. IsRing (map older_of o.links.items) (map newer_of o.links.items) (places_of (map older_of o.links.items)) };
}

impl fmt::Debug for RecentOrder {
    fn fmt<W: fmt::Write>(&self, f: &mut fmt::Formatter<W>) -> fmt::Result {
        f.debug_struct("RecentOrder")
            .field("len", &self.len())
            .finish_non_exhaustive()
    }
}

// Takes the place out of the ring, so that its neighbours follow one another.
fn unlink(links: &mut [Links], place: u32)
    requires within { place < length links.old }
    requires before { slice_index (map older_of links.old) place < length links.old }
    requires after { slice_index (map newer_of links.old) place < length links.old }
    ensures { (xs : List ℕ) → AreLinkedBy links.old xs → Contains xs place → AreLinkedBy links.new (without place xs) }
{
    let Links { older, newer } = links[place as usize];
    links[newer as usize].older = older;
    links[older as usize].newer = newer;
}

// Puts a place that isn't in the ring in front, next to the sentinel.
fn link_first(links: &mut [Links], place: u32)
    requires some { 0 < place }
    requires within { place < length links.old }
    requires first { slice_index (map older_of links.old) 0 < length links.old }
    ensures { (xs : List ℕ) → AreLinkedBy links.old xs → (Contains xs place → ⊥) → AreLinkedBy links.new (place ∷ xs) }
{
    let first = links[0].older;
    links[place as usize] = Links {
        older: first,
        newer: 0,
    };
    links[first as usize].newer = place;
    links[0].older = place;
}

// Moves the place to the front of the ring.
fn move_first(links: &mut [Links], place: u32)
    requires some { 0 < place }
    requires within { place < length links.old }
    requires linked { (xs : List ℕ) × AreLinkedBy links.old xs × Contains xs place }
    ensures { (xs : List ℕ) → AreLinkedBy links.old xs → Contains xs place → AreLinkedBy links.new (place ∷ without place xs) }
{
    unlink(links, place);
    link_first(links, place);
}

// Makes the links as many as `size`, for which there is room. The new ones are zeros, which read like what is past the end.
fn extend(links: &mut Vec<Links>, size: usize)
    requires room { size ≤ vec_capacity links.old }
    requires more { vec_len links.old ≤ size }
    ensures len { vec_len links.new ≡ size }
    ensures same { (q : ℕ) → slice_index_or links.new.items q no_links ≡ slice_index_or links.old.items q no_links }
{
    let _ = links.resize(size, Links { older: 0, newer: 0 });
}

// Room for so many more links: for twice as many as there are, or where those are refused for these alone.
fn reserve_links(links: &mut Vec<Links>, more: usize) -> Result<(), AllocError>
    ensures same { links.new.items ≡ links.old.items }
    ensures ok { OnOk result (length links.new.items + more ≤ vec_capacity links.new) }
    ensures succeeds { length links.old.items + more ≤ vec_capacity links.old → IsOk result }
{
    match links.reserve(more) {
        Ok(()) => Ok(()),
        Err(_) => links.reserve_exact(more),
    }
}

// Links for one more place, and for the sentinel where there are none, which read like those past the end.
fn make_place(links: &mut Vec<Links>) -> Result<u32, AllocError>
    requires few { length links.old.items + 1 < 2 ^ 32 }
    ensures place { IfOk result (λ p. p ≡ max (length links.old.items) 1) }
    ensures len { OnOk result (length links.new.items ≡ max (length links.old.items) 1 + 1) }
    ensures same { (q : ℕ) → slice_index_or links.new.items q no_links ≡ slice_index_or links.old.items q no_links }
    ensures err { OnErr result (links.new.items ≡ links.old.items) }
    ensures succeeds { max (length links.old.items) 1 < vec_capacity links.old → IsOk result }
{
    let len = links.len();
    let place = len.max(1);
    reserve_links(links, place + 1 - len)?;
    extend(links, place + 1);
    Ok(place as u32)
}

impl RecentOrder {
    /// No places. It takes no memory.
    pub fn new(alloc: Global) -> RecentOrder
        ensures { result ≡ [] }
    {
        RecentOrder {
            links: Vec::new(alloc),
        }
    }

    /// How many places there are.
    pub fn len(&self) -> usize
        ensures { result ≡ length self.now }
    {
        self.links.len().saturating_sub(1)
    }

    /// The order has the places 1 to n, each once. The clause says so; the body does nothing.
    pub fn are_places(&self)
        ensures { ArePlaces (length self.now) self.now }
    {
        let _ = &self.links;
    }

    /// The place whose last use is longest ago.
    pub fn oldest(&self) -> u32
        requires { 0 < length self.now }
        ensures last { result ≡ slice_index self.now (length self.now - 1) }
        ensures some { 0 < result }
        ensures within { result ≤ length self.now }
    {
        self.links[0].newer
    }

    /// The place was used just now: it becomes the newest, and the others keep their order.
    pub fn promote(&mut self, place: u32)
        requires some { 0 < place }
        requires within { place ≤ length self.old }
        ensures after { self.new ≡ place ∷ without place self.old }
        ensures len { length self.new ≡ length self.old }
    {
        move_first(&mut self.links, place);
    }

    /// One more place, which is the newest. The error is that memory ran out.
    pub fn add(&mut self) -> Result<u32, AllocError>
        requires { length self.old + 2 < 2 ^ 32 }
        ensures place { IfOk result (λ p. p ≡ length self.old + 1) }
        ensures after { OnOk result (self.new ≡ (length self.old + 1) ∷ self.old) }
        ensures err { OnErr result (self.new ≡ self.old) }
    {
        let place = make_place(&mut self.links)?;
        link_first(&mut self.links, place);
        Ok(place)
    }
}
