//! Places that are found by their hash.
ghost use Rattle.std.specs.Prelude.{◌≡◌, ◌<◌, ◌≤◌, ◌-◌, ◌^◌, ℕ, [], ◌∷◌, ◌++◌, length, slice_index, slice_set, true, false, IfSome, IfNone, OnOk, OnErr};

use crate::groups::{Group, Link, add, find, rehash};
use std::alloc::{AllocError, Global};
use std::fmt;
use std::marker::Model;

/// Places from 1 on, each with a hash, by which it is found.
#[derive(Drop)]
pub struct Buckets {
    alloc: Global,
    // A group for each bucket. There are none, or a power of two.
    groups: Vec<Group>,
    // Of each place, that of place 1 in front.
    links: Vec<Link>,
}

impl Model for Buckets {
    ghost use Rattle.std.specs.Prelude.{ℕ, List, ◌<◌, map, length};
    ghost use Rattle.place_buckets.specs.Groups.{hash_of, AreGrouped};

    // the places' hashes, that of place 1 in front
    ghost Value = { List ℕ };

    ghost view = { λ t. map hash_of t.links.items };

    ghost invariant = { λ t. (0 < length t.links.items → 0 < length t.groups.items) × AreGrouped t.groups.items t.links.items (length t.links.items) };
}

impl fmt::Debug for Buckets {
    fn fmt<W: fmt::Write>(&self, f: &mut fmt::Formatter<W>) -> fmt::Result {
        f.debug_struct("Buckets")
            .field("len", &self.links.len())
            .finish_non_exhaustive()
    }
}

impl Buckets {
    /// No places. This takes no memory.
    pub fn new(alloc: Global) -> Buckets
        ensures { result ≡ [] }
    {
        Buckets {
            alloc,
            groups: Vec::new(alloc),
            links: Vec::new(alloc),
        }
    }

    /// How many places there are.
    pub fn len(&self) -> usize
        ensures { result ≡ length self.now }
    {
        self.links.len()
    }

    /// A place of which `is_sought` holds. It is asked of the places of this hash, and perhaps of some others, until it holds.
    #[inline(always)]
    pub fn find<F: Fn(u32) -> bool>(&self, hash: u32, is_sought: F) -> Option<u32>
        requires callable { (p : ℕ) → 0 < p → p ≤ length self.now → F.pre is_sought p }
        ensures found { IfSome result (λ p. (0 < p) × (p ≤ length self.now) × F.post is_sought p true) }
        ensures absent { IfNone result ((p : ℕ) → 0 < p → p ≤ length self.now → slice_index self.now (p - 1) ≡ hash → F.post is_sought p false) }
    {
        find(
            self.groups.as_slice(),
            self.links.as_slice(),
            hash,
            is_sought,
        )
    }

    /// One more place, with this hash.
    pub fn add(&mut self, hash: u32) -> Result<(), AllocError>
        requires { length self.old < 2 ^ 32 - 1 }
        ensures ok { OnOk result (self.new ≡ self.old ++ hash ∷ []) }
        ensures err { OnErr result (self.new ≡ self.old) }
    {
        add(self.alloc, &mut self.groups, &mut self.links, hash)
    }

    /// Gives a place another hash. This takes no memory.
    pub fn rehash(&mut self, place: u32, hash: u32)
        requires some { 0 < place }
        requires within { place ≤ length self.old }
        ensures { self.new ≡ slice_set self.old (place - 1) hash }
    {
        rehash(
            self.groups.as_mut_slice(),
            self.links.as_mut_slice(),
            place,
            hash,
        );
    }
}
