//! A list in blocks.
ghost use Rattle.std.specs.Prelude.{◌≡◌, ◌-◌, ◌<◌, ◌≤◌, ◌==◌, ◌↔◌, [], ◌∷◌, ◌++◌, length, slice_index_or, slice_set, IsSome, IfSome, IsOk, OnOk, OnErr};
ghost use Rattle.std.specs.Borrow.{sem};

use crate::growth::{BLOCK, append, grow, room};
use std::alloc::{AllocError, Global};
use std::marker::Model;
use std::ops::{Index, IndexMut};

/// A list of items that stay where they are as it grows. Only the first items, as many as one block holds, are moved a few
/// times, so that a short list takes little memory.
#[derive(Drop)]
pub struct Blocks<T> {
    alloc: Global,
    len: usize,
    // All but the last are full.
    blocks: Vec<Vec<T>>,
}

impl<T> Model for Blocks<T> {
    ghost use Rattle.std.specs.Prelude.{◌≡◌, ◌≤◌, length};
    ghost use Rattle.block_list.specs.Blocks.{Blocks as Items, blocks_code};
    ghost use Rattle.block_list.specs.PrivateBlocks.{items_of, room_of, AreBlocks};
    ghost use Rattle.block_list.specs.declared.growth.TheConstants.{BLOCK, MOST};

    ghost Value = { Items T };

    ghost coded = { blocks_code T.code };

    ghost view = { λ b. record { items = items_of b.blocks.items; room = room_of BLOCK b.blocks.items } };

    ghost invariant = { λ b. (b.len ≡ length (items_of b.blocks.items)) × (length b.blocks.items ≤ MOST) × AreBlocks BLOCK b.blocks.items };
}

impl<T> Blocks<T> {
    /// No items. This takes no memory.
    pub fn new(alloc: Global) -> Blocks<T>
        ensures items { result.items ≡ [] }
        ensures room { result.room ≡ 0 }
    {
        Blocks {
            alloc,
            len: 0,
            blocks: Vec::new(alloc),
        }
    }

    /// How many items there are.
    #[inline(always)]
    pub fn len(&self) -> usize
        ensures { result ≡ length self.now.items }
    {
        self.len
    }

    /// Whether there is no item.
    #[inline(always)]
    pub fn is_empty(&self) -> bool
        ensures { result ≡ (length self.now.items == 0) }
    {
        self.len == 0
    }

    /// The item at an index, where there is one.
    #[inline(always)]
    pub fn get(&self, at: usize) -> Option<&T>
        ensures variant { IsSome result ↔ (at < length self.now.items) }
        ensures value { IfSome result (λ item. item.now ≡ slice_index_or self.now.items at item.now) }
    {
        if at < self.len { Some(&self[at]) } else { None }
    }

    /// Puts an item in the place of another.
    #[inline(always)]
    pub fn set(&mut self, at: usize, item: T)
    where
        T: Drop,
        requires { at < length self.old.items }
        ensures items { self.new.items ≡ slice_set self.old.items at item }
        ensures room { self.new.room ≡ self.old.room }
    {
        let block = &mut self.blocks[at / BLOCK];
        block[at % BLOCK] = item;
    }

    /// Room for one more item. Where memory is refused for more than that, it is asked for one item alone.
    #[inline(always)]
    pub fn reserve(&mut self) -> Result<(), AllocError>
        ensures items { self.new.items ≡ self.old.items }
        ensures ok { OnOk result (0 < self.new.room) }
        ensures succeeds { 0 < self.old.room → IsOk result }
        ensures kept { 0 < self.old.room → self.new ≡ self.old }
    {
        if room(&self.blocks) != 0 {
            return Ok(());
        }
        grow(self.alloc, &mut self.blocks)
    }

    /// One more item, for which there is room.
    #[inline(always)]
    pub fn push_reserved(&mut self, item: T)
        requires { 0 < self.old.room }
        ensures items { self.new.items ≡ self.old.items ++ item ∷ [] }
        ensures room { self.new.room ≡ self.old.room - 1 }
    {
        append(&mut self.blocks, item);
        self.len += 1;
    }
}

impl<T: Drop> Blocks<T> {
    /// One more item. Where memory is refused for it, it is dropped.
    #[inline(always)]
    pub fn push(&mut self, item: T) -> Result<(), AllocError>
        ensures ok { OnOk result (self.new.items ≡ self.old.items ++ item ∷ []) }
        ensures err { OnErr result (self.new.items ≡ self.old.items) }
        ensures succeeds { 0 < self.old.room → IsOk result }
    {
        self.reserve()?;
        self.push_reserved(item);
        Ok(())
    }
}

impl<T> Index<usize> for Blocks<T> {
    type Output = T;

    ghost can_index = { λ b at. at < length b.items };

    ghost index_gives = { λ b at item. item ≡ slice_index_or b.items at item };

    #[inline(always)]
    fn index(&self, at: usize) -> &T {
        &self.blocks[at / BLOCK][at % BLOCK]
    }
}

impl<T> IndexMut<usize> for Blocks<T> {
    ghost use Rattle.block_list.specs.Lends.{lends_item};

    #[inline(always)]
    fn index_mut(&mut self, at: usize) -> &mut T
        requires { at < length self.old.items }
        ensures* writes_back { sem 𝓛 (lends_item T.row self.entry at result) }
        ensures value { result.now ≡ slice_index_or self.old.items at result.now }
    {
        let block = &mut self.blocks[at / BLOCK];
        &mut block[at % BLOCK]
    }
}
