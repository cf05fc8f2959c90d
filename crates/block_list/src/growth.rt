//! Blocks of items, and how they grow.
ghost use Rattle.std.specs.Prelude.{◌≡◌, ◌-◌, ◌<◌, ◌≤◌, [], ◌∷◌, ◌++◌, length, OnOk, vec_capacity};
ghost use Rattle.block_list.specs.PrivateBlocks.{items_of, room_of, AreBlocks, IsOpen, FullStay};

use std::alloc::{AllocError, Global};

/// How many items a block holds. It is a power of two, so that an item is found by a shift and a mask.
pub(crate) const BLOCK: usize = 1024;

/// How many blocks there may be, so that all items can be counted.
pub(crate) const MOST: usize = 1 << 53;

/// How many items the first block has room for at first.
const LEAST: usize = 4;

/// How many more items the last block takes without more memory.
#[inline(always)]
pub(crate) fn room<T>(blocks: &[Vec<T>]) -> usize
    ensures { result ≡ room_of BLOCK blocks.now }
{
    let count = blocks.len();
    if count == 0 {
        return 0;
    }
    let block = &blocks[count - 1];
    block.capacity().min(BLOCK).saturating_sub(block.len())
}

/// Where there is no room for one more item, room for so many, or for that one alone where they are refused.
fn reserve_some<T>(items: &mut Vec<T>, more: usize) -> Result<(), AllocError>
    requires { 0 < more }
    ensures same { items.new.items ≡ items.old.items }
    ensures ok { OnOk result (length items.new.items < vec_capacity items.new) }
{
    if items.len() < items.capacity() {
        return Ok(());
    }
    match items.reserve_exact(more) {
        Ok(()) => Ok(()),
        Err(_) => items.reserve_exact(1),
    }
}

/// A last block that isn't full. A new one takes no memory for items yet.
fn begin<T>(alloc: Global, blocks: &mut Vec<Vec<T>>) -> Result<(), AllocError>
    requires blocks { AreBlocks BLOCK blocks.old.items }
    requires few { length blocks.old.items ≤ MOST }
    ensures blocks { AreBlocks BLOCK blocks.new.items }
    ensures few { length blocks.new.items ≤ MOST }
    ensures items { items_of blocks.new.items ≡ items_of blocks.old.items }
    ensures open { OnOk result (IsOpen BLOCK blocks.new.items) }
    ensures more { length blocks.old.items ≤ length blocks.new.items }
    ensures stay { FullStay BLOCK blocks.old.items blocks.new.items }
{
    let count = blocks.len();
    if count != 0 && blocks[count - 1].len() < BLOCK {
        return Ok(());
    }
    if count == MOST {
        return Err(AllocError);
    }
    reserve_some(blocks, count.max(1))?;
    blocks.push_reserved(Vec::new(alloc));
    Ok(())
}

/// Room for one more item in the last block: the first block doubles, the others are taken whole.
fn widen<T>(blocks: &mut Vec<Vec<T>>) -> Result<(), AllocError>
    requires blocks { AreBlocks BLOCK blocks.old.items }
    requires open { IsOpen BLOCK blocks.old.items }
    ensures blocks { AreBlocks BLOCK blocks.new.items }
    ensures count { length blocks.new.items ≡ length blocks.old.items }
    ensures items { items_of blocks.new.items ≡ items_of blocks.old.items }
    ensures ok { OnOk result (0 < room_of BLOCK blocks.new.items) }
    ensures stay { FullStay BLOCK blocks.old.items blocks.new.items }
{
    let count = blocks.len();
    let block = &mut blocks[count - 1];
    let rest = BLOCK - block.len();
    let more = if count == 1 {
        block.len().max(LEAST).min(rest)
    } else {
        rest
    };
    reserve_some(block, more)
}

/// Room for one more item, where there is none.
#[cold]
#[inline(never)]
pub(crate) fn grow<T>(alloc: Global, blocks: &mut Vec<Vec<T>>) -> Result<(), AllocError>
    requires blocks { AreBlocks BLOCK blocks.old.items }
    requires few { length blocks.old.items ≤ MOST }
    ensures blocks { AreBlocks BLOCK blocks.new.items }
    ensures few { length blocks.new.items ≤ MOST }
    ensures items { items_of blocks.new.items ≡ items_of blocks.old.items }
    ensures ok { OnOk result (0 < room_of BLOCK blocks.new.items) }
    ensures stay { FullStay BLOCK blocks.old.items blocks.new.items }
{
    begin(alloc, blocks)?;
    widen(blocks)
}

/// Puts an item behind the others, for which there is room.
#[inline(always)]
pub(crate) fn append<T>(blocks: &mut Vec<Vec<T>>, item: T)
    requires blocks { AreBlocks BLOCK blocks.old.items }
    requires room { 0 < room_of BLOCK blocks.old.items }
    ensures blocks { AreBlocks BLOCK blocks.new.items }
    ensures count { length blocks.new.items ≡ length blocks.old.items }
    ensures items { items_of blocks.new.items ≡ items_of blocks.old.items ++ item ∷ [] }
    ensures room { room_of BLOCK blocks.new.items ≡ room_of BLOCK blocks.old.items - 1 }
    ensures stay { FullStay BLOCK blocks.old.items blocks.new.items }
{
    let last = blocks.len() - 1;
    let block = &mut blocks[last];
    block.push_reserved(item);
}
