//! Bytes that lie in blocks. None of them moves as more come, but in the first block while that is short.
ghost use Rattle.std.specs.Prelude.{◌≡◌, [], ◌∷◌, ◌++◌, OnOk, OnErr, IfOk};
ghost use Rattle.run_records.specs.Store.{all_blocks, bytes_at, IsPlace, Keeps};

use std::alloc::{AllocError, Global};
use std::mem;

// What a block has room for. What is longer gets a block of its own length.
const BLOCK: usize = 1_048_576;

/// Where bytes begin and end in one of the blocks.
#[derive(Clone, Copy, Debug)]
pub(crate) struct Place {
    block: u32,
    from: u32,
    to: u32,
}

/// The blocks that are full, and the one that takes what comes next.
#[derive(Drop)]
pub(crate) struct ByteBlocks {
    full: Vec<Vec<u8>>,
    open: Vec<u8>,
}

// A number of a place. One that is too large is refused as memory for so much would be.
#[inline(always)]
fn narrow(number: usize) -> Result<u32, AllocError>
    ensures { IfOk result (λ n. n ≡ number) }
{
    match u32::try_from(number) {
        Ok(narrow) => Ok(narrow),
        Err(_) => Err(AllocError),
    }
}

// A block with room for so many bytes, and for a whole block where memory isn't short.
fn fresh_block(alloc: Global, len: usize) -> Result<Vec<u8>, AllocError>
    ensures { IfOk result (λ b. b.items ≡ []) }
{
    match Vec::with_capacity(alloc, BLOCK.max(len)) {
        Ok(block) => Ok(block),
        Err(_) => Vec::with_capacity(alloc, len),
    }
}

// Gives a block room for so many bytes more: twice its room, or no more than is needed where that is refused.
#[inline(always)]
fn widen(block: &mut Vec<u8>, len: usize) -> Result<(), AllocError>
    ensures { block.new.items ≡ block.old.items }
{
    match block.reserve(len) {
        Ok(()) => Ok(()),
        Err(_) => block.reserve_exact(len),
    }
}

impl ByteBlocks {
    /// No bytes. They take no memory yet.
    pub(crate) fn new(alloc: Global) -> ByteBlocks
        ensures { all_blocks result ≡ [] ∷ [] }
    {
        ByteBlocks {
            full: Vec::new(alloc),
            open: Vec::new(alloc),
        }
    }

    // Opens another block for so many bytes.
    fn open_block(&mut self, alloc: Global, len: usize) -> Result<(), AllocError>
        ensures ok { OnOk result (all_blocks self.new ≡ all_blocks self.old ++ [] ∷ []) }
        ensures err { OnErr result (all_blocks self.new ≡ all_blocks self.old) }
    {
        let block = fresh_block(alloc, len)?;
        let full = mem::replace(&mut self.open, block);
        match self.full.push(full) {
            Ok(()) => Ok(()),
            Err(refused) => {
                self.open = refused.value;
                Err(AllocError)
            }
        }
    }

    // Room for so many bytes in the open block, or in another that is opened for them.
    #[inline(always)]
    fn make_room(&mut self, alloc: Global, len: usize) -> Result<(), AllocError>
        ensures { Keeps (all_blocks self.old) (all_blocks self.new) }
    {
        let held = self.open.len();
        if held > 0 && len > BLOCK.saturating_sub(held) {
            return self.open_block(alloc, len);
        }
        widen(&mut self.open, len)
    }

    /// Copies bytes behind the others, and answers where they lie. What is there stays, also where memory is refused.
    #[inline(always)]
    pub(crate) fn push(&mut self, alloc: Global, bytes: &[u8]) -> Result<Place, AllocError>
        ensures keeps { Keeps (all_blocks self.old) (all_blocks self.new) }
        ensures place { IfOk result (λ p. IsPlace (all_blocks self.new) p) }
        ensures bytes { IfOk result (λ p. bytes_at (all_blocks self.new) p ≡ bytes.now) }
    {
        self.make_room(alloc, bytes.len())?;
        let block = narrow(self.full.len())?;
        let from = narrow(self.open.len())?;
        self.open.extend_from_slice(bytes)?;
        let to = narrow(self.open.len())?;
        Ok(Place { block, from, to })
    }

    /// The bytes at a place.
    #[inline(always)]
    pub(crate) fn at(&self, place: Place) -> &[u8]
        requires { IsPlace (all_blocks self.now) place }
        ensures { result.now ≡ bytes_at (all_blocks self.now) place }
    {
        let block = place.block as usize;
        let bytes = if block < self.full.len() {
            self.full[block].as_slice()
        } else {
            self.open.as_slice()
        };
        &bytes[place.from as usize..place.to as usize]
    }
}
