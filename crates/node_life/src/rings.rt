//! What a life of a node is laid out with, before its threads start. Each worker on which packets may be placed gets a part of
//! the counts, a ring from the driver, a ring to the mux, and a place to read versions.
ghost use Rattle.std.specs.Prelude.{◌≡◌, [], ◌<◌, ◌+◌, length, IfOk, IfErr, OnOk, All};
ghost use Rattle.thread_roles.specs.Faults.{IsRefusal};
ghost use Rattle.thread_roles.specs.declared.fault.RunFault.TheVariants.{ThreadLost};
ghost use Rattle.version_board.specs.Seats.{IsWatcherOf};

use crate::homes::Homes;
use rtrb::{Consumer, RingBuffer};
use selection::Scheme;
use stats_book::Names;
use std::alloc::{AllocError, Global};
use std::fmt;
use std::sync::Wait;
use thread_roles::{Inputs, Outfit, Output, Part, Post, RunFault, Stage, ThreadShares};
use version_board::{Watcher, WordBoard};

/// A list with room for so many, or with none where memory for it is refused: then it grows as they come.
pub(crate) fn roomy<T>(alloc: Global, count: usize) -> Vec<T>
    ensures { result.items ≡ [] }
{
    match Vec::with_capacity(alloc, count) {
        Ok(list) => list,
        Err(_) => Vec::new(alloc),
    }
}

/// What a life is laid out with: what its workers own, the driver's ends of the rings and the mux's ends.
#[derive(Drop)]
pub(crate) struct Laid<'a, S: Scheme, B: Names> {
    /// One for each worker on which packets may be placed, in the order of their numbers.
    pub outfits: Vec<Outfit<'a, S, B>>,
    /// The driver's ends, at the numbers of these workers.
    pub inputs: Inputs,
    /// The mux's ends, one for each of them.
    pub outputs: Vec<Consumer<Output>>,
}

impl<S: Scheme, B: Names> fmt::Debug for Laid<'_, S, B> {
    fn fmt<W: fmt::Write>(&self, f: &mut fmt::Formatter<W>) -> fmt::Result {
        f.debug_struct("Laid")
            .field("inputs", &self.inputs)
            .finish_non_exhaustive()
    }
}

// A worker's seat with a place to read versions, if packets may be placed on the worker. Where that place isn't had its thread
// counts as one that couldn't be started.
fn post_of<'a, S: Scheme, R: Wait + Drop>(
    board: &'a WordBoard,
    stage: &Stage<S, R>,
    seat: Watcher,
    home: bool,
) -> Result<Option<Post<'a, S>>, RunFault>
    requires { IsWatcherOf board.now seat }
    ensures { IfErr result (λ fault. fault ≡ ThreadLost) }
{
    if !home {
        return Ok(None);
    }
    match stage.handle() {
        Ok(reader) => Ok(Some(Post::new(board, seat, reader))),
        Err(_) => Err(RunFault::ThreadLost),
    }
}

/// What the workers see of their driver's versions. Each seat of the board has a place to read, where packets may be placed on its
/// worker. The only faults are Memory, and ThreadLost where a worker has no place to read.
pub(crate) fn post_all<'a, S: Scheme, R: Wait + Drop>(
    alloc: Global,
    board: &'a WordBoard,
    stage: &Stage<S, R>,
    seats: Vec<Watcher>,
    homes: &Homes,
) -> Result<Vec<Option<Post<'a, S>>>, RunFault>
    requires { All (λ w. IsWatcherOf board.now w) seats.items }
    ensures posts { IfOk result (λ v. length v.items ≡ length seats.items) }
    ensures fault { IfErr result (λ fault. IsRefusal fault) }
{
    let mut posts = roomy(alloc, seats.len());
    let mut number = 0u16;
    for seat in seats {
        let post = post_of(board, stage, seat, homes.have(number))?;
        let Ok(()) = posts.push(post) else {
            return Err(RunFault::Memory);
        };
        number = number.wrapping_add(1);
    }
    Ok(posts)
}

impl<'a, S: Scheme, B: Names> Laid<'a, S, B> {
    // Nothing yet for any of so many workers.
    fn empty(alloc: Global, workers: usize) -> Laid<'a, S, B>
        ensures { length result.outfits.items ≡ 0 }
    {
        Laid {
            outfits: roomy(alloc, workers),
            inputs: Inputs {
                rings: roomy(alloc, workers),
            },
            outputs: Vec::new(alloc),
        }
    }

    // One worker more, with its rings, each of so many places.
    fn add(
        &mut self,
        alloc: Global,
        post: Post<'a, S>,
        places: u32,
        part: Part<B>,
        number: u16,
    ) -> Result<(), AllocError>
        ensures { OnOk result (length self.new.outfits.items ≡ length self.old.outfits.items + 1) }
    {
        let (input, ring) = RingBuffer::new(alloc, places as usize)?;
        self.inputs.rings.push(Some(input))?;
        let (out, output) = RingBuffer::new(alloc, places as usize)?;
        self.outputs.push(output)?;
        self.outfits.push(Outfit {
            post,
            ring,
            out,
            part,
            number,
        })?;
        Ok(())
    }
}

/// What the workers of a life own. One that has a post gets a part of the counts and rings, each of so many places, and any other
/// nothing.
pub(crate) fn lay<'a, S: Scheme, B: Names>(
    alloc: Global,
    posts: Vec<Option<Post<'a, S>>>,
    places: u32,
    tally: &mut ThreadShares<B>,
) -> Result<Laid<'a, S, B>, AllocError>
    requires { length posts.items < tally.old.shares.parts }
    ensures parts { IfOk result (λ l. tally.new.shares.parts + length l.outfits.items ≡ tally.old.shares.parts) }
    ensures some { OnOk result (0 < tally.new.shares.parts) }
    ensures same { OnOk result ((tally.new.shares ≡ record tally.old.shares { parts = tally.new.shares.parts }) × (tally.new.lost ≡ tally.old.lost)) }
{
    let mut laid = Laid::empty(alloc, posts.len());
    let mut number = 0u16;
    for post in posts {
        match post {
            Some(post) => laid.add(alloc, post, places, tally.part(), number)?,
            None => laid.inputs.rings.push(None)?,
        }
        number = number.wrapping_add(1);
    }
    Ok(laid)
}
