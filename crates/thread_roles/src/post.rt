//! A seat beside its board, and where versions are shown.
ghost use Rattle.std.specs.Prelude.{◌≡◌, ◌≤◌, ◌<◌, ◌++◌, ◌∷◌, [], ℕ, All, IfOk, IfErr, OnOk, OnErr, MatchResult};
ghost use Rattle.std.specs.Arc.{arc_value};
ghost use Rattle.left_right.specs.Handles.{published};
ghost use Rattle.version_board.specs.Numbers.{newest};
ghost use Rattle.version_board.specs.Seats.{IsPublisherOf, IsWatcherOf, published_by, seen_by};
ghost use Rattle.thread_records.specs.Steps.{MatchStep};
ghost use Rattle.thread_roles.specs.Faults.{IsRefusal};
ghost use Rattle.thread_roles.specs.Shown.{number_of};
ghost use Rattle.thread_roles.specs.declared.fault.RunFault.TheVariants.{Memory};

use crate::fault::RunFault;
use crate::live::{Current, Stage, show};
use cluster_node::Item;
use connection_table::ConnTable;
use left_right::{Absorb, ReadHandle};
use selection::Scheme;
use shared_versions::Shared;
use std::fmt;
use std::marker::Model;
use std::sync::Wait;
use thread_records::{Step, WorkerRecord};
use version_board::{NotNewer, Publisher, VersionBoard, Watcher, WordBoard};

/// A worker's seat beside its board, and its place to read the version that is shown. The seat is the board's by this type,
/// so that a thread that owns it asks nothing. Contracts see a post as the numbers that its seat saw, the first in front.
#[derive(Drop)]
pub struct Post<'a, S: Scheme> {
    board: &'a WordBoard,
    seat: Watcher,
    reader: ReadHandle<Current<S>>,
}

impl<S: Scheme> fmt::Debug for Post<'_, S> {
    fn fmt<W: fmt::Write>(&self, f: &mut fmt::Formatter<W>) -> fmt::Result {
        f.debug_struct("Post").finish_non_exhaustive()
    }
}

impl<'a, S: Scheme> Model for Post<'a, S> {
    ghost use Rattle.std.specs.Prelude.{ℕ, List};
    ghost use Rattle.version_board.specs.Seats.{IsWatcherOf, seen_by};

    ghost Value = { List ℕ };

    ghost view = { λ p. seen_by p.seat };

    ghost invariant = { λ p. IsWatcherOf p.board.now p.seat };
}

impl<'a, S: Scheme> Post<'a, S> {
    /// A seat of the board, with a place to read.
    pub fn new(board: &'a WordBoard, seat: Watcher, reader: ReadHandle<Current<S>>) -> Post<'a, S>
        requires { IsWatcherOf board.now seat }
        ensures { result ≡ seen_by seat }
    {
        Post {
            board,
            seat,
            reader,
        }
    }

    /// Whether the workers were told to halt.
    pub fn heeds(&mut self) -> bool
        ensures { self.new ≡ self.old }
    {
        self.board.heed(&mut self.seat)
    }

    /// Looks at the board, and then handles the packet under the version that is shown, if that bears the number of the board.
    /// Where another one is shown already, the worker is behind. What is shown is read while this call runs and not after it.
    /// So the version that is used is the last that the seat saw, and it saw none above it before. ThreadLost: what is shown
    /// can't be read any more. After an Err nothing was handled.
    pub fn handle<T: ConnTable>(
        &mut self,
        worker: &mut WorkerRecord<S, T>,
        item: &Item,
    ) -> Result<Step, RunFault>
        ensures handled { IfOk result (λ step. MatchStep step
            (λ s. (version : ℕ) × (self.new ≡ self.old ++ version ∷ [])
            × (worker.new.handled ≡ worker.old.handled ++ record { item = item.now; version = version; choice = s.choice; unstored = s.unstored } ∷ []))
            (worker.new ≡ worker.old)) }
        ensures saw { (number : ℕ) × (self.new ≡ self.old ++ number ∷ []) × All (λ n. n ≤ number) self.old }
        ensures err { OnErr result (worker.new ≡ worker.old) }
        ensures fault { IfErr result (λ fault. IsRefusal fault) }
    {
        let number = self.board.look(&mut self.seat);
        let Some(current) = self.reader.enter() else {
            return Err(RunFault::ThreadLost);
        };
        match current.of_number(number) {
            None => Ok(Step::Behind),
            Some(version) => match worker.handle(version, item) {
                Ok(step) => Ok(step),
                Err(_) => Err(RunFault::Memory),
            },
        }
    }
}

/// The publisher's seat beside its board, and where its versions are shown.
#[derive(Drop)]
pub struct Desk<'a, S: Scheme, R: Wait + Drop>
where
    Current<S>: Absorb<Shared<S>>,
{
    board: &'a WordBoard,
    seat: Publisher,
    stage: Stage<S, R>,
    ghost seated: { IsPublisherOf board.now seat },
}

// Puts on the board the number of the version that is shown. One that isn't above the last is refused, and nothing is put.
fn announce<S: Scheme, R: Wait + Drop>(
    board: &WordBoard,
    seat: &mut Publisher,
    stage: &Stage<S, R>,
    number: u32,
) -> Result<(), NotNewer>
    requires seated { IsPublisherOf board.now seat.old }
    requires shown { number_of arc_value (published stage.now).version ≡ number }
    ensures seated { IsPublisherOf board.now seat.new }
    ensures published { MatchResult result (λ _. (newest (published_by seat.old) < number)
        × (published_by seat.new ≡ published_by seat.old ++ number ∷ [])) (λ _. (number ≤ newest (published_by seat.old))
        × (published_by seat.new ≡ published_by seat.old)) }
{
    let _ = stage.has_pending_operations();
    board.publish(seat, number)
}

impl<'a, S: Scheme, R: Wait + Drop> Desk<'a, S, R> {
    /// The board's publisher.
    pub fn new(board: &'a WordBoard, seat: Publisher, stage: Stage<S, R>) -> Desk<'a, S, R>
        requires { IsPublisherOf board.now seat }
        ensures { result.seat ≡ seat }
    {
        Desk { board, seat, stage }
    }

    /// Tells the workers to halt.
    pub fn halt(&mut self)
        ensures { published_by self.new.seat ≡ published_by self.old.seat }
    {
        self.board.halt(&mut self.seat);
    }

    /// Shows a newer version to the workers: first the version, then its number on the board. Of a version above the last one
    /// only Memory is answered, and else Foreign may be. After an Err the board is as it was.
    pub fn publish(&mut self, version: &Shared<S>) -> Result<(), RunFault>
        ensures above { OnOk result (newest (published_by self.old.seat) < (arc_value version.now).number) }
        ensures announced { OnOk result (published_by self.new.seat ≡ published_by self.old.seat ++ (arc_value version.now).number ∷ []) }
        ensures shown { OnOk result (number_of arc_value (published self.new.stage).version ≡ (arc_value version.now).number) }
        ensures newer { newest (published_by self.old.seat) < (arc_value version.now).number → IfErr result (λ fault. fault ≡ Memory) }
        ensures err { OnErr result (published_by self.new.seat ≡ published_by self.old.seat) }
    {
        show(&mut self.stage, version)?;
        match announce(self.board, &mut self.seat, &self.stage, version.number()) {
            Ok(()) => Ok(()),
            Err(_) => Err(RunFault::Foreign),
        }
    }
}
