//! A board whose newest number is a word that one thread stores and others load.
ghost use Rattle.std.specs.Prelude.{◌≡◌, []};
ghost use Rattle.version_board.specs.Numbers.{newest};
ghost use Rattle.version_board.specs.Rule.{publisher, watcher};

use crate::rule::{BoardRule, View};
use atomic_table::{Seat, Table};
use std::alloc::Global;
use std::fmt;

mod steps;

/// The publisher's seat, with the number that it published last.
#[derive(Drop)]
pub struct Publisher {
    last: u32,
    seat: Seat<(), View>,
    ghost publishes: { seat.me ≡ (publisher seat.me.0.numbers seat.me.0.given_back, []) },
    ghost newest: { last ≡ newest seat.me.0.numbers },
}

impl fmt::Debug for Publisher {
    fn fmt<W: fmt::Write>(&self, f: &mut fmt::Formatter<W>) -> fmt::Result {
        f.debug_struct("Publisher")
            .field("last", &self.last)
            .finish_non_exhaustive()
    }
}

/// A worker's seat.
#[derive(Drop)]
pub struct Watcher {
    seat: Seat<(), View>,
    ghost watches: { seat.me ≡ (watcher seat.me.0.numbers, []) },
}

impl fmt::Debug for Watcher {
    fn fmt<W: fmt::Write>(&self, f: &mut fmt::Formatter<W>) -> fmt::Result {
        f.debug_struct("Watcher").finish_non_exhaustive()
    }
}

/// A board of two words. The first is the newest number; the second is 1 where the workers are to halt, and else 0.
#[derive(Drop)]
pub struct WordBoard {
    table: Table<(), View, u32, BoardRule, Global>,
    ghost two: { table.shared.table_id.words ≡ 2 },
    ghost no_slot: { table.shared.table_id.slots ≡ 0 },
}

impl fmt::Debug for WordBoard {
    fn fmt<W: fmt::Write>(&self, f: &mut fmt::Formatter<W>) -> fmt::Result {
        f.debug_struct("WordBoard").finish_non_exhaustive()
    }
}
