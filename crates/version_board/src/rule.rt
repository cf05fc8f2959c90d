//! The rule of the table under a board, and what its steps tell.
use atomic_table::{Join, Play, Split, TableRule};
use std::collections::LinkedList;
use std::fmt;

/// What a seat knows. No value of it is made.
pub struct View {
    /// The seat is the publisher's.
    pub publishes: bool,
    /// The numbers that it published, or saw.
    pub numbers: LinkedList<u32>,
    /// What the worker's seat saw that was given back last.
    pub given_back: LinkedList<u32>,
}

impl fmt::Debug for View {
    fn fmt<W: fmt::Write>(&self, f: &mut fmt::Formatter<W>) -> fmt::Result {
        f.debug_struct("View").finish_non_exhaustive()
    }
}

/// The publisher's numbers ascend, word 0 is the last of them, and what the workers' seats saw is among them. Word 1 says
/// whether to halt; no seat knows anything of it.
#[derive(Debug)]
pub struct BoardRule;

impl TableRule<(), View, u32> for BoardRule {
    ghost use Rattle.version_board.specs.Rule.{HoldsBoard, publisher};
    ghost use Rattle.std.specs.Prelude.{◌∷◌, []};

    ghost holds = { HoldsBoard };

    ghost first = { λ first. publisher (first ∷ []) [] };
}

/// A number is stored, and is last.
#[derive(Debug)]
pub struct Publishes;

impl Play<(), View> for Publishes {
    ghost use Rattle.version_board.specs.Rule.{Published};

    ghost then = { Published };
}

/// A number is loaded.
#[derive(Debug)]
pub struct Looks;

impl Play<(), View> for Looks {
    ghost use Rattle.version_board.specs.Rule.{Looked};

    ghost then = { Looked };
}

/// The word that says whether to halt is stored or loaded, and the view stays as it is.
#[derive(Debug)]
pub struct Keeps;

impl Play<(), View> for Keeps {
    ghost use Rattle.version_board.specs.Rule.{Unchanged};

    ghost then = { Unchanged };
}

/// The publisher learns that what was given back is among its numbers.
#[derive(Debug)]
pub struct Compares;

impl Play<(), View> for Compares {
    ghost use Rattle.version_board.specs.Rule.{Compared};

    ghost then = { Compared };
}

/// A worker's seat is cut off, which has seen the board's first number.
#[derive(Debug)]
pub struct Seats;

impl Split<View> for Seats {
    ghost use Rattle.version_board.specs.Rule.{newcomer};

    ghost left = { λ v. v };

    ghost right = { newcomer };
}

/// A worker's seat is given back.
#[derive(Debug)]
pub struct GivesBack;

impl Join<View> for GivesBack {
    ghost use Rattle.version_board.specs.Rule.{publisher, watcher};
    ghost use Rattle.std.specs.Prelude.{[]};

    ghost both = { λ v w. publisher v.numbers w.numbers };

    ghost spent = { watcher [] };
}
