//! One ledger for each count.
ghost use Rattle.std.specs.Prelude.{ℕ};

use std::fmt;
use std::marker::{Brand, PhantomData};
use std::sync::ledger::Ledger;

/// The names of the ledgers of a book, and into how many parts the shares of each are cut.
///
/// A function that opens a book is written over `B: Names` and takes the blanks. It is called with `Brand` for `B`, and that
/// call's proof picks the names and the parts from the blanks.
pub trait Names {
    ghost names: { ℕ → ℕ };

    ghost parts: { ℕ };
}

impl Names for Brand {
    ghost names = { λ n. n };

    ghost parts = { 0 };
}

/// The ledger of the count at place `N`: what was received, what was forwarded, and the drops in the order of `Cause`.
pub struct Of<B: Names, const N: usize> {
    marker: PhantomData<B>,
}

impl<B: Names, const N: usize> fmt::Debug for Of<B, N> {
    fn fmt<W: fmt::Write>(&self, f: &mut fmt::Formatter<W>) -> fmt::Result {
        f.debug_struct("Of").finish_non_exhaustive()
    }
}

impl<B: Names, const N: usize> Ledger for Of<B, N> {
    ghost name = { B.names N };

    ghost parts = { B.parts };
}
