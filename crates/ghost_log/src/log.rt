//! A list that only proofs read.
ghost use Rattle.std.specs.Prelude.{◌≡◌, List, [], ◌∷◌};
ghost use Rattle.std.specs.Borrow.{ftrue};

use std::fmt;
use std::marker::{Model, PhantomData};

/// A list that takes no memory. A clause reads it as `items`, the newest in front.
#[derive(Drop)]
pub struct Log<A> {
    of: PhantomData<A>,
    pub ghost items: { List A },
}

impl<A> fmt::Debug for Log<A> {
    fn fmt<W: fmt::Write>(&self, f: &mut fmt::Formatter<W>) -> fmt::Result {
        f.debug_struct("Log").finish_non_exhaustive()
    }
}

impl<A> Model for Log<A> {
    ghost also_owns = { λ _. ftrue };
}

impl<A> Log<A> {
    /// The empty list.
    pub fn new() -> Log<A>
        ensures { result.items ≡ [] }
    {
        Log { of: PhantomData }
    }

    /// The list with this in front.
    pub fn and(&self, newest: &A) -> Log<A>
        ensures { result.items ≡ newest.now ∷ self.now.items }
    {
        Log { of: PhantomData }
    }
}
