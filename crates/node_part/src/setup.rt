//! What is fixed for a part's run.
ghost use Rattle.std.specs.Prelude.{◌≡◌};
ghost use Rattle.node_part.specs.Parts.{leaves_out};

use std::fmt;

/// What is fixed for the whole run, and the node that is played; none where all nodes are.
#[derive(Drop)]
pub struct PartSetup<S> {
    pub only: Option<u16>,
    pub whole: S,
}

impl<S> fmt::Debug for PartSetup<S> {
    fn fmt<W: fmt::Write>(&self, f: &mut fmt::Formatter<W>) -> fmt::Result {
        f.debug_struct("PartSetup")
            .field("only", &self.only)
            .finish_non_exhaustive()
    }
}

impl<S> PartSetup<S> {
    /// Whether a node's events are left out.
    #[inline(always)]
    pub(crate) fn leaves_out(&self, node: u16) -> bool
        ensures { result ≡ leaves_out self.now.only node }
    {
        match self.only {
            Some(only) => node != only,
            None => false,
        }
    }
}
