//! How many connections changed their server.
ghost use Rattle.std.specs.Prelude.{◌≡◌, ◌*◌, nat_lt};

use crate::share::Share;

/// How many connections there were, and how many of them changed their server.
#[derive(Clone, Copy, Debug, PartialEq, Eq)]
pub struct ChangeCounts {
    pub connections: u64,
    pub changed: u64,
}

impl ChangeCounts {
    /// Whether a greater part of the connections changed their server than this share. It isn't where none changed.
    pub fn is_above(self, share: Share) -> bool
        ensures { result ≡ nat_lt (share * self.connections) (self.changed * 1000000) }
    {
        let allowed = u128::from(share.parts()) * u128::from(self.connections);
        allowed < u128::from(self.changed) * 1_000_000
    }
}
