//! What is kept of a packet that was handled.
use cluster_node::Item;
use std::mem::size_of;

const _: () = prove!(size_of::<Kept>() == 48);

/// A packet that was handled, in 48 bytes, since fields lie in the order in which they stand here.
#[derive(Clone, Copy)]
pub(crate) struct Kept {
    pub(crate) item: Item,
    pub(crate) version: u32,
    pub(crate) choice: KeptChoice,
}

/// Where a packet went, in twelve bytes, and whether a new entry was due and none was made.
#[derive(Clone, Copy)]
pub(crate) enum KeptChoice {
    /// To the backend of this place.
    Known {
        unstored: bool,
        place: u32,
        origin: u32,
    },
    /// To a backend that got no place: its index among those.
    Stranger {
        unstored: bool,
        index: u32,
        origin: u32,
    },
    NoService {
        unstored: bool,
    },
    NoBackend {
        unstored: bool,
    },
}
