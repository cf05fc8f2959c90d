//! Sends with what is kept beside them.
use crate::sending::Sending;

/// A send, and what is kept beside it.
#[derive(Clone, Copy, Debug, PartialEq, Eq)]
pub struct Noted<T> {
    pub sending: Sending,
    pub beside: T,
}

/// What was kept beside the two sends of a split.
#[derive(Clone, Copy, Debug, PartialEq, Eq)]
pub struct Beside<T> {
    pub first: T,
    pub later: T,
}
