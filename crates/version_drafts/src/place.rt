//! Where a document isn't a scenario's.
use scenario_keys::Key;

/// What is wrong with a table.
#[derive(Clone, Copy, Debug, PartialEq, Eq)]
pub enum Flaw {
    /// It is none.
    NoTable,
    /// It has a key that it may not have.
    Unknown,
    /// The value at this key is missing, or isn't one that it may have.
    Value(Key),
    /// This key of changes is there where none may be.
    Misplaced(Key),
    /// This item, from 0, of the array at this key isn't one that it may have.
    Item(Key, usize),
}

/// Where a document isn't a scenario's.
#[derive(Clone, Copy, Debug, PartialEq, Eq)]
pub enum Place {
    /// In the document's own keys.
    Root(Flaw),
    /// In the version of this place, from 0.
    Version(usize, Flaw),
    /// In the service of the second place, from 0, of the version of the first.
    Service(usize, usize, Flaw),
}
