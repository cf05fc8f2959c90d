//! The keys of a scenario: one table of them, [`Key::rule`], by which a scenario is read and by which its faults are told.
//!
//! A rule has a key's name, the tables and formats that may have it, and what its value may be. The readers of this crate read a
//! key by its rule, and [`Form::words`] says of it what was expected.
#![tactic(auto)]

mod form;
mod formats;
mod key;
mod lookup;
mod names;
mod values;
mod words;

pub use form::{Form, ItemForm};
pub use formats::{Format, format_of};
pub use key::{
    Home, Key, MOST_NODES, MOST_PLACES, MOST_PORT, MOST_STEPS, MOST_VERSION, MOST_WORKERS, Owner,
    Rule,
};
pub use lookup::{items_at, text_at, value_at};
pub use names::{has_only_keys, is_key};
pub use values::{
    address_at, flag, hash_at, number, number_if, protocol_at, scheme_at, size_at, spread_at,
};
pub use words::{SchemeKind, SpreadKind, WordList, protocol_of_word};
