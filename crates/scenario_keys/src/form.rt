//! What the value of a key may be.
use crate::words::WordList;
use std::alloc::{AllocError, Global};

/// What an item of an array may be.
#[derive(Clone, Copy, Debug, PartialEq, Eq)]
pub enum ItemForm {
    /// An IPv4 address.
    Address,
    /// A table.
    Table,
    /// A text.
    Text,
}

/// What the value of a key may be.
#[derive(Clone, Copy, Debug, PartialEq, Eq)]
pub enum Form {
    /// An integer in this range, which is the last one where the key is missing. With none there it may not be missing.
    Number {
        low: u64,
        high: u64,
        missing: Option<u64>,
    },
    /// An integer in this range, or the key is missing.
    NumberIf {
        low: u64,
        high: u64,
    },
    /// The slots of a table.
    Slots,
    /// A flag, which is this one where the key is missing.
    Flag {
        missing: bool,
    },
    /// One of some words.
    Word(WordList),
    /// An IPv4 address as a text.
    Address,
    /// An array of so many items.
    Items {
        of: ItemForm,
        low: usize,
        high: usize,
    },
    /// A table of addresses by name.
    Servers,
}

impl Form {
    /// What is expected at a key of this form, for people.
    pub fn words(self, alloc: Global) -> Result<String, AllocError> {
        match self {
            Form::Number {
                low,
                high,
                missing: _,
            }
            | Form::NumberIf { low, high } => { format!(in alloc; "a number from {low} to {high}") }
            Form::Slots => String::from_str(alloc, "7, 13, 251, 1021, 8191 or 65537"),
            Form::Flag { missing: _ } => String::from_str(alloc, "true or false"),
            Form::Word(list) => String::from_str(alloc, list.words()),
            Form::Address => String::from_str(alloc, "an address, as \"192.0.2.1\""),
            Form::Items { of, low, high } => of.words_of_array(alloc, low, high),
            Form::Servers => String::from_str(alloc, "a table of addresses by name"),
        }
    }
}

impl ItemForm {
    // What is expected of an array of such items.
    fn words_of_array(self, alloc: Global, low: usize, high: usize) -> Result<String, AllocError> {
        let items = match self {
            ItemForm::Address => "addresses",
            ItemForm::Table => "tables",
            ItemForm::Text => "texts",
        };
        if high == usize::MAX {
            format!(in alloc; "an array of {items}")
        } else if low == 0 {
            format!(in alloc; "an array of at most {high} {items}")
        } else {
            format!(in alloc; "an array of {low} to {high} {items}")
        }
    }

    /// What is expected of an item, for people.
    pub fn words(self) -> &'static str {
        match self {
            ItemForm::Address => "an address, as \"10.9.0.1\"",
            ItemForm::Table => "a table",
            ItemForm::Text => "a text",
        }
    }
}
