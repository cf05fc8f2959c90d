//! Reads what a table has at its keys, each by its rule.
ghost use Rattle.std.specs.Prelude.{◌≡◌, ◌≤◌, option_and_then, codes, IfOk, IfSome};
ghost use Rattle.toml.specs.View.{table_view};
ghost use Rattle.hash_laws.specs.Any.{hash_of_word};
ghost use Rattle.maglev_texts.specs.Parsing.{address_of};
ghost use Rattle.scenario_keys.specs.Lookups.{number_at, text_at};
ghost use Rattle.scenario_keys.specs.Words.{size_of, scheme_of_word, spread_of_word, protocol_of_word};
ghost use Rattle.scenario_keys.specs.Keys.{number_of, number_if_of, flag_of, lowest, highest, key_name};

use crate::form::Form;
use crate::key::Key;
use crate::lookup::{flag_or, number_at, number_by, number_if as number_if_at, text_at};
use crate::words::{SchemeKind, SpreadKind, protocol_of_word};
use backend_names::TableSize;
use hash_laws::AnyHash;
use maglev_texts::address;
use std::alloc::{AllocError, Global};
use toml::Table;

/// The number at a key of a number.
pub fn number(table: &Table, key: Key) -> Option<u64>
    ensures value { result ≡ number_of key (table_view table.now) }
    ensures range { IfSome result (λ n. (lowest key ≤ n) × (n ≤ highest key)) }
{
    match key.form() {
        Form::Number { low, high, missing } => number_by(table, key.name(), low, high, missing),
        _ => None,
    }
}

/// The number at a key of a number that may be missing.
pub fn number_if(table: &Table, key: Key) -> Option<Option<u64>>
    ensures { result ≡ number_if_of key (table_view table.now) }
{
    match key.form() {
        Form::NumberIf { low, high } => number_if_at(table, key.name(), low, high),
        _ => None,
    }
}

/// The flag at a key of a flag.
pub fn flag(table: &Table, key: Key) -> Option<bool>
    ensures { result ≡ flag_of key (table_view table.now) }
{
    match key.form() {
        Form::Flag { missing } => flag_or(table, key.name(), missing),
        _ => None,
    }
}

/// The slots of a table at a key.
pub(crate) fn size_in(table: &Table, key: &str) -> Option<TableSize>
    ensures { result ≡ option_and_then size_of (number_at 0 65537 key.now (table_view table.now)) }
{
    let slots = number_at(table, key, 0, 65537)?;
    TableSize::new(slots as u32)
}

/// The slots of a table.
pub fn size_at(table: &Table) -> Option<TableSize>
    ensures { result ≡ option_and_then size_of (number_at 0 65537 (codes "size") (table_view table.now)) }
{
    size_in(table, Key::Size.name())
}

/// The hash of names and flows.
pub fn hash_at(table: &Table) -> Option<AnyHash>
    ensures { result ≡ option_and_then hash_of_word (text_at (codes "hash") (table_view table.now)) }
{
    AnyHash::of_word(text_at(table, Key::Hash.name())?)
}

/// How a flow's backend is chosen.
pub fn scheme_at(table: &Table) -> Option<SchemeKind>
    ensures { result ≡ option_and_then scheme_of_word (text_at (codes "scheme") (table_view table.now)) }
{
    SchemeKind::of_word(text_at(table, Key::Scheme.name())?)
}

/// How packets are spread over the nodes.
pub fn spread_at(table: &Table) -> Option<SpreadKind>
    ensures { result ≡ option_and_then spread_of_word (text_at (codes "spread") (table_view table.now)) }
{
    SpreadKind::of_word(text_at(table, Key::Spread.name())?)
}

/// The number of a service's protocol.
pub fn protocol_at(table: &Table) -> Option<u8>
    ensures { result ≡ option_and_then protocol_of_word (text_at (codes "proto") (table_view table.now)) }
{
    protocol_of_word(text_at(table, Key::Proto.name())?)
}

/// The address that the text at a key is.
pub(crate) fn address_in(alloc: Global, table: &Table, key: &str) -> Result<Option<u32>, AllocError>
    ensures { IfOk result (λ o. o ≡ option_and_then address_of (text_at key.now (table_view table.now))) }
{
    match text_at(table, key) {
        Some(text) => address(alloc, text.as_bytes()),
        None => Ok(None),
    }
}

/// The address at a key of an address.
pub fn address_at(alloc: Global, table: &Table, key: Key) -> Result<Option<u32>, AllocError>
    ensures { IfOk result (λ o. o ≡ option_and_then address_of (text_at (key_name key) (table_view table.now))) }
{
    address_in(alloc, table, key.name())
}
