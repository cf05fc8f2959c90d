//! The changes that a table holds.
ghost use Rattle.std.specs.Prelude.{◌≡◌, ◌++◌, is_some, option_map, IfOk};
ghost use Rattle.std.specs.List.{list_any};
ghost use Rattle.std.specs.Result.{result_ok, result_err};
ghost use Rattle.toml.specs.Data.{get_member};
ghost use Rattle.toml.specs.View.{table_view, items_view};
ghost use Rattle.scenario_keys.specs.Lookups.{all_items};
ghost use Rattle.scenario_keys.specs.Keys.{key_name};
ghost use Rattle.version_drafts.specs.Words.{change_keys};
ghost use Rattle.version_drafts.specs.Reading.{change_word, changes_at, changes_of, has_change_key};
ghost use Rattle.version_drafts.specs.Places.{item_from, is_text, texts_if_flaw, lists_flaw, first_there, misplaced};

use crate::change::Change;
use crate::place::Flaw;
use crate::words::change_in;
use pool_versions::Backend;
use scenario_keys::{Key, value_at};
use std::alloc::{AllocError, Global};
use toml::{Table, Value};

/// The keys of changes, in the order in which changes are made.
pub const CHANGE_KEYS: [Key; 6] = [
    Key::Remove,
    Key::Down,
    Key::Drain,
    Key::Up,
    Key::Weights,
    Key::Add,
];

// The first of some keys that is there.
fn first_there(keys: &[Key], table: &Table) -> Option<Key>
    ensures key { result ≡ first_there keys.now (table_view table.now) }
    ensures there { is_some result ≡ list_any (λ k. is_some (get_member (key_name k) (table_view table.now))) keys.now }
{
    for key in keys {
        if value_at(table, key.name()).is_some() {
            return Some(*key);
        }
    }
    None
}

/// The first key of changes of a table that may have none.
pub(crate) fn misplaced(table: &Table) -> Option<Flaw>
    ensures flaw { result ≡ misplaced (table_view table.now) }
    ensures there { is_some result ≡ has_change_key (table_view table.now) }
{
    Some(Flaw::Misplaced(first_there(&CHANGE_KEYS, table)?))
}

// The changes that some texts are, or the number of the first item that is no text.
#[tactic(auto, using(scenario_keys::proofs::Views::items_from))]
fn read_changes(
    alloc: Global,
    servers: &[Backend],
    key: Key,
    values: &[Value],
) -> Result<Result<Vec<Option<Change>>, usize>, AllocError>
    ensures value { IfOk result (λ r. option_map (λ v. v.items) (result_ok r) ≡ all_items (change_word servers.now key) (items_view values.now)) }
    ensures item { IfOk result (λ r. result_err r ≡ item_from is_text 0 (items_view values.now)) }
{
    let mut found: Vec<Option<Change>> = Vec::new(alloc);
    for (n, value) in values.iter().enumerate() {
        let Some(text) = value.as_str() else {
            return Ok(Err(n));
        };
        found.push(change_in(alloc, servers, key, text.as_bytes())?)?;
    }
    Ok(Ok(found))
}

// The changes at a key, none where it is missing.
fn changes_at(
    alloc: Global,
    servers: &[Backend],
    key: Key,
    table: &Table,
) -> Result<Result<Vec<Option<Change>>, Flaw>, AllocError>
    ensures value { IfOk result (λ r. option_map (λ v. v.items) (result_ok r) ≡ changes_at servers.now key (table_view table.now)) }
    ensures flaw { IfOk result (λ r. result_err r ≡ texts_if_flaw key (table_view table.now)) }
{
    let Some(value) = value_at(table, key.name()) else {
        return Ok(Ok(Vec::new(alloc)));
    };
    let Some(values) = value.as_array() else {
        return Ok(Err(Flaw::Value(key)));
    };
    match read_changes(alloc, servers, key, values.as_slice())? {
        Ok(changes) => Ok(Ok(changes)),
        Err(n) => Ok(Err(Flaw::Item(key, n))),
    }
}

fn add_all(found: &mut Vec<Option<Change>>, more: &[Option<Change>]) -> Result<(), AllocError>
    ensures { IfOk result (λ _. found.new.items ≡ found.old.items ++ more.now) }
{
    for change in more {
        found.push(*change)?;
    }
    Ok(())
}

// The changes at some keys, in the keys' order.
fn changes_of(
    alloc: Global,
    servers: &[Backend],
    keys: &[Key],
    table: &Table,
) -> Result<Result<Vec<Option<Change>>, Flaw>, AllocError>
    ensures value { IfOk result (λ r. option_map (λ v. v.items) (result_ok r) ≡ changes_of servers.now keys.now (table_view table.now)) }
    ensures flaw { IfOk result (λ r. result_err r ≡ lists_flaw keys.now (table_view table.now)) }
{
    let mut found: Vec<Option<Change>> = Vec::new(alloc);
    for key in keys {
        let more = match changes_at(alloc, servers, *key, table)? {
            Ok(more) => more,
            Err(flaw) => return Ok(Err(flaw)),
        };
        add_all(&mut found, more.as_slice())?;
    }
    Ok(Ok(found))
}

/// The changes that a table holds, in the order in which they are made, or what is wrong with the first list that isn't one.
pub(crate) fn changes_in(
    alloc: Global,
    servers: &[Backend],
    table: &Table,
) -> Result<Result<Vec<Option<Change>>, Flaw>, AllocError>
    ensures value { IfOk result (λ r. option_map (λ v. v.items) (result_ok r) ≡ changes_of servers.now change_keys (table_view table.now)) }
    ensures flaw { IfOk result (λ r. result_err r ≡ lists_flaw change_keys (table_view table.now)) }
{
    changes_of(alloc, servers, &CHANGE_KEYS, table)
}
