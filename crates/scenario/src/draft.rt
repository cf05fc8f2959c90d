//! A scenario as its document holds it. All keys are as they should be, but a word may be no member and a text no step.
ghost use Rattle.std.specs.Prelude.{◌≡◌, ◌≤◌, map, length, option_map, string_bytes, IfOk};
ghost use Rattle.std.specs.Result.{result_ok, result_err};
ghost use Rattle.toml.specs.Data.{as_str};
ghost use Rattle.toml.specs.View.{table_view, items_view};
ghost use Rattle.scenario_keys.specs.Lookups.{items_at, all_items};
ghost use Rattle.version_drafts.specs.Places.{item_from, is_text};
ghost use Rattle.scenario.specs.Meaning.{address_in, nodes_of, steps_in, draft_of, draft_in, plain_draft, IsLimited};
ghost use Rattle.scenario.specs.Places.{is_address, nodes_flaw, steps_flaw, at_key, draft_flaw, place_of};

use crate::setup::{Choices, Limits, choices_at, limits_at};
use maglev_texts::address;
use scenario_keys::{Format, Key, MOST_NODES, MOST_STEPS, Owner, has_only_keys, items_at};
use std::alloc::{AllocError, Global};
use toml::{Table, Value};
use version_drafts::{Flaw, Place, VersionDraft, drafts_in};

/// A scenario as its document holds it.
#[derive(Drop)]
pub(crate) struct Draft {
    pub(crate) choices: Choices,
    pub(crate) limits: Limits,
    pub(crate) nodes: Vec<u32>,
    pub(crate) versions: Vec<VersionDraft>,
    pub(crate) steps: Vec<String>,
}

// The addresses that some items are, or the number of the first that is none.
#[tactic(auto, using(scenario_keys::proofs::Views::items_from))]
fn addresses(alloc: Global, values: &[Value]) -> Result<Result<Vec<u32>, usize>, AllocError>
    ensures value { IfOk result (λ r. option_map (λ v. v.items) (result_ok r) ≡ all_items address_in (items_view values.now)) }
    ensures item { IfOk result (λ r. result_err r ≡ item_from is_address 0 (items_view values.now)) }
{
    let mut found: Vec<u32> = Vec::new(alloc);
    for (n, value) in values.iter().enumerate() {
        let Some(text) = value.as_str() else {
            return Ok(Err(n));
        };
        let Some(address) = address(alloc, text.as_bytes())? else {
            return Ok(Err(n));
        };
        found.push(address)?;
    }
    Ok(Ok(found))
}

// The texts that some items are, or the number of the first that is none.
#[tactic(auto, using(scenario_keys::proofs::Views::items_from))]
fn texts(alloc: Global, values: &[Value]) -> Result<Result<Vec<String>, usize>, AllocError>
    ensures value { IfOk result (λ r. option_map (λ v. map string_bytes v.items) (result_ok r) ≡ all_items as_str (items_view values.now)) }
    ensures item { IfOk result (λ r. result_err r ≡ item_from is_text 0 (items_view values.now)) }
{
    let mut found: Vec<String> = Vec::new(alloc);
    for (n, value) in values.iter().enumerate() {
        let Some(text) = value.as_str() else {
            return Ok(Err(n));
        };
        let text = String::from_str(alloc, text)?;
        let Ok(()) = found.push(text) else {
            return Err(AllocError);
        };
    }
    Ok(Ok(found))
}

fn nodes_at(alloc: Global, table: &Table) -> Result<Result<Vec<u32>, Flaw>, AllocError>
    ensures value { IfOk result (λ r. option_map (λ v. v.items) (result_ok r) ≡ nodes_of (table_view table.now)) }
    ensures flaw { IfOk result (λ r. result_err r ≡ nodes_flaw (table_view table.now)) }
    ensures few { IfOk result (λ r. IfOk r (λ v. (1 ≤ length v.items) × (length v.items ≤ 64))) }
{
    let Some(values) = items_at(table, Key::Nodes.name()) else {
        return Ok(Err(Flaw::Value(Key::Nodes)));
    };
    let nodes = match addresses(alloc, values)? {
        Ok(nodes) => nodes,
        Err(n) => return Ok(Err(Flaw::Item(Key::Nodes, n))),
    };
    if nodes.is_empty() || nodes.len() > MOST_NODES {
        return Ok(Err(Flaw::Value(Key::Nodes)));
    }
    Ok(Ok(nodes))
}

fn steps_at(alloc: Global, table: &Table) -> Result<Result<Vec<String>, Flaw>, AllocError>
    ensures value { IfOk result (λ r. option_map (λ v. map string_bytes v.items) (result_ok r) ≡ steps_in (table_view table.now)) }
    ensures flaw { IfOk result (λ r. result_err r ≡ steps_flaw (table_view table.now)) }
    ensures few { IfOk result (λ r. IfOk r (λ v. length v.items ≤ 100000)) }
{
    let Some(values) = items_at(table, Key::Steps.name()) else {
        return Ok(Err(Flaw::Value(Key::Steps)));
    };
    let steps = match texts(alloc, values)? {
        Ok(steps) => steps,
        Err(n) => return Ok(Err(Flaw::Item(Key::Steps, n))),
    };
    if steps.len() > MOST_STEPS {
        return Ok(Err(Flaw::Value(Key::Steps)));
    }
    Ok(Ok(steps))
}

// The place of a key of the document, whose value is missing or isn't one that it may have.
fn at_key(key: Key) -> Place
    ensures { result ≡ at_key key }
{
    Place::Root(Flaw::Value(key))
}

#[tactic(auto, unfolding(crate::specs::Meaning::draft_of, crate::specs::Places::draft_flaw))]
fn read_draft(
    alloc: Global,
    format: Format,
    table: &Table,
) -> Result<Result<Draft, Place>, AllocError>
    ensures value { IfOk result (λ r. option_map plain_draft (result_ok r) ≡ draft_of format (table_view table.now)) }
    ensures place { IfOk result (λ r. result_err r ≡ draft_flaw format (table_view table.now)) }
    ensures limits { IfOk result (λ r. IfOk r IsLimited) }
{
    let choices = match choices_at(table) {
        Ok(choices) => choices,
        Err(key) => return Ok(Err(at_key(key))),
    };
    let limits = match limits_at(table) {
        Ok(limits) => limits,
        Err(key) => return Ok(Err(at_key(key))),
    };
    let nodes = match nodes_at(alloc, table)? {
        Ok(nodes) => nodes,
        Err(flaw) => return Ok(Err(Place::Root(flaw))),
    };
    let versions = match drafts_in(alloc, format, table)? {
        Ok(versions) => versions,
        Err(place) => return Ok(Err(place)),
    };
    let steps = match steps_at(alloc, table)? {
        Ok(steps) => steps,
        Err(flaw) => return Ok(Err(Place::Root(flaw))),
    };
    Ok(Ok(Draft {
        choices,
        limits,
        nodes,
        versions,
        steps,
    }))
}

/// The draft that a document of a format is, or the first place at which a key isn't as it should be.
pub(crate) fn draft_in(
    alloc: Global,
    format: Format,
    table: &Table,
) -> Result<Result<Draft, Place>, AllocError>
    ensures value { IfOk result (λ r. option_map plain_draft (result_ok r) ≡ draft_in format (table_view table.now)) }
    ensures place { IfOk result (λ r. result_err r ≡ place_of format (table_view table.now)) }
    ensures limits { IfOk result (λ r. IfOk r IsLimited) }
{
    if has_only_keys(Owner::Document, format, table) {
        read_draft(alloc, format, table)
    } else {
        Ok(Err(Place::Root(Flaw::Unknown)))
    }
}
