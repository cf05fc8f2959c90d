//! Versions as a document holds them.
ghost use Rattle.std.specs.Prelude.{◌≡◌, ◌==◌, [], is_none, map, option_map, IfOk};
ghost use Rattle.std.specs.List.{list_any};
ghost use Rattle.std.specs.Result.{result_ok, result_err};
ghost use Rattle.toml.specs.View.{table_view, view, items_view};
ghost use Rattle.scenario_keys.specs.Lookups.{all_items};
ghost use Rattle.scenario_keys.specs.Keys.{number_of, number_if_of};
ghost use Rattle.scenario_keys.specs.declared.key.Key.TheVariants as key;
ghost use Rattle.version_drafts.specs.Drafts.{plain_version_draft, plain_version_drafts};
ghost use Rattle.version_drafts.specs.Reading.{whole_draft, based_draft, version_draft, version_in, is_earlier, are_in_order, versions_with, versions_in};
ghost use Rattle.version_drafts.specs.Places.{whole_flaw, based_flaw, version_draft_flaw, version_flaw, versions_from, first_unordered, flaw_with, pools_flaw};

use crate::changes::{changes_in, misplaced};
use crate::draft::VersionDraft;
use crate::place::{Flaw, Place};
use crate::services::{services_at, services_if};
use crate::words::servers_in;
use pool_versions::Backend;
use scenario_keys::{Format, Key, Owner, has_only_keys, items_at, number, number_if};
use std::alloc::{AllocError, Global};
use toml::{Table, Value};

/// A version that is read: its place in the document, from 0, and its number.
#[derive(Clone, Copy)]
struct Heading {
    place: usize,
    number: u32,
}

fn number_at(table: &Table) -> Option<u32>
    ensures { result ≡ number_of key.Number (table_view table.now) }
{
    Some(number(table, Key::Number)? as u32)
}

// The number of a base, none where the key is missing.
fn base_at(table: &Table) -> Option<Option<u32>>
    ensures { result ≡ number_if_of key.Base (table_view table.now) }
{
    let Some(number) = number_if(table, Key::Base)? else {
        return Some(None);
    };
    Some(Some(number as u32))
}

fn whole_draft(
    alloc: Global,
    format: Format,
    servers: &[Backend],
    heading: Heading,
    table: &Table,
) -> Result<Result<VersionDraft, Place>, AllocError>
    ensures value { IfOk result (λ r. option_map plain_version_draft (result_ok r) ≡ whole_draft format servers.now heading.number (table_view table.now)) }
    ensures place { IfOk result (λ r. result_err r ≡ whole_flaw format heading.place (table_view table.now)) }
{
    if let Some(flaw) = misplaced(table) {
        return Ok(Err(Place::Version(heading.place, flaw)));
    }
    match services_at(alloc, format, servers, heading.place, table)? {
        Ok(services) => Ok(Ok(VersionDraft {
            number: heading.number,
            base: None,
            changes: Vec::new(alloc),
            services,
        })),
        Err(place) => Ok(Err(place)),
    }
}

fn based_draft(
    alloc: Global,
    format: Format,
    servers: &[Backend],
    heading: Heading,
    base: u32,
    table: &Table,
) -> Result<Result<VersionDraft, Place>, AllocError>
    ensures value { IfOk result (λ r. option_map plain_version_draft (result_ok r)
        ≡ based_draft format servers.now heading.number base (table_view table.now)) }
    ensures place { IfOk result (λ r. result_err r ≡ based_flaw format heading.place (table_view table.now)) }
{
    let changes = match changes_in(alloc, servers, table)? {
        Ok(changes) => changes,
        Err(flaw) => return Ok(Err(Place::Version(heading.place, flaw))),
    };
    match services_if(alloc, format, servers, heading.place, table)? {
        Ok(services) => Ok(Ok(VersionDraft {
            number: heading.number,
            base: Some(base),
            changes,
            services,
        })),
        Err(place) => Ok(Err(place)),
    }
}

#[tactic(auto, unfolding(crate::specs::Reading::version_draft, crate::specs::Places::version_draft_flaw))]
fn version_draft_of(
    alloc: Global,
    format: Format,
    servers: &[Backend],
    place: usize,
    table: &Table,
) -> Result<Result<VersionDraft, Place>, AllocError>
    ensures value { IfOk result (λ r. option_map plain_version_draft (result_ok r) ≡ version_draft format servers.now (table_view table.now)) }
    ensures place { IfOk result (λ r. result_err r ≡ version_draft_flaw format place (table_view table.now)) }
{
    let Some(number) = number_at(table) else {
        return Ok(Err(Place::Version(place, Flaw::Value(Key::Number))));
    };
    let heading = Heading { place, number };
    match base_at(table) {
        Some(Some(base)) => based_draft(alloc, format, servers, heading, base, table),
        Some(None) => whole_draft(alloc, format, servers, heading, table),
        None => Ok(Err(Place::Version(place, Flaw::Value(Key::Base)))),
    }
}

fn version_in(
    alloc: Global,
    format: Format,
    servers: &[Backend],
    place: usize,
    value: &Value,
) -> Result<Result<VersionDraft, Place>, AllocError>
    ensures value { IfOk result (λ r. option_map plain_version_draft (result_ok r) ≡ version_in format servers.now (view value.now)) }
    ensures place { IfOk result (λ r. result_err r ≡ version_flaw format place (view value.now)) }
{
    let Some(table) = value.as_table() else {
        return Ok(Err(Place::Version(place, Flaw::NoTable)));
    };
    if has_only_keys(Owner::Version, format, table) {
        version_draft_of(alloc, format, servers, place, table)
    } else {
        Ok(Err(Place::Version(place, Flaw::Unknown)))
    }
}

#[tactic(auto, using(scenario_keys::proofs::Views::items_from))]
fn read_versions(
    alloc: Global,
    format: Format,
    servers: &[Backend],
    values: &[Value],
) -> Result<Result<Vec<VersionDraft>, Place>, AllocError>
    ensures value { IfOk result (λ r. option_map plain_version_drafts (result_ok r) ≡ all_items (version_in format servers.now) (items_view values.now)) }
    ensures place { IfOk result (λ r. result_err r ≡ versions_from format 0 (items_view values.now)) }
{
    let mut found: Vec<VersionDraft> = Vec::new(alloc);
    for (n, value) in values.iter().enumerate() {
        let version = match version_in(alloc, format, servers, n, value)? {
            Ok(version) => version,
            Err(place) => return Ok(Err(place)),
        };
        let Ok(()) = found.push(version) else {
            return Err(AllocError);
        };
    }
    Ok(Ok(found))
}

fn has_number(number: u32, drafts: &[VersionDraft]) -> bool
    ensures { result ≡ list_any (λ d. d.number == number) (map plain_version_draft drafts.now) }
{
    for draft in drafts {
        if draft.number == number {
            return true;
        }
    }
    false
}

// Whether a base is the number of an earlier version.
fn is_earlier(earlier: &[VersionDraft], base: Option<u32>) -> bool
    ensures { result ≡ is_earlier (map plain_version_draft earlier.now) base }
{
    match base {
        Some(number) => has_number(number, earlier),
        None => true,
    }
}

// The first version whose base is no version before it.
fn first_unordered(drafts: &[VersionDraft]) -> Option<usize>
    ensures order { is_none result ≡ are_in_order [] (map plain_version_draft drafts.now) }
    ensures place { result ≡ first_unordered [] 0 (map plain_version_draft drafts.now) }
{
    for (place, draft) in drafts.iter().enumerate() {
        if !is_earlier(&drafts[..place], draft.base) {
            return Some(place);
        }
    }
    None
}

fn versions_with(
    alloc: Global,
    format: Format,
    servers: &[Backend],
    table: &Table,
) -> Result<Result<Vec<VersionDraft>, Place>, AllocError>
    ensures value { IfOk result (λ r. option_map plain_version_drafts (result_ok r) ≡ versions_with format servers.now (table_view table.now)) }
    ensures place { IfOk result (λ r. result_err r ≡ flaw_with format servers.now (table_view table.now)) }
{
    let Some(values) = items_at(table, Key::Versions.name()) else {
        return Ok(Err(Place::Root(Flaw::Value(Key::Versions))));
    };
    let drafts = match read_versions(alloc, format, servers, values)? {
        Ok(drafts) => drafts,
        Err(place) => return Ok(Err(place)),
    };
    match first_unordered(drafts.as_slice()) {
        Some(place) => Ok(Err(Place::Version(place, Flaw::Value(Key::Base)))),
        None => Ok(Ok(drafts)),
    }
}

/// The versions of a document of a format, as it holds them, or the first place at which a key of servers, versions or
/// services isn't as it should be.
pub fn drafts_in(
    alloc: Global,
    format: Format,
    table: &Table,
) -> Result<Result<Vec<VersionDraft>, Place>, AllocError>
    ensures value { IfOk result (λ r. option_map plain_version_drafts (result_ok r) ≡ versions_in format (table_view table.now)) }
    ensures place { IfOk result (λ r. result_err r ≡ pools_flaw format (table_view table.now)) }
{
    match servers_in(alloc, table)? {
        Some(servers) => versions_with(alloc, format, servers.as_slice(), table),
        None => Ok(Err(Place::Root(Flaw::Value(Key::Servers)))),
    }
}
