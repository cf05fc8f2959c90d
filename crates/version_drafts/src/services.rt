//! Services as a document holds them.
ghost use Rattle.std.specs.Prelude.{◌≡◌, option_map, IfOk};
ghost use Rattle.std.specs.Result.{result_ok, result_err};
ghost use Rattle.toml.specs.Data.{get_member};
ghost use Rattle.toml.specs.View.{table_view, view, items_view};
ghost use Rattle.scenario_keys.specs.Lookups.{all_items};
ghost use Rattle.scenario_keys.specs.Keys.{key_name, number_of};
ghost use Rattle.scenario_keys.specs.declared.key.Key.TheVariants as key;
ghost use Rattle.version_drafts.specs.Words.{change_keys};
ghost use Rattle.version_drafts.specs.Drafts.{plain_service_draft, plain_service_drafts};
ghost use Rattle.version_drafts.specs.Reading.{word_of, of_changes, changes_of, members_in, parts_of, plain_parts, service_draft, service_in, services_at};
ghost use Rattle.version_drafts.specs.Reading.{services_if};
ghost use Rattle.version_drafts.specs.Places.{item_from, is_text, texts_flaw, lists_flaw, parts_flaw, service_draft_flaw, service_flaw, services_from};
ghost use Rattle.version_drafts.specs.Places.{services_flaw, services_if_flaw};

use crate::change::Change;
use crate::changes::{changes_in, misplaced};
use crate::draft::ServiceDraft;
use crate::place::{Flaw, Place};
use crate::words::member_in;
use pool_versions::{Backend, Member};
use scenario_keys::{
    Format, Key, Owner, address_at, has_only_keys, items_at, number, protocol_at, value_at,
};
use std::alloc::{AllocError, Global};
use toml::{Table, Value};

/// What a service has: members, or changes.
#[derive(Drop)]
pub(crate) struct Parts {
    pub(crate) members: Option<Vec<Option<Member>>>,
    pub(crate) changes: Vec<Option<Change>>,
}

// The members that some texts are, or the number of the first item that is no text.
#[tactic(auto, using(scenario_keys::proofs::Views::items_from))]
fn read_words(
    alloc: Global,
    format: Format,
    servers: &[Backend],
    values: &[Value],
) -> Result<Result<Vec<Option<Member>>, usize>, AllocError>
    ensures value { IfOk result (λ r. option_map (λ v. v.items) (result_ok r) ≡ all_items (word_of format servers.now) (items_view values.now)) }
    ensures item { IfOk result (λ r. result_err r ≡ item_from is_text 0 (items_view values.now)) }
{
    let mut found: Vec<Option<Member>> = Vec::new(alloc);
    for (n, value) in values.iter().enumerate() {
        let Some(text) = value.as_str() else {
            return Ok(Err(n));
        };
        found.push(member_in(alloc, format, servers, text.as_bytes())?)?;
    }
    Ok(Ok(found))
}

fn members_in(
    alloc: Global,
    format: Format,
    servers: &[Backend],
    value: &Value,
) -> Result<Result<Parts, Flaw>, AllocError>
    ensures value { IfOk result (λ r. option_map plain_parts (result_ok r) ≡ members_in format servers.now (view value.now)) }
    ensures flaw { IfOk result (λ r. result_err r ≡ texts_flaw key.Members (view value.now)) }
{
    let Some(values) = value.as_array() else {
        return Ok(Err(Flaw::Value(Key::Members)));
    };
    match read_words(alloc, format, servers, values.as_slice())? {
        Ok(words) => Ok(Ok(Parts {
            members: Some(words),
            changes: Vec::new(alloc),
        })),
        Err(n) => Ok(Err(Flaw::Item(Key::Members, n))),
    }
}

fn changed_parts(
    alloc: Global,
    servers: &[Backend],
    table: &Table,
) -> Result<Result<Parts, Flaw>, AllocError>
    ensures value { IfOk result (λ r. option_map plain_parts (result_ok r)
        ≡ option_map of_changes (changes_of servers.now change_keys (table_view table.now))) }
    ensures flaw { IfOk result (λ r. result_err r ≡ lists_flaw change_keys (table_view table.now)) }
{
    match changes_in(alloc, servers, table)? {
        Ok(changes) => Ok(Ok(Parts {
            members: None,
            changes,
        })),
        Err(flaw) => Ok(Err(flaw)),
    }
}

fn parts_of(
    alloc: Global,
    format: Format,
    servers: &[Backend],
    based: bool,
    table: &Table,
) -> Result<Result<Parts, Flaw>, AllocError>
    ensures value { IfOk result (λ r. option_map plain_parts (result_ok r) ≡ parts_of format servers.now based (table_view table.now)) }
    ensures flaw { IfOk result (λ r. result_err r ≡ parts_flaw based (table_view table.now) (get_member (key_name key.Members) (table_view table.now))) }
{
    match value_at(table, Key::Members.name()) {
        Some(value) => match misplaced(table) {
            Some(flaw) => Ok(Err(flaw)),
            None => members_in(alloc, format, servers, value),
        },
        None => {
            if based {
                return changed_parts(alloc, servers, table);
            }
            match misplaced(table) {
                Some(flaw) => Ok(Err(flaw)),
                None => Ok(Err(Flaw::Value(Key::Members))),
            }
        }
    }
}

#[tactic(auto, unfolding(crate::specs::Reading::service_draft, crate::specs::Places::service_draft_flaw))]
fn service_draft_of(
    alloc: Global,
    format: Format,
    servers: &[Backend],
    based: bool,
    table: &Table,
) -> Result<Result<ServiceDraft, Flaw>, AllocError>
    ensures value { IfOk result (λ r. option_map plain_service_draft (result_ok r) ≡ service_draft format servers.now based (table_view table.now)) }
    ensures flaw { IfOk result (λ r. result_err r ≡ service_draft_flaw based (table_view table.now)) }
{
    let Some(vip) = address_at(alloc, table, Key::Vip)? else {
        return Ok(Err(Flaw::Value(Key::Vip)));
    };
    let Some(proto) = protocol_at(table) else {
        return Ok(Err(Flaw::Value(Key::Proto)));
    };
    let Some(port) = port_at(table) else {
        return Ok(Err(Flaw::Value(Key::Port)));
    };
    match parts_of(alloc, format, servers, based, table)? {
        Ok(parts) => Ok(Ok(ServiceDraft {
            vip,
            proto,
            port,
            members: parts.members,
            changes: parts.changes,
        })),
        Err(flaw) => Ok(Err(flaw)),
    }
}

fn port_at(table: &Table) -> Option<u16>
    ensures { result ≡ number_of key.Port (table_view table.now) }
{
    Some(number(table, Key::Port)? as u16)
}

fn service_in(
    alloc: Global,
    format: Format,
    servers: &[Backend],
    based: bool,
    value: &Value,
) -> Result<Result<ServiceDraft, Flaw>, AllocError>
    ensures value { IfOk result (λ r. option_map plain_service_draft (result_ok r) ≡ service_in format servers.now based (view value.now)) }
    ensures flaw { IfOk result (λ r. result_err r ≡ service_flaw format based (view value.now)) }
{
    let Some(table) = value.as_table() else {
        return Ok(Err(Flaw::NoTable));
    };
    if has_only_keys(Owner::Service, format, table) {
        service_draft_of(alloc, format, servers, based, table)
    } else {
        Ok(Err(Flaw::Unknown))
    }
}

// The services of the version of a place.
#[tactic(auto, using(scenario_keys::proofs::Views::items_from))]
fn read_services(
    alloc: Global,
    format: Format,
    servers: &[Backend],
    based: bool,
    version: usize,
    values: &[Value],
) -> Result<Result<Vec<ServiceDraft>, Place>, AllocError>
    ensures value { IfOk result (λ r. option_map plain_service_drafts (result_ok r) ≡ all_items (service_in format servers.now based) (items_view values.now)) }
    ensures place { IfOk result (λ r. result_err r ≡ services_from format based version 0 (items_view values.now)) }
{
    let mut found: Vec<ServiceDraft> = Vec::new(alloc);
    for (n, value) in values.iter().enumerate() {
        let service = match service_in(alloc, format, servers, based, value)? {
            Ok(service) => service,
            Err(flaw) => return Ok(Err(Place::Service(version, n, flaw))),
        };
        let Ok(()) = found.push(service) else {
            return Err(AllocError);
        };
    }
    Ok(Ok(found))
}

/// The services of the version of a place that has no base.
pub(crate) fn services_at(
    alloc: Global,
    format: Format,
    servers: &[Backend],
    version: usize,
    table: &Table,
) -> Result<Result<Vec<ServiceDraft>, Place>, AllocError>
    ensures value { IfOk result (λ r. option_map plain_service_drafts (result_ok r) ≡ services_at format servers.now (table_view table.now)) }
    ensures place { IfOk result (λ r. result_err r ≡ services_flaw format version (table_view table.now)) }
{
    match items_at(table, Key::Services.name()) {
        Some(values) => read_services(alloc, format, servers, false, version, values),
        None => Ok(Err(Place::Version(version, Flaw::Value(Key::Services)))),
    }
}

/// The services of the version of a place that has a base, none where the key is missing.
pub(crate) fn services_if(
    alloc: Global,
    format: Format,
    servers: &[Backend],
    version: usize,
    table: &Table,
) -> Result<Result<Vec<ServiceDraft>, Place>, AllocError>
    ensures value { IfOk result (λ r. option_map plain_service_drafts (result_ok r) ≡ services_if format servers.now (table_view table.now)) }
    ensures place { IfOk result (λ r. result_err r ≡ services_if_flaw format version (table_view table.now)) }
{
    let Some(value) = value_at(table, Key::Services.name()) else {
        return Ok(Ok(Vec::new(alloc)));
    };
    match value.as_array() {
        Some(values) => { read_services(alloc, format, servers, true, version, values.as_slice()) }
        None => Ok(Err(Place::Version(version, Flaw::Value(Key::Services)))),
    }
}
