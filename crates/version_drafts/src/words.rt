//! The words of versions: servers, members and changes.
ghost use Rattle.std.specs.Prelude.{◌≡◌, option_map, option_copied, is_some, IfOk};
ghost use Rattle.toml.specs.View.{table_view, view};
ghost use Rattle.maglev_texts.specs.Parsing.{before_first, behind_first, behind_star};
ghost use Rattle.scenario_keys.specs.declared.formats.Format.TheVariants.{Three};
ghost use Rattle.version_drafts.specs.Words.{server_of, servers_of, servers_in, server_named, in_use, with_state, served_member_of, member_in};
ghost use Rattle.version_drafts.specs.Words.{name_in, weight_in, change_in};

use crate::change::Change;
use backend_names::{Name, Weight};
use maglev_texts::{WeighedName, address, member, stated_member, weighed_member, weighed_name};
use pool_versions::{Backend, Member};
use scenario_keys::{Format, Key, value_at};
use std::alloc::{AllocError, Global};
use toml::{Table, Value};

fn server_of(alloc: Global, name: &str, value: &Value) -> Result<Option<Backend>, AllocError>
    ensures { IfOk result (λ o. o ≡ server_of name.now (view value.now)) }
{
    let Some(name) = Name::new(name.as_bytes()) else {
        return Ok(None);
    };
    let Some(text) = value.as_str() else {
        return Ok(None);
    };
    let Some(addr) = address(alloc, text.as_bytes())? else {
        return Ok(None);
    };
    Ok(Some(Backend { name, addr }))
}

fn servers_of(alloc: Global, table: &Table) -> Result<Option<Vec<Backend>>, AllocError>
    ensures { IfOk result (λ o. option_map (λ v. v.items) o ≡ servers_of (table_view table.now)) }
{
    let mut found: Vec<Backend> = Vec::new(alloc);
    for (name, value) in table.iter() {
        let Some(server) = server_of(alloc, name.as_str(), value)? else {
            return Ok(None);
        };
        found.push(server)?;
    }
    Ok(Some(found))
}

/// The servers of a document, none where it names none. None: a key is no name, or its value no address.
pub(crate) fn servers_in(alloc: Global, table: &Table) -> Result<Option<Vec<Backend>>, AllocError>
    ensures { IfOk result (λ o. option_map (λ v. v.items) o ≡ servers_in (table_view table.now)) }
{
    let Some(value) = value_at(table, Key::Servers.name()) else {
        return Ok(Some(Vec::new(alloc)));
    };
    match value.as_table() {
        Some(table) => servers_of(alloc, table),
        None => Ok(None),
    }
}

// The first server of a name.
fn server_named(name: Name, servers: &[Backend]) -> Option<Backend>
    ensures { result ≡ server_named name servers.now }
{
    for server in servers {
        if name == server.name {
            return Some(*server);
        }
    }
    None
}

// A text before its first slash, and behind it, if there is one.
fn at_slash(text: &[u8]) -> (&[u8], Option<&[u8]>)
    ensures head { result.0.now ≡ before_first 47 text.entry.now }
    ensures tail { option_copied result.1 ≡ behind_first 47 text.entry.now }
{
    for (place, byte) in text.iter().enumerate() {
        if *byte == b'/' {
            return (&text[..place], Some(&text[place + 1..]));
        }
    }
    (text, None)
}

fn in_use(up: bool, draining: bool, weight: Weight, backend: Backend) -> Member
    ensures { result ≡ in_use up draining weight backend }
{
    Member {
        backend,
        up,
        draining,
        weight,
    }
}

// A member in the state that stands behind its slash.
fn with_state(state: Option<&[u8]>, weight: Weight, backend: Backend) -> Option<Member>
    ensures { result ≡ with_state (option_copied state.entry) weight backend }
{
    let Some(word) = state else {
        return Some(in_use(true, false, weight, backend));
    };
    if word == b"down".as_slice() {
        Some(in_use(false, false, weight, backend))
    } else if word == b"drain".as_slice() {
        Some(in_use(false, true, weight, backend))
    } else {
        None
    }
}

/// The member that a word without an address is: `NAME`, then `*W` unless the weight is left out, then `/down` or `/drain`.
/// Its address is that of the server of the name.
pub fn served_member(servers: &[Backend], word: &[u8]) -> Option<Member>
    ensures { result ≡ served_member_of servers.now word.now }
{
    let (head, state) = at_slash(word);
    let weighed = weighed_name(head)?;
    let server = server_named(weighed.name, servers)?;
    with_state(state, weighed.weight, server)
}

fn stated_or_served(
    alloc: Global,
    servers: &[Backend],
    word: &[u8],
) -> Result<Option<Member>, AllocError>
    ensures { IfOk result (λ o. o ≡ member_in Three servers.now word.now) }
{
    match stated_member(alloc, word)? {
        Some(member) => Ok(Some(member)),
        None => Ok(served_member(servers, word)),
    }
}

/// The member that a word is in a format, beside these servers.
pub fn member_in(
    alloc: Global,
    format: Format,
    servers: &[Backend],
    word: &[u8],
) -> Result<Option<Member>, AllocError>
    ensures { IfOk result (λ o. o ≡ member_in format servers.now word.now) }
{
    match format {
        Format::One => member(alloc, word),
        Format::Two => weighed_member(alloc, word),
        Format::Three => stated_or_served(alloc, servers, word),
    }
}

fn name_in(word: &[u8]) -> Option<Name>
    ensures { result ≡ name_in word.now }
{
    Name::new(word)
}

fn has_star(word: &[u8]) -> bool
    ensures { result ≡ is_some (behind_star word.now) }
{
    for byte in word {
        if *byte == b'*' {
            return true;
        }
    }
    false
}

fn weight_in(word: &[u8]) -> Option<WeighedName>
    ensures { result ≡ weight_in word.now }
{
    if has_star(word) {
        weighed_name(word)
    } else {
        None
    }
}

/// The change that a word at a key is, beside these servers. At keys of no changes it is none.
pub fn change_in(
    alloc: Global,
    servers: &[Backend],
    key: Key,
    word: &[u8],
) -> Result<Option<Change>, AllocError>
    ensures { IfOk result (λ o. o ≡ change_in servers.now key word.now) }
{
    match key {
        Key::Remove => Ok(name_in(word).map(Change::Remove)),
        Key::Down => Ok(name_in(word).map(Change::Down)),
        Key::Drain => Ok(name_in(word).map(Change::Drain)),
        Key::Up => Ok(name_in(word).map(Change::Up)),
        Key::Weights => Ok(weight_in(word).map(Change::Weigh)),
        Key::Add => {
            let found = stated_or_served(alloc, servers, word)?;
            Ok(found.map(Change::Add))
        }
        _ => Ok(None),
    }
}
