//! The words.
use crate::spots::{below, line_of, spot_of};
use crate::steps::expected_step;
use backend_names::Name;
use maglev_texts::address;
use pool_versions::PoolFault;
use scenario::{Flaw, Place, ScenarioFault};
use scenario_keys::{Form, Format, Key, Owner, format_of, value_at};
use shown_text::shown;
use std::alloc::Global;
use toml::{Table, Value};

/// One line on a scenario's fault: the path of the key, as `versions[0].services[1].port`, with its line, what was found and
/// what was expected. For BadToml it has line and column, both from 1. A terminal can show it, whatever the scenario says. None
/// where nothing more is known or memory was refused. The place is the one that reading told.
pub fn words_of(
    alloc: Global,
    text: &[u8],
    fault: ScenarioFault,
    place: Option<Place>,
) -> Option<String> {
    let table = match toml::table_from_slice(alloc, text) {
        Ok(table) => table,
        Err(error) => return bad_toml(alloc, text, &error),
    };
    let text = std::str::from_utf8(text).ok()?;
    match fault {
        ScenarioFault::BadFormat => at(alloc, text, "format", "the number 1, 2 or 3"),
        ScenarioFault::BadKey => bad_key(alloc, text, &table, place?),
        ScenarioFault::BadMember => bad_member(alloc, text, &table, place?),
        ScenarioFault::Pool(PoolFault::TooMany) if place.is_none() => {
            at(alloc, text, Key::Versions.name(), WRITTEN_OUT)
        }
        ScenarioFault::Pool(fault) => bad_pool(alloc, text, &table, fault, place?),
        ScenarioFault::BadStep(step) => bad_step(alloc, text, &table, step),
        _ => None,
    }
}

/// What is expected of versions by difference.
const WRITTEN_OUT: &str = "at most 1048576 services and members in all versions, written out";

fn bad_toml(alloc: Global, text: &[u8], error: &toml::de::Error) -> Option<String> {
    let start = error.span()?.start;
    let line = line_of(text, start);
    let column = text
        .get(..start)?
        .iter()
        .rev()
        .take_while(|byte| **byte != b'\n')
        .filter(|byte| **byte & 0xc0 != 0x80)
        .count()
        .saturating_add(1);
    let message = shown(alloc, error.message()).ok()?;
    format!(in alloc; "line {line}, column {column}: {message}").ok()
}

// What was found at a path, and what was expected there.
fn at(alloc: Global, text: &str, path: &str, expected: &str) -> Option<String> {
    let place = shown(alloc, path).ok()?;
    let Some(spot) = spot_of(alloc, text, path)? else {
        return format!(in alloc; "{place} is missing, expected {expected}").ok();
    };
    let line = spot.line(text);
    let found = shown(alloc, spot.found(alloc)?).ok()?;
    format!(in alloc; "{place}, line {line}: found {found}, expected {expected}").ok()
}

// The path of the table of a place, and what is wrong with it.
fn table_of(alloc: Global, place: Place) -> Option<(String, Flaw)> {
    match place {
        Place::Root(flaw) => Some((String::new(alloc), flaw)),
        Place::Version(version, flaw) => {
            Some((format!(in alloc; "versions[{version}]").ok()?, flaw))
        }
        Place::Service(version, service, flaw) => {
            let path = format!(in alloc; "versions[{version}].services[{service}]").ok()?;
            Some((path, flaw))
        }
    }
}

// The path of what is wrong in a table of this path. Of a table that has a key which it may not have it is the table's.
fn path_of(alloc: Global, table: String, flaw: Flaw) -> Option<String> {
    match flaw {
        Flaw::NoTable | Flaw::Unknown => Some(table),
        Flaw::Value(key) | Flaw::Misplaced(key) => below(alloc, table.as_str(), key.name()),
        Flaw::Item(key, n) => {
            let path = below(alloc, table.as_str(), key.name())?;
            format!(in alloc; "{path}[{n}]").ok()
        }
    }
}

fn bad_key(alloc: Global, text: &str, document: &Table, place: Place) -> Option<String> {
    let (table, flaw) = table_of(alloc, place)?;
    let path = path_of(alloc, table, flaw)?;
    let path = path.as_str();
    match flaw {
        Flaw::NoTable => at(alloc, text, path, "a table"),
        Flaw::Value(Key::Servers) => bad_servers(alloc, text, path, document),
        Flaw::Value(Key::Base) => at(alloc, text, path, "the number of an earlier version"),
        Flaw::Value(key) => at(alloc, text, path, key.form().words(alloc).ok()?.as_str()),
        Flaw::Misplaced(_) => at(alloc, text, path, CHANGES_NEED),
        Flaw::Item(key, _) => at(alloc, text, path, expected_item(key)),
        Flaw::Unknown => {
            let (table, keys) = keys_at(alloc, document, place)?;
            unknown_key(alloc, text, path, table, keys.as_str(), owner_of(place))
        }
    }
}

/// What is expected of a key of changes that stands where none may.
const CHANGES_NEED: &str = "no such key without a base or beside members";

// Whether a value is the text of an address.
fn is_address(alloc: Global, value: &Value) -> Option<bool> {
    match value.as_str() {
        Some(text) => Some(address(alloc, text.as_bytes()).ok()?.is_some()),
        None => Some(false),
    }
}

// What is said of a table of servers: of its first entry that is none, if there is one.
fn bad_servers(alloc: Global, text: &str, path: &str, document: &Table) -> Option<String> {
    let Some(Value::Table(servers)) = document.get("servers") else {
        return at(
            alloc,
            text,
            path,
            Key::Servers.form().words(alloc).ok()?.as_str(),
        );
    };
    for (name, value) in servers.iter() {
        if Name::new(name.as_str().as_bytes()).is_none() {
            let path = below(alloc, path, name.as_str())?;
            return at(alloc, text, path.as_str(), NAMES);
        }
        if !is_address(alloc, value)? {
            let path = below(alloc, path, name.as_str())?;
            return at(alloc, text, path.as_str(), "an address, as \"10.8.0.1\"");
        }
    }
    None
}

/// What is expected of a name.
const NAMES: &str = "a name of 1 to 32 letters, digits, - and ., the first a letter or digit";

// What a place's table is.
fn owner_of(place: Place) -> Owner {
    match place {
        Place::Root(_) => Owner::Document,
        Place::Version(_, _) => Owner::Version,
        Place::Service(_, _, _) => Owner::Service,
    }
}

// The format from which on such a table may have a key of this name, in words. Nothing of one that no format has.
fn since(owner: Owner, name: &str) -> &'static str {
    let is_in = |format: Format| -> bool {
        Key::ALL
            .iter()
            .any(|key| key.name() == name && key.stands_in(owner, format))
    };
    if is_in(Format::Two) {
        "; that key is of format 2"
    } else if is_in(Format::Three) {
        "; that key is of format 3"
    } else {
        ""
    }
}

// What is said of the first key of a table of this path that is none of these.
fn unknown_key(
    alloc: Global,
    text: &str,
    path: &str,
    table: &Table,
    keys: &str,
    owner: Owner,
) -> Option<String> {
    for key in table.keys() {
        if !keys.split(", ").any(|one| one == key.as_str()) {
            let path = below(alloc, path, key.as_str())?;
            let since = since(owner, key.as_str());
            let expected = format!(in alloc; "no key but {keys}{since}").ok()?;
            return at(alloc, text, path.as_str(), expected.as_str());
        }
    }
    None
}

// Puts a key after others, with a comma between them.
fn push_key(keys: &mut String, key: &str) -> Option<()> {
    let comma = if keys.is_empty() { "" } else { ", " };
    keys.push_str(comma).ok()?;
    keys.push_str(key).ok()
}

// The keys that a table of a document of a format may have, with commas between them.
fn keys_of(alloc: Global, owner: Owner, format: Format) -> Option<String> {
    let mut keys = String::new(alloc);
    for key in Key::ALL {
        if key.stands_in(owner, format) {
            push_key(&mut keys, key.name())?;
        }
    }
    Some(keys)
}

// The table of a place, and the keys that it may have.
fn keys_at(alloc: Global, table: &Table, place: Place) -> Option<(&Table, String)> {
    let format = format_of(table)?;
    match place {
        Place::Root(_) => Some((table, keys_of(alloc, Owner::Document, format)?)),
        Place::Version(version, _) => {
            let keys = keys_of(alloc, Owner::Version, format)?;
            Some((nth(table, "versions", version)?, keys))
        }
        Place::Service(version, service, _) => {
            let version = nth(table, "versions", version)?;
            let keys = keys_of(alloc, Owner::Service, format)?;
            Some((nth(version, "services", service)?, keys))
        }
    }
}

// The table in this place of the array at a key.
fn nth<'a>(table: &'a Table, key: &str, n: usize) -> Option<&'a Table> {
    items(table, key).get(n)?.as_table()
}

// The items of the array at a key.
fn items<'a>(table: &'a Table, key: &str) -> &'a [Value] {
    match table.get(key) {
        Some(Value::Array(items)) => items.as_slice(),
        _ => &[],
    }
}

// What is expected of an item of the array at a key.
fn expected_item(key: Key) -> &'static str {
    match key.form() {
        Form::Items {
            of,
            low: _,
            high: _,
        } => of.words(),
        _ => "a text",
    }
}

fn bad_member(alloc: Global, text: &str, table: &Table, place: Place) -> Option<String> {
    let format = format_of(table)?;
    let (path, flaw) = table_of(alloc, place)?;
    let path = path_of(alloc, path, flaw)?;
    let expected = expected_word(alloc, format, table, place, flaw)?;
    at(alloc, text, path.as_str(), expected.as_str())
}

// What is expected of a word of a place.
fn expected_word(
    alloc: Global,
    format: Format,
    table: &Table,
    place: Place,
    flaw: Flaw,
) -> Option<String> {
    match flaw {
        Flaw::Item(Key::Members | Key::Add, _) => {
            String::from_str(alloc, expected_member(format)).ok()
        }
        Flaw::Item(Key::Weights, _) => {
            let server = server_of_base(alloc, table, place)?;
            format!(in alloc; "NAME*W, with W from *1 to *16 and NAME {server}").ok()
        }
        Flaw::Item(_, _) => server_of_base(alloc, table, place),
        _ => String::from_str(alloc, "members, or a base with this service").ok(),
    }
}

fn expected_member(format: Format) -> &'static str {
    match format {
        Format::One => {
            "NAME@ADDRESS or NAME@ADDRESS/down; *W is of format 2, /drain and a NAME alone of format 3"
        }
        Format::Two => {
            "NAME@ADDRESS, then *W from *1 to *16 or nothing, then /down or nothing; /drain and a NAME alone are of format 3"
        }
        Format::Three => {
            "NAME@ADDRESS or a server's NAME, then *W from *1 to *16 or nothing, then /down or /drain or nothing"
        }
    }
}

// A server of the base of a place's version, in words.
fn server_of_base(alloc: Global, table: &Table, place: Place) -> Option<String> {
    let (Place::Version(version, _) | Place::Service(version, _, _)) = place else {
        return None;
    };
    let base = nth(table, "versions", version)?.get("base")?.as_integer()?;
    match place {
        Place::Service(_, _, _) => {
            format!(in alloc;
                "a server that this service has in version {base} and no change has taken out"
            ).ok()
        }
        _ => format!(in alloc; "a server of version {base} that no change has taken out").ok(),
    }
}

fn bad_step(alloc: Global, text: &str, table: &Table, step: u32) -> Option<String> {
    let path = format!(in alloc; "steps[{step}]").ok()?;
    let found = items(table, Key::Steps.name())
        .get(step as usize)?
        .as_str()?;
    let expected = expected_step(alloc, table, format_of(table)?, found)?;
    at(alloc, text, path.as_str(), expected.as_str())
}

// Whether a version is by difference.
fn has_base(table: &Table, version: usize) -> bool {
    match nth(table, "versions", version) {
        Some(version) => value_at(version, Key::Base.name()).is_some(),
        None => false,
    }
}

// The path of a place of the versions. A service of a version by difference that no table has is told by its version.
fn written_path(alloc: Global, document: &Table, place: Place) -> Option<String> {
    match place {
        Place::Version(version, Flaw::Item(Key::Services, _)) if has_base(document, version) => {
            format!(in alloc; "versions[{version}]").ok()
        }
        _ => {
            let (table, flaw) = table_of(alloc, place)?;
            path_of(alloc, table, flaw)
        }
    }
}

fn bad_pool(
    alloc: Global,
    text: &str,
    table: &Table,
    fault: PoolFault,
    place: Place,
) -> Option<String> {
    let (_, flaw) = table_of(alloc, place)?;
    let path = written_path(alloc, table, place)?;
    let expected = match (fault, flaw) {
        (PoolFault::BadNumber, _) => "a number from 1",
        (PoolFault::NumberTaken, _) => "a number that no earlier version has",
        (PoolFault::DoubleService, _) => {
            "an address, protocol and port that no earlier service of the version has"
        }
        (PoolFault::DoubleName, _) => "a name that no earlier member of the service has",
        (PoolFault::TooMany, Flaw::Item(Key::Versions, _)) => "at most 1024 versions",
        (PoolFault::TooMany, Flaw::Item(Key::Services, _)) => "at most 256 services",
        (PoolFault::TooMany, _) => "no more members than slots, and at most 4096",
        (PoolFault::Memory, _) => return None,
    };
    at(alloc, text, path.as_str(), expected)
}
