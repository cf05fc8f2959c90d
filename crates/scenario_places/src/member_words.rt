//! Where a word of a scenario's versions is no member or change, or names what isn't there.
ghost use Rattle.std.specs.Prelude.{◌≡◌, option_map, option_and_then};
ghost use Rattle.toml.specs.Data.{as_table};
ghost use Rattle.toml.specs.View.{table_view, view, items_view};
ghost use Rattle.scenario_keys.specs.Lookups.{items_at};
ghost use Rattle.scenario_keys.specs.Keys.{key_name};
ghost use Rattle.scenario_keys.specs.declared.key.Key.TheVariants as key;
ghost use Rattle.scenario_places.specs.MemberPlaces.{item_number, table_number, count, count_if, item_among, change_flaw, word_place};

use scenario_keys::{Key, items_at};
use scenario_pools::BadWord;
use toml::{Table, Value};
use version_drafts::{CHANGE_KEYS, Flaw, Place};

// The item of a number.
#[tactic(auto, using(scenario_keys::proofs::Views::items_from))]
fn item_number<'a>(values: &'a [Value], wanted: usize) -> Option<&'a Value>
    ensures { option_map (λ v. view v.now) result ≡ item_number 0 wanted (items_view values.entry.now) }
{
    for (n, value) in values.iter().enumerate() {
        if n == wanted {
            return Some(value);
        }
    }
    None
}

// The table of a number in the array at a key.
fn table_number<'a>(table: &'a Table, key: Key, wanted: usize) -> Option<&'a Table>
    ensures { option_map (λ t. table_view t.now) result ≡ table_number key wanted (table_view table.entry.now) }
{
    item_number(items_at(table, key.name())?, wanted)?.as_table()
}

// How many items there are.
fn count(values: &[Value]) -> usize
    ensures { result ≡ count (items_view values.now) }
{
    values.len()
}

// How many items there are at a key.
fn count_at(table: &Table, key: Key) -> usize
    ensures { result ≡ count_if (items_at (key_name key) (table_view table.now)) }
{
    match items_at(table, key.name()) {
        Some(values) => count(values),
        None => 0,
    }
}

// The item of a number, where the arrays at some keys stand one after another.
fn item_among(keys: &[Key], table: &Table, wanted: usize) -> Flaw
    ensures { result ≡ item_among keys.now wanted (table_view table.now) }
{
    let mut left = wanted;
    for key in keys {
        let count = count_at(table, *key);
        if left < count {
            return Flaw::Item(*key, left);
        }
        left -= count;
    }
    Flaw::Value(Key::Add)
}

fn change_flaw(table: Option<&Table>, number: usize) -> Flaw
    ensures { result ≡ change_flaw number (option_map (λ t. table_view t.now) table.entry) }
{
    match table {
        Some(table) => item_among(&CHANGE_KEYS, table, number),
        None => Flaw::Value(Key::Base),
    }
}

// The table of a service.
fn service_table<'a>(table: &'a Table, version: usize, service: usize) -> Option<&'a Table>
    ensures { option_map (λ t. table_view t.now) result
        ≡ option_and_then (table_number key.Services service) (table_number key.Versions version (table_view table.entry.now)) }
{
    table_number(
        table_number(table, Key::Versions, version)?,
        Key::Services,
        service,
    )
}

/// The place of a bad word in a version of a document. A service that the base has no service for is told by its missing
/// [`Key::Members`].
pub fn word_place(table: &Table, version: usize, word: BadWord) -> Place
    ensures { result ≡ word_place (table_view table.now) version word }
{
    match word {
        BadWord::Base => Place::Version(version, Flaw::Value(Key::Base)),
        BadWord::Change(number) => {
            let flaw = change_flaw(table_number(table, Key::Versions, version), number);
            Place::Version(version, flaw)
        }
        BadWord::Service(service) => Place::Service(version, service, Flaw::Value(Key::Members)),
        BadWord::Member(service, n) => {
            Place::Service(version, service, Flaw::Item(Key::Members, n))
        }
        BadWord::ServiceChange(service, number) => {
            let flaw = change_flaw(service_table(table, version, service), number);
            Place::Service(version, service, flaw)
        }
    }
}
