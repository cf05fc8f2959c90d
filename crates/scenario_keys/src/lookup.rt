//! What a document holds at a key.
ghost use Rattle.std.specs.Prelude.{◌≡◌, ◌≤◌, option_map, option_copied, IfSome};
ghost use Rattle.toml.specs.Data.{get_member};
ghost use Rattle.toml.specs.View.{table_view, view, items_view};
ghost use Rattle.scenario_keys.specs.Lookups.{natural_of, number_at, number_or, number_by, number_if, flag_or, text_at, items_at};

use toml::{Table, Value};

/// The value at a key.
pub fn value_at<'a>(table: &'a Table, key: &str) -> Option<&'a Value>
    ensures { option_map (λ v. view v.now) result ≡ get_member key.now (table_view table.entry.now) }
{
    table.get(key)
}

// The integer in a range that a value is.
fn natural_of(value: &Value, low: u64, high: u64) -> Option<u64>
    ensures value { result ≡ natural_of low high (view value.now) }
    ensures range { IfSome result (λ n. (low ≤ n) × (n ≤ high)) }
{
    let number = value.as_integer()?;
    if number < 0 {
        return None;
    }
    let number = number as u64;
    if low <= number && number <= high {
        Some(number)
    } else {
        None
    }
}

/// The integer in a range at a key.
pub(crate) fn number_at(table: &Table, key: &str, low: u64, high: u64) -> Option<u64>
    ensures value { result ≡ number_at low high key.now (table_view table.now) }
    ensures range { IfSome result (λ n. (low ≤ n) × (n ≤ high)) }
{
    natural_of(value_at(table, key)?, low, high)
}

/// The integer in a range at a key. Where the key is missing it is the last one, if there is one.
pub(crate) fn number_by(
    table: &Table,
    key: &str,
    low: u64,
    high: u64,
    missing: Option<u64>,
) -> Option<u64>
    ensures { result ≡ number_by low high missing key.now (table_view table.now) }
{
    match missing {
        None => number_at(table, key, low, high),
        Some(other) => number_or(table, key, other, low, high),
    }
}

// The integer in a range at a key, another one where the key is missing.
fn number_or(table: &Table, key: &str, other: u64, low: u64, high: u64) -> Option<u64>
    ensures { result ≡ number_or other low high key.now (table_view table.now) }
{
    match value_at(table, key) {
        None => Some(other),
        Some(value) => natural_of(value, low, high),
    }
}

/// The integer in a range at a key, none where the key is missing.
pub(crate) fn number_if(table: &Table, key: &str, low: u64, high: u64) -> Option<Option<u64>>
    ensures { result ≡ number_if low high key.now (table_view table.now) }
{
    match value_at(table, key) {
        None => Some(None),
        Some(value) => Some(Some(natural_of(value, low, high)?)),
    }
}

/// The flag at a key, another one where the key is missing.
pub(crate) fn flag_or(table: &Table, key: &str, other: bool) -> Option<bool>
    ensures { result ≡ flag_or other key.now (table_view table.now) }
{
    match value_at(table, key) {
        None => Some(other),
        Some(value) => value.as_bool(),
    }
}

/// The text at a key.
pub fn text_at<'a>(table: &'a Table, key: &str) -> Option<&'a str>
    ensures { option_copied result ≡ text_at key.now (table_view table.entry.now) }
{
    value_at(table, key)?.as_str()
}

/// The array at a key.
pub fn items_at<'a>(table: &'a Table, key: &str) -> Option<&'a [Value]>
    ensures { option_map (λ v. items_view v.now) result ≡ items_at key.now (table_view table.entry.now) }
{
    let values = value_at(table, key)?.as_array()?;
    Some(values.as_slice())
}
