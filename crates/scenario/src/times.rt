//! Times in steps: seconds as text.
ghost use Rattle.std.specs.Prelude.{◌≡◌, ◌≤◌, map, IfOk, IfSome};
ghost use Rattle.scenario.specs.Times.{places_from, places_of, micros_within, micros_of_pieces, micros_of};

use maglev_texts::{decimal, pieces};
use std::alloc::{AllocError, Global};

// The longest time, in whole seconds and in microseconds.
const MOST_SECONDS: u64 = 4_294_967_295;

const MOST_MICROS: u64 = 4_294_967_295_000_000;

// The microseconds of a second, and those of its first decimal place.
const SECOND: u64 = 1_000_000;

const TENTH: u64 = 100_000;

// The microseconds of decimal places.
fn places_from(digits: &[u8]) -> Option<u64>
    ensures value { result ≡ places_from 100000 digits.now }
    ensures few { IfSome result (λ n. n ≤ 1000000) }
{
    let mut unit = TENTH;
    let mut micros = 0u64;
    for digit in digits {
        if *digit < b'0' || *digit > b'9' || unit == 0 {
            return None;
        }
        micros += (*digit - b'0') as u64 * unit;
        unit /= 10;
    }
    Some(micros)
}

fn places_of(digits: &[u8]) -> Option<u64>
    ensures value { result ≡ places_of digits.now }
    ensures few { IfSome result (λ n. n ≤ 1000000) }
{
    if digits.is_empty() {
        return None;
    }
    places_from(digits)
}

fn micros_within(seconds: u64, places: u64) -> Option<u64>
    requires seconds { seconds ≤ 4294967295 }
    requires places { places ≤ 1000000 }
    ensures { result ≡ micros_within seconds places }
{
    let micros = seconds * SECOND + places;
    if micros <= MOST_MICROS {
        Some(micros)
    } else {
        None
    }
}

fn micros_of_pieces(parts: &[&[u8]]) -> Option<u64>
    ensures { result ≡ micros_of_pieces (map (λ t. t.now) parts.now) }
{
    match parts {
        [whole] => micros_within(decimal(whole, MOST_SECONDS)?, 0),
        [whole, places] => {
            let seconds = decimal(whole, MOST_SECONDS)?;
            micros_within(seconds, places_of(places)?)
        }
        _ => None,
    }
}

/// The microseconds of seconds as text.
pub(crate) fn micros_of(alloc: Global, text: &[u8]) -> Result<Option<u64>, AllocError>
    ensures { IfOk result (λ o. o ≡ micros_of text.now) }
{
    let parts = pieces(alloc, text, b'.')?;
    Ok(micros_of_pieces(parts.as_slice()))
}
