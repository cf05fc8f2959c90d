//! A part of a whole.
ghost use Rattle.std.specs.Prelude.{◌≡◌, ◌≤◌, IfSome};
ghost use Rattle.change_share.specs.Shares.{millionths, places_of, share_within, share_of_word};

use std::marker::Model;

// The parts of a whole.
const WHOLE: u32 = 1_000_000;

// Those of its first decimal place.
const TENTH: u32 = 100_000;

/// A part of a whole, in parts per million: from 0 to 1,000,000.
#[derive(Clone, Copy, Debug, PartialEq, Eq)]
pub struct Share {
    parts: u32,
}

impl Model for Share {
    ghost use Rattle.std.specs.Prelude.{◌≤◌, ℕ};

    ghost Value = { ℕ };

    ghost view = { λ s. s.parts };

    ghost invariant = { λ s. s.parts ≤ 1000000 };

    ghost inverse = { λ n. record { parts = n } };
}

// The parts that decimal places are.
fn millionths(digits: &[u8]) -> Option<u32>
    ensures value { result ≡ millionths 100000 digits.now }
    ensures few { IfSome result (λ n. n ≤ 1000000) }
{
    let mut unit = TENTH;
    let mut parts = 0u32;
    for digit in digits {
        if *digit < b'0' || *digit > b'9' || unit == 0 {
            return None;
        }
        parts += (*digit - b'0') as u32 * unit;
        unit /= 10;
    }
    Some(parts)
}

fn places_of(digits: &[u8]) -> Option<u32>
    ensures value { result ≡ places_of digits.now }
    ensures few { IfSome result (λ n. n ≤ 1000000) }
{
    if digits.is_empty() {
        return None;
    }
    millionths(digits)
}

// The share of a digit and the parts behind its point.
fn share_within(whole: u8, parts: u32) -> Option<Share>
    requires { parts ≤ 1000000 }
    ensures { result ≡ share_within whole parts }
{
    match whole {
        b'0' => Some(Share { parts }),
        b'1' if parts == 0 => Some(Share { parts: WHOLE }),
        _ => None,
    }
}

impl Share {
    /// The share that a word is: a decimal number from 0 to 1, with one digit before the point, and one to six behind it if
    /// there is a point.
    pub fn of_word(word: &str) -> Option<Share>
        ensures { result ≡ share_of_word word.now }
    {
        match word.as_bytes() {
            [whole] => share_within(*whole, 0),
            [whole, b'.', places @ ..] => share_within(*whole, places_of(places)?),
            _ => None,
        }
    }

    /// Its parts per million.
    pub fn parts(self) -> u32
        ensures value { result ≡ self }
        ensures high { self ≤ 1000000 }
    {
        self.parts
    }
}
