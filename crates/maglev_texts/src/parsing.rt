ghost use Rattle.std.specs.Prelude.{◌≡◌, ◌≤◌, ◌^◌, ◌<◌, map, option_copied, IfOk, IfSome};
ghost use Rattle.maglev_texts.specs.Parsing.{digits_after, decimal_of, before_first, behind_first, pieces, address_of, address_of_pieces};

use std::alloc::{AllocError, Global};

/// The decimal number that a text is, of at most a limit, without sign or leading zeros.
pub fn decimal(text: &[u8], limit: u64) -> Option<u64>
    requires { limit < 2 ^ 40 }
    ensures value { result ≡ decimal_of limit text.now }
    ensures bound { IfSome result (λ n. n ≤ limit) }
{
    if text.is_empty() || (text[0] == b'0' && text.len() > 1) {
        return None;
    }
    digits(text, limit)
}

fn digits(text: &[u8], limit: u64) -> Option<u64>
    requires { limit < 2 ^ 40 }
    ensures value { result ≡ digits_after limit 0 text.now }
    ensures bound { IfSome result (λ n. n ≤ limit) }
{
    let mut number = 0u64;
    for byte in text {
        if *byte < b'0' || *byte > b'9' {
            return None;
        }
        number = number * 10 + (*byte - b'0') as u64;
        if number > limit {
            return None;
        }
    }
    Some(number)
}

/// A text before the first place of a byte, and behind it, if there is one.
pub(crate) fn at_first(text: &[u8], byte: u8) -> (&[u8], Option<&[u8]>)
    ensures head { result.0.now ≡ before_first byte text.entry.now }
    ensures tail { option_copied result.1 ≡ behind_first byte text.entry.now }
{
    for (place, other) in text.iter().enumerate() {
        if *other == byte {
            return (&text[..place], Some(&text[place + 1..]));
        }
    }
    (text, None)
}

/// The pieces of a text between the places of a byte: one more than there are places.
pub fn pieces<'a>(alloc: Global, text: &'a [u8], byte: u8) -> Result<Vec<&'a [u8]>, AllocError>
    ensures { IfOk result (λ v. map (λ w. w.now) v.items ≡ pieces byte text.entry.now) }
{
    let mut found: Vec<&'a [u8]> = Vec::new(alloc);
    let mut start = 0usize;
    for (i, other) in text.iter().enumerate() {
        if *other == byte {
            found.push(&text[start..i])?;
            start = i + 1;
        }
    }
    found.push(&text[start..])?;
    Ok(found)
}

// The address of four pieces.
fn address_of_pieces(parts: &[&[u8]]) -> Option<u32>
    ensures { result ≡ address_of_pieces (map (λ w. w.now) parts.now) }
{
    let [a, b, c, d] = parts else {
        return None;
    };
    let a = decimal(a, 255)?;
    let b = decimal(b, 255)?;
    let c = decimal(c, 255)?;
    let d = decimal(d, 255)?;
    Some((((a * 256 + b) * 256 + c) * 256 + d) as u32)
}

/// The IPv4 address that a text is: four numbers from 0 to 255 joined by dots.
pub fn address(alloc: Global, text: &[u8]) -> Result<Option<u32>, AllocError>
    ensures { IfOk result (λ o. o ≡ address_of text.now) }
{
    let parts = pieces(alloc, text, b'.')?;
    Ok(address_of_pieces(parts.as_slice()))
}
