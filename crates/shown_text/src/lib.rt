//! Text for a line of a terminal, whatever is in it: a name of a file, a key or a value of a scenario, a word of a command line.
//!
//! What begins a command of the terminal, breaks the line or turns the order of its characters round is written as TOML does,
//! `\u001b`: the control characters of ASCII and of Latin-1 (C0 and C1), U+061C, U+200E, U+200F, U+2028 to U+202E, U+2066 to
//! U+2069 and U+FEFF. A line has at most 200 characters.
#![tactic(auto)]

ghost use Rattle.std.specs.Prelude.{◌≡◌, ◌++◌, ◌≤◌, ◌<◌, ℕ, List, All, IfOk, OnOk, length, true};
ghost use Rattle.std.specs.Char.Escape.{hex_digit_at};
ghost use Rattle.std.specs.Str.{chars, encode_utf8_all};
ghost use Rattle.std.specs.String.{string_bytes};
ghost use Rattle.shown_text.specs.Lines.{is_plain, plain_char, plain_chars, line_of, is_from_to, is_control, turns_text};

use std::alloc::{AllocError, Global};

/// The most characters of a line.
pub const MOST_CHARACTERS: usize = 200;

// Whether a code is from one to another, both among them.
fn is_from_to(low: u32, high: u32, code: u32) -> bool
    ensures { result ≡ is_from_to low high code }
{
    low <= code && code <= high
}

// Whether a character's code is one of C0, DEL and C1.
fn is_control(code: u32) -> bool
    ensures { result ≡ is_control code }
{
    code < 0x20 || is_from_to(0x7f, 0x9f, code)
}

// Whether a character's code ends a line, turns the order of characters round or isn't seen.
fn turns_text(code: u32) -> bool
    ensures { result ≡ turns_text code }
{
    code == 0x061c
        || code == 0x200e
        || code == 0x200f
        || code == 0xfeff
        || is_from_to(0x2028, 0x202e, code)
        || is_from_to(0x2066, 0x2069, code)
}

// Whether a terminal shows a character where it stands, and does nothing else.
fn is_plain(c: char) -> bool
    ensures { result ≡ is_plain c }
{
    let code = c as u32;
    !is_control(code) && !turns_text(code)
}

// The hexadecimal digit of a code at the place that is worth so much.
fn digit(worth: u32, code: u32) -> char
    requires { 0 < worth }
    ensures { result ≡ hex_digit_at worth code }
{
    let value = (code / worth % 16) as u8;
    if value < 10 {
        (b'0' + value) as char
    } else {
        (b'a' + (value - 10)) as char
    }
}

// Puts a character at the end of a line, or its code where it isn't plain.
fn push_plain(line: &mut Vec<char>, c: char) -> Result<(), AllocError>
    ensures { OnOk result (line.new.items ≡ line.old.items ++ plain_char c) }
{
    if is_plain(c) {
        return line.extend_from_slice(&[c]);
    }
    let code = c as u32;
    let slash = '\\';
    let letter = 'u';
    let first = digit(0x1000, code);
    let second = digit(0x100, code);
    let third = digit(0x10, code);
    let last = digit(1, code);
    line.extend_from_slice(&[slash, letter, first, second, third, last])
}

// A text's characters, each that isn't plain as its code.
fn plain_chars(alloc: Global, text: &[char]) -> Result<Vec<char>, AllocError>
    ensures { IfOk result (λ v. v.items ≡ plain_chars text.now) }
{
    let mut line = Vec::new(alloc);
    for c in text {
        push_plain(&mut line, *c)?;
    }
    Ok(line)
}

// A text's characters.
fn chars_of(alloc: Global, text: &str) -> Result<Vec<char>, AllocError>
    ensures { IfOk result (λ v. v.items ≡ chars text.now) }
{
    text.chars().collect(alloc)
}

// Characters as a text.
fn text_of(alloc: Global, line: &[char]) -> Result<String, AllocError>
    ensures { IfOk result (λ s. string_bytes s ≡ encode_utf8_all line.now) }
{
    line.iter().copied().collect(alloc)
}

/// A text as part of one line. It holds no character that isn't plain, and at most the first 200 of what it should hold.
pub fn shown(alloc: Global, text: &str) -> Result<String, AllocError>
    ensures { IfOk result (λ s. string_bytes s ≡ encode_utf8_all (line_of (chars text.now))) }
{
    let text = chars_of(alloc, text)?;
    let mut line = plain_chars(alloc, text.as_slice())?;
    line.truncate(MOST_CHARACTERS);
    text_of(alloc, line.as_slice())
}

/// Whatever a text is, its line has only plain characters, and at most 200. The clauses are the law; the body does nothing.
pub fn lines_are_plain()
    ensures plain { (text : List ℕ) → All (λ c. is_plain c ≡ true) (line_of text) }
    ensures short { (text : List ℕ) → length (line_of text) ≤ 200 }
    ensures same { (text : List ℕ) → All (λ c. is_plain c ≡ true) text → length text ≤ 200 → line_of text ≡ text }
{}
