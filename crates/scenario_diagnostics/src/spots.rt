//! Where in a scenario's text a value is.
//!
//! A value is named by its path, as `versions[0].services[1].port`: keys joined by dots, and places in arrays, from 0, in
//! brackets. Only documents that could be read are looked through.
use std::alloc::Global;
use toml_parser::text::{byte_at, first, skip, skip_blank, skip_ws};
use toml_parser::{Key, RECURSION_LIMIT, dotted_key, quoted, starts_string, unquoted};

// After one byte of ASCII.
fn stepped(text: &str) -> Option<&str> {
    let byte = first(text);
    if byte == 0 || byte >= 128 {
        None
    } else {
        Some(skip(text, 1))
    }
}

fn after_scalar(alloc: Global, text: &str) -> Option<&str> {
    if starts_string(text) {
        let (_, rest) = quoted(alloc, text).ok()?;
        return Some(rest);
    }
    let (_, rest) = unquoted(alloc, text).ok()?;
    Some(rest)
}

fn after_brackets(alloc: Global, text: &str) -> Option<&str> {
    let mut depth = 0usize;
    let mut rest = text;
    for _ in 0..text.len() {
        rest = skip_blank(rest, true);
        if starts_string(rest) {
            rest = after_scalar(alloc, rest)?;
        } else {
            match first(rest) {
                b'[' | b'{' => depth = depth.saturating_add(1),
                b']' | b'}' => depth = depth.saturating_sub(1),
                _ => {}
            }
            rest = stepped(rest)?;
        }
        if depth == 0 {
            return Some(rest);
        }
    }
    None
}

// After the value that a text begins with.
fn after_value(alloc: Global, text: &str) -> Option<&str> {
    if matches!(first(text), b'[' | b'{') {
        after_brackets(alloc, text)
    } else {
        after_scalar(alloc, text)
    }
}

// After a value, the blanks after it, and a comma.
fn after_element(alloc: Global, text: &str) -> Option<&str> {
    let rest = skip_blank(after_value(alloc, text)?, true);
    if first(rest) == b',' {
        stepped(rest)
    } else {
        Some(rest)
    }
}

// Whether a path is a value's own or that of an array or table that holds it.
fn leads_to(path: &str, wanted: &str) -> bool {
    let (path, wanted) = (path.as_bytes(), wanted.as_bytes());
    wanted.starts_with(path)
        && (wanted.len() == path.len() || matches!(wanted[path.len()], b'.' | b'['))
}

// The path of a key in a table.
fn joined(alloc: Global, table: &str, key: &Key) -> Option<String> {
    let mut path = String::from_str(alloc, table).ok()?;
    for part in &key.path {
        path = below(alloc, path.as_str(), part.as_str())?;
    }
    below(alloc, path.as_str(), key.last.as_str())
}

/// The path of a key in a table of this path; the whole document's is empty.
pub fn below(alloc: Global, table: &str, key: &str) -> Option<String> {
    if table.is_empty() {
        String::from_str(alloc, key).ok()
    } else {
        format!(in alloc; "{table}.{key}").ok()
    }
}

// The element of an array that leads to the wanted value, with its path, if there is one. The text begins after the bracket.
fn in_array<'a>(
    alloc: Global,
    text: &'a str,
    path: &str,
    wanted: &str,
) -> Option<Option<(String, &'a str)>> {
    let mut rest = text;
    for n in 0..text.len() {
        rest = skip_blank(rest, true);
        if first(rest) == b']' {
            break;
        }
        let element = format!(in alloc; "{path}[{n}]").ok()?;
        if leads_to(element.as_str(), wanted) {
            return Some(Some((element, rest)));
        }
        rest = after_element(alloc, rest)?;
    }
    Some(None)
}

// The member of a table that leads to the wanted value, with its path, if there is one. The text begins after the bracket.
fn in_table<'a>(
    alloc: Global,
    text: &'a str,
    path: &str,
    wanted: &str,
) -> Option<Option<(String, &'a str)>> {
    let mut rest = text;
    for _ in 0..text.len() {
        rest = skip_blank(rest, true);
        if first(rest) == b'}' {
            break;
        }
        let (key, after) = dotted_key(alloc, rest).ok()?;
        let member = joined(alloc, path, &key)?;
        let value = skip_blank(stepped(after)?, true);
        if leads_to(member.as_str(), wanted) {
            return Some(Some((member, value)));
        }
        rest = after_element(alloc, value)?;
    }
    Some(None)
}

// The wanted value, at or inside a value of this path, if it is there.
fn inside<'a>(
    alloc: Global,
    value: &'a str,
    path: String,
    wanted: &str,
) -> Option<Option<&'a str>> {
    let mut path = path;
    let mut rest = value;
    for _ in 0..RECURSION_LIMIT {
        if path.as_str() == wanted {
            return Some(Some(rest));
        }
        let next = match first(rest) {
            b'[' => in_array(alloc, stepped(rest)?, path.as_str(), wanted)?,
            b'{' => in_table(alloc, stepped(rest)?, path.as_str(), wanted)?,
            _ => None,
        };
        let Some((deeper, after)) = next else {
            return Some(None);
        };
        path = deeper;
        rest = after;
    }
    None
}

// How many versions, and how many services of the last one, have had a header.
#[derive(Clone, Copy)]
struct Headers {
    versions: usize,
    services: usize,
}

impl Headers {
    // The path of the table that a header begins.
    fn table(&mut self, alloc: Global, key: &Key, is_array: bool) -> Option<String> {
        let path = joined(alloc, "", key)?;
        let version = self.versions.saturating_sub(1);
        match path.as_str() {
            "versions" if is_array => {
                let n = self.versions;
                self.versions = n.saturating_add(1);
                self.services = 0;
                format!(in alloc; "versions[{n}]").ok()
            }
            "versions.services" if is_array => {
                let n = self.services;
                self.services = n.saturating_add(1);
                format!(in alloc; "versions[{version}].services[{n}]").ok()
            }
            _ => Some(path),
        }
    }

    // The table that the header at the front of a text begins, and what is after the header.
    fn read<'a>(&mut self, alloc: Global, text: &'a str) -> Option<(String, &'a str)> {
        let is_array = byte_at(text, 1) == b'[';
        let inner = stepped(text)?;
        let inner = if is_array { stepped(inner)? } else { inner };
        let (key, rest) = dotted_key(alloc, skip_ws(inner)).ok()?;
        let rest = stepped(rest)?;
        let rest = if is_array { stepped(rest)? } else { rest };
        Some((self.table(alloc, &key, is_array)?, rest))
    }
}

/// Where a value is.
#[derive(Clone, Copy, Debug)]
pub enum Spot<'a> {
    /// The text from the value on.
    Value(&'a str),
    /// The text from the header of a table on.
    Header(&'a str),
}

impl<'a> Spot<'a> {
    /// The number of the line, from 1, of the document on which it is.
    pub fn line(self, document: &str) -> usize {
        let (Spot::Value(end) | Spot::Header(end)) = self;
        line_of(
            document.as_bytes(),
            document.len().saturating_sub(end.len()),
        )
    }

    /// The value, as it is written there.
    pub fn found(self, alloc: Global) -> Option<&'a str> {
        match self {
            Spot::Value(text) => value_text(alloc, text),
            Spot::Header(_) => Some("a table"),
        }
    }
}

/// The number of the line, from 1, on which this place of a document is.
pub fn line_of(document: &[u8], place: usize) -> usize {
    let before = document.iter().take(place);
    before
        .filter(|byte| **byte == b'\n')
        .count()
        .saturating_add(1)
}

/// Where the value or the table of this path is, if the document has it. None where memory was refused.
pub fn spot_of<'a>(alloc: Global, text: &'a str, wanted: &str) -> Option<Option<Spot<'a>>> {
    let mut headers = Headers {
        versions: 0,
        services: 0,
    };
    let mut table = String::new(alloc);
    let mut rest = text;
    for _ in 0..text.len() {
        rest = skip_blank(rest, true);
        if rest.is_empty() {
            break;
        }
        if first(rest) == b'[' {
            let (path, after) = headers.read(alloc, rest)?;
            if path.as_str() == wanted {
                return Some(Some(Spot::Header(rest)));
            }
            table = path;
            rest = after;
        } else {
            let (key, after) = dotted_key(alloc, rest).ok()?;
            let path = joined(alloc, table.as_str(), &key)?;
            let value = skip_ws(stepped(after)?);
            if leads_to(path.as_str(), wanted) {
                return Some(inside(alloc, value, path, wanted)?.map(Spot::Value));
            }
            rest = after_value(alloc, value)?;
        }
    }
    Some(None)
}

// The value that a text begins with, as it is written there.
fn value_text(alloc: Global, text: &str) -> Option<&str> {
    match first(text) {
        b'[' => Some("an array"),
        b'{' => Some("a table"),
        _ => {
            let rest = after_value(alloc, text)?;
            let bytes = text.as_bytes();
            let length = bytes.len().saturating_sub(rest.len());
            std::str::from_utf8(&bytes[..length]).ok()
        }
    }
}
