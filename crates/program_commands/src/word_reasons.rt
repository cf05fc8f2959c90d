//! What `--verbose` says after a fault of a command that needs no scenario. That is which word is wrong, what was found there
//! and what was expected.
use backend_names::Name;
use command_faults::CliFault;
use maglev_texts::{weighed_member, weighed_name};
use pool_versions::MOST_MEMBERS;
use shown_text::shown;
use std::alloc::{AllocError, Global};
use std::collections::BTreeSet;

const NAMES: &str =
    "1 to 32 letters, digits, '-' and '.', the first a letter or digit, then *W from *1 to *16 or nothing";

const MEMBERS: &str = "NAME@ADDRESS, then *W from *1 to *16 or nothing, then /down or nothing";

/// A list of words of the command line.
#[derive(Clone, Copy)]
struct List<'a, 'b> {
    /// What a word of it is called.
    called: &'a str,
    words: &'b [&'a str],
    /// What each word has to be.
    each: &'a str,
    /// How many words there may be, and how that is said.
    most: usize,
    few: &'a str,
}

impl List<'_, '_> {
    // What was found at a place, and what was expected there. Words are counted from 1. None where no word is there.
    fn found(&self, alloc: Global, place: Option<usize>, expected: &str) -> Option<String> {
        let place = place?;
        let word = shown(alloc, self.words.get(place)?).ok()?;
        let called = self.called;
        let number = place.checked_add(1)?;
        let count = self.words.len();
        format!(in alloc;
            "{called} {number} of {count}: found \"{word}\", expected {expected}"
        ).ok()
    }

    // What is said of a fault of the list, by the names that its words give.
    fn reason(&self, alloc: Global, fault: CliFault, names: &[Option<Name>]) -> Option<String> {
        match fault {
            CliFault::BadName | CliFault::BadMember => {
                let place = names.iter().position(|name| name.is_none());
                self.found(alloc, place, self.each)
            }
            CliFault::DoubleName => {
                let place = double_place(alloc, names);
                self.found(alloc, place, "a name that no earlier word gives")
            }
            CliFault::TooMany => self.found(alloc, Some(self.most), self.few),
            _ => None,
        }
    }
}

// The name that a word of `table` and `pick` gives.
fn name_of(word: &str) -> Option<Name> {
    Some(weighed_name(word.as_bytes())?.name)
}

// The name of the member that a word is.
fn member_name(alloc: Global, word: &str) -> Result<Option<Name>, AllocError> {
    match weighed_member(alloc, word.as_bytes())? {
        Some(member) => Ok(Some(member.backend.name)),
        None => Ok(None),
    }
}

// The names that words give, None for a word that gives none.
fn names_of(alloc: Global, words: &[&str]) -> Result<Vec<Option<Name>>, AllocError> {
    let mut names = Vec::new(alloc);
    for word in words {
        names.push(name_of(word))?;
    }
    Ok(names)
}

// The same of words that are members.
fn member_names(alloc: Global, words: &[&str]) -> Result<Vec<Option<Name>>, AllocError> {
    let mut names = Vec::new(alloc);
    for word in words {
        names.push(member_name(alloc, word)?)?;
    }
    Ok(names)
}

// The place of the first name that an earlier one is too.
fn double_place(alloc: Global, names: &[Option<Name>]) -> Option<usize> {
    let mut seen = BTreeSet::new(alloc);
    for (place, name) in names.iter().enumerate() {
        if !seen.insert((*name)?).ok()? {
            return Some(place);
        }
    }
    None
}

// What is said of a fault of the options that each of these commands has.
fn of_options(alloc: Global, fault: CliFault, size: u32, hash: &str) -> Option<String> {
    match fault {
        CliFault::BadSize => {
            format!(in alloc; "--size: found {size}, expected 7, 13, 251, 1021, 8191 or 65537").ok()
        }
        CliFault::BadHash => {
            let hash = shown(alloc, hash).ok()?;
            format!(in alloc; "--hash: found \"{hash}\", expected fnv, sha256 or sum").ok()
        }
        CliFault::BadHex => String::from_str(
            alloc,
            "standard input: expected hexadecimal digits, two a byte, and at most one newline after them",
        )
        .ok(),
        CliFault::TooLong => {
            String::from_str(alloc, "standard input: expected at most 524289 bytes").ok()
        }
        _ => None,
    }
}

/// What is said of a fault of `table` or `pick`, None where nothing more is known or memory was refused. A terminal can show it,
/// whatever the words are.
pub(crate) fn of_names(
    alloc: Global,
    fault: CliFault,
    size: u32,
    hash: &str,
    words: &[&str],
) -> Option<String> {
    if let Some(line) = of_options(alloc, fault, size, hash) {
        return Some(line);
    }
    let list = List {
        called: "name",
        words,
        each: NAMES,
        most: size as usize,
        few: "no more words than slots",
    };
    let names = names_of(alloc, words).ok()?;
    list.reason(alloc, fault, names.as_slice())
}

// What is said of a fault of one of the lists of `compare`.
fn of_members_in(
    alloc: Global,
    fault: CliFault,
    size: u32,
    called: &str,
    text: &str,
) -> Option<String> {
    let words: Vec<&str> = text.split(' ').collect(alloc).ok()?;
    let words = words.as_slice();
    let list = List {
        called,
        words,
        each: MEMBERS,
        most: MOST_MEMBERS.min(size as usize),
        few: "no more words than slots, and at most 4096",
    };
    let names = member_names(alloc, words).ok()?;
    list.reason(alloc, fault, names.as_slice())
}

/// The same of `compare`.
pub(crate) fn of_members(
    alloc: Global,
    fault: CliFault,
    size: u32,
    hash: &str,
    old: &str,
    new: &str,
) -> Option<String> {
    if let Some(line) = of_options(alloc, fault, size, hash) {
        return Some(line);
    }
    if let Some(line) = of_members_in(alloc, fault, size, "--old, word", old) {
        return Some(line);
    }
    of_members_in(alloc, fault, size, "--new, word", new)
}
