//! Reads the command line, and says what is wrong with it.
use crate::{GONE, told};
use clap::error::ErrorKind;
use clap::{ArgMatches, Error};
use command_faults::CliFault;
use command_line::command;
use lazy_files::Refusal;
use shown_text::shown;
use std::alloc::{AllocError, Global};
use std::{env, io};

// The words of a command line as a terminal can show them.
fn shown_words(alloc: Global, words: &[String]) -> Result<Vec<String>, AllocError> {
    let mut all = Vec::new(alloc);
    for word in words {
        all.push(shown(alloc, word.as_str())?)?;
    }
    Ok(all)
}

// Says what is wrong with a command line, in words that a terminal can show.
fn complain(rt: &HostRuntime, words: &[String]) -> Result<(), AllocError> {
    let words = shown_words(rt.alloc(), words)?;
    let _ = match matches_of(rt.alloc(), words.as_slice()) {
        Err(error) => error.print(rt),
        Ok(_) => eprintln!(rt; "error: a word of the command line is too long"),
    };
    Ok(())
}

/// What is said of a command line that wasn't read: help, usage, or that memory was refused. A bad command line stays one
/// where its text can't be written. Help that can't be written is a fault, and of a reader that went away nothing is said.
pub fn unread(rt: &HostRuntime, words: &[String], error: &Error) -> u8 {
    if error.kind() == ErrorKind::OutOfMemory {
        return refused(rt);
    }
    let status = error.exit_code() as u8;
    if status != 0 {
        return match complain(rt, words) {
            Ok(()) => status,
            Err(_) => refused(rt),
        };
    }
    match error.print(rt) {
        Ok(()) => status,
        Err(error) if Refusal::of(&error).is_of_reader() => GONE,
        Err(_) => told(rt, CliFault::Write),
    }
}

/// Reports that memory was refused, and answers the status.
pub fn refused(rt: &HostRuntime) -> u8 {
    told(rt, CliFault::Memory)
}

// Whether words ask for more before they name a command.
fn asks_first(words: &[String]) -> bool {
    let [_, flag, command, ..] = words else {
        return false;
    };
    matches!(flag.as_str(), "-v" | "--verbose") && !command.as_str().starts_with('-')
}

// Words that ask for more before they name a command do so after it.
fn put_command_first(words: &mut [String]) {
    if words.len() > 2 && asks_first(words) {
        words.swap(1, 2);
    }
}

/// The words of the program's command line. `maglev -v COMMAND ..` is `maglev COMMAND -v ..`.
pub fn words_of(rt: &HostRuntime) -> io::Result<Vec<String>> {
    let mut words: Vec<String> = env::args(rt)?.collect(rt.alloc())?;
    put_command_first(words.as_mut_slice());
    Ok(words)
}

// `help --help` asks for what `help` prints.
fn asked(words: &[String]) -> &[String] {
    let [_, help, flag, ..] = words else {
        return words;
    };
    if help.as_str() == "help" && matches!(flag.as_str(), "--help" | "-h") {
        &words[..2]
    } else {
        words
    }
}

/// What a command line asks for, by its words.
pub fn matches_of<'a>(alloc: Global, words: &'a [String]) -> Result<ArgMatches<'a>, Error> {
    command(alloc, words)?.try_get_matches_from(asked(words))
}
