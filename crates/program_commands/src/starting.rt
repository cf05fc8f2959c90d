//! Whether a flow that begins again is another connection, as the command line says, and how INPUT is read for that.
use crate::USAGE;
use crate::files::FirstReading;
use crate::scenarios::reading_of;
use clap::ArgMatches;
use lazy_files::{is_pipe, is_standard};
use read_progress::AtEnd;
use scenario::Played;
use std::io::Write;

/// Whether flows that begin again are other connections, and after how many microseconds without a segment a SYN begins one too.
#[derive(Clone, Copy)]
pub enum Starting {
    Never,
    Again(Option<u64>),
}

// The digits of a word as a number.
fn number_of(word: &str) -> Option<u64> {
    if !word.bytes().all(|byte| byte.is_ascii_digit()) {
        return None;
    }
    word.parse::<u64>().ok()
}

// The microseconds of a word that names seconds, with up to six places behind a point.
fn micros_of(word: &str) -> Option<u64> {
    let (seconds, part) = match word.split_once('.') {
        Some((seconds, part)) => (seconds, part),
        None => (word, "0"),
    };
    if part.len() > 6 {
        return None;
    }
    let mut micros = number_of(part)?;
    for _ in part.len()..6 {
        micros = micros.checked_mul(10)?;
    }
    number_of(seconds)?
        .checked_mul(1_000_000)?
        .checked_add(micros)
}

// What the command line says of flows that begin again. The error is of a time that isn't one.
fn read_starting(matches: &ArgMatches<'_>) -> Result<Starting, ()> {
    match matches.get_str("syn-after") {
        Some(word) => match micros_of(word) {
            Some(micros) => Ok(Starting::Again(Some(micros))),
            None => Err(()),
        },
        None if matches.get_flag("syn") => Ok(Starting::Again(None)),
        None => Ok(Starting::Never),
    }
}

// Whether INPUT can't be read twice, though it has to be.
fn lacks_second_reading(rt: &HostRuntime, matches: &ArgMatches<'_>, starting: Starting) -> bool {
    let input = matches.get_str("input").unwrap_or("");
    match starting {
        Starting::Never => false,
        Starting::Again(_) => is_standard(input) || is_pipe(rt, input),
    }
}

/// What the command line says of flows that begin again. Where it can't be done that is told, and the status answered: where a time
/// isn't one, or INPUT can't be read twice.
pub fn starting_of(rt: &HostRuntime, matches: &ArgMatches<'_>) -> Result<Starting, u8> {
    let Ok(starting) = read_starting(matches) else {
        let _ = writeln!(
            rt.stderr(),
            "error: --syn-after wants seconds, with up to six places, as 60 or 0.5"
        );
        return Err(USAGE);
    };
    if lacks_second_reading(rt, matches, starting) {
        let _ = writeln!(
            rt.stderr(),
            "error: --syn reads INPUT twice, so that it can be neither - nor a pipe"
        );
        return Err(USAGE);
    }
    Ok(starting)
}

/// How the ordinals of INPUT's records are read for a command, for which a flow that begins again is another connection: after so
/// many microseconds without a segment a SYN begins one again too, where they are given. Where `is_streamed` holds the report is
/// printed as it comes. None where the command line names no INPUT.
pub fn first_reading<'a>(
    rt: &HostRuntime,
    matches: &'a ArgMatches<'_>,
    played: Played,
    is_streamed: bool,
    idle: Option<u64>,
) -> Option<FirstReading<'a>> {
    let reading = reading_of(rt, matches, is_streamed, AtEnd::Gone);
    Some(FirstReading {
        path: matches.get_str("input")?,
        reading,
        played,
        idle,
    })
}
