//! Where it is shown how far a command is.
use clap::ArgMatches;
use lazy_files::is_pipe;
use read_progress::{AtEnd, Place, Showing};
use std::io::IsTerminal;

// Where it is shown: on a terminal, or, where that is asked for, in a file. A pipe gets nothing of it.
fn place_of(rt: &HostRuntime, is_asked: bool) -> Option<Place> {
    if rt.stderr().is_terminal() {
        Some(Place::Line)
    } else if is_asked && !is_pipe(rt, "/dev/stderr") {
        Some(Place::Lines)
    } else {
        None
    }
}

/// How a command shows how far it is. Where it `prints` lines on a terminal meanwhile, nothing is shown.
pub fn showing_of<'a>(
    rt: &HostRuntime,
    matches: &ArgMatches<'_>,
    prints: bool,
    at_end: AtEnd<'a>,
) -> Option<Showing<'a>> {
    if prints && rt.stdout().is_terminal() {
        return None;
    }
    let is_eager = matches.get_flag("progress");
    let place = place_of(rt, is_eager)?;
    Some(Showing {
        place,
        is_eager,
        at_end,
    })
}
