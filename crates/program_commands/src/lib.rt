//! The program's commands over files and standard streams, from what the command line says; of `run` what it has in common with
//! them.
#![tactic(auto)]

mod described;
mod files;
mod reasons;
mod scenarios;
mod showing;
mod starting;
mod tables;
mod voice;
mod word_reasons;
mod words;

use clap::ArgMatches;
use command_faults::{CliFault, finish};
pub use files::{FirstReading, ordinals_of};
use pcap_file::ToWrite;
pub use scenario::Played;
pub use scenarios::{asks_summary, between_captures, form_of};
use scenarios::{run_explain, run_plan, run_simulate, run_sketch};
pub use showing::showing_of;
pub use starting::{Starting, first_reading, starting_of};
use tables::{run_compare, run_pick, run_table};
pub use words::{matches_of, refused, unread, words_of};

/// The status of a command line that isn't one.
pub const USAGE: u8 = 2;

/// The status where a greater share of the connections changed their server than may.
const ABOVE: u8 = 3;

/// The status where whoever read standard output went away: that of a program which the signal of a broken pipe ends.
const GONE: u8 = 141;

// Reports a fault on standard error, and answers its status.
fn told(rt: &HostRuntime, fault: CliFault) -> u8 {
    finish(&Err(fault), &mut ToWrite::new(rt.stderr()))
}

/// The command that the command line names, unless it is `run`.
pub fn run_without_threads(rt: &HostRuntime, matches: &ArgMatches<'_>) -> u8 {
    match matches.subcommand() {
        Some(("table", inner)) => run_table(rt, inner),
        Some(("pick", inner)) => run_pick(rt, inner),
        Some(("compare", inner)) => run_compare(rt, inner),
        Some(("plan", inner)) => run_plan(rt, inner),
        Some(("scenario", inner)) => run_sketch(rt, inner),
        Some(("simulate", inner)) => run_simulate(rt, inner),
        Some(("explain", inner)) => run_explain(rt, inner),
        _ => USAGE,
    }
}
