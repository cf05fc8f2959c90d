//! The commands about tables, from what the command line says.
use crate::USAGE;
use crate::described::{compare_described, pick_described, table_described};
use crate::files::outcome_of;
use crate::reasons::Trouble;
use crate::scenarios::form_of;
use crate::voice::Voice;
use crate::word_reasons::{of_members, of_names};
use clap::ArgMatches;
use command_faults::CliFault;
use lazy_files::StandardOutput;
use pcap_file::{FromRead, ToWrite};
use scenario_faults::PlacedFault;
use table_commands::{TableOptions, compare_as, pick_as, table_as};

// The end of a command that printed on standard output.
fn ended<F: FnOnce(&Trouble) -> Option<String> + Drop>(
    rt: &HostRuntime,
    matches: &ArgMatches<'_>,
    outcome: Result<(), CliFault>,
    output: ToWrite<StandardOutput<'_>>,
    reason: F,
) -> u8
    requires { F.IsAlwaysCallable reason }
{
    let outcome = outcome.map_err(|fault| PlacedFault { fault, place: None });
    let outcome = outcome_of(outcome, &output.into_inner());
    Voice::of(rt, matches).ended(&outcome, reason)
}

// What is asked of a table alike.
fn options_of<'a>(matches: &ArgMatches<'_>, size: u32, hash: &'a str) -> TableOptions<'a> {
    let form = form_of(matches);
    TableOptions { form, size, hash }
}

/// The command `table`.
pub(crate) fn run_table(rt: &HostRuntime, matches: &ArgMatches<'_>) -> u8 {
    if let Some(scenario) = matches.get_str("described") {
        return table_described(rt, matches, scenario);
    }
    let (Some(size), Some(hash), Some(names)) = (
        matches.get_one::<u32>("size"),
        matches.get_str("hash"),
        matches.get_strs("names"),
    ) else {
        return USAGE;
    };
    if names.is_empty() {
        return USAGE;
    }
    let mut out = ToWrite::new(StandardOutput::new(rt));
    let options = options_of(matches, size, hash);
    let outcome = table_as(rt.alloc(), options, names, &mut out);
    ended(
        rt,
        matches,
        outcome,
        out,
        |trouble| of_names(rt.alloc(), trouble.fault, size, hash, names),
    )
}

/// The command `pick`, over standard input.
pub(crate) fn run_pick(rt: &HostRuntime, matches: &ArgMatches<'_>) -> u8 {
    if let Some(scenario) = matches.get_str("described") {
        return pick_described(rt, matches, scenario);
    }
    let (Some(size), Some(hash), Some(names)) = (
        matches.get_one::<u32>("size"),
        matches.get_str("hash"),
        matches.get_strs("names"),
    ) else {
        return USAGE;
    };
    if names.is_empty() {
        return USAGE;
    }
    let check = !matches.get_flag("no-check");
    let mut input = FromRead::new(rt.stdin());
    let mut out = ToWrite::new(StandardOutput::new(rt));
    let options = options_of(matches, size, hash);
    let outcome = pick_as(rt.alloc(), options, check, names, &mut input, &mut out);
    ended(
        rt,
        matches,
        outcome,
        out,
        |trouble| of_names(rt.alloc(), trouble.fault, size, hash, names),
    )
}

/// The command `compare`.
pub(crate) fn run_compare(rt: &HostRuntime, matches: &ArgMatches<'_>) -> u8 {
    if let Some(scenario) = matches.get_str("described") {
        return compare_described(rt, matches, scenario);
    }
    let (Some(size), Some(hash), Some(old), Some(new)) = (
        matches.get_one::<u32>("size"),
        matches.get_str("hash"),
        matches.get_str("old"),
        matches.get_str("new"),
    ) else {
        return USAGE;
    };
    let mut out = ToWrite::new(StandardOutput::new(rt));
    let options = options_of(matches, size, hash);
    let outcome = compare_as(rt.alloc(), options, old, new, &mut out);
    ended(
        rt,
        matches,
        outcome,
        out,
        |trouble| of_members(rt.alloc(), trouble.fault, size, hash, old, new),
    )
}
