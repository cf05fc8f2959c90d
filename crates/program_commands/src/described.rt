//! The commands about tables where a scenario has the size, the hash and the members.
use crate::USAGE;
use crate::files::{Paths, outcome_of, read_scenario};
use crate::scenarios::{ended, form_of};
use crate::voice::Voice;
use clap::ArgMatches;
use lazy_files::StandardOutput;
use pcap_file::{FromRead, ToWrite};
use scenario::Played;
use scenario_faults::PlacedFault;
use scenario_tables::{Change, PickOptions, compare_in, pick_in, table_in};

/// What a command's INPUT is called that reads no file.
pub(crate) const STANDARD_INPUT: &str = "standard input";

// A command over the text of a scenario's file. `print` prints what is asked of it.
fn over_text<'x, F>(rt: &'x HostRuntime, matches: &ArgMatches<'_>, scenario: &str, print: F) -> u8
where
    F: FnOnce(&[u8], &mut ToWrite<StandardOutput<'x>>) -> Result<(), PlacedFault> + Drop,
    requires { F.IsAlwaysCallable print }
{
    let paths = Paths {
        scenario,
        input: STANDARD_INPUT,
        output: "standard output",
    };
    let (text, read) = read_scenario(rt, scenario);
    let text = text.as_slice();
    let outcome = match read {
        Ok(()) => {
            let mut out = ToWrite::new(StandardOutput::new(rt));
            let outcome = print(text, &mut out);
            outcome_of(outcome, &out.into_inner())
        }
        Err(trouble) => Err(trouble),
    };
    let voice = Voice::of(rt, matches);
    ended(rt, voice, paths, Played::NotAtAll, text, &outcome)
}

/// The command `table` over a scenario.
pub(crate) fn table_described(rt: &HostRuntime, matches: &ArgMatches<'_>, scenario: &str) -> u8 {
    let Some(version) = matches.get_one::<u32>("version") else {
        return USAGE;
    };
    let service = matches.get_str("service");
    let form = form_of(matches);
    over_text(
        rt,
        matches,
        scenario,
        |text, out| table_in(rt.alloc(), form, text, version, service, out),
    )
}

/// The command `pick` over a scenario, with a datagram from standard input.
pub(crate) fn pick_described(rt: &HostRuntime, matches: &ArgMatches<'_>, scenario: &str) -> u8 {
    let Some(version) = matches.get_one::<u32>("version") else {
        return USAGE;
    };
    let options = PickOptions {
        form: form_of(matches),
        version,
        check: !matches.get_flag("no-check"),
    };
    over_text(rt, matches, scenario, |text, out| {
        let mut input = FromRead::new(rt.stdin());
        pick_in(rt.alloc(), text, options, &mut input, out)
    })
}

/// The command `compare` over a scenario.
pub(crate) fn compare_described(rt: &HostRuntime, matches: &ArgMatches<'_>, scenario: &str) -> u8 {
    let (Some(from), Some(to)) = (matches.get_one::<u32>("from"), matches.get_one::<u32>("to"))
    else {
        return USAGE;
    };
    let service = matches.get_str("service");
    let change = Change { from, to, service };
    let form = form_of(matches);
    over_text(
        rt,
        matches,
        scenario,
        |text, out| compare_in(rt.alloc(), form, text, change, out),
    )
}
