//! The commands that play a scenario on one thread, from what the command line says, and the end of each command over files.
use crate::files::{
    CaptureFile, Manner, Paths, Printed, ReadingManner, between_files, explain_files, ordinals_of,
    outcome_of, read_scenario, records_before, sketch_file,
};
use crate::reasons::{Files, Trouble, reason};
use crate::showing::showing_of;
use crate::starting::{Starting, first_reading, starting_of};
use crate::voice::Voice;
use crate::{ABOVE, USAGE};
use change_share::{ChangeCounts, Share};
use clap::ArgMatches;
use command_faults::CliFault;
use connection_table::TableKey;
use json_lines::Form;
use lazy_files::{OutputFile, ReportText, StandardOutput};
use node_part::PartSetup;
use pcap_file::{PcapFault, ToWrite};
use read_progress::AtEnd;
use report_advice::{Asked, advice_of, up_to_report};
use rollout_order::order;
use rollout_plan::plan_as;
use scenario::{Played, read};
use scenario_commands::{simulate_keyed, simulate_listed, simulate_part, simulate_turned};
use scenario_diagnostics::{warning_text, warnings};
use scenario_faults::PlacedFault;
use shown_text::shown;
use simulate_scenario::{Listing, Query, TurnedListing, TwoEvents, Wanted};
use std::alloc::AllocError;
use std::io::Write;

/// The paths that the command line names. What a command sends goes to `output`.
pub(crate) fn paths_of<'a>(matches: &'a ArgMatches<'_>, output: &'a str) -> Option<Paths<'a>> {
    Some(Paths {
        scenario: matches.get_str("scenario")?,
        input: matches.get_str("input")?,
        output,
    })
}

/// How a command reads its capture.
pub(crate) fn reading_of<'a>(
    rt: &HostRuntime,
    matches: &ArgMatches<'_>,
    prints: bool,
    at_end: AtEnd<'a>,
) -> ReadingManner<'a> {
    ReadingManner {
        is_padded: matches.get_str("cut").is_some(),
        showing: showing_of(rt, matches, prints, at_end),
    }
}

/// The most warnings that are told of one scenario.
const MOST_WARNINGS: usize = 20;

// Tells what a scenario that was played so may not mean as it was meant.
fn warn(rt: &HostRuntime, voice: Voice<'_>, played: Played, text: &[u8]) -> Result<(), AllocError> {
    let Ok(scenario) = read(rt.alloc(), played, text) else {
        return Ok(());
    };
    let warnings = warnings(rt.alloc(), &scenario)?;
    for warning in warnings.iter().take(MOST_WARNINGS) {
        let text = warning_text(rt.alloc(), warning)?;
        let line = shown(rt.alloc(), text.as_str())?;
        voice.warn(line.as_str());
    }
    let more = warnings.len().saturating_sub(MOST_WARNINGS);
    if more > 0 {
        let line = format!(in rt.alloc(); "{more} more of these")?;
        voice.warn(line.as_str());
    }
    Ok(())
}

/// More bytes than a report has.
const REPORT: usize = 4096;

// Tells what may be amiss in a run, by its report and by how INPUT begins.
fn advise(
    rt: &HostRuntime,
    voice: Voice<'_>,
    asked: Asked,
    printed: &Printed<'_>,
) -> Result<(), AllocError> {
    let Ok(text) = str::from_utf8(printed.report.text()) else {
        return Ok(());
    };
    let text = up_to_report(text).as_bytes();
    let start = text.len().saturating_sub(REPORT);
    let Ok(text) = str::from_utf8(&text[start..]) else {
        return Ok(());
    };
    let advice = advice_of(rt.alloc(), asked, text, printed.head.bytes())?;
    for line in advice.iter() {
        voice.warn(line.as_str());
    }
    Ok(())
}

// Where a fault is, and what was expected there.
fn explained(rt: &HostRuntime, paths: Paths<'_>, text: &[u8], trouble: &Trouble) -> Option<String> {
    let records = match trouble.fault {
        CliFault::Capture(PcapFault::TooLong | PcapFault::Read) => records_before(rt, paths.input),
        _ => None,
    };
    let files = Files {
        paths,
        text,
        records,
    };
    reason(rt.alloc(), trouble, &files)
}

/// The end of a command over files. A fault is reported, and where more is said, where it is and what was expected. Without a
/// fault a scenario that may not mean what was meant is warned of then. Of a reader that went away nothing is said.
pub(crate) fn ended(
    rt: &HostRuntime,
    voice: Voice<'_>,
    paths: Paths<'_>,
    played: Played,
    text: &[u8],
    outcome: &Result<(), Trouble>,
) -> u8 {
    if outcome.is_ok() && voice.says_more() {
        let _ = warn(rt, voice, played, text);
    }
    voice.ended(outcome, |trouble| explained(rt, paths, text, trouble))
}

// The share of the connections above which a command ends with a status of its own, where there is one.
fn limit_of(matches: &ArgMatches<'_>) -> Result<Option<Share>, ()> {
    match matches.get_str("fail-above") {
        Some(word) => Share::of_word(word).map(Some).ok_or(()),
        None => Ok(None),
    }
}

// Why a command ends with a status of its own. Where memory is refused the status says it alone.
fn tell_above(rt: &HostRuntime, voice: Voice<'_>, counts: ChangeCounts) {
    let ChangeCounts {
        connections,
        changed,
    } = counts;
    if let Ok(line) = format!(in rt.alloc();
        "{changed} of {connections} connections changed their server: --fail-above wants fewer"
    ) {
        voice.warn(line.as_str());
    }
}

// The status of a run that was printed. Where nothing was sent no share could be above the limit, which is warned of.
fn judged(
    rt: &HostRuntime,
    voice: Voice<'_>,
    limit: Option<Share>,
    counts: Option<ChangeCounts>,
) -> u8 {
    match (limit, counts) {
        (Some(share), Some(counts)) if counts.is_above(share) => {
            tell_above(rt, voice, counts);
            ABOVE
        }
        (Some(_), Some(counts)) if counts.connections == 0 => {
            voice.warn("nothing was sent, so that --fail-above had nothing to judge");
            0
        }
        _ => 0,
    }
}

// The end of a command that plays a scenario from one capture to another.
fn judged_end(
    rt: &HostRuntime,
    voice: Voice<'_>,
    ending: Ending<'_>,
    done: Result<Printed<'_>, Trouble>,
) -> u8 {
    let Ending {
        paths,
        played,
        text,
        limit,
    } = ending;
    match done {
        Ok(printed) => {
            ended(rt, voice, paths, played, text, &Ok(()));
            let asked = Asked {
                all: voice.says_more(),
                judged: limit.is_some(),
            };
            if asked.all || asked.judged {
                let _ = advise(rt, voice, asked, &printed);
            }
            judged(rt, voice, limit, printed.counts)
        }
        Err(trouble) => ended(rt, voice, paths, played, text, &Err(trouble)),
    }
}

// What the end of a command goes by.
struct Ending<'x> {
    paths: Paths<'x>,
    played: Played,
    text: &'x [u8],
    limit: Option<Share>,
}

/// A command that plays a scenario from one capture to another, as the command line says. `play` plays it, with the tables'
/// key, the scenario's text, the input and the output. Its last argument keeps the report, or prints it where it `is_streamed`.
/// Where it is shown how far the reading is, `at_end` is what the line says at its end.
pub fn between_captures<'x, F>(
    rt: &'x HostRuntime,
    matches: &'x ArgMatches<'_>,
    played: Played,
    is_streamed: bool,
    at_end: AtEnd<'x>,
    play: F,
) -> u8
where
    F: FnOnce(
        TableKey,
        &[u8],
        &mut CaptureFile<'x>,
        &mut ToWrite<OutputFile<'x>>,
        &mut ToWrite<ReportText<'x>>,
    ) -> Result<Option<ChangeCounts>, PlacedFault>,
    F: Drop,
    requires { F.IsAlwaysCallable play }
{
    let Some(output) = matches.get_str("output") else {
        return USAGE;
    };
    let Some(paths) = paths_of(matches, output) else {
        return USAGE;
    };
    let Ok(limit) = limit_of(matches) else {
        let _ = writeln!(
            rt.stderr(),
            "error: --fail-above wants a share from 0 to 1, as 0.01"
        );
        return USAGE;
    };
    let (text, read) = read_scenario(rt, paths.scenario);
    let text = text.as_slice();
    let manner = Manner {
        reading: reading_of(rt, matches, is_streamed, at_end),
        is_streamed,
    };
    let done = match read {
        Ok(()) => between_files(rt, &paths, manner, text, play),
        Err(trouble) => Err(trouble),
    };
    let ending = Ending {
        paths,
        played,
        text,
        limit,
    };
    judged_end(rt, Voice::of(rt, matches), ending, done)
}

/// In which form a command prints.
pub fn form_of(matches: &ArgMatches<'_>) -> Form {
    if matches.get_flag("json") {
        Form::Json
    } else {
        Form::Plain
    }
}

/// Whether the changes of connections are counted: where that is asked for, or where the command's status goes by it.
pub fn asks_summary(matches: &ArgMatches<'_>) -> bool {
    matches.get_flag("summary") || matches.get_str("fail-above").is_some()
}

// What is wanted of a run.
fn wanted_of(matches: &ArgMatches<'_>) -> Wanted {
    Wanted {
        list: matches.get_flag("list"),
        splits: matches.get_flag("splits"),
        places: matches.get_flag("where"),
        backends: matches.get_flag("per-backend"),
        nodes: matches.get_flag("per-node"),
        summary: asks_summary(matches),
        form: form_of(matches),
    }
}

// The command `simulate`, where flows that begin again are other connections.
fn run_turned(rt: &HostRuntime, matches: &ArgMatches<'_>, idle: Option<u64>) -> u8 {
    let only = matches.get_one::<u16>("node");
    let wanted = wanted_of(matches);
    let Some(first) = first_reading(rt, matches, Played::InTurn, wanted.list, idle) else {
        return USAGE;
    };
    between_captures(
        rt,
        matches,
        Played::InTurn,
        wanted.list,
        AtEnd::Read,
        |key, text, input, output, report| {
            let ordinals = match ordinals_of(rt, first, key, text) {
                Ok(ordinals) => ordinals,
                Err(stopped) => return Err(stopped),
            };
            let pages = report;
            let listing = Listing { wanted, pages };
            let report = TurnedListing { listing, ordinals };
            let part = PartSetup { only, whole: text };
            let done = simulate_turned(rt.alloc(), key, part, input, output, report);
            done.map(|(counts, _)| counts)
        },
    )
}

// The command `simulate`, where each flow is one connection. A summary alone is written when the run has ended, so that no page is
// needed for it.
fn run_plain(rt: &HostRuntime, matches: &ArgMatches<'_>) -> u8 {
    let only = matches.get_one::<u16>("node");
    let wanted = wanted_of(matches);
    between_captures(
        rt,
        matches,
        Played::InTurn,
        wanted.list,
        AtEnd::Read,
        |key, text, input, output, report| {
            let alloc = rt.alloc();
            match only {
                None if wanted.is_summary() => {
                    let mut report = report;
                    simulate_keyed(alloc, key, text, input, output, &mut report, wanted)
                }
                None => {
                    let done = simulate_listed(alloc, key, text, input, output, report, wanted);
                    done.map(|(counts, _)| counts)
                }
                Some(_) => {
                    let pages = report;
                    let part = PartSetup { only, whole: text };
                    let listing = Listing { wanted, pages };
                    let done = simulate_part(alloc, key, part, input, output, listing);
                    done.map(|(counts, _)| counts)
                }
            }
        },
    )
}

/// The command `simulate`.
pub(crate) fn run_simulate(rt: &HostRuntime, matches: &ArgMatches<'_>) -> u8 {
    match starting_of(rt, matches) {
        Ok(Starting::Never) => run_plain(rt, matches),
        Ok(Starting::Again(idle)) => run_turned(rt, matches, idle),
        Err(status) => status,
    }
}

/// The command `explain`.
pub(crate) fn run_explain(rt: &HostRuntime, matches: &ArgMatches<'_>) -> u8 {
    let (Some(one), Some(other)) = (
        matches.get_one::<u64>("one"),
        matches.get_one::<u64>("other"),
    ) else {
        return USAGE;
    };
    let asked = Query::Events(TwoEvents {
        one,
        other,
        list: matches.get_flag("list"),
        form: form_of(matches),
    });
    let Some(paths) = paths_of(matches, "standard output") else {
        return USAGE;
    };
    let (text, read) = read_scenario(rt, paths.scenario);
    let text = text.as_slice();
    let reading = reading_of(rt, matches, false, AtEnd::Gone);
    let outcome = match read {
        Ok(()) => explain_files(rt, &paths, reading, text, asked),
        Err(trouble) => Err(trouble),
    };
    let voice = Voice::of(rt, matches);
    ended(rt, voice, paths, Played::InTurn, text, &outcome)
}

// What a scenario's versions change, printed on standard output.
fn print_plan(
    rt: &HostRuntime,
    form: Form,
    text: &[u8],
    from: u32,
    to: Option<u32>,
) -> Result<(), Trouble> {
    let mut report = ToWrite::new(StandardOutput::new(rt));
    let outcome = plan_as(rt.alloc(), form, text, from, to, &mut report);
    outcome_of(outcome, &report.into_inner())
}

// In which orders a scenario's servers can be replaced, printed on standard output.
fn print_orders(
    rt: &HostRuntime,
    form: Form,
    text: &[u8],
    from: u32,
    to: u32,
) -> Result<(), Trouble> {
    let mut report = ToWrite::new(StandardOutput::new(rt));
    let outcome = order(rt.alloc(), form, text, from, to, &mut report);
    outcome_of(outcome, &report.into_inner())
}

// What is printed of a scenario's versions.
fn planned(
    rt: &HostRuntime,
    matches: &ArgMatches<'_>,
    text: &[u8],
    from: u32,
) -> Result<(), Trouble> {
    let form = form_of(matches);
    let to = matches.get_one::<u32>("to");
    match to {
        Some(to) if matches.get_flag("order") => print_orders(rt, form, text, from, to),
        _ => print_plan(rt, form, text, from, to),
    }
}

// Whether orders are asked for, but not up to which version.
fn lacks_end(matches: &ArgMatches<'_>) -> bool {
    matches.get_flag("order") && matches.get_one::<u32>("to").is_none()
}

/// The command `plan`.
pub(crate) fn run_plan(rt: &HostRuntime, matches: &ArgMatches<'_>) -> u8 {
    let (Some(scenario), Some(from)) = (matches.get_str("scenario"), matches.get_one::<u32>("from"))
    else {
        return USAGE;
    };
    if lacks_end(matches) {
        let _ = writeln!(rt.stderr(), "error: --order wants TO");
        return USAGE;
    }
    let paths = Paths {
        scenario,
        input: "",
        output: "standard output",
    };
    let (text, read) = read_scenario(rt, scenario);
    let text = text.as_slice();
    let outcome = match read {
        Ok(()) => planned(rt, matches, text, from),
        Err(trouble) => Err(trouble),
    };
    let voice = Voice::of(rt, matches);
    ended(rt, voice, paths, Played::NotAtAll, text, &outcome)
}

/// The command `scenario`.
pub(crate) fn run_sketch(rt: &HostRuntime, matches: &ArgMatches<'_>) -> u8 {
    let Some(input) = matches.get_str("input") else {
        return USAGE;
    };
    let paths = Paths {
        scenario: "",
        input,
        output: "standard output",
    };
    let reading = reading_of(rt, matches, false, AtEnd::Gone);
    let outcome = sketch_file(rt, input, reading);
    let voice = Voice::of(rt, matches);
    ended(rt, voice, paths, Played::InTurn, b"", &outcome)
}
