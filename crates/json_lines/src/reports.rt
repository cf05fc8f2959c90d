//! The report: the counts of a run.
ghost use Rattle.std.specs.Prelude.{◌≡◌, ◌++◌, OnOk, string_bytes};
ghost use Rattle.run_report.specs.Report.{count_of};
ghost use Rattle.json_lines.specs.Reports.{drop_member, drop_members, dropped_member, record_members, came_members, rest_members, total_members, report_json};

use crate::members::BoolText;
use cluster_core::{Totals, number};
use cluster_node::Cause;
use event_trace::Tally;
use run_report::{CAUSES, CauseText};
use std::alloc::AllocError;

// How often a cause came, after a comma where it isn't the first one.
fn push_drop(text: &mut String, cause: Cause, count: u64) -> Result<(), AllocError>
    ensures { OnOk result (string_bytes text.new ≡ string_bytes text.old ++ drop_member cause count) }
{
    let comma = if number(cause) == 1 { "" } else { "," };
    let cause = CauseText(cause);
    write!(text, "{comma}\"{cause}\":{count}")
}

fn count_of(counts: &[u64; 13], cause: Cause) -> u64
    ensures { result ≡ count_of counts.now cause }
{
    counts[usize::from(number(cause)) - 1]
}

// How often each cause came.
#[tactic(auto, unfolding(crate::specs::Reports::drop_members))]
fn push_drops(text: &mut String, counts: &[u64; 13]) -> Result<(), AllocError>
    ensures { OnOk result (string_bytes text.new ≡ string_bytes text.old ++ drop_members counts.now) }
{
    for cause in CAUSES {
        push_drop(text, cause, count_of(counts, cause))?;
    }
    Ok(())
}

// What became of the capture's records.
fn push_records(text: &mut String, tally: Tally, is_cut: bool) -> Result<(), AllocError>
    ensures { OnOk result (string_bytes text.new ≡ string_bytes text.old ++ record_members tally is_cut) }
{
    let Tally {
        packets,
        lost,
        unrouted,
        skipped,
        left,
    } = tally;
    let cut = BoolText(is_cut);
    write!(
        text,
        "\"packets\":{packets},\"lost\":{lost},\"unrouted\":{unrouted},\"skipped\":{skipped},\"left\":{left},\"cut\":{cut}"
    )
}

// How many packets arrived at a node, and how many of them were sent.
#[tactic(auto, unfolding(crate::specs::Reports::came_members))]
fn push_came(text: &mut String, received: u64, forwarded: u64) -> Result<(), AllocError>
    ensures { OnOk result (string_bytes text.new ≡ string_bytes text.old ++ came_members received forwarded) }
{
    write!(text, "\"received\":{received},\"forwarded\":{forwarded}")
}

// All causes with their counts, as an object between commas.
#[tactic(auto, unfolding(crate::specs::Reports::dropped_member))]
fn push_dropped(text: &mut String, counts: &[u64; 13]) -> Result<(), AllocError>
    ensures { OnOk result (string_bytes text.new ≡ string_bytes text.old ++ dropped_member counts.now) }
{
    text.push_str(",\"dropped\":{")?;
    push_drops(text, counts)?;
    text.push_str("},")
}

// How many packets wait, and how many events were refused.
#[tactic(auto, unfolding(crate::specs::Reports::rest_members))]
fn push_rest(text: &mut String, waiting: u64, refused: u64) -> Result<(), AllocError>
    ensures { OnOk result (string_bytes text.new ≡ string_bytes text.old ++ rest_members waiting refused) }
{
    write!(text, "\"waiting\":{waiting},\"refused\":{refused}")
}

// What became of the packets that arrived at a node.
fn push_totals(text: &mut String, totals: &Totals) -> Result<(), AllocError>
    ensures { OnOk result (string_bytes text.new ≡ string_bytes text.old ++ total_members totals.now) }
{
    push_came(text, totals.received, totals.forwarded)?;
    push_dropped(text, &totals.dropped)?;
    push_rest(text, totals.waiting, totals.refused)
}

/// Puts the report of a run after a text. Its capture was cut off in a record or wasn't.
pub fn push_json_report(
    text: &mut String,
    tally: Tally,
    totals: &Totals,
    is_cut: bool,
) -> Result<(), AllocError>
    ensures { OnOk result (string_bytes text.new ≡ string_bytes text.old ++ report_json tally totals.now is_cut) }
{
    text.push_str("{\"type\":\"report\",")?;
    push_records(text, tally, is_cut)?;
    text.push_str(",")?;
    push_totals(text, totals)?;
    text.push_str("}\n")
}
