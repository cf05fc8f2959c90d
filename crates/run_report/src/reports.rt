//! The report: the counts of a run.
ghost use Rattle.std.specs.Prelude.{◌≡◌, ◌++◌, IfOk, OnOk, string_bytes};
ghost use Rattle.run_report.specs.Report.{count_line, cut_line, drop_line, drops_text, records_text, totals_text, report_text};

use crate::names::CauseText;
use cluster_core::Totals;
use cluster_node::Cause;
use event_trace::Tally;
use std::alloc::{AllocError, Global};

/// The causes in the order in which `Totals` counts them.
pub const CAUSES: [Cause; 13] = [
    Cause::NotIpv4,
    Cause::Truncated,
    Cause::BadHeader,
    Cause::BadChecksum,
    Cause::Fragment,
    Cause::NotTcpUdp,
    Cause::BadTransport,
    Cause::TooLarge,
    Cause::NoService,
    Cause::NoBackend,
    Cause::NoVersion,
    Cause::RingsFull,
    Cause::LostAtRestart,
];

fn push_count(text: &mut String, name: &str, count: u64) -> Result<(), AllocError>
    ensures { OnOk result (string_bytes text.new ≡ string_bytes text.old ++ count_line name.now count) }
{
    write!(text, "{name} {count}\n")
}

fn push_cut(text: &mut String, is_cut: bool) -> Result<(), AllocError>
    ensures { OnOk result (string_bytes text.new ≡ string_bytes text.old ++ cut_line is_cut) }
{
    if is_cut {
        text.push_str("cut yes\n")
    } else {
        text.push_str("cut no\n")
    }
}

fn push_drop(text: &mut String, cause: Cause, count: u64) -> Result<(), AllocError>
    ensures { OnOk result (string_bytes text.new ≡ string_bytes text.old ++ drop_line cause count) }
{
    if count == 0 {
        return Ok(());
    }
    let cause = CauseText(cause);
    write!(text, "drop {cause} {count}\n")
}

#[tactic(auto, using(crate::proofs::Walks::by_number))]
fn push_drops(text: &mut String, counts: &[u64; 13]) -> Result<(), AllocError>
    ensures { OnOk result (string_bytes text.new ≡ string_bytes text.old ++ drops_text counts.now) }
{
    for (cause, count) in CAUSES.iter().zip(counts.iter()) {
        push_drop(text, *cause, *count)?;
    }
    Ok(())
}

// What became of the capture's records.
fn push_records(text: &mut String, tally: Tally, is_cut: bool) -> Result<(), AllocError>
    ensures { OnOk result (string_bytes text.new ≡ string_bytes text.old ++ records_text tally is_cut) }
{
    push_count(text, "packets", u64::from(tally.packets))?;
    push_count(text, "lost", tally.lost)?;
    push_count(text, "unrouted", tally.unrouted)?;
    push_count(text, "skipped", tally.skipped)?;
    push_count(text, "left", u64::from(tally.left))?;
    push_cut(text, is_cut)
}

// What became of the packets that arrived at a node.
fn push_totals(text: &mut String, totals: &Totals) -> Result<(), AllocError>
    ensures { OnOk result (string_bytes text.new ≡ string_bytes text.old ++ totals_text totals.now) }
{
    push_count(text, "received", totals.received)?;
    push_count(text, "forwarded", totals.forwarded)?;
    push_drops(text, &totals.dropped)?;
    push_count(text, "waiting", totals.waiting)?;
    push_count(text, "refused", totals.refused)
}

/// The report of a run, whose capture was cut off in a record or wasn't.
pub fn report_text(
    alloc: Global,
    tally: Tally,
    totals: &Totals,
    is_cut: bool,
) -> Result<String, AllocError>
    ensures { IfOk result (λ s. string_bytes s ≡ report_text tally totals.now is_cut) }
{
    let mut text = String::new(alloc);
    push_records(&mut text, tally, is_cut)?;
    push_totals(&mut text, totals)?;
    Ok(text)
}
