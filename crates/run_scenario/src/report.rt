//! The report of a run.
ghost use Rattle.std.specs.Prelude.{◌≡◌, IfOk, string_bytes};
ghost use Rattle.simulate_scenario.specs.Answers.{is_cut};
ghost use Rattle.run_scenario.specs.Runs.{audited_report};

use cluster_core::Totals;
use event_trace::Tally;
use json_lines::Form;
use pcap_file::InputEnd;
use simulate_scenario::is_cut;
use std::alloc::{AllocError, Global};

/// The report: the counts, and whether the history agrees with its replay.
pub(crate) fn audited_report(
    alloc: Global,
    form: Form,
    tally: Tally,
    totals: &Totals,
    ending: InputEnd,
    agrees: bool,
) -> Result<String, AllocError>
    ensures { IfOk result (λ s. string_bytes s ≡ audited_report form tally totals.now (is_cut ending) agrees) }
{
    let mut text = form.report(alloc, tally, totals, is_cut(ending))?;
    form.push_audit(&mut text, agrees)?;
    Ok(text)
}
