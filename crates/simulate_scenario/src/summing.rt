//! A report with a summary alone, of a run without an idle limit.
ghost use Rattle.std.specs.Prelude.{◌≡◌, ◌++◌, ◌∷◌, [], List, reverse, IfOk, OnOk, string_bytes};
ghost use Rattle.cluster_node.specs.declared.events.LogEntry.{LogEntry};
ghost use Rattle.cluster_core.specs.Deployed.{IsBalanced};
ghost use Rattle.cluster_core.specs.Histories.{outcomes_of};
ghost use Rattle.event_trace.specs.Counting.{CountsAre};
ghost use Rattle.connection_changes.specs.Turns.{reckoning_of};
ghost use Rattle.summary_book.specs.Bare.{bare_reckoning};
ghost use Rattle.summary_book.specs.Books.{IsSummaryOf};
ghost use Rattle.json_lines.specs.Forms.{summary_by};
ghost use Rattle.run_report.specs.Causes.{lookups_of};
ghost use Rattle.simulate_scenario.specs.Answers.{plain_report};
ghost use Rattle.simulate_scenario.specs.Asked.{begun};
ghost use Rattle.simulate_scenario.specs.Summed.{AreSummed};

use crate::answering::{Answering, plain_report};
use crate::asking::{Answer, Wanted};
use crate::ended::Ended;
use cluster_core::Deployment;
use cluster_node::{Event, Outcome, Packet};
use connection_table::TableKey;
use event_trace::{Counts, Notes, Task};
use hash_laws::{AnyHash, FlowHash};
use json_lines::Form;
use named_scheme::NamedScheme;
use selection::Scheme;
use std::alloc::{AllocError, Global};
use summary_book::SummaryBook;

/// The notes of a report with a summary alone, of a run without an idle limit.
#[derive(Drop)]
pub(crate) struct SummaryNotes {
    counts: Counts,
    book: SummaryBook,
}

impl SummaryNotes {
    /// Nothing was noted. The book hashes flows by the key.
    pub(crate) fn new(alloc: Global, key: TableKey) -> SummaryNotes
        ensures { AreSummed [] result }
    {
        SummaryNotes {
            counts: Counts::new(),
            book: SummaryBook::new(alloc, key),
        }
    }
}

// The report with the summary behind it.
fn summed<S: Scheme, H: FlowHash>(
    alloc: Global,
    form: Form,
    deployment: &Deployment<S, H>,
    ended: &Ended,
    notes: &SummaryNotes,
) -> Result<String, AllocError>
    requires balance { IsBalanced (reverse ended.now.trace.past) }
    requires counts { CountsAre (outcomes_of ended.now.trace.past) notes.now.counts }
    requires book { IsSummaryOf ended.now.trace.past notes.now.book }
    ensures { let lookups = lookups_of (H.plain deployment.now.setup.hash) deployment.now.setup.size deployment.now.catalogue in
        IfOk result (λ s. string_bytes s ≡ (begun form ++ plain_report form ended.now.trace ended.now.packets ended.now.ending)
        ++ summary_by form lookups deployment.now.setup.idle (bare_reckoning (reckoning_of ended.now.trace.past))) }
{
    let mut text = String::new(alloc);
    form.push_head(&mut text, "simulate")?;
    let report = plain_report(alloc, form, ended, &notes.counts)?;
    text.push_str(report.as_str())?;
    let idle = deployment.setup().idle();
    let account = notes.book.account();
    form.push_told_summary(alloc, &mut text, deployment.catalogue(), idle, account)?;
    Ok(text)
}

impl Notes for SummaryNotes {
    type Query = Wanted;

    ghost use Rattle.simulate_scenario.specs.Summed.{AreSummed};

    ghost are_of = { λ asked past notes. AreSummed past notes };

    #[inline(always)]
    fn note(
        &mut self,
        asked: &Wanted,
        event: &Event,
        packet: Option<&Packet>,
        outcome: &Outcome,
    ) -> Result<(), AllocError> {
        let _ = asked;
        let _ = packet;
        self.counts.count(outcome)?;
        self.book.note(event, outcome)
    }
}

impl Answering for SummaryNotes {
    ghost use Rattle.simulate_scenario.specs.declared.asking.Answer.{Answer};
    ghost use Rattle.simulate_scenario.specs.Summed.{IsSummedAnswer};

    ghost is_answered = { λ asked _ answer lookups idle trace packets ending. IsSummedAnswer asked answer lookups idle trace packets ending };

    fn answer(
        &mut self,
        alloc: Global,
        task: &Task<NamedScheme, AnyHash, Wanted>,
        ended: &Ended,
    ) -> Result<Answer, AllocError> {
        self.book.settle()?;
        let text = summed(alloc, task.asked.form, &task.deployment, ended, self)?;
        let counts = Some(self.book.counts());
        Ok(Answer { text, counts })
    }
}
