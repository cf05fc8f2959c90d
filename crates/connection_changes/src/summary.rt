//! How many connections changed their server, how often, and why.
ghost use Rattle.std.specs.Prelude.{◌≡◌, ◌++◌, List, map, IfOk, OnOk, string_bytes};
ghost use Rattle.std.specs.List.{flat_map, count_by};
ghost use Rattle.cluster_node.specs.declared.events.LogEntry.{LogEntry};
ghost use Rattle.selection.specs.Candidates.{candidates_of};
ghost use Rattle.run_report.specs.Causes.{Lookups};
ghost use Rattle.run_report.specs.Report.{count_line};
ghost use Rattle.connection_changes.specs.declared.causes.ChangeCause.{ChangeCause};
ghost use Rattle.connection_changes.specs.Books.{IsChangeBookOf};
ghost use Rattle.connection_changes.specs.Changes.{same_cause, cause_in};
ghost use Rattle.connection_changes.specs.Texts.{causes, cause_line, summary_in, summary_text};
ghost use Rattle.connection_changes.specs.Turns.{reckoned};

use crate::account::Account;
use crate::book::ChangeBook;
use crate::causes::{Change, ChangeCause, cause_with, same_cause};
use crate::lines::ChangeCauseText;
use pool_versions::Catalogue;
use run_report::does_anybody_drain;
use std::alloc::{AllocError, Global};

const CAUSES: [ChangeCause; 7] = [
    ChangeCause::Down,
    ChangeCause::Drained,
    ChangeCause::Node,
    ChangeCause::Restart,
    ChangeCause::Worker,
    ChangeCause::Idle,
    ChangeCause::Evicted,
];

/// Why each connection changed its server. `idle` is the tables' limit, in microseconds.
pub fn causes_of(
    alloc: Global,
    catalogue: &Catalogue,
    idle: Option<u64>,
    changes: &[Change],
) -> Result<Vec<ChangeCause>, AllocError>
    ensures { (lookups : Lookups) → lookups.ups ≡ (λ v x. candidates_of catalogue.now v x) → lookups.versions ≡ catalogue.now.versions →
        IfOk result (λ v. v.items ≡ map (λ c. cause_in lookups idle c) changes.now) }
{
    let drains = does_anybody_drain(catalogue);
    let mut causes = Vec::new(alloc);
    for change in changes {
        let Ok(()) = causes.push(cause_with(catalogue, drains, idle, change)) else {
            return Err(AllocError);
        };
    }
    Ok(causes)
}

/// How many of some causes are this one.
pub fn count_of(causes: &[ChangeCause], cause: ChangeCause) -> usize
    ensures { result ≡ count_by (λ c. same_cause cause c) causes.now }
{
    causes.iter().filter(|one| same_cause(cause, **one)).count()
}

fn push_cause(text: &mut String, cause: ChangeCause, count: usize) -> Result<(), AllocError>
    ensures { OnOk result (string_bytes text.new ≡ string_bytes text.old ++ cause_line cause count) }
{
    let cause = ChangeCauseText(cause);
    write!(text, "changes {cause} {count}\n")
}

// How often there was each cause.
fn push_causes(text: &mut String, made: &[ChangeCause]) -> Result<(), AllocError>
    ensures { OnOk result (string_bytes text.new ≡ string_bytes text.old
        ++ flat_map (λ cause. cause_line cause (count_by (λ c. same_cause cause c) made.now)) causes) }
{
    for cause in CAUSES {
        push_cause(text, cause, count_of(made, cause))?;
    }
    Ok(())
}

fn push_count(text: &mut String, name: &str, count: usize) -> Result<(), AllocError>
    ensures { OnOk result (string_bytes text.new ≡ string_bytes text.old ++ count_line name.now count) }
{
    write!(text, "{name} {count}\n")
}

/// Puts after a text how many connections there were and how many of them changed their server. Behind these it puts how often,
/// and how often for each cause. The causes' counts add up to that of the changes, by `causes_add_up`. `idle` is the limit in microseconds
/// after which an entry of a connection table no longer counts.
pub fn push_told_summary(
    alloc: Global,
    text: &mut String,
    catalogue: &Catalogue,
    idle: Option<u64>,
    account: Account<'_>,
) -> Result<(), AllocError>
    ensures { (lookups : Lookups) → lookups.ups ≡ (λ v x. candidates_of catalogue.now v x) → lookups.versions ≡ catalogue.now.versions →
        OnOk result (string_bytes text.new ≡ string_bytes text.old ++ summary_in lookups idle (reckoned account.entry)) }
{
    let changes = account.changes;
    let causes = causes_of(alloc, catalogue, idle, changes)?;
    push_count(text, "connections", account.connections)?;
    push_count(text, "changed", account.changed)?;
    push_count(text, "changes", changes.len())?;
    push_causes(text, causes.as_slice())
}

/// The same of a book.
pub fn push_summary(
    alloc: Global,
    text: &mut String,
    catalogue: &Catalogue,
    idle: Option<u64>,
    book: &ChangeBook,
) -> Result<(), AllocError>
    ensures { (past : List LogEntry) (lookups : Lookups) → lookups.ups ≡ (λ v x. candidates_of catalogue.now v x) →
        lookups.versions ≡ catalogue.now.versions → IsChangeBookOf past book.now →
        OnOk result (string_bytes text.new ≡ string_bytes text.old ++ summary_text lookups idle past) }
{
    push_told_summary(alloc, text, catalogue, idle, book.account())
}
