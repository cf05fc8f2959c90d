//! How many connections changed their server, how often, and why.
ghost use Rattle.std.specs.Prelude.{◌≡◌, ◌++◌, OnOk, string_bytes};
ghost use Rattle.selection.specs.Candidates.{candidates_of};
ghost use Rattle.run_report.specs.Causes.{Lookups};
ghost use Rattle.connection_changes.specs.Turns.{reckoned};
ghost use Rattle.json_lines.specs.Summaries.{change_members, gone_members, moved_members, why_members, why_end, summary_line, summary_in};

use connection_changes::{Account, ChangeCause, causes_of, count_of};
use pool_versions::Catalogue;
use std::alloc::{AllocError, Global};

// How many connections there were, how many of them changed their server, and how often.
#[tactic(auto, unfolding(crate::specs::Summaries::change_members))]
fn push_changes(
    text: &mut String,
    connections: usize,
    changed: usize,
    changes: usize,
) -> Result<(), AllocError>
    ensures { OnOk result (string_bytes text.new ≡ string_bytes text.old ++ change_members connections changed changes) }
{
    write!(
        text,
        "\"connections\":{connections},\"changed\":{changed},\"changes\":{changes}"
    )
}

// How often a server was no longer there.
#[tactic(auto, unfolding(crate::specs::Summaries::gone_members))]
fn push_gone(text: &mut String, causes: &[ChangeCause]) -> Result<(), AllocError>
    ensures { OnOk result (string_bytes text.new ≡ string_bytes text.old ++ gone_members causes.now) }
{
    let down = count_of(causes, ChangeCause::Down);
    let drained = count_of(causes, ChangeCause::Drained);
    write!(text, "\"down\":{down},\"drained\":{drained}")
}

// How often it was, for each cause.
#[tactic(auto, unfolding(crate::specs::Summaries::moved_members))]
fn push_moved(text: &mut String, causes: &[ChangeCause]) -> Result<(), AllocError>
    ensures { OnOk result (string_bytes text.new ≡ string_bytes text.old ++ moved_members causes.now) }
{
    let node = count_of(causes, ChangeCause::Node);
    let restart = count_of(causes, ChangeCause::Restart);
    let worker = count_of(causes, ChangeCause::Worker);
    let idle = count_of(causes, ChangeCause::Idle);
    let evicted = count_of(causes, ChangeCause::Evicted);
    write!(
        text,
        "\"node\":{node},\"restart\":{restart},\"worker\":{worker},\"idle\":{idle},\"evicted\":{evicted}"
    )
}

// How often there was each cause.
#[tactic(auto, unfolding(crate::specs::Summaries::why_members))]
fn push_why(text: &mut String, causes: &[ChangeCause]) -> Result<(), AllocError>
    ensures { OnOk result (string_bytes text.new ≡ string_bytes text.old ++ why_members causes.now) }
{
    push_gone(text, causes)?;
    text.push_str(",")?;
    push_moved(text, causes)
}

// How often there was each cause, as an object, and the end of the line.
#[tactic(auto, unfolding(crate::specs::Summaries::why_end))]
fn push_end(text: &mut String, causes: &[ChangeCause]) -> Result<(), AllocError>
    ensures { OnOk result (string_bytes text.new ≡ string_bytes text.old ++ why_end causes.now) }
{
    text.push_str(",\"why\":{")?;
    push_why(text, causes)?;
    text.push_str("}}\n")
}

// The line of these counts and causes.
fn push_line(
    text: &mut String,
    connections: usize,
    changed: usize,
    changes: usize,
    causes: &[ChangeCause],
) -> Result<(), AllocError>
    ensures { OnOk result (string_bytes text.new ≡ string_bytes text.old ++ summary_line connections changed changes causes.now) }
{
    text.push_str("{\"type\":\"summary\",")?;
    push_changes(text, connections, changed, changes)?;
    push_end(text, causes)
}

/// Puts after a text how many connections there were and how many of them changed their server. Behind these it puts how often,
/// and for which cause. `idle` is the limit in microseconds after which an entry of a connection table no longer counts.
pub fn push_json_summary(
    alloc: Global,
    text: &mut String,
    catalogue: &Catalogue,
    idle: Option<u64>,
    account: Account<'_>,
) -> Result<(), AllocError>
    ensures { (lookups : Lookups) → lookups.ups ≡ (λ v x. candidates_of catalogue.now v x) → lookups.versions ≡ catalogue.now.versions →
        OnOk result (string_bytes text.new ≡ string_bytes text.old ++ summary_in lookups idle (reckoned account.entry)) }
{
    let changes = account.changes;
    let causes = causes_of(alloc, catalogue, idle, changes)?;
    push_line(
        text,
        account.connections,
        account.changed,
        changes.len(),
        causes.as_slice(),
    )
}
