//! The lines of the changes: the splits with where their packets were sent, and why the later one went elsewhere.
ghost use Rattle.std.specs.Prelude.{◌≡◌, ◌++◌, OnOk, string_bytes};
ghost use Rattle.std.specs.List.{flat_map};
ghost use Rattle.run_report.specs.Causes.{lookups_of};
ghost use Rattle.connection_changes.specs.Turns.{reckoned};
ghost use Rattle.json_lines.specs.Places.{change_line, change_json, places_in};

use crate::splits::{SendMembers, SplitMembers, push_told_counts};
use connection_changes::{
    Account, Change, ChangeCause, ChangeCauseText, Site, TimeText, cause_between,
};
use hash_laws::FlowHash;
use pool_versions::Catalogue;
use run_report::{Sending, SplitCause, cause_where, does_anybody_drain, slot_of};
use std::alloc::AllocError;
use std::fmt;

/// Where a packet was sent, printed as `"record":RECORD,"time":TIME,"node":NODE,"worker":WORKER`.
#[derive(Clone, Copy)]
struct SiteMembers(Site);

impl fmt::Display for SiteMembers {
    ghost use Rattle.std.specs.Prelude.{Some};
    ghost use Rattle.json_lines.specs.Places.{site_members};

    ghost output = { λ s. Some (site_members s.0) };

    fn fmt<W: fmt::Write>(&self, f: &mut fmt::Formatter<W>) -> fmt::Result {
        let packet = self.0.packet;
        let time = TimeText(self.0.time);
        let node = self.0.node;
        let worker = self.0.worker;
        write!(
            f,
            "\"record\":{packet},\"time\":{time},\"node\":{node},\"worker\":{worker}"
        )
    }
}

/// A packet that was sent, and where it was.
#[derive(Clone, Copy)]
struct PlacedMembers(Sending, Site);

impl fmt::Display for PlacedMembers {
    ghost use Rattle.std.specs.Prelude.{Some};
    ghost use Rattle.json_lines.specs.Places.{placed_members};

    ghost output = { λ p. Some (placed_members p.0 p.1) };

    #[tactic(auto, unfolding(crate::specs::Places::placed_members))]
    fn fmt<W: fmt::Write>(&self, f: &mut fmt::Formatter<W>) -> fmt::Result {
        let send = SendMembers(self.0);
        let site = SiteMembers(self.1);
        write!(f, "{send},{site}")
    }
}

fn push_change(
    text: &mut String,
    change: &Change,
    slot: u32,
    cause: SplitCause,
    why: ChangeCause,
) -> Result<(), AllocError>
    ensures { OnOk result (string_bytes text.new ≡ string_bytes text.old ++ change_line change.now slot cause why) }
{
    let members = SplitMembers(change.split, slot, cause);
    let why = ChangeCauseText(why);
    let first = PlacedMembers(change.split.first, change.first);
    let later = PlacedMembers(change.split.later, change.later);
    write!(
        text,
        "{{{members},\"why\":\"{why}\",\"first\":{{{first}}},\"later\":{{{later}}}}}\n"
    )
}

// The line of each change.
fn push_changes<H: FlowHash>(
    text: &mut String,
    hash: &H,
    catalogue: &Catalogue,
    idle: Option<u64>,
    changes: &[Change],
) -> Result<(), AllocError>
    ensures { OnOk result (string_bytes text.new ≡ string_bytes text.old
        ++ flat_map (change_json (lookups_of (H.plain hash.now) catalogue.now.size catalogue.now) idle) changes.now) }
{
    let drains = does_anybody_drain(catalogue);
    for change in changes {
        let cause = cause_where(catalogue, drains, &change.split);
        let slot = slot_of(hash, catalogue, &change.split.later.flow);
        let why = cause_between(cause, idle, change);
        push_change(text, change, slot, cause, why)?;
    }
    Ok(())
}

/// Puts a line for each change after a text, and then the counts of the splits. A line is that of the split, with where its two
/// packets were sent, and why the later one went elsewhere. `idle` is the limit in microseconds after which an entry of a
/// connection table no longer counts.
pub fn push_json_places<H: FlowHash>(
    text: &mut String,
    hash: &H,
    catalogue: &Catalogue,
    idle: Option<u64>,
    account: Account<'_>,
) -> Result<(), AllocError>
    ensures { OnOk result (string_bytes text.new ≡ string_bytes text.old
        ++ places_in (lookups_of (H.plain hash.now) catalogue.now.size catalogue.now) idle (reckoned account.entry)) }
{
    push_changes(text, hash, catalogue, idle, account.changes)?;
    push_told_counts(text, catalogue, account.connections, account.splits)
}
