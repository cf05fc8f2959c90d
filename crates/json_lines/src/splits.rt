//! The lines of the splits, and their counts.
ghost use Rattle.std.specs.Prelude.{◌≡◌, ◌≤◌, ◌+◌, ◌-◌, ◌++◌, OnOk, string_bytes};
ghost use Rattle.std.specs.List.{flat_map};
ghost use Rattle.selection.specs.Candidates.{candidates_of};
ghost use Rattle.run_report.specs.Causes.{Lookups, lookups_of};
ghost use Rattle.json_lines.specs.Splits.{split_line, split_json, counts_line, counts_json, told_json};

use crate::members::BackendMembers;
use hash_laws::FlowHash;
use maglev_texts::{AddressText, FlowText};
use pool_versions::Catalogue;
use run_report::{
    Gone, Sending, Split, SplitCause, SplitCauseText, cause_where, does_anybody_drain, gone_of,
    slot_of,
};
use std::alloc::AllocError;
use std::fmt;

/// A packet that was sent, printed as `"event":EVENT,"version":VERSION,"backend":"NAME","address":"ADDRESS"`.
#[derive(Clone, Copy)]
pub(crate) struct SendMembers(pub(crate) Sending);

impl fmt::Display for SendMembers {
    ghost use Rattle.std.specs.Prelude.{Some};
    ghost use Rattle.json_lines.specs.Splits.{send_members};

    ghost output = { λ s. Some (send_members s.0) };

    fn fmt<W: fmt::Write>(&self, f: &mut fmt::Formatter<W>) -> fmt::Result {
        let number = self.0.number;
        let origin = self.0.origin;
        let backend = BackendMembers(self.0.backend);
        write!(f, "\"event\":{number},\"version\":{origin},{backend}")
    }
}

/// A flow's slot and why it was split, with the flow before them. They are printed as a split's members before its sends.
#[derive(Clone, Copy)]
pub(crate) struct SplitMembers(pub(crate) Split, pub(crate) u32, pub(crate) SplitCause);

impl fmt::Display for SplitMembers {
    ghost use Rattle.std.specs.Prelude.{Some};
    ghost use Rattle.json_lines.specs.Splits.{split_members};

    ghost output = { λ s. Some (split_members s.0 s.1 s.2) };

    fn fmt<W: fmt::Write>(&self, f: &mut fmt::Formatter<W>) -> fmt::Result {
        let flow = FlowText(self.0.later.flow);
        let client = AddressText(self.0.later.flow.src);
        let slot = self.1;
        let cause = SplitCauseText(self.2);
        write!(
            f,
            "\"type\":\"split\",\"flow\":\"{flow}\",\"client\":\"{client}\",\"slot\":{slot},\"cause\":\"{cause}\""
        )
    }
}

fn push_split(
    text: &mut String,
    split: &Split,
    slot: u32,
    cause: SplitCause,
) -> Result<(), AllocError>
    ensures { OnOk result (string_bytes text.new ≡ string_bytes text.old ++ split_line split.now slot cause) }
{
    let members = SplitMembers(*split, slot, cause);
    let first = SendMembers(split.first);
    let later = SendMembers(split.later);
    write!(
        text,
        "{{{members},\"first\":{{{first}}},\"later\":{{{later}}}}}\n"
    )
}

// The line of each split.
fn push_lines<H: FlowHash>(
    text: &mut String,
    hash: &H,
    catalogue: &Catalogue,
    splits: &[Split],
) -> Result<(), AllocError>
    ensures { OnOk result (string_bytes text.new ≡ string_bytes text.old
        ++ flat_map (split_json (lookups_of (H.plain hash.now) catalogue.now.size catalogue.now)) splits.now) }
{
    let drains = does_anybody_drain(catalogue);
    for split in splits {
        let cause = cause_where(catalogue, drains, split);
        let slot = slot_of(hash, catalogue, &split.later.flow);
        push_split(text, split, slot, cause)?;
    }
    Ok(())
}

fn push_counts(text: &mut String, flows: usize, split: usize, gone: Gone) -> Result<(), AllocError>
    requires { gone.down + gone.drained ≤ split }
    ensures { OnOk result (string_bytes text.new ≡ string_bytes text.old
        ++ counts_line flows split gone.down (split - (gone.down + gone.drained)) gone.drained) }
{
    let Gone { down, drained } = gone;
    let moved = split - (down + drained);
    write!(
        text,
        "{{\"type\":\"splits\",\"flows\":{flows},\"split\":{split},\"down\":{down},\"moved\":{moved},\"drained\":{drained}}}\n"
    )
}

/// Puts the line of the counts of some splits after a text, with so many flows.
pub(crate) fn push_told_counts(
    text: &mut String,
    catalogue: &Catalogue,
    flows: usize,
    splits: &[Split],
) -> Result<(), AllocError>
    ensures { (lookups : Lookups) → lookups.ups ≡ (λ v x. candidates_of catalogue.now v x) → lookups.versions ≡ catalogue.now.versions →
        OnOk result (string_bytes text.new ≡ string_bytes text.old ++ counts_json lookups flows splits.now) }
{
    let gone = gone_of(catalogue, does_anybody_drain(catalogue), splits);
    push_counts(text, flows, splits.len(), gone)
}

/// Puts a line for each of some splits after a text, and then one with the counts of flows, which is given, and splits. Splits
/// whose server left after it had drained are always counted.
pub fn push_json_splits<H: FlowHash>(
    text: &mut String,
    hash: &H,
    catalogue: &Catalogue,
    flows: usize,
    splits: &[Split],
) -> Result<(), AllocError>
    ensures { OnOk result (string_bytes text.new ≡ string_bytes text.old
        ++ told_json (lookups_of (H.plain hash.now) catalogue.now.size catalogue.now) flows splits.now) }
{
    push_lines(text, hash, catalogue, splits)?;
    push_told_counts(text, catalogue, flows, splits)
}
