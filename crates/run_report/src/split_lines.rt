//! The lines of the splits, and their counts.
ghost use Rattle.std.specs.Prelude.{◌≡◌, ◌≤◌, ◌+◌, ◌-◌, ◌++◌, List, length, IfOk, OnOk, string_bytes};
ghost use Rattle.std.specs.List.{flat_map};
ghost use Rattle.cluster_node.specs.declared.events.LogEntry.{LogEntry};
ghost use Rattle.selection.specs.Candidates.{candidates_of};
ghost use Rattle.selection.specs.Picks.{slot_of_flow};
ghost use Rattle.run_report.specs.Books.{IsBookOf};
ghost use Rattle.run_report.specs.Splits.{splits_of, flows_of};
ghost use Rattle.run_report.specs.Causes.{Lookups, lookups_of, down_one, drained_one, down_count, drained_count, does_anybody_drain};
ghost use Rattle.run_report.specs.Texts.{line_of, split_line, split_counts, drained_line, counts_text, text_of, splits_text};

use crate::book::SplitBook;
use crate::cause::{SplitCause, cause_where, does_anybody_drain};
use crate::sending::Split;
use crate::verdicts::ChoiceText;
use five_tuple::Flow;
use hash_laws::FlowHash;
use maglev_texts::FlowText;
use pool_versions::Catalogue;
use std::alloc::AllocError;
use std::fmt;

/// Why a flow was split, printed as a word.
#[derive(Clone, Copy, Debug)]
pub struct SplitCauseText(pub SplitCause);

impl fmt::Display for SplitCauseText {
    ghost use Rattle.std.specs.Prelude.{Some};
    ghost use Rattle.run_report.specs.Texts.{cause_text};

    ghost output = { λ c. Some (cause_text c.0) };

    fn fmt<W: fmt::Write>(&self, f: &mut fmt::Formatter<W>) -> fmt::Result {
        match self.0 {
            SplitCause::Down => f.write_str("down"),
            SplitCause::Moved => f.write_str("moved"),
            SplitCause::Drained => f.write_str("drained"),
        }
    }
}

/// A flow and the numbers of two events.
#[derive(Clone, Copy)]
struct EventsText(Flow, u64, u64);

impl fmt::Display for EventsText {
    ghost use Rattle.std.specs.Prelude.{Some};
    ghost use Rattle.run_report.specs.Texts.{events_text};

    ghost output = { λ e. Some (events_text e.0 e.1 e.2) };

    fn fmt<W: fmt::Write>(&self, f: &mut fmt::Formatter<W>) -> fmt::Result {
        let flow = FlowText(self.0);
        let one = self.1;
        let other = self.2;
        write!(f, "{flow} events {one} {other}")
    }
}

/// A flow's slot, and how each of two packets got its backend.
#[derive(Clone, Copy)]
struct ChoicesText(u32, ChoiceText, ChoiceText);

impl fmt::Display for ChoicesText {
    ghost use Rattle.std.specs.Prelude.{Some};
    ghost use Rattle.run_report.specs.Texts.{choices_text};

    ghost output = { λ c. Some (choices_text c.0 c.1.0 c.1.1 c.2.0 c.2.1) };

    fn fmt<W: fmt::Write>(&self, f: &mut fmt::Formatter<W>) -> fmt::Result {
        let slot = self.0;
        let first = self.1;
        let later = self.2;
        write!(f, "slot {slot} {first} {later}")
    }
}

/// A split with its flow's slot and its cause, printed as
/// `split FLOW events I J slot S version V1 BACKEND1 version V2 BACKEND2 CAUSE`.
#[derive(Clone, Copy)]
pub struct SplitText(pub Split, pub u32, pub SplitCause);

impl fmt::Display for SplitText {
    ghost use Rattle.std.specs.Prelude.{Some};
    ghost use Rattle.run_report.specs.Texts.{split_words};

    ghost output = { λ s. Some (split_words s.0 s.1 s.2) };

    fn fmt<W: fmt::Write>(&self, f: &mut fmt::Formatter<W>) -> fmt::Result {
        let split = &self.0;
        let first = ChoiceText(split.first.origin, split.first.backend);
        let later = ChoiceText(split.later.origin, split.later.backend);
        let events = EventsText(split.later.flow, split.first.number, split.later.number);
        let choices = ChoicesText(self.1, first, later);
        let cause = SplitCauseText(self.2);
        write!(f, "split {events} {choices} {cause}")
    }
}

// One for a split whose first backend is down.
fn count_down(cause: SplitCause) -> usize
    ensures { result ≡ down_one cause }
{
    match cause {
        SplitCause::Down => 1,
        SplitCause::Moved | SplitCause::Drained => 0,
    }
}

// One for a split whose first backend left after it had drained.
fn count_drained(cause: SplitCause) -> usize
    ensures { result ≡ drained_one cause }
{
    match cause {
        SplitCause::Drained => 1,
        SplitCause::Down | SplitCause::Moved => 0,
    }
}

/// How many splits have a first backend that is down, and how many one that left after it had drained.
#[derive(Clone, Copy, Debug, PartialEq, Eq)]
pub struct Gone {
    pub down: usize,
    pub drained: usize,
}

/// The slot of a flow in tables of the catalogue's size.
pub fn slot_of<H: FlowHash>(hash: &H, catalogue: &Catalogue, flow: &Flow) -> u32
    ensures { result ≡ slot_of_flow (H.plain hash.now) catalogue.now.size flow.now }
{
    let size = catalogue.size().slots();
    (hash.hash(b'f', &flow.bytes()) % u64::from(size)) as u32
}

fn push_split(
    text: &mut String,
    split: &Split,
    slot: u32,
    cause: SplitCause,
) -> Result<(), AllocError>
    ensures { OnOk result (string_bytes text.new ≡ string_bytes text.old ++ line_of split.now slot cause) }
{
    let split = SplitText(*split, slot, cause);
    write!(text, "{split}\n")
}

// Where a member of a version drains, the line of those that had drained.
fn push_drained(text: &mut String, drains: bool, drained: usize) -> Result<(), AllocError>
    ensures { OnOk result (string_bytes text.new ≡ string_bytes text.old ++ drained_line drains drained) }
{
    if !drains {
        return Ok(());
    }
    write!(text, "drained {drained}\n")
}

fn push_counts(
    text: &mut String,
    flows: usize,
    split: usize,
    gone: Gone,
    drains: bool,
) -> Result<(), AllocError>
    requires { gone.down + gone.drained ≤ split }
    ensures { OnOk result (string_bytes text.new ≡ string_bytes text.old ++ (split_counts flows split gone.down (split - (gone.down + gone.drained))
        ++ drained_line drains gone.drained)) }
{
    let Gone { down, drained } = gone;
    let moved = split - (down + drained);
    write!(
        text,
        "flows {flows}\nsplit {split}\ndown {down}\nmoved {moved}\n"
    )?;
    push_drained(text, drains, drained)
}

// The line of each split. The answer is how many have the cause `down`, and how many `drained`.
fn push_lines<H: FlowHash>(
    text: &mut String,
    hash: &H,
    catalogue: &Catalogue,
    drains: bool,
    splits: &[Split],
) -> Result<Gone, AllocError>
    requires { drains ≡ does_anybody_drain catalogue.now.versions }
    ensures text { OnOk result (string_bytes text.new
        ≡ string_bytes text.old ++ flat_map (split_line (lookups_of (H.plain hash.now) catalogue.now.size catalogue.now)) splits.now) }
    ensures down { IfOk result (λ g. g.down ≡ down_count (lookups_of (H.plain hash.now) catalogue.now.size catalogue.now) splits.now) }
    ensures drained { IfOk result (λ g. g.drained ≡ drained_count (lookups_of (H.plain hash.now) catalogue.now.size catalogue.now) splits.now) }
{
    let mut down = 0;
    let mut drained = 0;
    for split in splits {
        let cause = cause_where(catalogue, drains, split);
        let slot = slot_of(hash, catalogue, &split.later.flow);
        push_split(text, split, slot, cause)?;
        down += count_down(cause);
        drained += count_drained(cause);
    }
    Ok(Gone { down, drained })
}

/// How many splits have the cause `down`, and how many `drained`, where it is known whether a member of a version drains.
pub fn gone_of(catalogue: &Catalogue, drains: bool, splits: &[Split]) -> Gone
    requires { drains ≡ does_anybody_drain catalogue.now.versions }
    ensures down { (lookups : Lookups) → lookups.ups ≡ (λ v x. candidates_of catalogue.now v x) → lookups.versions ≡ catalogue.now.versions →
        result.down ≡ down_count lookups splits.now }
    ensures drained { (lookups : Lookups) → lookups.ups ≡ (λ v x. candidates_of catalogue.now v x) → lookups.versions ≡ catalogue.now.versions →
        result.drained ≡ drained_count lookups splits.now }
{
    let mut down = 0;
    let mut drained = 0;
    for split in splits {
        let cause = cause_where(catalogue, drains, split);
        down += count_down(cause);
        drained += count_drained(cause);
    }
    Gone { down, drained }
}

/// Puts the counts that come after the lines of the splits after a text, of so many flows: those of `push_told_splits`, without
/// the lines.
pub fn push_told_counts(
    text: &mut String,
    catalogue: &Catalogue,
    flows: usize,
    splits: &[Split],
) -> Result<(), AllocError>
    ensures { (lookups : Lookups) → lookups.ups ≡ (λ v x. candidates_of catalogue.now v x) → lookups.versions ≡ catalogue.now.versions →
        OnOk result (string_bytes text.new ≡ string_bytes text.old ++ counts_text lookups flows splits.now) }
{
    let drains = does_anybody_drain(catalogue);
    let gone = gone_of(catalogue, drains, splits);
    push_counts(text, flows, splits.len(), gone, drains)
}

/// Puts a line for each of some splits after a text. Then it puts how many flows were sent, which is given, how many splits there
/// are, and how many of them have each cause. Flows have their slots by the hash and the size of the catalogue's tables. Splits
/// whose server left after it had drained are counted only where a member of a version drains.
pub fn push_told_splits<H: FlowHash>(
    text: &mut String,
    hash: &H,
    catalogue: &Catalogue,
    flows: usize,
    splits: &[Split],
) -> Result<(), AllocError>
    ensures { OnOk result (string_bytes text.new ≡ string_bytes text.old
        ++ text_of (lookups_of (H.plain hash.now) catalogue.now.size catalogue.now) flows splits.now) }
{
    let drains = does_anybody_drain(catalogue);
    let gone = push_lines(text, hash, catalogue, drains, splits)?;
    push_counts(text, flows, splits.len(), gone, drains)
}

/// The same counts, of a book.
pub fn push_split_counts<T: Copy>(
    text: &mut String,
    catalogue: &Catalogue,
    book: &SplitBook<T>,
) -> Result<(), AllocError>
    ensures { (past : List LogEntry) (lookups : Lookups) → lookups.ups ≡ (λ v x. candidates_of catalogue.now v x) →
        lookups.versions ≡ catalogue.now.versions → IsBookOf past book.now →
        OnOk result (string_bytes text.new ≡ string_bytes text.old ++ counts_text lookups (length (flows_of past)) (splits_of past)) }
{
    push_told_counts(text, catalogue, book.flows(), book.splits())
}

/// The lines of a book's splits, and their counts, as `push_told_splits` has them.
pub fn push_splits<H: FlowHash, T: Copy>(
    text: &mut String,
    hash: &H,
    catalogue: &Catalogue,
    book: &SplitBook<T>,
) -> Result<(), AllocError>
    ensures { (past : List LogEntry) → IsBookOf past book.now →
        OnOk result (string_bytes text.new ≡ string_bytes text.old ++ splits_text (lookups_of (H.plain hash.now) catalogue.now.size catalogue.now) past) }
{
    push_told_splits(text, hash, catalogue, book.flows(), book.splits())
}
