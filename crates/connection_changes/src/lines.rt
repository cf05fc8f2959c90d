//! The lines of the changes.
ghost use Rattle.std.specs.Prelude.{◌≡◌, ◌++◌, List, OnOk, string_bytes};
ghost use Rattle.std.specs.List.{flat_map};
ghost use Rattle.cluster_node.specs.declared.events.LogEntry.{LogEntry};
ghost use Rattle.run_report.specs.Causes.{lookups_of, does_anybody_drain};
ghost use Rattle.run_report.specs.Texts.{split_words};
ghost use Rattle.connection_changes.specs.Books.{IsChangeBookOf};
ghost use Rattle.connection_changes.specs.Texts.{places_of, change_line, places_in, places_text};
ghost use Rattle.connection_changes.specs.Turns.{reckoned};

use crate::account::Account;
use crate::book::ChangeBook;
use crate::causes::{Change, ChangeCause, cause_between};
use crate::sites::Site;
use hash_laws::FlowHash;
use pool_versions::Catalogue;
use run_report::{SplitText, cause_where, does_anybody_drain, push_told_counts, slot_of};
use std::alloc::AllocError;
use std::fmt;

/// A cause, printed as its word.
#[derive(Clone, Copy, Debug)]
pub struct ChangeCauseText(pub ChangeCause);

impl fmt::Display for ChangeCauseText {
    ghost use Rattle.std.specs.Prelude.{Some};
    ghost use Rattle.connection_changes.specs.Texts.{cause_text};

    ghost output = { λ c. Some (cause_text c.0) };

    fn fmt<W: fmt::Write>(&self, f: &mut fmt::Formatter<W>) -> fmt::Result {
        match self.0 {
            ChangeCause::Down => f.write_str("down"),
            ChangeCause::Drained => f.write_str("drained"),
            ChangeCause::Node => f.write_str("node"),
            ChangeCause::Restart => f.write_str("restart"),
            ChangeCause::Worker => f.write_str("worker"),
            ChangeCause::Idle => f.write_str("idle"),
            ChangeCause::Evicted => f.write_str("evicted"),
        }
    }
}

/// A number below a million, printed in six digits.
#[derive(Clone, Copy)]
struct SixDigits(u64);

impl fmt::Display for SixDigits {
    ghost use Rattle.std.specs.Prelude.{Some};
    ghost use Rattle.connection_changes.specs.Texts.{six_digits};

    ghost output = { λ d. Some (six_digits d.0) };

    fn fmt<W: fmt::Write>(&self, f: &mut fmt::Formatter<W>) -> fmt::Result {
        let n = self.0;
        let (a, b, c) = (n / 100_000 % 10, n / 10_000 % 10, n / 1000 % 10);
        let (d, e, g) = (n / 100 % 10, n / 10 % 10, n % 10);
        write!(f, "{a}{b}{c}{d}{e}{g}")
    }
}

/// Microseconds, printed as seconds with six digits behind the point.
#[derive(Clone, Copy, Debug)]
pub struct TimeText(pub u64);

impl fmt::Display for TimeText {
    ghost use Rattle.std.specs.Prelude.{Some};
    ghost use Rattle.connection_changes.specs.Texts.{time_text};

    ghost output = { λ t. Some (time_text t.0) };

    fn fmt<W: fmt::Write>(&self, f: &mut fmt::Formatter<W>) -> fmt::Result {
        let seconds = self.0 / 1_000_000;
        let micros = SixDigits(self.0 % 1_000_000);
        write!(f, "{seconds}.{micros}")
    }
}

/// Where a packet was sent, printed as `RECORD TIME NODE WORKER`.
#[derive(Clone, Copy)]
struct SiteText(Site);

impl fmt::Display for SiteText {
    ghost use Rattle.std.specs.Prelude.{Some};
    ghost use Rattle.connection_changes.specs.Texts.{site_text};

    ghost output = { λ s. Some (site_text s.0) };

    fn fmt<W: fmt::Write>(&self, f: &mut fmt::Formatter<W>) -> fmt::Result {
        let packet = self.0.packet;
        let time = TimeText(self.0.time);
        let node = self.0.node;
        let worker = self.0.worker;
        write!(f, "{packet} {time} {node} {worker}")
    }
}

fn push_change(
    text: &mut String,
    split: SplitText,
    change: &Change,
    cause: ChangeCause,
) -> Result<(), AllocError>
    ensures { OnOk result (string_bytes text.new ≡ string_bytes text.old ++ (split_words split.0 split.1 split.2
        ++ places_of change.now.first change.now.later cause)) }
{
    let first = SiteText(change.first);
    let later = SiteText(change.later);
    let cause = ChangeCauseText(cause);
    write!(text, "{split} at {first} {later} {cause}\n")
}

// The line of each change.
fn push_changes<H: FlowHash>(
    text: &mut String,
    hash: &H,
    catalogue: &Catalogue,
    idle: Option<u64>,
    changes: &[Change],
) -> Result<(), AllocError>
    ensures { OnOk result (string_bytes text.new ≡ string_bytes text.old
        ++ flat_map (change_line (lookups_of (H.plain hash.now) catalogue.now.size catalogue.now) idle) changes.now) }
{
    let drains = does_anybody_drain(catalogue);
    for change in changes {
        let split = change.split;
        let moved = cause_where(catalogue, drains, &split);
        let slot = slot_of(hash, catalogue, &split.later.flow);
        let cause = cause_between(moved, idle, change);
        push_change(text, SplitText(split, slot, moved), change, cause)?;
    }
    Ok(())
}

/// Puts a line for each change after a text, and then the counts of the splits, as `push_told_splits` has them. A line is that of
/// the split, and behind it where its two packets were sent, and why the later one went elsewhere. `idle` is the limit in
/// microseconds after which an entry of a connection table no longer counts.
pub fn push_told_places<H: FlowHash>(
    text: &mut String,
    hash: &H,
    catalogue: &Catalogue,
    idle: Option<u64>,
    account: Account<'_>,
) -> Result<(), AllocError>
    ensures { OnOk result (string_bytes text.new ≡ string_bytes text.old
        ++ places_in (lookups_of (H.plain hash.now) catalogue.now.size catalogue.now) idle (reckoned account.entry)) }
{
    push_changes(text, hash, catalogue, idle, account.changes)?;
    push_told_counts(text, catalogue, account.connections, account.splits)
}

/// The same of a book.
pub fn push_places<H: FlowHash>(
    text: &mut String,
    hash: &H,
    catalogue: &Catalogue,
    idle: Option<u64>,
    book: &ChangeBook,
) -> Result<(), AllocError>
    ensures { (past : List LogEntry) → IsChangeBookOf past book.now →
        OnOk result (string_bytes text.new ≡ string_bytes text.old ++ places_text (lookups_of (H.plain hash.now) catalogue.now.size catalogue.now) idle past) }
{
    push_told_places(text, hash, catalogue, idle, book.account())
}
