//! The lines of the shares of backends or nodes.
ghost use Rattle.std.specs.Prelude.{◌≡◌, ◌++◌, List, OnOk, string_bytes};
ghost use Rattle.std.specs.List.{flat_map};
ghost use Rattle.cluster_node.specs.declared.events.LogEntry.{LogEntry};
ghost use Rattle.traffic_shares.specs.declared.holders.ShareKind.{ShareKind};
ghost use Rattle.traffic_shares.specs.Books.{IsShareBookOf};
ghost use Rattle.json_lines.specs.Shares.{row_json, shares_json};

use crate::members::BackendMembers;
use std::alloc::{AllocError, Global};
use std::fmt;
use traffic_shares::{Holder, ShareBook, ShareRow};

/// A backend or a node, printed as the type of its line.
#[derive(Clone, Copy)]
struct HolderWord(Holder);

impl fmt::Display for HolderWord {
    ghost use Rattle.std.specs.Prelude.{Some};
    ghost use Rattle.json_lines.specs.Shares.{holder_word};

    ghost output = { λ h. Some (holder_word h.0) };

    fn fmt<W: fmt::Write>(&self, f: &mut fmt::Formatter<W>) -> fmt::Result {
        match self.0 {
            Holder::Backend(_) => f.write_str("backend"),
            Holder::Node(_) => f.write_str("node"),
        }
    }
}

/// A backend or a node, printed as the members that name it.
#[derive(Clone, Copy)]
struct HolderMembers(Holder);

impl fmt::Display for HolderMembers {
    ghost use Rattle.std.specs.Prelude.{Some};
    ghost use Rattle.json_lines.specs.Shares.{holder_members};

    ghost output = { λ h. Some (holder_members h.0) };

    fn fmt<W: fmt::Write>(&self, f: &mut fmt::Formatter<W>) -> fmt::Result {
        match self.0 {
            Holder::Backend(backend) => {
                let backend = BackendMembers(backend);
                write!(f, "{backend}")
            }
            Holder::Node(node) => write!(f, "\"node\":{node}"),
        }
    }
}

/// What was taken, printed as `"packets":PACKETS,"bytes":BYTES,"flows":FLOWS`.
#[derive(Clone, Copy)]
struct TakenMembers(ShareRow);

impl fmt::Display for TakenMembers {
    ghost use Rattle.std.specs.Prelude.{Some};
    ghost use Rattle.json_lines.specs.Shares.{taken_members};

    ghost output = { λ r. Some (taken_members r.0) };

    fn fmt<W: fmt::Write>(&self, f: &mut fmt::Formatter<W>) -> fmt::Result {
        let packets = self.0.packets;
        let bytes = self.0.bytes;
        let flows = self.0.flows;
        write!(
            f,
            "\"packets\":{packets},\"bytes\":{bytes},\"flows\":{flows}"
        )
    }
}

fn push_row(text: &mut String, row: &ShareRow) -> Result<(), AllocError>
    ensures { OnOk result (string_bytes text.new ≡ string_bytes text.old ++ row_json row.now) }
{
    let word = HolderWord(row.holder);
    let version = row.version;
    let holder = HolderMembers(row.holder);
    let taken = TakenMembers(*row);
    write!(
        text,
        "{{\"type\":\"{word}\",\"version\":{version},{holder},{taken}}}\n"
    )
}

// The line of each row.
fn push_rows(text: &mut String, rows: &[ShareRow]) -> Result<(), AllocError>
    ensures { OnOk result (string_bytes text.new ≡ string_bytes text.old ++ flat_map row_json rows.now) }
{
    for row in rows {
        push_row(text, row)?;
    }
    Ok(())
}

/// Puts a line for each share of a book after a text: by version, then by the backend's name and address, or by node.
pub fn push_json_shares(
    alloc: Global,
    text: &mut String,
    book: &ShareBook,
) -> Result<(), AllocError>
    ensures { (kind : ShareKind) (past : List LogEntry) → IsShareBookOf kind past book.now →
        OnOk result (string_bytes text.new ≡ string_bytes text.old ++ shares_json kind past) }
{
    let rows = book.rows(alloc)?;
    push_rows(text, rows.as_slice())
}
