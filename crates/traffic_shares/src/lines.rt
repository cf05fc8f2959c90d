//! The lines of the shares.
ghost use Rattle.std.specs.Prelude.{◌≡◌, ◌++◌, List, OnOk, string_bytes};
ghost use Rattle.std.specs.List.{flat_map};
ghost use Rattle.cluster_node.specs.declared.events.LogEntry.{LogEntry};
ghost use Rattle.traffic_shares.specs.declared.holders.ShareKind.{ShareKind};
ghost use Rattle.traffic_shares.specs.Books.{IsShareBookOf};
ghost use Rattle.traffic_shares.specs.Texts.{row_line, shares_text};

use crate::book::ShareBook;
use crate::holders::Holder;
use crate::shares::ShareRow;
use maglev_texts::BackendText;
use std::alloc::{AllocError, Global};
use std::fmt;

/// A backend or a node, printed as `backend NAME@ADDRESS` or `node NODE`.
#[derive(Clone, Copy, Debug)]
pub struct HolderText(pub Holder);

impl fmt::Display for HolderText {
    ghost use Rattle.std.specs.Prelude.{Some};
    ghost use Rattle.traffic_shares.specs.Texts.{holder_text};

    ghost output = { λ h. Some (holder_text h.0) };

    fn fmt<W: fmt::Write>(&self, f: &mut fmt::Formatter<W>) -> fmt::Result {
        match self.0 {
            Holder::Backend(backend) => {
                let backend = BackendText(backend);
                write!(f, "backend {backend}")
            }
            Holder::Node(node) => write!(f, "node {node}"),
        }
    }
}

/// What was taken, printed as `packets PACKETS bytes BYTES flows FLOWS`.
#[derive(Clone, Copy)]
struct TakenText(ShareRow);

impl fmt::Display for TakenText {
    ghost use Rattle.std.specs.Prelude.{Some};
    ghost use Rattle.traffic_shares.specs.Texts.{taken_text};

    ghost output = { λ r. Some (taken_text r.0) };

    fn fmt<W: fmt::Write>(&self, f: &mut fmt::Formatter<W>) -> fmt::Result {
        let packets = self.0.packets;
        let bytes = self.0.bytes;
        let flows = self.0.flows;
        write!(f, "packets {packets} bytes {bytes} flows {flows}")
    }
}

fn push_row(text: &mut String, row: &ShareRow) -> Result<(), AllocError>
    ensures { OnOk result (string_bytes text.new ≡ string_bytes text.old ++ row_line row.now) }
{
    let holder = HolderText(row.holder);
    let version = row.version;
    let taken = TakenText(*row);
    write!(text, "{holder} version {version} {taken}\n")
}

// The line of each row.
fn push_rows(text: &mut String, rows: &[ShareRow]) -> Result<(), AllocError>
    ensures { OnOk result (string_bytes text.new ≡ string_bytes text.old ++ flat_map row_line rows.now) }
{
    for row in rows {
        push_row(text, row)?;
    }
    Ok(())
}

/// Puts a line for each share of a book after a text: by version, then by the backend's name and address, or by node.
pub fn push_shares(alloc: Global, text: &mut String, book: &ShareBook) -> Result<(), AllocError>
    ensures { (kind : ShareKind) (past : List LogEntry) → IsShareBookOf kind past book.now →
        OnOk result (string_bytes text.new ≡ string_bytes text.old ++ shares_text kind past) }
{
    let rows = book.rows(alloc)?;
    push_rows(text, rows.as_slice())
}
