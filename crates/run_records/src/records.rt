//! The records of a capture, in one store.
ghost use Rattle.std.specs.Prelude.{◌≡◌, ◌<◌, ◌++◌, ◌∷◌, [], length, OnOk, OnErr, Some, slice_get};
ghost use Rattle.pcap_file.specs.Format.{packet};
ghost use Rattle.simulation.specs.Wires.{lent_record};

use crate::blocks::{ByteBlocks, Place};
use pcap_file::Frame;
use simulation::LentRecord;
use std::alloc::{AllocError, Global};
use std::fmt;
use std::marker::Model;

// A record's numbers, and where its bytes lie.
#[derive(Clone, Copy, Debug)]
struct Entry {
    secs: u32,
    micros: u32,
    original: u32,
    place: Place,
}

/// The records of a capture. The bytes of all lie one after another in blocks, so no record has an allocation of its own: to
/// read them, to go over them and to give them back is fast. They are lent from where they lie.
#[derive(Drop)]
pub struct Records {
    alloc: Global,
    blocks: ByteBlocks,
    entries: Vec<Entry>,
}

impl Model for Records {
    ghost use Rattle.std.specs.Prelude.{List};
    ghost use Rattle.pcap_file.specs.Format.{Record};

    ghost Value = { List Record };

    ghost use Rattle.std.specs.Prelude.{map, All};
    ghost use Rattle.run_records.specs.Store.{all_blocks, record_at, IsHeld};

    ghost view = { λ s. map (record_at (all_blocks s.blocks)) s.entries.items };

    ghost invariant = { λ s. All (IsHeld (all_blocks s.blocks)) s.entries.items };
}

impl fmt::Debug for Records {
    fn fmt<W: fmt::Write>(&self, f: &mut fmt::Formatter<W>) -> fmt::Result {
        f.debug_struct("Records")
            .field("len", &self.entries.len())
            .finish_non_exhaustive()
    }
}

impl Records {
    /// No records. They take no memory yet.
    pub(crate) fn new(alloc: Global) -> Records
        ensures { result ≡ [] }
    {
        Records {
            alloc,
            blocks: ByteBlocks::new(alloc),
            entries: Vec::new(alloc),
        }
    }

    /// How many there are.
    pub fn len(&self) -> usize
        ensures { result ≡ length self.now }
    {
        self.entries.len()
    }

    /// One record more: a copy of the frame. Where memory is refused the records stay.
    pub(crate) fn push(&mut self, frame: &Frame) -> Result<(), AllocError>
        ensures ok { OnOk result (self.new ≡ self.old ++ packet frame.now ∷ []) }
        ensures err { OnErr result (self.new ≡ self.old) }
    {
        let place = self.blocks.push(self.alloc, frame.bytes.as_slice())?;
        let entry = Entry {
            secs: frame.secs,
            micros: frame.micros,
            original: frame.original,
            place,
        };
        self.entries.push(entry)?;
        Ok(())
    }

    /// The record at a place. Its bytes are lent.
    #[inline(always)]
    pub fn at(&self, at: usize) -> LentRecord<'_>
        requires { at < length self.now }
        ensures { slice_get self.now at ≡ Some (lent_record result) }
    {
        let entry = self.entries[at];
        LentRecord {
            secs: entry.secs,
            micros: entry.micros,
            original: entry.original,
            bytes: self.blocks.at(entry.place),
        }
    }
}
