//! The ordinal of each record's connection.
ghost use Rattle.std.specs.Prelude.{◌≡◌, ◌≤◌, ◌∷◌, [], ℕ, List, length, Option, OnOk, slice_index};
ghost use Rattle.connection_starts.specs.declared.segment.Segment.{Segment};
ghost use Rattle.connection_starts.specs.Ordinals.{newest_ordinal, segments_of};
ghost use Rattle.connection_starts.specs.Captures.{answered};

use std::alloc::{AllocError, Global};

/// The ordinal of each record's connection. It takes at most 4 bytes for each record, and nothing where no flow begins again.
#[derive(Debug, Drop)]
pub struct Ordinals {
    // Those of the first records. Those of the others are 0.
    all: Vec<u32>,
}

impl Ordinals {
    ghost use Rattle.connection_starts.specs.Known.{AreOrdinals};

    /// Of records whose flows never begin again: all are 0.
    pub fn none(alloc: Global) -> Ordinals
        ensures each { (k : ℕ) → slice_index result.all.items k ≡ 0 }
        ensures of_none { (idle : Option ℕ) → AreOrdinals idle [] result }
    {
        Ordinals {
            all: Vec::new(alloc),
        }
    }

    /// That of the record of a number, counted from 0: how often its flow has begun again, up to this record.
    pub fn of_record(&self, number: u32) -> u32
        ensures { result ≡ answered self.now number }
    {
        self.all.get(number as usize).copied().unwrap_or(0)
    }

    // Makes room for so many.
    fn reach(&mut self, len: usize) -> Result<(), AllocError>
        ensures long { length self.old.all.items ≤ len → OnOk result (length self.new.all.items ≡ len) }
        ensures same { OnOk result ((k : ℕ) → slice_index self.new.all.items k ≡ slice_index self.old.all.items k) }
    {
        for _ in self.all.len()..len {
            let Ok(()) = self.all.push(0) else {
                return Err(AllocError);
            };
        }
        Ok(())
    }

    /// The ordinal of the record of a number, which comes after those that were put. Where memory is refused nothing more is
    /// known of these.
    pub(crate) fn put(&mut self, number: u32, ordinal: u32) -> Result<(), AllocError>
        ensures { (idle : Option ℕ) (segment : Option Segment) (past : List (Option Segment)) → AreOrdinals idle past self.old → number ≡ length past →
            ordinal ≡ newest_ordinal idle segment (segments_of past) → OnOk result (AreOrdinals idle (segment ∷ past) self.new) }
    {
        if ordinal == 0 {
            return Ok(());
        }
        self.reach(number as usize)?;
        let Ok(()) = self.all.push(ordinal) else {
            return Err(AllocError);
        };
        Ok(())
    }
}
