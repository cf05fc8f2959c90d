//! The ordinals of a capture's records, by one pass.
ghost use Rattle.std.specs.Prelude.{◌≡◌, ◌∷◌, [], List, Option, OnOk, IfOk, IfErr, length};
ghost use Rattle.pcap_file.specs.Device.{Unfailed};
ghost use Rattle.pcap_file.specs.Format.{packet};
ghost use Rattle.pcap_file.specs.Text.{AllRefused};
ghost use Rattle.connection_starts.specs.declared.segment.Segment.{Segment};
ghost use Rattle.connection_starts.specs.Segments.{segment_in};
ghost use Rattle.connection_starts.specs.Captures.{AreOrdinalsOf, AreTold, ReadFails};
ghost use Rattle.connection_starts.specs.Known.{AreCounted};

use crate::ordinals::Ordinals;
use crate::segment::segment_in;
use crate::starts::{StartRules, Starts};
use connection_table::TableKey;
use ip_headers::Link;
use pcap_file::{Ending, Frame, Head, PcapFault, Source, read_record_into, read_start};
use std::alloc::{AllocError, Global};

/// The ordinals of the records that were read, and what is known of their flows.
#[derive(Drop)]
struct Counted {
    check: bool,
    starts: Starts,
    ordinals: Ordinals,
}

impl Counted {
    // The record of a number more.
    fn note(&mut self, link: Link, number: u32, frame: &Frame) -> Result<(), AllocError>
        ensures counted { (past : List (Option Segment)) → AreCounted past self.old → number ≡ length past →
            OnOk result (AreCounted (segment_in self.old.check link (packet frame.now) ∷ past) self.new) }
        ensures check { self.new.check ≡ self.old.check }
        ensures idle { self.new.starts.idle ≡ self.old.starts.idle }
    {
        let segment = segment_in(self.check, link, frame);
        let ordinal = self.starts.note(segment)?;
        self.ordinals.put(number, ordinal)
    }
}

// Notes all records after a header. An input that ends inside a record ends there.
fn note_records<I: Source>(
    alloc: Global,
    input: &mut I,
    head: Head,
    rules: StartRules,
    counted: Counted,
) -> Result<Ordinals, PcapFault>
    requires fresh { AreCounted [] counted }
    requires check { counted.check ≡ rules.check }
    requires idle { counted.starts.idle ≡ rules.idle }
    ensures told { IfOk result (λ o. AreTold rules head (I.tape input.old).bytes o) }
    ensures unfailed { OnOk result (Unfailed (I.tape input.old) (I.tape input.new)) }
    ensures refused { IfErr result (AllRefused head (I.tape input.old) (I.tape input.new)) }
{
    let mut counted = counted;
    let mut frame = Frame::empty(alloc);
    let mut given = 0;
    loop {
        match read_record_into(input, head, given, &mut frame) {
            Ok(()) => {
                let Ok(()) = counted.note(head.link, given, &frame) else {
                    return Err(PcapFault::Memory);
                };
                given += 1;
            }
            Err(Ending::End) => return Ok(counted.ordinals),
            Err(Ending::Cut) => return Ok(counted.ordinals),
            Err(Ending::Failed(fault)) => return Err(fault),
        }
    }
}

/// Reads a whole capture, and answers the ordinal of each record's connection. Flows are hashed by the key. Memory grows with
/// the flows, and by at most 4 bytes with each record. An input that ends inside a record ends there. The fault is that of the
/// header, or of the first record that is refused, or Memory.
pub fn read_ordinals<I: Source>(
    alloc: Global,
    key: TableKey,
    rules: StartRules,
    input: &mut I,
) -> Result<Ordinals, PcapFault>
    ensures read { IfOk result (AreOrdinalsOf rules (I.tape input.old).bytes) }
    ensures unfailed { OnOk result (Unfailed (I.tape input.old) (I.tape input.new)) }
    ensures refused { IfErr result (λ fault. ReadFails fault (I.tape input.old) (I.tape input.new)) }
{
    let head = match read_start(input) {
        Ok(head) => head,
        Err(fault) => return Err(fault),
    };
    let counted = Counted {
        check: rules.check,
        starts: Starts::new(alloc, key, rules.idle),
        ordinals: Ordinals::none(alloc),
    };
    match note_records(alloc, input, head, rules, counted) {
        Ok(ordinals) => Ok(ordinals),
        Err(fault) => Err(fault),
    }
}
