ghost use Rattle.std.specs.Prelude.{◌≡◌, ◌≢◌, IfOk, IfErr, OnOk, string_bytes};
ghost use Rattle.pcap_file.specs.Device.{Unfailed};
ghost use Rattle.command_faults.specs.Printing.{Prints, BreaksOff};
ghost use Rattle.scenario_sketch.specs.Sketch.{IsSketchOf, SketchFails};

use crate::listing::listed;
use crate::origins::Origins;
use crate::ranking::ranked;
use crate::reading::count_records;
use crate::sketch_text::{SketchCounts, sketch_text};
use crate::tally::Tally;
use command_faults::{CliFault, put_text};
use connection_table::TableKey;
use pcap_file::{Sink, Source, read_start};
use std::alloc::Global;

// The sketch of the capture that the input is.
fn text_of<I: Source>(alloc: Global, key: TableKey, input: &mut I) -> Result<String, CliFault>
    ensures text { IfOk result (λ s. IsSketchOf (I.tape input.old).bytes (string_bytes s)) }
    ensures unfailed { OnOk result (Unfailed (I.tape input.old) (I.tape input.new)) }
    ensures fault { IfErr result (λ fault. SketchFails fault (I.tape input.old) (I.tape input.new)) }
    ensures unwritten { IfErr result (λ fault. fault ≢ CliFault.Write) }
{
    let head = read_start(input)?;
    let mut tally = Tally::new(alloc, key);
    let mut origins = Origins::new(alloc, key);
    let records = count_records(alloc, input, head, &mut tally, &mut origins)?;
    let ranked = ranked(alloc, &tally)?;
    let services = listed(alloc, &tally, &origins, ranked.as_slice())?;
    let counts = SketchCounts {
        records,
        destinations: tally.destinations(),
        busy: ranked.len(),
    };
    match sketch_text(alloc, counts, services.as_slice()) {
        Ok(text) => Ok(text),
        Err(_) => Err(CliFault::Memory),
    }
}

/// The command `scenario`: reads a capture, and writes a scenario to start from.
///
/// Its services are the destinations of the capture's datagrams with more than five packets, the most frequent first. Of two
/// that are as frequent the one that came first in the capture is first. A destination that is the other direction of another
/// one isn't a service, and of more than 256 services the first 256 are there.
/// Datagrams that can't be balanced aren't counted. Memory grows with the destinations, which are hashed by the key. The text
/// is written in one piece, so after any fault but `Write` nothing was written.
pub fn sketch<I: Source, S: Sink>(
    alloc: Global,
    key: TableKey,
    input: &mut I,
    out: &mut S,
) -> Result<(), CliFault>
    ensures written { OnOk result (Prints (IsSketchOf (I.tape input.old).bytes) (S.tape out.old) (S.tape out.new)) }
    ensures unfailed { OnOk result (Unfailed (I.tape input.old) (I.tape input.new)) }
    ensures broken { IfErr result (λ fault. fault ≡ CliFault.Write → BreaksOff (IsSketchOf (I.tape input.old).bytes) (S.tape out.old) (S.tape out.new)) }
    ensures silent { IfErr result (λ fault. fault ≢ CliFault.Write → out.new ≡ out.old) }
    ensures fault { IfErr result (λ fault. SketchFails fault (I.tape input.old) (I.tape input.new)) }
{
    let text = match text_of(alloc, key, input) {
        Ok(text) => text,
        Err(fault) => return Err(fault),
    };
    match put_text(out, text.as_str()) {
        Ok(()) => Ok(()),
        Err(fault) => Err(fault),
    }
}
