//! What is said at the end of a command.
ghost use Rattle.std.specs.Prelude.{OnOk, OnErr};
ghost use Rattle.std.specs.Io.KnownBytes.{Appends};
ghost use Rattle.pcap_file.specs.Device.{Unfailed, PutRefused};
ghost use Rattle.command_faults.specs.Faults.{FinishesWith, BreaksLine, fault_line, number_text};

use super::fault::{CliFault, word_of};
use itoa::Buffer;
use pcap_file::{Refused, Sink, put_all};

// The number after a fault's word, if it has one.
fn write_number<S: Sink>(fault: &CliFault, err: &mut S) -> Result<(), Refused>
    ensures written { OnOk result (Appends (S.tape err.old).bytes (S.tape err.new).bytes (number_text fault.now) × Unfailed (S.tape err.old) (S.tape err.new)) }
    ensures refused { OnErr result (PutRefused (number_text fault.now) (S.tape err.old) (S.tape err.new)) }
{
    match fault {
        CliFault::BadStep(step) => {
            let mut buffer = Buffer::new();
            put_all(err, buffer.format(*step).as_bytes())
        }
        _ => Ok(()),
    }
}

fn write_fault<S: Sink>(fault: &CliFault, err: &mut S) -> Result<(), Refused>
    ensures written { OnOk result (Appends (S.tape err.old).bytes (S.tape err.new).bytes (fault_line fault.now) × Unfailed (S.tape err.old) (S.tape err.new)) }
    ensures broken { OnErr result (BreaksLine (fault_line fault.now) (S.tape err.old) (S.tape err.new)) }
{
    match put_all(err, b"fault: ") {
        Ok(()) => {}
        Err(refused) => return Err(refused),
    }
    match put_all(err, word_of(fault).as_bytes()) {
        Ok(()) => {}
        Err(refused) => return Err(refused),
    }
    match write_number(fault, err) {
        Ok(()) => {}
        Err(refused) => return Err(refused),
    }
    match put_all(err, b"\n") {
        Ok(()) => Ok(()),
        Err(refused) => Err(refused),
    }
}

/// Writes a fault's line, and gives the exit status. It is 0 for Ok, of which nothing is written, and else 1, also where the
/// line can't be written whole.
pub fn finish<S: Sink>(outcome: &Result<(), CliFault>, err: &mut S) -> u8
    ensures { FinishesWith outcome.now (S.tape err.old) (S.tape err.new) result err.old err.new }
{
    match outcome {
        Ok(()) => 0,
        Err(fault) => {
            let _ = write_fault(fault, err);
            1
        }
    }
}
