//! Which records of a capture are kept for the steps of a scenario.
ghost use Rattle.std.specs.Prelude.{◌≡◌, ◌≤◌, ◌+◌, true, List, length, map, drop, IfOk, IfErr};
ghost use Rattle.std.specs.List.{list_any};
ghost use Rattle.pcap_file.specs.Format.{Record, max_records};
ghost use Rattle.simulation.specs.Sent.{time_of};
ghost use Rattle.timed_steps.specs.Timed.{count_until};
ghost use Rattle.run_records.specs.Firsts.{IsSplit};
ghost use Rattle.run_records.specs.Inputs.{IsReadWhole, ReadingFails};
ghost use Rattle.run_scenario.specs.PrivateFirsts.{kept_for, place_behind, counts_more, settled, Settle};

use crate::orders::{kept_for, may_read};
use pcap_file::Source;
use run_records::{Captured, Records, read_whole};
use simulation::SimulationFault;
use std::alloc::Global;
use timed_steps::{TimedStep, is_before};

// The place of the first record, from a place on, that came so long after the first or more. Where there is none, that behind all.
fn place_until(records: &Records, first: u64, end: u64, from: usize) -> usize
    requires { from ≤ length records.now }
    ensures { result ≡ from + count_until first end (drop from (map time_of records.now)) }
{
    let mut at = from;
    while at < records.len() && is_before(first, end, records.at(at).time()) {
        at += 1;
    }
    at
}

// The place behind the records that a step takes or loses, where it is through with those that are there.
fn place_behind(records: &Records, first: u64, at: usize, step: &TimedStep) -> Option<usize>
    requires { at ≤ length records.now }
    ensures { result ≡ place_behind first (map time_of records.now) at step.now }
{
    match step {
        TimedStep::Counted(_) => {
            let count = may_read(step);
            if count <= records.len() - at {
                Some(at + count)
            } else {
                None
            }
        }
        TimedStep::Until(end) => {
            let place = place_until(records, first, *end, at);
            if place < records.len() {
                Some(place)
            } else {
                None
            }
        }
    }
}

// Whether a step takes or loses more than so many records.
fn counts_more(count: usize, step: &TimedStep) -> bool
    ensures { result ≡ counts_more count step.now }
{
    match step {
        TimedStep::Counted(_) => count < may_read(step),
        TimedStep::Until(_) => false,
    }
}

// Whether one of some steps does, as `take *`.
fn count_more(count: usize, steps: &[TimedStep]) -> bool
    ensures { result ≡ list_any (counts_more count) steps.now }
{
    steps.iter().any(|step| counts_more(count, step))
}

// Whether all steps are through with the records, whatever follows these. A step by time is through where a record is there that
// comes too late for it.
fn is_settled(records: &Records, steps: &[TimedStep]) -> bool
    ensures { result ≡ settled (map time_of records.now) steps.now }
{
    let count = records.len();
    if count == 0 {
        return false;
    }
    // Where a step counts more than there are, no other has to be looked at.
    if count_more(count, steps) {
        return false;
    }
    let first = records.at(0).time();
    let mut at = 0;
    for step in steps {
        match place_behind(records, first, at, step) {
            Some(next) => at = next,
            None => return false,
        }
    }
    true
}

/// Reads a capture to its end. Its first records are kept, as many as the steps may read. Where a step is by time, no more are kept
/// once all steps are through with those that are kept. Of the others their count is kept.
pub(crate) fn read_for<I: Source>(
    alloc: Global,
    input: &mut I,
    steps: &[TimedStep],
) -> Result<Captured, SimulationFault>
    ensures whole { IfOk result (λ c. (all : List Record) × IsReadWhole (I.tape input.old) (I.tape input.new) c.head all c.ending
        × (length all ≤ max_records) × IsSplit (Settle steps.now) (kept_for steps.now) all c.records c.others) }
    ensures fails { IfErr result (λ fault. ReadingFails fault (I.tape input.old) (I.tape input.new)) }
{
    let read = read_whole(
        alloc,
        input,
        kept_for(steps),
        &|records: &Records|
            ensures { result ≡ settled (map time_of records.entry.now) steps.entry.now }
        { is_settled(records, steps) },
    );
    match read {
        Ok(captured) => Ok(captured),
        Err(fault) => Err(fault),
    }
}
