//! The end of a life: what the workers served is compared with what was placed on them, and written.
ghost use Rattle.std.specs.Prelude.{◌≡◌, ◌≤◌, ◌<◌, ◌==◌, ◌%◌, ◌^◌, ◌-◌, ◌++◌, ◌∷◌, ◌↔◌, [], List, length, map, take, IfOk, IfErr, OnOk, IsTrue, All};
ghost use Rattle.std.specs.List.{list_any, list_all};
ghost use Rattle.cluster_node.specs.Rules.{Rules};
ghost use Rattle.cluster_node.specs.declared.packets.Packet.{Packet};
ghost use Rattle.thread_records.specs.Works.{IsOf};
ghost use Rattle.thread_records.specs.Histories.{outcome_of, past_of, commands_of, NoneWaits};
ghost use Rattle.thread_records.specs.declared.command.Command.TheVariants.{Restart};
ghost use Rattle.thread_records.specs.Losses.{losses, LosesNone};
ghost use Rattle.thread_records.specs.Journals.{placed_on, Tells, Drives, AllFitIn, IsServed, with_serve, with_restart};
ghost use Rattle.thread_records.specs.Ends.{all_handled, items_of, uses_installed, all_use_installed, ServesPlaced, AllServePlaced, IsLifeFault};
ghost use Rattle.thread_records.specs.Ends.{JudgesLife, UnlessMemory, with_serves, with_all_serves, with_life_ended, left_over};

use super::Journal;
use crate::work::WorkerRecord;
use cluster_node::{Cause, Event, Item, Outcome};
use connection_table::ConnTable;
use forwarder::Choice;
use handled_list::{Handled, HandledList};
use selection::Scheme;
use std::alloc::AllocError;
use thiserror::Error;

/// Why the records of a life don't fit together, in the order in which it is reported.
#[derive(Clone, Copy, Debug, PartialEq, Eq, Drop, Error)]
pub enum LifeFault {
    /// A version was used that was not installed on the node.
    #[error("a worker used a version that wasn't installed on its node")]
    Foreign,
    /// What a worker took is not what was placed on it.
    #[error("what a worker took is not what was placed on it")]
    RingLost,
    /// Memory was refused.
    #[error("out of memory")]
    Memory,
}

impl From<AllocError> for LifeFault {
    ghost use Rattle.thread_records.specs.declared.journal.closing.LifeFault.TheVariants.{Memory};

    ghost from_gives = { λ _ e. e ≡ Memory };

    fn from(_refusal: AllocError) -> LifeFault
        ensures { result ≡ Memory }
    {
        LifeFault::Memory
    }
}

// How many servings are written before their memory is given back.
const GIVEN_BACK: usize = 16_384;

fn has(versions: &[u32], version: u32) -> bool
    ensures { result ≡ list_any (λ u. u == version) versions.now }
{
    versions.iter().any(|other| *other == version)
}

// The outcome of a serving.
fn outcome_of(node: u16, worker: u16, handled: &Handled) -> Outcome
    ensures { result ≡ outcome_of node worker handled.now }
{
    match handled.choice {
        Choice::Forward { backend, origin } => Outcome::Forward {
            node,
            worker,
            packet: handled.item.packet,
            flow: handled.item.flow,
            backend,
            origin,
        },
        Choice::NoService => Outcome::Dropped {
            packet: handled.item.packet,
            cause: Cause::NoService,
        },
        Choice::NoBackend => Outcome::Dropped {
            packet: handled.item.packet,
            cause: Cause::NoBackend,
        },
    }
}

// Whether each version that was used was installed.
fn uses_installed(installed: &[u32], handled: &HandledList) -> bool
    ensures { result ≡ uses_installed installed.now handled.now.items }
{
    for at in 0..handled.len() {
        let Some(one) = handled.get(at) else {
            return false;
        };
        if !has(installed, one.version) {
            return false;
        }
    }
    true
}

fn all_use_installed<S: Scheme, T: ConnTable>(
    installed: &[u32],
    workers: &[WorkerRecord<S, T>],
) -> bool
    ensures { result ≡ list_all (λ w. uses_installed installed.now w.handled) workers.now }
{
    workers
        .iter()
        .all(|worker| uses_installed(installed, worker.handled()))
}

fn is_item(handled: &Handled, item: &Item) -> bool
    ensures { IsTrue result ↔ (handled.now.item ≡ item.now) }
{
    handled.item == *item
}

// Whether what was handled is a prefix of what was placed.
fn begins(placed: &[Item], handled: &HandledList) -> bool
    ensures { IsTrue result ↔ (items_of handled.now.items ≡ take (length handled.now.items) placed.now) }
{
    if handled.len() > placed.len() {
        return false;
    }
    for at in 0..handled.len() {
        let Some(one) = handled.get(at) else {
            return false;
        };
        if !is_item(&one, &placed[at]) {
            return false;
        }
    }
    true
}

// Whether what was handled is what was placed; where the life wasn't drained, a prefix of that.
fn serves_placed(drained: bool, placed: &[Item], handled: &HandledList) -> bool
    ensures { IsTrue result ↔ ServesPlaced drained placed.now handled.now.items }
{
    if drained && handled.len() != placed.len() {
        return false;
    }
    begins(placed, handled)
}

// Whether each worker served what was placed on it.
fn all_serve_placed<S: Scheme, T: ConnTable>(
    drained: bool,
    placed: &[Vec<Item>],
    workers: &[WorkerRecord<S, T>],
) -> bool
    ensures { IsTrue result ↔ AllServePlaced drained (map (λ v. v.items) placed.now) (all_handled workers.now) }
{
    if workers.len() != placed.len() {
        return false;
    }
    for at in 0..placed.len() {
        if !serves_placed(drained, placed[at].as_slice(), workers[at].handled()) {
            return false;
        }
    }
    true
}

// Empties every list.
fn clear_all(placed: &mut Vec<Vec<Item>>)
    ensures lists { map (λ v. v.items) placed.new.items ≡ map (λ is. []) (map (λ v. v.items) placed.old.items) }
    ensures length { length placed.new.items ≡ length placed.old.items }
{
    for at in 0..placed.len() {
        let one = &mut placed[at];
        one.clear();
    }
}

impl Journal {
    // Why the records of a life don't fit, if they don't.
    fn fault_of<S: Scheme, T: ConnTable>(
        &self,
        workers: &[WorkerRecord<S, T>],
        drained: bool,
    ) -> Option<LifeFault>
        ensures { IsLifeFault drained self.now (all_handled workers.now) result }
    {
        if !all_use_installed(self.installed.as_slice(), workers) {
            return Some(LifeFault::Foreign);
        }
        if !all_serve_placed(drained, self.placed.as_slice(), workers) {
            return Some(LifeFault::RingLost);
        }
        None
    }

    fn write_serve(&mut self, worker: u16, handled: &Handled) -> Result<(), AllocError>
        ensures { OnOk result (self.new ≡ with_serve worker handled.now self.old) }
    {
        let event = Event::Serve {
            node: self.node,
            worker,
            version: handled.version,
            refused: handled.unstored,
        };
        let outcome = outcome_of(self.node, worker, handled);
        match self.write(event, outcome) {
            Ok(_) => Ok(()),
            Err(refusal) => Err(refusal),
        }
    }

    fn write_restart(&mut self, left: u64) -> Result<(), AllocError>
        ensures { OnOk result (self.new ≡ with_restart left self.old) }
    {
        self.steerer.restart();
        clear_all(&mut self.placed);
        let event = Event::Restart { node: self.node };
        match self.write(event, Outcome::Restarted { lost: left }) {
            Ok(_) => Ok(()),
            Err(refusal) => Err(refusal),
        }
    }

    // Writes the servings of a worker. What is written is given back meanwhile, so that a long life isn't held twice.
    fn write_serves(&mut self, worker: u16, handled: HandledList) -> Result<(), AllocError>
        ensures { OnOk result (self.new ≡ with_serves worker handled.items self.old) }
    {
        let mut rest = handled;
        rest.reverse();
        while let Some(one) = rest.pop() {
            self.write_serve(worker, &one)?;
            if rest.len().is_multiple_of(GIVEN_BACK) {
                rest.shrink();
            }
        }
        Ok(())
    }

    // How many packets of a worker are left, where it served so many.
    fn left_of(&self, worker: u16, served: usize) -> usize
        requires { worker < length self.now.placed }
        ensures { result ≡ length (placed_on self.now.placed worker) - served }
    {
        self.placed[worker as usize].len().saturating_sub(served)
    }

    // Writes the servings of all workers, one worker after another, and answers how many packets were left.
    fn write_all_serves<S: Scheme, T: ConnTable>(
        &mut self,
        workers: Vec<WorkerRecord<S, T>>,
    ) -> Result<u64, AllocError>
        requires all { length workers.items ≡ length self.old.placed }
        requires few { length workers.items ≤ 16 }
        ensures after { OnOk result (self.new ≡ with_all_serves 0 (all_handled workers.items) self.old) }
        ensures left { IfOk result (λ left. left ≡ left_over self.old.placed (all_handled workers.items) % 2 ^ 64) }
        ensures fit { (rules : Rules) → All (λ w. IsOf (λ s z. S.pick s z) rules w) workers.items → OnOk result (AllFitIn rules (all_handled workers.items)) }
    {
        let mut left: u64 = 0;
        let mut number = 0u16;
        for worker in workers {
            let handled = worker.into_handled();
            left = left.wrapping_add(self.left_of(number, handled.len()) as u64);
            self.write_serves(number, handled)?;
            number = number.wrapping_add(1);
        }
        Ok(left)
    }

    // How many events there are.
    fn count(&self) -> usize
        ensures { result ≡ length self.now.events }
    {
        self.events.len()
    }

    // How many workers there are.
    fn workers(&self) -> usize
        ensures lists { result ≡ length self.now.placed }
        ensures few { length self.now.placed ≤ 16 }
    {
        let _ = &self.steerer;
        self.placed.len()
    }

    // The servings of a life, and how many packets were left.
    fn close_life<S: Scheme, T: ConnTable>(
        &mut self,
        workers: Vec<WorkerRecord<S, T>>,
        drained: bool,
    ) -> Result<u64, LifeFault>
        ensures judged { JudgesLife drained self.old (all_handled workers.items) result }
        ensures unchanged { IfErr result (λ fault. UnlessMemory fault (self.new ≡ self.old)) }
        ensures after { OnOk result (self.new ≡ with_all_serves 0 (all_handled workers.items) self.old) }
        ensures left { IfOk result (λ left. left ≡ left_over self.old.placed (all_handled workers.items) % 2 ^ 64) }
        ensures few { OnOk result (length self.new.events < 2 ^ 64) }
        ensures fit { (rules : Rules) → All (λ w. IsOf (λ s z. S.pick s z) rules w) workers.items → OnOk result (AllFitIn rules (all_handled workers.items)) }
    {
        if let Some(fault) = self.fault_of(workers.as_slice(), drained) {
            return Err(fault);
        }
        let _few = self.workers();
        match self.write_all_serves(workers) {
            Ok(left) => {
                let _few = self.count();
                Ok(left)
            }
            Err(_) => Err(LifeFault::Memory),
        }
    }

    /// A life of the node ends, and a new one begins. What its workers handled is written, worker by worker, and then the
    /// restart, with the number of packets that were placed and not handled.
    ///
    /// The workers' records are compared with the journal first, all of them before anything is written. Foreign: a worker
    /// used a version that was not installed. RingLost: there are not as many records as workers, or a worker did not handle
    /// what was placed on it, in that order. Where the life was not drained it may have handled a prefix of it. After these
    /// two nothing is changed. The answer is the number of packets that were placed and not handled.
    pub fn end_life<S: Scheme, T: ConnTable>(
        &mut self,
        workers: Vec<WorkerRecord<S, T>>,
        drained: bool,
    ) -> Result<u64, LifeFault>
        ensures judged { JudgesLife drained self.old (all_handled workers.items) result }
        ensures unchanged { IfErr result (λ fault. UnlessMemory fault (self.new ≡ self.old)) }
        ensures after { OnOk result (self.new ≡ with_life_ended (all_handled workers.items) self.old) }
        ensures drives { (rules : Rules) (packets : List Packet) → Drives rules packets self.old → All (λ w. IsOf (λ s z. S.pick s z) rules w) workers.items →
            OnOk result (Drives rules packets self.new) }
        ensures command { OnOk result (commands_of self.new.events ≡ commands_of self.old.events ++ Restart ∷ []) }
        ensures kept { OnOk result ((self.new.node ≡ self.old.node) × (self.new.ring ≡ self.old.ring)) }
        ensures newest { OnOk result (self.new.newest ≡ self.old.newest) }
        ensures left { IfOk result (λ left. left ≡ left_over self.old.placed (all_handled workers.items) % 2 ^ 64) }
        ensures lost { IfOk result (λ left. (losses self.new.outcomes ≡ losses self.old.outcomes ++ left ∷ []) × LosesNone drained left) }
    {
        let left = self.close_life(workers, drained)?;
        match self.write_restart(left) {
            Ok(()) => Ok(left),
            Err(_) => Err(LifeFault::Memory),
        }
    }

    /// The last life of the node ends: what its workers handled is written, worker by worker. The faults are those of
    /// `end_life`.
    pub fn end<S: Scheme, T: ConnTable>(
        &mut self,
        workers: Vec<WorkerRecord<S, T>>,
        drained: bool,
    ) -> Result<(), LifeFault>
        ensures judged { JudgesLife drained self.old (all_handled workers.items) result }
        ensures unchanged { IfErr result (λ fault. UnlessMemory fault (self.new ≡ self.old)) }
        ensures after { OnOk result (self.new ≡ with_all_serves 0 (all_handled workers.items) self.old) }
        ensures tells { (rules : Rules) (packets : List Packet) → Drives rules packets self.old → All (λ w. IsOf (λ s z. S.pick s z) rules w) workers.items →
            OnOk result (Tells rules packets self.new) }
        ensures drained { (rules : Rules) (packets : List Packet) → Drives rules packets self.old →
            All (λ w. IsOf (λ s z. S.pick s z) rules w) workers.items → IsTrue drained →
            OnOk result (NoneWaits (past_of rules packets self.new.node self.new.events)) }
        ensures served { OnOk result (IsServed self.old self.new) }
    {
        match self.close_life(workers, drained) {
            Ok(_) => Ok(()),
            Err(fault) => Err(fault),
        }
    }
}
