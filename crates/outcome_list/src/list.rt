//! A list of outcomes.
ghost use Rattle.std.specs.Prelude.{◌≡◌, ℕ, List, [], ◌∷◌, ◌++◌, length, map, Some, IfOk, OnOk, OnErr, slice_get};
ghost use Rattle.backend_places.specs.Places.{Keeps};
ghost use Rattle.outcome_list.specs.declared.kept.Kept.TheVariants.{Sent};
ghost use Rattle.outcome_list.specs.Meant.{opened, told, sent, Tells, KeepsEach};

use crate::kept::{Kept, Send};
use backend_places::Backends;
use cluster_node::Outcome;
use pool_versions::Backend;
use std::alloc::{AllocError, Global};
use std::fmt;
use std::marker::Model;

/// A list of outcomes. It takes eight bytes for each, 32 more for a packet that was sent and eight more for a restart. A backend
/// is kept once. At most 4,294,967,296 are sends, and as many are restarts; one more is refused, as memory is.
#[derive(Drop)]
pub struct OutcomeList {
    kept: Vec<Kept>,
    sends: Vec<Send>,
    // Of each restart, how many packets were waiting.
    lost: Vec<u64>,
    backends: Backends,
}

impl Model for OutcomeList {
    ghost use Rattle.std.specs.Global.{Vec};
    ghost use Rattle.cluster_node.specs.declared.outcomes.Outcome.{Outcome};
    ghost use Rattle.outcome_list.specs.Meant.{list_meant, AreThere};

    // the list that is meant
    ghost Value = { Vec Outcome };

    ghost view = { λ l. list_meant l.backends l.sends.items l.lost.items l.kept };

    ghost invariant = { λ l. AreThere l.backends l.sends.items l.lost.items l.kept.items };
}

impl fmt::Debug for OutcomeList {
    fn fmt<W: fmt::Write>(&self, f: &mut fmt::Formatter<W>) -> fmt::Result {
        f.debug_struct("OutcomeList")
            .field("len", &self.kept.len())
            .field("sends", &self.sends.len())
            .finish_non_exhaustive()
    }
}

// Puts an item after the others, where its index fits 32 bits. The answer is that index.
#[inline(always)]
fn put<T: Copy>(items: &mut Vec<T>, item: T) -> Result<u32, AllocError>
    ensures index { IfOk result (λ i. slice_get items.new.items i ≡ Some item) }
    ensures others { KeepsEach items.old.items items.new.items }
{
    let Ok(index) = u32::try_from(items.len()) else {
        return Err(AllocError);
    };
    let Ok(()) = items.push(item) else {
        return Err(AllocError);
    };
    Ok(index)
}

// Keeps a send, to this backend.
fn keep_send(
    backends: &mut Backends,
    sends: &mut Vec<Send>,
    send: Send,
    backend: &Backend,
) -> Result<Kept, AllocError>
    ensures kept { IfOk result (λ k. (ls : List ℕ) → told backends.new sends.new.items ls k ≡ Some (sent send backend.now)) }
    ensures backends { Keeps backends.old backends.new }
    ensures sends { KeepsEach sends.old.items sends.new.items }
{
    let Ok(place) = backends.place_of(backend) else {
        return Err(AllocError);
    };
    match put(sends, Send { place, ..send }) {
        Ok(index) => Ok(Kept::Sent(index)),
        Err(e) => Err(e),
    }
}

// Keeps what an outcome has beside eight bytes, and gives these.
#[inline(always)]
fn keep(
    backends: &mut Backends,
    sends: &mut Vec<Send>,
    lost: &mut Vec<u64>,
    outcome: &Outcome,
) -> Result<Kept, AllocError>
    ensures kept { IfOk result (λ k. told backends.new sends.new.items lost.new.items k ≡ Some outcome.now) }
    ensures others { Tells backends.old sends.old.items lost.old.items backends.new sends.new.items lost.new.items }
{
    match *outcome {
        Outcome::Installed => Ok(Kept::Installed),
        Outcome::Placed { worker, floor } => Ok(Kept::Placed { worker, floor }),
        Outcome::Forward {
            node,
            worker,
            packet,
            flow,
            backend,
            origin,
        } => {
            let send = Send {
                node,
                worker,
                packet,
                flow,
                place: 0,
                origin,
            };
            keep_send(backends, sends, send, &backend)
        }
        Outcome::Dropped { packet, cause } => Ok(Kept::Dropped { cause, packet }),
        Outcome::Restarted { lost: count } => match put(lost, count) {
            Ok(index) => Ok(Kept::Restarted(index)),
            Err(e) => Err(e),
        },
        Outcome::Refused(reason) => Ok(Kept::Refused(reason)),
    }
}

// The send of an index, opened.
#[inline(always)]
fn opened_send(backends: &Backends, sends: &[Send], index: u32) -> Outcome
    ensures { result ≡ opened backends.now sends.now [] (Sent index) }
{
    let Some(send) = sends.get(index as usize) else {
        return Outcome::Installed;
    };
    let Some(backend) = backends.at(send.place) else {
        return Outcome::Installed;
    };
    Outcome::Forward {
        node: send.node,
        worker: send.worker,
        packet: send.packet,
        flow: send.flow,
        backend: *backend,
        origin: send.origin,
    }
}

// What an entry stands for.
#[inline(always)]
fn opened(backends: &Backends, sends: &[Send], lost: &[u64], kept: &Kept) -> Outcome
    ensures { result ≡ opened backends.now sends.now lost.now kept.now }
{
    match *kept {
        Kept::Installed => Outcome::Installed,
        Kept::Placed { worker, floor } => Outcome::Placed { worker, floor },
        Kept::Sent(index) => opened_send(backends, sends, index),
        Kept::Dropped { cause, packet } => Outcome::Dropped { packet, cause },
        Kept::Restarted(index) => match lost.get(index as usize) {
            Some(count) => Outcome::Restarted { lost: *count },
            None => Outcome::Installed,
        },
        Kept::Refused(reason) => Outcome::Refused(reason),
    }
}

// What entries stand for, one after another.
fn opened_all(
    alloc: Global,
    backends: &Backends,
    sends: &[Send],
    lost: &[u64],
    kept: &[Kept],
) -> Result<Vec<Outcome>, AllocError>
    ensures { IfOk result (λ v. v.items ≡ map (opened backends.now sends.now lost.now) kept.now) }
{
    let mut list = Vec::with_capacity(alloc, kept.len())?;
    for entry in kept {
        list.push(opened(backends, sends, lost, entry))?;
    }
    Ok(list)
}

impl OutcomeList {
    /// No outcomes. This takes no memory.
    pub fn new(alloc: Global) -> OutcomeList
        ensures { result.items ≡ [] }
    {
        OutcomeList {
            kept: Vec::new(alloc),
            sends: Vec::new(alloc),
            lost: Vec::new(alloc),
            backends: Backends::new(alloc),
        }
    }

    /// How many outcomes there are.
    #[inline(always)]
    pub fn len(&self) -> usize
        ensures { result ≡ length self.now.items }
    {
        self.kept.len()
    }

    /// One more outcome, at the end.
    pub fn push(&mut self, outcome: &Outcome) -> Result<(), AllocError>
        ensures ok { OnOk result (self.new.items ≡ self.old.items ++ outcome.now ∷ []) }
        ensures err { OnErr result (self.new.items ≡ self.old.items) }
    {
        let Ok(kept) = keep(&mut self.backends, &mut self.sends, &mut self.lost, outcome) else {
            return Err(AllocError);
        };
        let Ok(()) = self.kept.push(kept) else {
            return Err(AllocError);
        };
        Ok(())
    }

    /// The outcome at a place, from 0 on.
    #[inline(always)]
    pub fn get(&self, place: usize) -> Option<Outcome>
        ensures { result ≡ slice_get self.now.items place }
    {
        let kept = self.kept.get(place)?;
        Some(opened(
            &self.backends,
            self.sends.as_slice(),
            self.lost.as_slice(),
            kept,
        ))
    }

    /// The same outcomes, written out.
    pub fn open(&self, alloc: Global) -> Result<Vec<Outcome>, AllocError>
        ensures { IfOk result (λ v. v.items ≡ self.now.items) }
    {
        opened_all(
            alloc,
            &self.backends,
            self.sends.as_slice(),
            self.lost.as_slice(),
            self.kept.as_slice(),
        )
    }
}
