//! The frames that wait at all workers of a cluster.
//!
//! A cluster's core queues packets by their places in a capture. Where the capture isn't kept, `Waiting` keeps the frames
//! beside those queues. It follows the record of events, and a frame is there exactly while its packet waits.
ghost use Rattle.std.specs.Prelude.{◌≡◌, ◌*◌, ◌<◌, ◌∷◌, ◌++◌, [], ℕ, Bool, false, List, length, drop, replicate, slice_get, slice_set, option_map};
ghost use Rattle.std.specs.Prelude.{Some, IfOk, OnOk, OnErr, IfSome, IsSomeAnd};
ghost use Rattle.pcap_file.specs.Format.{Record, packet};
ghost use Rattle.cluster_node.specs.declared.events.LogEntry.{LogEntry};
ghost use Rattle.cluster_node.specs.declared.events.Event.TheVariants.{Arrive, Serve};
ghost use Rattle.cluster_node.specs.declared.outcomes.Outcome.TheVariants.{Placed, Forward};
ghost use Rattle.cluster_node.specs.Record.{accepted};
ghost use Rattle.cluster_core.specs.Cluster.{Cluster};
ghost use Rattle.waiting_frames.specs.Queues.{place_of, Moves, placed_by, arrived, settled_by, settled, taken_by, taken_out, changed_at, first_at};
ghost use Rattle.waiting_frames.specs.Queues.{emptied, is_free, passes};
ghost use Rattle.waiting_frames.specs.Mirrors.{Mirrors, CanFollow, ComesAs, IsNoArrival};

use crate::queue::Queue;
use cluster_node::{Event, LogEntry, Outcome, Packet};
use pcap_file::Frame;
use std::alloc::{AllocError, Global};
use std::fmt;
use std::marker::Model;
use std::rc::Rc;

const MOST_WORKERS: usize = 16;

/// The frames of the packets that wait, in a queue for each worker of each node.
#[derive(Drop)]
pub struct Waiting {
    queues: Vec<Queue>,
}

impl fmt::Debug for Waiting {
    fn fmt<W: fmt::Write>(&self, f: &mut fmt::Formatter<W>) -> fmt::Result {
        f.debug_struct("Waiting").finish_non_exhaustive()
    }
}

impl Model for Waiting {
    ghost use Rattle.std.specs.Prelude.{List};
    ghost use Rattle.pcap_file.specs.Format.{Record};

    ghost Value = { List (List Record) };

    ghost view = { λ w. w.queues.items };
}

// Where a worker's queue lies among so many.
#[inline(always)]
fn place_of(count: usize, node: u16, worker: u16) -> Option<usize>
    ensures is { result ≡ place_of count node worker }
    ensures within { IfSome result (λ place. place < count) }
{
    let place = node as usize * MOST_WORKERS + worker as usize;
    if (worker as usize) < MOST_WORKERS && place < count {
        Some(place)
    } else {
        None
    }
}

// The node and the worker where an arrival made its packet wait.
#[inline(always)]
fn placed_by(said: &LogEntry) -> Option<(u16, u16)>
    ensures { result ≡ placed_by said.now.event said.now.packet said.now.outcome }
{
    match (said.event, said.packet, said.outcome) {
        (Event::Arrive { node, .. }, Some(Packet::Good { .. }), Outcome::Placed { worker, .. }) =>
            Some((node, worker)),
        _ => None,
    }
}

#[inline(always)]
fn is_accepted(outcome: &Outcome) -> bool
    ensures { result ≡ accepted outcome.now }
{
    !matches!(outcome, Outcome::Refused(_))
}

fn clear_at(queues: &mut Vec<Queue>, place: usize)
    ensures { queues.new.items ≡ slice_set queues.old.items place [] }
{
    if place < queues.len() {
        let queue = &mut queues[place];
        queue.clear();
    }
}

// Empties the queues of a node.
fn clear_from(queues: &mut Vec<Queue>, node: u16)
    ensures { queues.new.items ≡ emptied (node * 16) 16 queues.old.items }
{
    let first = node as usize * MOST_WORKERS;
    for worker in 0..MOST_WORKERS {
        clear_at(queues, first + worker);
    }
}

impl Waiting {
    /// Empty queues for so many nodes, of up to 16 workers each.
    pub fn new(alloc: Global, nodes: u16) -> Result<Self, AllocError>
        ensures empty { IfOk result (λ w. w ≡ replicate (nodes * 16) []) }
        ensures mirrors { IfOk result (λ w. (all : List Record) (k : Cluster) → Mirrors all k [] w) }
    {
        let mut queues = Vec::new(alloc);
        for _ in 0..nodes as usize * MOST_WORKERS {
            queues.push(Queue::new(alloc))?;
        }
        Ok(Waiting { queues })
    }

    #[inline(always)]
    fn put(&mut self, node: u16, worker: u16, frame: Rc<Frame>) -> Result<(), AllocError>
        ensures queues { OnOk result (self.new ≡ changed_at self.old (place_of (length self.old) node worker) (λ q. q ++ packet frame.value ∷ [])) }
        ensures err { OnErr result (self.new ≡ self.old) }
    {
        let Some(place) = place_of(self.queues.len(), node, worker) else {
            return Ok(());
        };
        let queue = &mut self.queues[place];
        queue.put(frame)
    }

    #[inline(always)]
    fn take(&mut self, node: u16, worker: u16) -> Option<Rc<Frame>>
        ensures taken { option_map (λ f. packet f.value) result ≡ first_at self.old (place_of (length self.old) node worker) }
        ensures after { self.new ≡ changed_at self.old (place_of (length self.old) node worker) (drop 1) }
    {
        match place_of(self.queues.len(), node, worker) {
            Some(place) => {
                let queue = &mut self.queues[place];
                queue.take()
            }
            None => None,
        }
    }

    // Whether a worker's queue is there, and nothing waits in it.
    #[inline(always)]
    fn is_free(&self, node: u16, worker: u16) -> bool
        ensures { result ≡ is_free self.now node worker }
    {
        match place_of(self.queues.len(), node, worker) {
            Some(place) => {
                let queue = &self.queues[place];
                queue.is_empty()
            }
            None => false,
        }
    }

    /// Whether a packet that is placed on a worker waits alone, and a serving of that worker with this outcome takes it out
    /// again. Then both events are followed with the queues as they are, and what is sent is that packet: its frame need not
    /// be kept.
    #[inline(always)]
    pub fn passes(&self, read: &Packet, node: u16, worker: u16, outcome: &Outcome) -> bool
        ensures { (place floor version : ℕ) (marks : List Bool) →
            result ≡ passes (record {
              event = Arrive node place marks;
              packet = Some read.now;
              outcome = Placed worker floor;
            }) (record { event = Serve node worker version false; packet = None; outcome = outcome.now }) self.now }
    {
        let is_good = matches!(read, Packet::Good { .. });
        is_good && is_accepted(outcome) && self.is_free(node, worker)
    }

    // Follows an event that was accepted.
    #[inline(always)]
    fn settle_by(&mut self, event: &Event) -> Option<Rc<Frame>>
        ensures queues { Moves self.old self.new (settled_by event.now) }
        ensures taken { option_map (λ f. packet f.value) result ≡ taken_by event.now self.old }
    {
        match *event {
            Event::Install { .. } => None,
            Event::Arrive { .. } => None,
            Event::Serve { node, worker, .. } => self.take(node, worker),
            Event::Restart { node } => {
                clear_from(&mut self.queues, node);
                None
            }
        }
    }

    /// Whether the packet of an arrival waits from now on. Where it doesn't, the arrival is followed with the queues as they
    /// are.
    #[inline(always)]
    pub fn waits(&self, said: &LogEntry) -> bool
        ensures mirrors { (all : List Record) (k : Cluster) (past : List LogEntry) (r : Record) → result ≡ false → CanFollow all k past said.now self.now →
            ComesAs all r said.now.event →
            Mirrors all k (said.now ∷ past) self.now }
    {
        placed_by(said).is_some()
    }

    /// Follows an arrival, whose packet has this frame. Where the packet waits now, the frame is kept after those that wait
    /// at its worker.
    #[inline(always)]
    pub fn arrive(&mut self, said: &LogEntry, frame: Rc<Frame>) -> Result<(), AllocError>
        ensures queues { OnOk result (Moves self.old self.new (arrived said.now (packet frame.value))) }
        ensures err { OnErr result (self.new ≡ self.old) }
        ensures mirrors { (all : List Record) (k : Cluster) (past : List LogEntry) → CanFollow all k past said.now self.old →
            ComesAs all (packet frame.value) said.now.event →
            OnOk result (Mirrors all k (said.now ∷ past) self.new) }
    {
        match placed_by(said) {
            Some((node, worker)) => self.put(node, worker, frame),
            None => Ok(()),
        }
    }

    /// Follows an event that is no arrival. The frame of a packet that was taken out of its queue is handed back.
    ///
    /// By the clause `sent` this is, where a packet was sent, that packet's frame.
    #[inline(always)]
    pub fn settle(&mut self, said: &LogEntry) -> Option<Rc<Frame>>
        ensures queues { Moves self.old self.new (settled said.now) }
        ensures taken { option_map (λ f. packet f.value) result ≡ taken_out said.now self.old }
        ensures mirrors { (all : List Record) (k : Cluster) (past : List LogEntry) → CanFollow all k past said.now self.old → IsNoArrival said.now.event →
            Mirrors all k (said.now ∷ past) self.new }
        ensures sent { (all : List Record) (k : Cluster) (past : List LogEntry) → CanFollow all k past said.now self.old →
            (n w i : ℕ) (x : _) (b : _) (v : ℕ) → said.now.outcome ≡ Forward n w i x b v →
            IsSomeAnd result (λ frame. slice_get all i ≡ Some (packet frame.value)) }
    {
        if is_accepted(&said.outcome) {
            self.settle_by(&said.event)
        } else {
            None
        }
    }
}
