//! Steering: which worker of a node takes the next packet.
//!
//! A flow is at home at one worker: the hash of its 13 bytes with the tag `w`, modulo the number of workers. The home
//! is tried once. Where it refuses, the others are tried in a ring from a cursor on, which counts the packets whose
//! home refused. Nothing here takes memory.
#![tactic(auto)]

ghost use Rattle.std.specs.Prelude.{◌≡◌, ◌≤◌, ◌<◌, ◌+◌, [], true, false};
ghost use Rattle.steering.specs.Steering.{Steering, home_of, ring_from, but, others, refuses, first_taker, place_for, cursor_after, next_of, rest_of};
ghost use Rattle.steering.specs.Steering.{IsBelow, is_free};
ghost use Rattle.steering.specs.Laws.{TriesArePlacings};

use five_tuple::Flow;
use hash_laws::{FlowHash, remainder};
use std::marker::Model;

/// Where a packet goes.
#[derive(Clone, Copy, Debug, PartialEq, Eq)]
pub enum Placed {
    /// To the worker of this number.
    Worker(u16),
    /// Nowhere: every worker refused.
    RingsFull,
}

/// The worker at which a flow is at home, of 1 to 16 workers.
#[tactic(auto, unfolding(crate::specs::Steering::home_of))]
pub fn home<H: FlowHash>(hash: &H, flow: &Flow, workers: u16) -> u16
    requires { 0 < workers }
    ensures home { result ≡ home_of (H.plain hash.now) workers flow.now }
    ensures below { result < workers }
{
    // A worker that is alone is every flow's home, whatever its hash.
    if workers == 1 {
        return 0;
    }
    remainder(hash.hash(b'w', &flow.bytes()), workers as u64) as u16
}

/// Chooses a worker for each packet of a node, in one life of the node.
#[derive(Debug, Drop)]
pub struct Steerer {
    workers: u16,
    cursor: u16,
    at_home: bool,
    home: u16,
    next: u16,
    left: u16,
}

impl Model for Steerer {
    ghost use Rattle.std.specs.Prelude.{◌≤◌, ◌<◌, ◌+◌};
    ghost use Rattle.steering.specs.Steering.{Steering, ring_from, but};

    ghost Value = { Steering };

    ghost view = { λ s. record { workers = s.workers; cursor = s.cursor; at_home = s.at_home; left = but s.home (ring_from s.workers s.next s.left) } };

    ghost invariant = { λ s. (0 < s.workers) × (s.workers ≤ 16) × (s.cursor < s.workers) × (s.next + s.left ≤ 32) };
}

// Whether a worker other than the home doesn't refuse.
fn is_free(refused: &[bool; 16], home: u16, worker: u16) -> bool
    requires { worker < 16 }
    ensures { result ≡ is_free refused.now home worker }
{
    worker != home && !refused[worker as usize]
}

// The first worker that doesn't refuse, of those that are tried after the home.
fn first_free(refused: &[bool; 16], workers: u16, home: u16, first: u16) -> Placed
    requires some { 0 < workers }
    requires limit { workers ≤ 16 }
    requires first { first < workers }
    ensures first { result ≡ first_taker refused.now (others workers home first) }
    ensures below { IsBelow workers result }
{
    for tried in 0..workers {
        let worker = (first + tried) % workers;
        if is_free(refused, home, worker) {
            return Placed::Worker(worker);
        }
    }
    Placed::RingsFull
}

impl Steerer {
    /// A steerer among 1 to 16 workers, before any packet.
    pub fn new(workers: u16) -> Self
        requires some { 0 < workers }
        requires limit { workers ≤ 16 }
        ensures { result ≡ record { workers = workers; cursor = 0; at_home = false; left = [] } }
    {
        Steerer {
            workers,
            cursor: 0,
            at_home: false,
            home: 0,
            next: 0,
            left: 0,
        }
    }

    /// Begins a new life: forgets the packets before.
    pub fn restart(&mut self)
        ensures { self.new ≡ record { workers = self.old.workers; cursor = 0; at_home = false; left = [] } }
    {
        self.cursor = 0;
        self.at_home = false;
        self.left = 0;
    }

    /// The worker for the next packet, where it is known which workers refuse. Marks at or above the number of
    /// workers aren't looked at. A packet that all refuse moves the cursor on too.
    #[tactic(auto, unfolding(crate::specs::Steering::place_for))]
    pub fn place<H: FlowHash>(&mut self, hash: &H, flow: &Flow, refused: &[bool; 16]) -> Placed
        ensures place { result ≡ place_for refused.now self.old.workers (home_of (H.plain hash.now) self.old.workers flow.now) self.old.cursor }
        ensures below { IsBelow self.old.workers result }
        ensures after { let turned = refuses refused.now (home_of (H.plain hash.now) self.old.workers flow.now) in
            self.new ≡ record { workers = self.old.workers; cursor = cursor_after turned self.old.workers self.old.cursor; at_home = false; left = [] } }
    {
        let home = home(hash, flow, self.workers);
        self.at_home = false;
        self.left = 0;
        if !refused[home as usize] {
            return Placed::Worker(home);
        }
        let first = self.cursor;
        self.cursor = (first + 1) % self.workers;
        first_free(refused, self.workers, home, first)
    }

    /// Names the home of the next packet's flow. Where it refuses, `next_try` names the next worker.
    pub fn begin<H: FlowHash>(&mut self, hash: &H, flow: &Flow) -> u16
        ensures home { result ≡ home_of (H.plain hash.now) self.old.workers flow.now }
        ensures below { result < self.old.workers }
        ensures after { let home = home_of (H.plain hash.now) self.old.workers flow.now in
            self.new ≡ record { workers = self.old.workers; cursor = self.old.cursor; at_home = true; left = others self.old.workers home self.old.cursor } }
    {
        let home = home(hash, flow, self.workers);
        self.at_home = true;
        self.home = home;
        self.next = self.cursor;
        self.left = self.workers;
        home
    }

    /// The next worker to try after the one that was named last refused; RingsFull where none is left, and also
    /// where no packet was begun.
    pub fn next_try(&mut self) -> Placed
        ensures next { result ≡ next_of self.old.left }
        ensures below { IsBelow self.old.workers result }
        ensures after { self.new ≡ record {
          workers = self.old.workers;
          cursor = cursor_after self.old.at_home self.old.workers self.old.cursor;
          at_home = false;
          left = rest_of self.old.left;
        } }
    {
        if self.at_home {
            self.at_home = false;
            self.cursor = (self.cursor + 1) % self.workers;
        }
        self.next_other()
    }

    // Takes the next worker other than the home.
    fn next_other(&mut self) -> Placed
        ensures next { result ≡ next_of self.old.left }
        ensures below { IsBelow self.old.workers result }
        ensures after { self.new ≡ record self.old { left = rest_of self.old.left } }
    {
        for _ in 0..self.left {
            let worker = self.next % self.workers;
            self.next += 1;
            self.left -= 1;
            if worker != self.home {
                return Placed::Worker(worker);
            }
        }
        Placed::RingsFull
    }
}

/// A law about the marks of the workers that refused one after another. `begin` with `next_try` names the worker that
/// `place` names, and leaves the cursor that `place` leaves.
pub fn tries_are_placings()
    ensures { TriesArePlacings }
{}
