//! Totals of outcomes, in one pass.
ghost use Rattle.std.specs.Prelude.{◌≡◌, ◌≤◌, ◌<◌, ◌+◌, ◌^◌, ◌∷◌, [], List, length, get_or, sum, if◌then◌else◌};
ghost use Rattle.cluster_node.specs.declared.outcomes.Outcome.{Outcome};
ghost use Rattle.cluster_core.specs.OutcomeCounts.{number, at_serving, is_arrival, is_forward, lost_of, drop_counts, how_many, is_refused};
ghost use Rattle.cluster_core.specs.Totals.{came_all, went_all};
ghost use Rattle.cluster_core.specs.PrivateCounting.{kind, bumped, Leads, Fits, Totalled};

use crate::counts::{Totals, at_serving, number};
use cluster_node::Outcome;

// How many packets arrived at a node.
fn arrivals(outcome: &Outcome) -> u64
    ensures { result ≡ (if is_arrival outcome.now then 1 else 0) }
{
    match *outcome {
        Outcome::Placed { .. } => 1,
        Outcome::Dropped { cause, .. } => { if at_serving(cause) { 0 } else { 1 } }
        _ => 0,
    }
}

fn lost_of(outcome: &Outcome) -> u64
    ensures { result ≡ lost_of outcome.now }
{
    match *outcome {
        Outcome::Restarted { lost } => lost,
        _ => 0,
    }
}

const PLACED: u8 = 14;

const FORWARDED: u8 = 15;

const RESTARTED: u8 = 16;

const REFUSED: u8 = 17;

// Drops are distinguished by the numbers of their causes, 1 to 13.
fn kind(outcome: &Outcome) -> u8
    ensures kind { result ≡ kind outcome.now }
    ensures few { result < 18 }
{
    match *outcome {
        Outcome::Installed => 0,
        Outcome::Placed { .. } => PLACED,
        Outcome::Forward { .. } => FORWARDED,
        Outcome::Dropped { cause, .. } => number(cause),
        Outcome::Restarted { .. } => RESTARTED,
        Outcome::Refused(_) => REFUSED,
    }
}

fn bump(kinds: &mut [u64; 18], kind: u8)
    requires few { kind < 18 }
    requires room { get_or kinds.old kind 0 + 1 < 2 ^ 64 }
    ensures { kinds.new ≡ bumped kind kinds.old }
{
    kinds[kind as usize] += 1;
}

// What was counted so far: how many outcomes of each kind, how many arrivals, and how many packets were lost.
#[derive(Clone, Copy)]
struct Counter {
    kinds: [u64; 18],
    received: u64,
    lost: u64,
}

impl Counter {
    fn new() -> Self
        ensures { (all : List Outcome) → Leads all all result.kinds result.received result.lost }
    {
        Counter {
            kinds: [0; 18],
            received: 0,
            lost: 0,
        }
    }

    // One outcome more.
    fn count(&mut self, outcome: &Outcome)
        requires { (rest : List Outcome) × (all : List Outcome) × Fits all × Leads (outcome.now ∷ rest) all self.old.kinds self.old.received self.old.lost }
        ensures { (rest all : List Outcome) → Leads (outcome.now ∷ rest) all self.old.kinds self.old.received self.old.lost →
            Leads rest all self.new.kinds self.new.received self.new.lost }
    {
        bump(&mut self.kinds, kind(outcome));
        self.received += arrivals(outcome);
        self.lost += lost_of(outcome);
    }

    fn of(&self, kind: u8) -> u64
        requires { kind < 18 }
        ensures { result ≡ get_or self.now.kinds kind 0 }
    {
        self.kinds[kind as usize]
    }

    // How many packets wait.
    fn waiting(&self) -> u64
        requires { (all : List Outcome) × Fits all × (went_all all ≤ came_all all) × Leads [] all self.now.kinds self.now.received self.now.lost }
        ensures { (all : List Outcome) → Leads [] all self.now.kinds self.now.received self.now.lost → result + went_all all ≡ came_all all }
    {
        self.of(PLACED) - (self.of(FORWARDED) + self.of(9) + self.of(10) + self.lost)
    }

    // How many packets were dropped for each cause. Those lost at restarts count with the last cause.
    fn drops(&self) -> [u64; 13]
        requires { (all : List Outcome) × Fits all × (went_all all ≤ came_all all) × Leads [] all self.now.kinds self.now.received self.now.lost }
        ensures { (all : List Outcome) → Leads [] all self.now.kinds self.now.received self.now.lost → result ≡ drop_counts all }
    {
        [
            self.of(1),
            self.of(2),
            self.of(3),
            self.of(4),
            self.of(5),
            self.of(6),
            self.of(7),
            self.of(8),
            self.of(9),
            self.of(10),
            self.of(11),
            self.of(12),
            self.of(13) + self.lost,
        ]
    }

    fn totals(&self) -> Totals
        requires { (all : List Outcome) × Fits all × (went_all all ≤ came_all all) × Leads [] all self.now.kinds self.now.received self.now.lost }
        ensures { (all : List Outcome) → Leads [] all self.now.kinds self.now.received self.now.lost → Totalled result all }
    {
        Totals {
            received: self.received,
            forwarded: self.of(FORWARDED),
            dropped: self.drops(),
            waiting: self.waiting(),
            refused: self.of(REFUSED),
        }
    }
}

fn length_of(outcomes: &[Outcome]) -> usize
    ensures { result ≡ length outcomes.now }
{
    outcomes.len()
}

fn counted(outcomes: &[Outcome]) -> Counter
    requires { Fits outcomes.now }
    ensures { Leads [] outcomes.now result.kinds result.received result.lost }
{
    let mut counter = Counter::new();
    for outcome in outcomes {
        counter.count(outcome);
    }
    counter
}

/// The totals of a list of outcomes. Each list that `replay` answers meets the condition: what left the queues is no more
/// than what was placed. What was received was forwarded, dropped, or waits. No memory is taken.
pub fn totals(outcomes: &[Outcome]) -> Totals
    requires { went_all outcomes.now ≤ came_all outcomes.now }
    ensures received { result.received ≡ how_many (λ o. is_arrival o) outcomes.now }
    ensures forwarded { result.forwarded ≡ how_many (λ o. is_forward o) outcomes.now }
    ensures dropped { result.dropped ≡ drop_counts outcomes.now }
    ensures waiting { result.waiting + went_all outcomes.now ≡ came_all outcomes.now }
    ensures law { result.received ≡ result.forwarded + (sum result.dropped + result.waiting) }
    ensures refused { result.refused ≡ how_many (λ o. is_refused o) outcomes.now }
{
    let _length = length_of(outcomes);
    counted(outcomes).totals()
}
