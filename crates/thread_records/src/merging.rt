//! Whether what was gathered of the workers is a merge of what they sent. What was sent is given by the numbers of events.
ghost use Rattle.std.specs.Prelude.{◌≡◌, ◌≤◌, ◌<◌, ◌+◌, ◌^◌, ◌∷◌, ◌↔◌, [], true, length, map, drop, IsTrue, IfSome, MatchOption, slice_index_or, slice_range};
ghost use Rattle.std.specs.List.{list_all};
ghost use Rattle.cluster_node.specs.declared.outcomes.Outcome.{Outcome};
ghost use Rattle.thread_records.specs.Lean.{send_of, sends_told};
ghost use Rattle.thread_records.specs.Merges.{sent_by, sends_of, is_send, from_one_of, all_from, is_restart, IsMerge, lives_of, AreMerges};

use crate::lean::send_of;
use cluster_node::Outcome;
use outcome_list::OutcomeList;
use std::marker::Model;

// A life: the outcomes from a place on up to another.
#[derive(Drop)]
struct Life<'a> {
    outcomes: &'a OutcomeList,
    start: usize,
    end: usize,
}

impl<'a> Model for Life<'a> {
    ghost use Rattle.std.specs.Prelude.{◌≤◌, List, length, slice_range};
    ghost use Rattle.cluster_node.specs.declared.outcomes.Outcome.{Outcome};

    ghost Value = { List Outcome };

    ghost view = { λ l. slice_range l.outcomes.now.items l.start l.end };

    ghost invariant = { λ l. (l.start ≤ l.end) × (l.end ≤ length l.outcomes.now.items) };
}

impl<'a> Life<'a> {
    fn of(outcomes: &'a OutcomeList, start: usize, end: usize) -> Life<'a>
        requires order { start ≤ end }
        requires within { end ≤ length outcomes.now.items }
        ensures { result ≡ slice_range outcomes.now.items start end }
    {
        Life {
            outcomes,
            start,
            end,
        }
    }

    #[inline(always)]
    fn len(&self) -> usize
        ensures { result ≡ length self.now }
    {
        self.end - self.start
    }

    // The outcome at a place.
    #[inline(always)]
    fn at(&self, place: usize) -> Outcome
        requires { place < length self.now }
        ensures { result ≡ send_of self.now place }
    {
        send_of(self.outcomes, self.start + place)
    }
}

#[inline(always)]
fn is_sent_by(one: &Outcome, number: u16) -> bool
    ensures { result ≡ sent_by number one.now }
{
    match *one {
        Outcome::Forward { worker, .. } => worker == number,
        _ => false,
    }
}

#[inline(always)]
fn is_sent(one: &Outcome) -> bool
    ensures { result ≡ is_send one.now }
{
    matches!(*one, Outcome::Forward { .. })
}

// One more than the number of the worker that sent this, if one did.
#[inline(always)]
fn sender_limit(one: &Outcome) -> u32
    ensures from { from_one_of result one.now ≡ true }
    ensures limit { result ≤ 65536 }
{
    match *one {
        Outcome::Forward { worker, .. } => worker as u32 + 1,
        _ => 0,
    }
}

// A number above those of all workers that sent one of these.
fn senders(outcomes: &OutcomeList) -> u32
    ensures from { all_from result outcomes.now.items ≡ true }
    ensures limit { result ≤ 65536 }
{
    let mut limit: u32 = 0;
    for at in 0..outcomes.len() {
        limit = limit.max(sender_limit(&send_of(outcomes, at)));
    }
    limit
}

#[inline(always)]
fn is_restart(one: &Outcome) -> bool
    ensures { result ≡ is_restart one.now }
{
    matches!(*one, Outcome::Restarted { .. })
}

// Whether these events are nothing but sendings.
fn all_sent(outcomes: &OutcomeList, sent: &[u32]) -> bool
    ensures { result ≡ list_all (λ n. is_send (send_of outcomes.now.items n)) sent.now }
{
    sent.iter()
        .all(|number| is_sent(&send_of(outcomes, *number as usize)))
}

// The next packet that a worker sent, from a place on.
fn next_of(life: &Life<'_>, from: usize, worker: u16) -> Option<usize>
    requires { from ≤ length life.now }
    ensures within { IfSome result (λ k. k < length life.now) }
    ensures few { length life.now < 2 ^ 64 }
    ensures next { MatchOption result (sends_of worker (drop from life.now) ≡ [])
        (λ k. (d : Outcome) → sends_of worker (drop from life.now) ≡ slice_index_or life.now k d ∷ sends_of worker (drop (k + 1) life.now)) }
{
    for at in from..life.len() {
        if is_sent_by(&life.at(at), worker) {
            return Some(at);
        }
    }
    None
}

// Whether two outcomes are the same.
pub(crate) fn is_same(one: &Outcome, other: &Outcome) -> bool
    ensures { IsTrue result ↔ (one.now ≡ other.now) }
{
    *one == *other
}

// Whether a worker sent the same in both lists, of which the first has numbers of events. An outcome is read whole only where it is
// that worker's, since most are another's.
fn same_sends(outcomes: &OutcomeList, sent: &[u32], life: &Life<'_>, worker: u16) -> bool
    ensures { IsTrue result ↔ (sends_of worker (map (λ n. send_of outcomes.now.items n) sent.now) ≡ sends_of worker life.now) }
{
    let mut at = 0;
    for number in sent {
        if is_sent_by(&send_of(outcomes, *number as usize), worker) {
            match next_of(life, at, worker) {
                None => return false,
                Some(place) => {
                    let one = send_of(outcomes, *number as usize);
                    if !is_same(&life.at(place), &one) {
                        return false;
                    }
                    at = place + 1;
                }
            }
        }
    }
    next_of(life, at, worker).is_none()
}

// Whether a list is a merge of what the workers sent in a life.
fn is_merge(outcomes: &OutcomeList, sent: &[u32], life: &Life<'_>, workers: u32) -> bool
    requires limit { workers ≤ 65536 }
    requires from { all_from workers outcomes.now.items ≡ true }
    requires own { all_from workers life.now ≡ true }
    ensures { IsTrue result ↔ IsMerge (map (λ n. send_of outcomes.now.items n) sent.now) life.now }
{
    for worker in 0..workers {
        if !same_sends(outcomes, sent, life, worker as u16) {
            return false;
        }
    }
    all_sent(outcomes, sent)
}

// Whether these lists are merges of what the workers sent in each life.
pub(crate) fn merged(sent: &[Vec<u32>], outcomes: &OutcomeList) -> bool
    ensures { IsTrue result ↔ AreMerges (sends_told outcomes.now.items sent.now) (lives_of outcomes.now.items) }
{
    let workers = senders(outcomes);
    let mut start = 0;
    let mut life = 0;
    for at in 0..outcomes.len() {
        if is_restart(&send_of(outcomes, at)) {
            if life >= sent.len() {
                return false;
            }
            let ended = Life::of(outcomes, start, at);
            if !is_merge(outcomes, sent[life].as_slice(), &ended, workers) {
                return false;
            }
            life += 1;
            start = at + 1;
        }
    }
    if life + 1 != sent.len() {
        return false;
    }
    let last = Life::of(outcomes, start, outcomes.len());
    is_merge(outcomes, sent[life].as_slice(), &last, workers)
}
