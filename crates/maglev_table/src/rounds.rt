//! The turns of a round, one after another, without a list of them.
ghost use Rattle.std.specs.Prelude.{◌≡◌, ◌<◌, ◌≤◌, ◌+◌, ℕ, All, IfSome, None, [], false, true, length};
ghost use Rattle.maglev_table.specs.Weights.{has_turn, turns_from, or_next_round, IsTurn};

use backend_names::Weight;

/// A place in a round: a pass, from 1 on, and a list.
#[derive(Clone, Copy)]
pub(crate) struct Turn {
    pub(crate) pass: u8,
    pub(crate) who: usize,
}

/// The heaviest weight: a round has no turns past that pass.
pub(crate) fn heaviest(weights: &[Weight]) -> u8
    ensures most { All (λ w. (1 ≤ w) × (w ≤ result)) weights.now }
    ensures limit { result ≤ 16 }
{
    let mut most = 1;
    for weight in weights {
        let turns = weight.turns();
        if turns > most {
            most = turns;
        }
    }
    most
}

/// The first list from a place on that has a turn in the place's pass, the number of lists where there is none.
fn next_in_pass(weights: &[Weight], place: Turn) -> usize
    requires { place.who ≤ length weights.now }
    ensures low { place.who ≤ result }
    ensures within { result ≤ length weights.now }
    ensures skipped { (k : ℕ) → place.who ≤ k → k < result → has_turn weights.now place.pass k ≡ false }
    ensures has { result < length weights.now → has_turn weights.now place.pass result ≡ true }
{
    for who in place.who..weights.len() {
        if weights[who].turns() >= place.pass {
            return who;
        }
    }
    weights.len()
}

// Whether there is a list at a place, and it has a turn there.
#[inline(always)]
fn has_turn(weights: &[Weight], place: Turn) -> bool
    ensures { result ≡ true → (place.who < length weights.now) × (has_turn weights.now place.pass place.who ≡ true) }
{
    place.who < weights.len() && weights[place.who].turns() >= place.pass
}

/// The first turn from a place of a round on, if there is one.
fn turn_from(weights: &[Weight], most: u8, place: Turn) -> Option<Turn>
    requires most { All (λ w. (1 ≤ w) × (w ≤ most)) weights.now }
    requires limit { most ≤ 16 }
    requires first { 1 ≤ place.pass }
    requires last { place.pass ≤ 16 }
    requires named { place.who ≤ length weights.now }
    ensures none { result ≡ None → turns_from (length weights.now) weights.now place.pass place.who ≡ [] }
    ensures turn { IfSome result (λ t. IsTurn (length weights.now) weights.now t.pass t.who) }
    ensures same { IfSome result (λ t. turns_from (length weights.now) weights.now t.pass t.who
        ≡ turns_from (length weights.now) weights.now place.pass place.who) }
{
    let mut here = place;
    while here.pass <= most {
        let who = next_in_pass(weights, here);
        if who < weights.len() {
            return Some(Turn {
                pass: here.pass,
                who,
            });
        }
        here = Turn {
            pass: here.pass + 1,
            who: 0,
        };
    }
    None
}

/// The turn after a turn: the next one of its round, or the first one of the next round.
pub(crate) fn turn_after(weights: &[Weight], most: u8, turn: Turn) -> Turn
    requires most { All (λ w. (1 ≤ w) × (w ≤ most)) weights.now }
    requires limit { most ≤ 16 }
    requires turn { IsTurn (length weights.now) weights.now turn.pass turn.who }
    ensures turn { IsTurn (length weights.now) weights.now result.pass result.who }
    ensures next { turns_from (length weights.now) weights.now result.pass result.who ≡
        or_next_round (length weights.now) weights.now (turns_from (length weights.now) weights.now turn.pass (turn.who + 1)) }
{
    let behind = Turn {
        pass: turn.pass,
        who: turn.who + 1,
    };
    // Mostly the next list has a turn too: then no round is walked.
    if has_turn(weights, behind) {
        return behind;
    }
    match turn_from(weights, most, behind) {
        Some(next) => next,
        None => Turn { pass: 1, who: 0 },
    }
}
