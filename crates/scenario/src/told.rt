//! What the texts of a scenario's steps say: each a step, by count or by time, or one for each node in order.
ghost use Rattle.std.specs.Prelude.{◌≡◌, ◌++◌, map, option_map, IfOk, if◌then◌else◌};
ghost use Rattle.std.specs.List.{range_with_len};
ghost use Rattle.scenario.specs.Steps.{deliver, plain_step, plain_timed};
ghost use Rattle.scenario.specs.Told.{at_node, count_said, once, install_each, is_star, newer, newer_in, plain_told, steps_said, told_by, told_by_words};
ghost use Rattle.scenario.specs.Told.{told_of, allows_told, until_of};

use crate::playing::Played;
use crate::step::{GREATEST, Kind, is_word, kind_of, step_of};
use crate::times::micros_of;
use event_trace::ScenarioStep;
use maglev_texts::{decimal, pieces};
use scenario_keys::Format;
use std::alloc::{AllocError, Global};
use timed_steps::TimedStep;

/// What steps are read by: the format, how the scenario is played, and how many nodes and workers a node there are.
#[derive(Clone, Copy)]
pub(crate) struct StepRules {
    pub(crate) format: Format,
    pub(crate) played: Played,
    pub(crate) nodes: u16,
    pub(crate) workers: u16,
}

/// What each node does in order.
#[derive(Clone, Copy)]
pub(crate) enum EachNode {
    /// `install * V`
    Install(u32),
    /// `restart *`
    Restart,
    /// `stop *`
    Stop,
}

/// What a text says.
#[derive(Drop)]
pub(crate) enum Told {
    Once(TimedStep),
    Each(EachNode),
}

fn at_node(each: EachNode, node: u16) -> ScenarioStep
    ensures { plain_step result ≡ at_node each node }
{
    match each {
        EachNode::Install(version) => ScenarioStep::Install { node, version },
        EachNode::Restart => ScenarioStep::Restart(node),
        EachNode::Stop => ScenarioStep::Stop(node),
    }
}

fn count_said(told: &Told, nodes: u16) -> usize
    ensures { result ≡ count_said nodes (plain_told told.now) }
{
    match told {
        Told::Once(_) => 1,
        Told::Each(_) => usize::from(nodes),
    }
}

// Adds the step of each node.
fn add_each(steps: &mut Vec<TimedStep>, each: EachNode, nodes: u16) -> Result<(), AllocError>
    ensures { IfOk result (λ _. map plain_timed steps.new.items ≡ map plain_timed steps.old.items ++ map (at_node each) (range_with_len 0 nodes)) }
{
    for node in 0..nodes {
        let Ok(()) = steps.push(TimedStep::Counted(at_node(each, node))) else {
            return Err(AllocError);
        };
    }
    Ok(())
}

/// Adds the steps that are said.
pub(crate) fn add_told(steps: &mut Vec<TimedStep>, told: Told, nodes: u16) -> Result<(), AllocError>
    ensures { IfOk result (λ _. map plain_timed steps.new.items ≡ map plain_timed steps.old.items ++ steps_said nodes (plain_told told)) }
{
    match told {
        Told::Once(step) => {
            let Ok(()) = steps.push(step) else {
                return Err(AllocError);
            };
            Ok(())
        }
        Told::Each(each) => add_each(steps, each, nodes),
    }
}

// Whether the words are one star.
fn is_star(words: &[&[u8]]) -> bool
    ensures { result ≡ is_star (map (λ t. t.now) words.now) }
{
    let [word] = words else {
        return false;
    };
    is_word(word, "*")
}

fn install_each(words: &[&[u8]]) -> Option<Told>
    ensures { option_map plain_told result ≡ install_each (map (λ t. t.now) words.now) }
{
    let [word, version] = words else {
        return None;
    };
    if !is_word(word, "*") {
        return None;
    }
    let version = decimal(version, GREATEST)?;
    Some(Told::Each(EachNode::Install(version as u32)))
}

fn if_star(words: &[&[u8]], told: Told) -> Option<Told>
    ensures { option_map plain_told result ≡ (if is_star (map (λ t. t.now) words.now) then Some (plain_told told) else None) }
{
    if is_star(words) { Some(told) } else { None }
}

fn until(alloc: Global, words: &[&[u8]]) -> Result<Option<Told>, AllocError>
    ensures { IfOk result (λ o. option_map plain_told o ≡ until_of (map (λ t. t.now) words.now)) }
{
    let [word] = words else {
        return Ok(None);
    };
    match micros_of(alloc, word)? {
        Some(micros) => Ok(Some(Told::Once(TimedStep::Until(micros)))),
        None => Ok(None),
    }
}

// The rest of the capture.
fn take_rest() -> Told
    ensures { plain_told result ≡ once (deliver 4294967295) }
{
    Told::Once(TimedStep::Counted(ScenarioStep::Take(u32::MAX)))
}

// What a kind says in format 3 alone.
fn newer(alloc: Global, kind: Kind, words: &[&[u8]]) -> Result<Option<Told>, AllocError>
    ensures { IfOk result (λ o. option_map plain_told o ≡ newer kind (map (λ t. t.now) words.now)) }
{
    match kind {
        Kind::Install => Ok(install_each(words)),
        Kind::Take => Ok(if_star(words, take_rest())),
        Kind::Restart => Ok(if_star(words, Told::Each(EachNode::Restart))),
        Kind::Stop => Ok(if_star(words, Told::Each(EachNode::Stop))),
        Kind::Until => until(alloc, words),
        Kind::Live | Kind::Lose | Kind::Again | Kind::Full | Kind::Hold | Kind::Drain => Ok(None),
    }
}

fn newer_in(
    alloc: Global,
    format: Format,
    kind: Kind,
    words: &[&[u8]],
) -> Result<Option<Told>, AllocError>
    ensures { IfOk result (λ o. option_map plain_told o ≡ newer_in format kind (map (λ t. t.now) words.now)) }
{
    match format {
        Format::One | Format::Two => Ok(None),
        Format::Three => newer(alloc, kind, words),
    }
}

fn told_by(
    alloc: Global,
    rules: StepRules,
    kind: Kind,
    words: &[&[u8]],
) -> Result<Option<Told>, AllocError>
    ensures { IfOk result (λ o. option_map plain_told o ≡ told_by rules kind (map (λ t. t.now) words.now)) }
{
    match step_of(alloc, kind, words, rules.nodes, rules.workers)? {
        Some(step) => Ok(Some(Told::Once(TimedStep::Counted(step)))),
        None => newer_in(alloc, rules.format, kind, words),
    }
}

fn told_by_words(
    alloc: Global,
    rules: StepRules,
    words: &[&[u8]],
) -> Result<Option<Told>, AllocError>
    ensures { IfOk result (λ o. option_map plain_told o ≡ told_by_words rules (map (λ t. t.now) words.now)) }
{
    let Some((word, rest)) = words.split_first() else {
        return Ok(None);
    };
    match kind_of(word) {
        Some(kind) => told_by(alloc, rules, kind, rest),
        None => Ok(None),
    }
}

// Whether a scenario that is played so may have what is said.
#[tactic(auto, using(crate::proofs::Until::until_allowed))]
fn allows_told(played: Played, told: &Told) -> bool
    ensures { result ≡ allows_told played (plain_told told.now) }
{
    match told {
        Told::Once(TimedStep::Counted(step)) => played.allows(step),
        Told::Once(TimedStep::Until(_)) => true,
        Told::Each(each) => played.allows(&at_node(*each, 0)),
    }
}

/// What a text says, where a scenario that is played so may have it and so many steps have room.
#[tactic(auto, unfolding(crate::specs::Told::told_of))]
pub(crate) fn told_of(
    alloc: Global,
    rules: StepRules,
    room: usize,
    text: &[u8],
) -> Result<Option<Told>, AllocError>
    ensures { IfOk result (λ o. option_map plain_told o ≡ told_of rules room text.now) }
{
    let words = pieces(alloc, text, b' ')?;
    let Some(told) = told_by_words(alloc, rules, words.as_slice())? else {
        return Ok(None);
    };
    if allows_told(rules.played, &told) && count_said(&told, rules.nodes) <= room {
        Ok(Some(told))
    } else {
        Ok(None)
    }
}
