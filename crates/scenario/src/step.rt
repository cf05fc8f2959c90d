//! The steps of a scenario as words.
ghost use Rattle.std.specs.Prelude.{◌≡◌, ◌<◌, map, option_map, IfOk, IfSome, []};
ghost use Rattle.std.specs.Str.{bytes_eq};
ghost use Rattle.scenario.specs.Steps.{below, new_number, numbers_after, marks_of, install_of, live_of, full_of, number_of, node_of, kind_of, step_of};
ghost use Rattle.scenario.specs.Steps.{plain_step};

use event_trace::ScenarioStep;
use maglev_texts::decimal;
use std::alloc::{AllocError, Global};

// The greatest number in a step.
pub(crate) const GREATEST: u64 = 4_294_967_295;

// A number below a limit.
fn below(text: &[u8], limit: u16) -> Option<u16>
    ensures value { result ≡ below limit text.now }
    ensures bound { IfSome result (λ n. n < limit) }
{
    let number = decimal(text, GREATEST)?;
    if number < u64::from(limit) {
        Some(number as u16)
    } else {
        None
    }
}

// A number below a limit that is none of those found.
#[tactic(auto, unfolding(crate::specs::Steps::new_number))]
fn new_number(found: &[u16], text: &[u8], limit: u16) -> Option<u16>
    ensures { result ≡ new_number limit found.now text.now }
{
    let number = below(text, limit)?;
    if found.contains(&number) {
        None
    } else {
        Some(number)
    }
}

// Numbers below a limit, none of them twice.
fn numbers(alloc: Global, texts: &[&[u8]], limit: u16) -> Result<Option<Vec<u16>>, AllocError>
    ensures { IfOk result (λ o. option_map (λ v. v.items) o ≡ numbers_after limit [] (map (λ t. t.now) texts.now)) }
{
    let mut found: Vec<u16> = Vec::new(alloc);
    for text in texts {
        let Some(number) = new_number(found.as_slice(), text, limit) else {
            return Ok(None);
        };
        found.push(number)?;
    }
    Ok(Some(found))
}

// For each of 16 workers whether it is among those named.
fn marks_of(named: &[u16]) -> [bool; 16]
    ensures { result ≡ marks_of named.now }
{
    let mut marks = [false; 16];
    for worker in 0..16u16 {
        marks[worker as usize] = named.contains(&worker);
    }
    marks
}

fn number_of(words: &[&[u8]]) -> Option<u32>
    ensures { result ≡ number_of (map (λ t. t.now) words.now) }
{
    let [number] = words else {
        return None;
    };
    Some(decimal(number, GREATEST)? as u32)
}

fn node_of(words: &[&[u8]], nodes: u16) -> Option<u16>
    ensures { result ≡ node_of nodes (map (λ t. t.now) words.now) }
{
    let [node] = words else {
        return None;
    };
    below(node, nodes)
}

fn install(words: &[&[u8]], nodes: u16) -> Option<ScenarioStep>
    ensures { option_map plain_step result ≡ install_of nodes (map (λ t. t.now) words.now) }
{
    let [node, version] = words else {
        return None;
    };
    let node = below(node, nodes)?;
    let version = decimal(version, GREATEST)?;
    Some(ScenarioStep::Install {
        node,
        version: version as u32,
    })
}

fn live(alloc: Global, words: &[&[u8]], nodes: u16) -> Result<Option<ScenarioStep>, AllocError>
    ensures { IfOk result (λ o. option_map plain_step o ≡ live_of nodes (map (λ t. t.now) words.now)) }
{
    match numbers(alloc, words, nodes)? {
        Some(found) => Ok(Some(ScenarioStep::Live(found))),
        None => Ok(None),
    }
}

fn full(
    alloc: Global,
    words: &[&[u8]],
    nodes: u16,
    workers: u16,
) -> Result<Option<ScenarioStep>, AllocError>
    ensures { IfOk result (λ o. option_map plain_step o ≡ full_of nodes workers (map (λ t. t.now) words.now)) }
{
    let Some((node, rest)) = words.split_first() else {
        return Ok(None);
    };
    let Some(node) = below(node, nodes) else {
        return Ok(None);
    };
    let Some(named) = numbers(alloc, rest, workers)? else {
        return Ok(None);
    };
    Ok(Some(ScenarioStep::Full {
        node,
        marks: marks_of(named.as_slice()),
    }))
}

/// What a step does, by its first word.
#[derive(Clone, Copy)]
pub(crate) enum Kind {
    Install,
    Live,
    Take,
    Lose,
    Again,
    Full,
    Hold,
    Drain,
    Restart,
    Stop,
    Until,
}

pub(crate) fn is_word(word: &[u8], text: &str) -> bool
    ensures { result ≡ bytes_eq word.now text.now }
{
    word == text.as_bytes()
}

#[tactic(auto, unfolding(crate::specs::Steps::kind_of))]
pub(crate) fn kind_of(word: &[u8]) -> Option<Kind>
    ensures { result ≡ kind_of word.now }
{
    if is_word(word, "install") {
        return Some(Kind::Install);
    }
    if is_word(word, "live") {
        return Some(Kind::Live);
    }
    if is_word(word, "take") {
        return Some(Kind::Take);
    }
    if is_word(word, "lose") {
        return Some(Kind::Lose);
    }
    if is_word(word, "again") {
        return Some(Kind::Again);
    }
    if is_word(word, "full") {
        return Some(Kind::Full);
    }
    if is_word(word, "hold") {
        return Some(Kind::Hold);
    }
    if is_word(word, "drain") {
        return Some(Kind::Drain);
    }
    if is_word(word, "restart") {
        return Some(Kind::Restart);
    }
    if is_word(word, "stop") {
        return Some(Kind::Stop);
    }
    if is_word(word, "until") {
        return Some(Kind::Until);
    }
    None
}

// The step of a kind with these words after it. A time is read in format 3 alone, with the stars.
pub(crate) fn step_of(
    alloc: Global,
    kind: Kind,
    words: &[&[u8]],
    nodes: u16,
    workers: u16,
) -> Result<Option<ScenarioStep>, AllocError>
    ensures { IfOk result (λ o. option_map plain_step o ≡ step_of nodes workers kind (map (λ t. t.now) words.now)) }
{
    match kind {
        Kind::Install => Ok(install(words, nodes)),
        Kind::Live => live(alloc, words, nodes),
        Kind::Take => Ok(number_of(words).map(ScenarioStep::Take)),
        Kind::Lose => Ok(number_of(words).map(ScenarioStep::Lose)),
        Kind::Again => Ok(number_of(words).map(ScenarioStep::Again)),
        Kind::Full => full(alloc, words, nodes, workers),
        Kind::Hold => Ok(node_of(words, nodes).map(ScenarioStep::Hold)),
        Kind::Drain => Ok(node_of(words, nodes).map(ScenarioStep::Drain)),
        Kind::Restart => Ok(node_of(words, nodes).map(ScenarioStep::Restart)),
        Kind::Stop => Ok(node_of(words, nodes).map(ScenarioStep::Stop)),
        Kind::Until => Ok(None),
    }
}
