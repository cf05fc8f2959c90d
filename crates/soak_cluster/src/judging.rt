//! What a run's record is held to, apart from the contract of the run.
use cluster_node::{Cause, Event, Outcome};
use stats_book::Stats;
use std::alloc::{AllocError, Global};
use thread_records::{Command, NodeRecord};

// The event is the node's own step for this command.
fn obeys(event: &Event, command: &Command, at: usize) -> bool {
    match (*event, *command) {
        (Event::Install { node, version }, Command::Publish(number)) => usize::from(node) == at
            && version == number,
        (Event::Arrive { node, packet, .. }, Command::Offer(number)) => usize::from(node) == at
            && packet == number,
        (Event::Restart { node }, Command::Restart | Command::Stop) => usize::from(node) == at,
        _ => false,
    }
}

// Without its servings the history is the commands in order, and no serving is refused or hindered.
fn is_obeyed(record: &NodeRecord, commands: &[Command], node: usize) -> bool {
    let mut next = 0usize;
    for (event, outcome) in record.events.iter().zip(record.outcomes.iter()) {
        if let Event::Serve { refused, .. } = *event {
            if refused || matches!(*outcome, Outcome::Refused(_)) {
                return false;
            }
            continue;
        }
        match commands.get(next) {
            Some(command) if obeys(event, command, node) => next = next.wrapping_add(1),
            _ => return false,
        }
    }
    next == commands.len()
}

// What a worker sent, in order.
fn sends_of(alloc: Global, outcomes: &[Outcome], by: u16) -> Result<Vec<Outcome>, AllocError> {
    let mut sent = Vec::new(alloc);
    for outcome in outcomes {
        if matches!(*outcome, Outcome::Forward { worker, .. } if worker == by) {
            sent.push(*outcome)?;
        }
    }
    Ok(sent)
}

// The outcome of each life.
fn lives(alloc: Global, outcomes: &[Outcome]) -> Result<Vec<Vec<Outcome>>, AllocError> {
    let mut lives = Vec::new(alloc);
    let mut life = Vec::new(alloc);
    for outcome in outcomes {
        if let Outcome::Restarted { .. } = *outcome {
            lives.push(life)?;
            life = Vec::new(alloc);
        } else {
            life.push(*outcome)?;
        }
    }
    lives.push(life)?;
    Ok(lives)
}

// A life's list has for each worker what it sent, in its order, and nothing else.
fn is_merge(alloc: Global, sent: &[Outcome], life: &[Outcome]) -> Result<bool, AllocError> {
    let mut count = 0usize;
    for worker in 0..16 {
        let gathered = sends_of(alloc, sent, worker)?;
        if gathered.as_slice() != sends_of(alloc, life, worker)?.as_slice() {
            return Ok(false);
        }
        count = count.wrapping_add(gathered.len());
    }
    Ok(count == sent.len())
}

// For each life what was sent is a merge of what its workers sent.
fn are_merges(alloc: Global, record: &NodeRecord) -> Result<bool, AllocError> {
    let lives = lives(alloc, record.outcomes.as_slice())?;
    if lives.len() != record.sent.len() {
        return Ok(false);
    }
    for (sent, life) in record.sent.iter().zip(lives.iter()) {
        if !is_merge(alloc, sent.as_slice(), life.as_slice())? {
            return Ok(false);
        }
    }
    Ok(true)
}

// Whether the life of this number is one that a stop ends.
fn is_stopped(commands: &[Command], life: usize) -> bool {
    let mut ends = commands.iter().filter(|command| matches!(
        **command,
        Command::Restart | Command::Stop
    ));
    matches!(ends.nth(life), Some(Command::Stop))
}

// In each life what was placed was served or is reported as lost at the life's end, and nothing was lost but at a stop.
fn is_kept(record: &NodeRecord, commands: &[Command]) -> bool {
    let mut waiting = 0u64;
    let mut life = 0usize;
    for (event, outcome) in record.events.iter().zip(record.outcomes.iter()) {
        match *outcome {
            Outcome::Placed { .. } => waiting = waiting.wrapping_add(1),
            Outcome::Restarted { lost } => {
                if lost != waiting || lost > 0 && !is_stopped(commands, life) {
                    return false;
                }
                waiting = 0;
                life = life.wrapping_add(1);
            }
            _ => (),
        }
        if let Event::Serve { .. } = *event {
            waiting = waiting.wrapping_sub(1);
        }
    }
    waiting == 0
}

// How many packets were lost where lives ended.
fn lost_of(outcomes: &[Outcome]) -> u64 {
    let mut all = 0u64;
    for outcome in outcomes {
        if let Outcome::Restarted { lost } = *outcome {
            all = all.wrapping_add(lost);
        }
    }
    all
}

/// The counts of a run are those of its outcomes, and nothing waits.
pub fn are_counted(stats: &Stats, outcomes: &[Outcome]) -> bool {
    let forwarded = outcomes
        .iter()
        .filter(|outcome| matches!(**outcome, Outcome::Forward { .. }))
        .count() as u64;
    let lost = lost_of(outcomes);
    let dropped = outcomes
        .iter()
        .filter(|outcome| matches!(**outcome, Outcome::Dropped { .. }))
        .count() as u64;
    let dropped = dropped.wrapping_add(lost);
    let mut drops = 0u64;
    for count in stats.dropped {
        drops = drops.wrapping_add(count);
    }
    let received = forwarded.wrapping_add(dropped);
    let same = (stats.received, stats.forwarded, drops, stats.waiting)
        == (received, forwarded, dropped, 0);
    same && stats.dropped[Cause::LostAtRestart as usize] == lost
}

/// Each node obeyed its commands, served what was placed or lost it at a stop, and sent what its workers sent.
pub fn are_lived(
    alloc: Global,
    records: &[NodeRecord],
    commands: &[Vec<Command>],
) -> Result<bool, AllocError> {
    for (node, (record, told)) in records.iter().zip(commands.iter()).enumerate() {
        let told = told.as_slice();
        let kept = is_obeyed(record, told, node) && is_kept(record, told);
        if !kept || !are_merges(alloc, record)? {
            return Ok(false);
        }
    }
    Ok(records.len() == commands.len())
}
