//! A soak program: many short runs of a cluster on threads, each thrown from a seed and judged afterwards.
//!
//! Arguments: a seed, and how many runs. Each run's history and each node's record are audited on all three connection tables.
//! Each node's record is compared with its commands, the counts with the outcomes, and each list of what was sent with what
//! the workers sent. Prints how many runs and commands there were, how many runs had a fault, and how many weren't what they
//! should be. The last two are 0.
#![tactic(auto)]

ghost use Rattle.std.specs.Prelude.{◌≡◌, ◌<◌, ◌≤◌, ℕ, Some, slice_get};
ghost use Rattle.cluster_node.specs.declared.packets.Packet.{Packet};
ghost use Rattle.cluster_node.specs.Records.{WasRead};

mod dice;
mod jitter;
mod judging;
mod scene;

use crate::dice::Dice;
use crate::jitter::Jitter;
use crate::judging::{are_counted, are_lived};
use crate::scene::{Throw, catalogue, packets, setup, thrown};
use backend_names::TableSize;
use cluster_core::Setup;
use cluster_node::Packet;
use connection_table::{ConnTable, LruTable, PlaceTable, PlainTable};
use hash_laws::Fnv;
use node_threads::{ClusterRun, run_cluster};
use pool_versions::Catalogue;
use selection::{Maglev, RoundRobin, Scheme};
use std::alloc::{AllocError, Global};
use std::env;
use std::sync::Wait;
use std::thread::Threads;
use thread_records::Command;

/// The outcome of the runs.
#[derive(Clone, Copy, Drop)]
struct SoakCounts {
    runs: u64,
    commands: u64,
    faults: u64,
    differ: u64,
}

// Whether each node's record, and the history of them all, have the outcomes of a replay on this table.
fn are_audited<S: Scheme, T: ConnTable>(
    alloc: Global,
    setup: &Setup<S, Fnv>,
    catalogue: &Catalogue,
    packets: &[Packet],
    run: &ClusterRun,
) -> Result<bool, AllocError>
    requires size { catalogue.now.size ≡ setup.now.size }
    requires read { (k : ℕ) (p : Packet) → slice_get packets.now k ≡ Some p → WasRead (Some p) }
{
    for node in &run.nodes {
        if !node.audit::<S, Fnv, T>(alloc, setup, catalogue, packets)? {
            return Ok(false);
        }
    }
    run.audit::<S, Fnv, T>(alloc, setup, catalogue, packets)
}

// Whether a run is all that it should be.
fn agrees<S: Scheme>(
    alloc: Global,
    setup: &Setup<S, Fnv>,
    catalogue: &Catalogue,
    packets: &[Packet],
    commands: &[Vec<Command>],
    run: &ClusterRun,
) -> Result<bool, AllocError>
    requires size { catalogue.now.size ≡ setup.now.size }
    requires read { (k : ℕ) (p : Packet) → slice_get packets.now k ≡ Some p → WasRead (Some p) }
{
    Ok(
        are_counted(&run.stats(), run.outcomes())
            && are_lived(alloc, run.nodes.as_slice(), commands)?
            && are_audited::<S, PlainTable>(alloc, setup, catalogue, packets, run)?
            && are_audited::<S, LruTable>(alloc, setup, catalogue, packets, run)?
            && are_audited::<S, PlaceTable>(alloc, setup, catalogue, packets, run)?,
    )
}

// One run on this table, judged.
fn soak_on<S: Scheme + Send + Sync, T: ConnTable + Send, R: Threads + Wait + Sync>(
    rt: &R,
    alloc: Global,
    setup: &Setup<S, Fnv>,
    catalogue: &Catalogue,
    throw: &Throw,
    tally: &mut SoakCounts,
) -> Result<(), AllocError>
where
    S::Prepared: Send + Sync,
    requires size { catalogue.now.size ≡ setup.now.size }
    requires some { 0 < throw.now.ring }
    requires limit { throw.now.ring ≤ 64 }
{
    let packets = packets();
    let gate = Jitter { seed: throw.gate };
    let commands = throw.commands.as_slice();
    if commands.len() != setup.nodes().len() {
        return Err(AllocError);
    }
    let ring = throw.ring;
    let run = run_cluster::<S, Fnv, T, Jitter, R>(
        rt, alloc, setup, catalogue, &packets, commands, ring, &gate,
    );
    match run {
        Ok(run) => {
            if !agrees(alloc, setup, catalogue, &packets, commands, &run)? {
                tally.differ = tally.differ.wrapping_add(1);
            }
        }
        Err(_) => tally.faults = tally.faults.wrapping_add(1),
    }
    tally.runs = tally.runs.wrapping_add(1);
    for list in commands {
        tally.commands = tally.commands.wrapping_add(list.len() as u64);
    }
    Ok(())
}

// One cluster and one throw, run on the plain table and on that of the programs.
fn soak<S: Scheme + Send + Sync, R: Threads + Wait + Sync>(
    rt: &R,
    alloc: Global,
    scheme: S,
    size: TableSize,
    dice: &mut Dice,
    tally: &mut SoakCounts,
) -> Result<(), AllocError>
where
    S::Prepared: Send + Sync,
{
    let setup = setup(alloc, scheme, size, dice)?;
    let catalogue = catalogue(alloc, size, dice)?;
    let throw = thrown(alloc, setup.nodes().len(), dice)?;
    soak_on::<S, PlainTable, R>(rt, alloc, &setup, &catalogue, &throw, tally)?;
    soak_on::<S, PlaceTable, R>(rt, alloc, &setup, &catalogue, &throw, tally)
}

fn soak_all<R: Threads + Wait + Sync>(
    rt: &R,
    alloc: Global,
    size: TableSize,
    seed: u64,
    count: u64,
) -> Result<SoakCounts, AllocError> {
    let mut tally = SoakCounts {
        runs: 0,
        commands: 0,
        faults: 0,
        differ: 0,
    };
    for number in 0..count {
        let mut dice = Dice::new(seed.wrapping_add(number));
        if dice.once_in(3) {
            soak(rt, alloc, RoundRobin, size, &mut dice, &mut tally)?;
        } else {
            soak(rt, alloc, Maglev { hash: Fnv }, size, &mut dice, &mut tally)?;
        }
    }
    Ok(tally)
}

fn number_at(words: &[String], place: usize, default: u64) -> u64 {
    match words.get(place) {
        Some(word) => word.as_str().parse::<u64>().unwrap_or(default),
        None => default,
    }
}

fn main(rt: HostRuntime) -> anyhow::Result<()> {
    let alloc = rt.alloc();
    let words: Vec<String> = env::args(&rt)?.collect(alloc)?;
    let seed = number_at(words.as_slice(), 1, 1);
    let count = number_at(words.as_slice(), 2, 100);
    let Some(size) = TableSize::new(13) else {
        return Ok(());
    };
    let tally = soak_all(&rt, alloc, size, seed, count)?;
    println!(rt; "runs {}", tally.runs)?;
    println!(rt; "commands {}", tally.commands)?;
    println!(rt; "faults {}", tally.faults)?;
    println!(rt; "differ {}", tally.differ)?;
    Ok(())
}
