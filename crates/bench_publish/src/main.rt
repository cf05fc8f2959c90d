//! A benchmark: one node on threads forwards packets while versions are published, in each of which one service has other
//! addresses than before. `bench/publish.sh` runs it.
//!
//! Arguments: how many offers, workers and versions, how many services a version has, how many members a service has, and
//! `times` where the times are to be printed. Without them: 1000, 2, 3, 2 and 4. The first version is published before all
//! offers, the last one after them, and the others are spread among them. Without `times` one line says how many offers
//! there were. With it the line has nanoseconds: first the time from the first version to the last. Then comes what all
//! workers took between the calls of the gate round each serving, and how many servings those were.
#![tactic(auto)]

ghost use Rattle.std.specs.Prelude.{◌≡◌, ◌<◌, IfOk, length};

use backend_names::TableSize;
use cluster_core::Setup;
use connection_table::PlaceTable;
use hash_laws::Fnv;
use node_threads::run_node;
use selection::Maglev;
use std::alloc::{AllocError, Global};
use std::env;

mod load;
mod timed;

use load::{Load, catalogue, commands, packets};
use timed::Timed;

/// The places of a ring.
const RING: u32 = 1024;

/// One node of so many workers.
fn setup(
    alloc: Global,
    size: TableSize,
    workers: u16,
) -> Result<Setup<Maglev<Fnv>, Fnv>, AllocError>
    ensures { IfOk result (λ s. (s.size ≡ size) × (length s.nodes ≡ 1)) }
{
    let nodes = Vec::from_slice(alloc, &[0x0a09_0001])?;
    match Setup::new(Fnv, Maglev { hash: Fnv }, size, nodes, workers, 65536, None) {
        Ok(setup) => Ok(setup),
        Err(_) => Err(AllocError),
    }
}

fn number_at(words: &[String], place: usize, default: u32) -> u32 {
    match words.get(place) {
        Some(word) => word.as_str().parse::<u32>().unwrap_or(default),
        None => default,
    }
}

fn main(rt: HostRuntime) -> anyhow::Result<()> {
    let alloc = rt.alloc();
    let words: Vec<String> = env::args(&rt)?.collect(alloc)?;
    let words = words.as_slice();
    let load = Load {
        offers: number_at(words, 1, 1000),
        versions: number_at(words, 3, 3),
        services: number_at(words, 4, 2),
        members: number_at(words, 5, 4),
    };
    let workers = number_at(words, 2, 2).min(16) as u16;
    let Some(size) = TableSize::new(65537) else {
        return Ok(());
    };
    let setup = setup(alloc, size, workers)?;
    let catalogue = catalogue(alloc, size, load)?;
    let packets = packets(alloc, load)?;
    let commands = commands(alloc, load)?;
    let gate = Timed::new(&rt);
    let run = run_node::<_, _, PlaceTable, _, _>(
        &rt,
        alloc,
        &setup,
        &catalogue,
        packets.as_slice(),
        0,
        commands.as_slice(),
        RING,
        &gate,
    );
    if run.is_err() {
        println!(rt; "fault")?;
        return Ok(());
    }
    println!(rt; "offers {}", load.offers)?;
    if words.len() > 6 {
        println!(rt; "window {}", gate.window())?;
        println!(rt; "busy {} {}", gate.busy(), gate.served())?;
    }
    Ok(())
}
