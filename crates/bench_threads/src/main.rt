//! A benchmark: one node on threads forwards packets of many flows, and the core's run judges the same events on one thread.
//! `bench/threads.sh` runs it.
//!
//! Arguments: how many offers, how many workers, how many flows, and `times` where the times are to be printed. Without it
//! one line says how many offers there were: all else depends on the schedule.
#![tactic(auto)]

ghost use Rattle.std.specs.Prelude.{◌≡◌, ◌<◌, IfOk, length, Some};
ghost use Rattle.cluster_node.specs.Records.{WasRead};

use backend_names::{Name, TableSize, Weight};
use cluster_core::{Run, Setup};
use cluster_node::{Event, Outcome, Packet};
use connection_table::PlaceTable;
use five_tuple::Flow;
use hash_laws::Fnv;
use node_threads::{NodeRun, OpenGate, run_node};
use pool_versions::{Backend, Catalogue, Member, Service, Version};
use selection::Maglev;
use std::alloc::{AllocError, Global};
use std::env;
use std::sync::Wait;
use std::thread::Threads;
use std::time::Instant;
use thread_records::Command;

const VIP: u32 = 0xc000_0201;

/// The places of a ring.
const RING: u32 = 1024;

type Cluster = Setup<Maglev<Fnv>, Fnv>;

/// One service with 100 members, all up.
fn services(alloc: Global) -> Result<Vec<Service>, AllocError> {
    let mut members = Vec::new(alloc);
    for number in 0..100u32 {
        let text = format!(in alloc; "b{number}")?;
        if let Some(name) = Name::new(text.as_bytes()) {
            let backend = Backend { name, addr: number };
            members.push(Member {
                backend,
                up: true,
                draining: false,
                weight: Weight::one(),
            })?;
        }
    }
    let mut services = Vec::new(alloc);
    services.push(Service {
        vip: VIP,
        proto: 6,
        port: 80,
        members,
    })?;
    Ok(services)
}

fn catalogue(alloc: Global, size: TableSize) -> Result<Catalogue, AllocError>
    ensures { IfOk result (λ c. c.size ≡ size) }
{
    let mut catalogue = Catalogue::new(alloc, size);
    let version = Version {
        number: 1,
        services: services(alloc)?,
    };
    match catalogue.add(version) {
        Ok(()) => Ok(catalogue),
        Err(_) => Err(AllocError),
    }
}

/// One node of so many workers.
fn setup(alloc: Global, size: TableSize, workers: u16) -> Result<Cluster, AllocError>
    ensures { IfOk result (λ s. (s.size ≡ size) × (length s.nodes ≡ 1)) }
{
    let nodes = Vec::from_slice(alloc, &[0x0a09_0001])?;
    match Setup::new(Fnv, Maglev { hash: Fnv }, size, nodes, workers, 65536, None) {
        Ok(setup) => Ok(setup),
        Err(_) => Err(AllocError),
    }
}

/// A packet of the flow of a number.
fn packet_of(number: u32) -> Packet
    ensures { WasRead (Some result) }
{
    Packet::Good {
        flow: Flow {
            src: number,
            dst: VIP,
            sport: 1000,
            dport: 80,
            proto: 6,
        },
        len: 40,
        at: 0,
    }
}

fn packets(alloc: Global, flows: u32) -> Result<Vec<Packet>, AllocError> {
    let mut packets = Vec::new(alloc);
    for number in 0..flows {
        packets.push(packet_of(number))?;
    }
    Ok(packets)
}

/// One version, and then the offers, flow by flow.
fn commands(alloc: Global, offers: u32, flows: u32) -> Result<Vec<Command>, AllocError> {
    let mut commands = Vec::new(alloc);
    commands.push(Command::Publish(1))?;
    for number in 0..offers {
        commands.push(Command::Offer(number % flows.max(1)))?;
    }
    Ok(commands)
}

/// How many packets are sent when the core judges these events on one thread.
fn judged(
    alloc: Global,
    setup: &Cluster,
    catalogue: &Catalogue,
    events: &[Event],
) -> Result<u64, AllocError>
    requires { catalogue.now.size ≡ setup.now.size }
{
    let mut run: Run<Maglev<Fnv>, PlaceTable> = Run::make(alloc, setup)?;
    let mut sent = 0u64;
    for event in events {
        let outcome = match *event {
            Event::Arrive { packet, .. } => {
                run.step(setup, catalogue, event, Some(&packet_of(packet)))?
            }
            _ => run.step(setup, catalogue, event, None)?,
        };
        if let Outcome::Forward { .. } = outcome {
            sent = sent.wrapping_add(1);
        }
    }
    Ok(sent)
}

/// The node's run on threads. Without an answer there was a fault.
fn threaded<R: Threads + Wait + Sync>(
    rt: &R,
    alloc: Global,
    setup: &Cluster,
    catalogue: &Catalogue,
    offers: u32,
    flows: u32,
) -> Result<Option<NodeRun>, AllocError>
    requires { length setup.now.nodes ≡ 1 }
{
    let packets = packets(alloc, flows)?;
    let commands = commands(alloc, offers, flows)?;
    let run = run_node::<_, _, PlaceTable, _, _>(
        rt,
        alloc,
        setup,
        catalogue,
        packets.as_slice(),
        0,
        commands.as_slice(),
        RING,
        &OpenGate,
    );
    match run {
        Ok(run) => Ok(Some(run)),
        Err(_) => Ok(None),
    }
}

fn number_at(words: &[String], place: usize, default: u32) -> u32 {
    match words.get(place) {
        Some(word) => word.as_str().parse::<u32>().unwrap_or(default),
        None => default,
    }
}

fn main(rt: HostRuntime) -> anyhow::Result<()> {
    let alloc = rt.alloc();
    let words: Vec<String> = env::args(&rt)?.collect(alloc)?;
    let offers = number_at(words.as_slice(), 1, 1000);
    let workers = number_at(words.as_slice(), 2, 2).min(16) as u16;
    let flows = number_at(words.as_slice(), 3, 100);
    let Some(size) = TableSize::new(65537) else {
        return Ok(());
    };
    let setup = setup(alloc, size, workers)?;
    let catalogue = catalogue(alloc, size)?;
    let start = Instant::now(&rt)?;
    let Some(run) = threaded(&rt, alloc, &setup, &catalogue, offers, flows)? else {
        println!(rt; "fault")?;
        return Ok(());
    };
    let threads = start.elapsed(&rt)?;
    let start = Instant::now(&rt)?;
    let sent = judged(alloc, &setup, &catalogue, run.history())?;
    let core = start.elapsed(&rt)?;
    println!(rt; "offers {offers}")?;
    if words.len() > 4 {
        println!(rt; "sent {sent}")?;
        println!(rt; "threads {}", threads.as_micros())?;
        println!(rt; "core {}", core.as_micros())?;
    }
    Ok(())
}
