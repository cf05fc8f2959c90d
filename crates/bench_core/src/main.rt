//! A benchmark: one node of the cluster judges packets of many flows, one event after another. `bench/core.sh` and
//! `bench/versions.sh` time it.
//!
//! Arguments: how many packets, flows and versions, how many services a version has, how many members a service has, 1 or 0,
//! and tables. With 1 each version has other addresses in one service than the version before; with 0 all versions are alike.
//! Without arguments: 1000, 100, 1, 1, 100, 0 and `place`. All versions are installed on another node, the first one on the
//! node that judges: so it is the one that was prepared longest ago. Each packet is two events, its arrival and its serving.
//! A table is `place`, `lru` or `plain`. Prints a row for each: how many packets were forwarded, all of them.
#![tactic(auto)]

ghost use Rattle.std.specs.Prelude.{◌≡◌, IfOk, Some};
ghost use Rattle.cluster_node.specs.Records.{WasRead};

use backend_names::{Name, TableSize, Weight};
use cluster_core::{Event, Outcome, Packet, Run, Setup};
use connection_table::{ConnTable, LruTable, PlaceTable, PlainTable};
use five_tuple::Flow;
use hash_laws::Fnv;
use pool_versions::{Backend, Catalogue, Member, Service, Version};
use selection::Maglev;
use std::alloc::{AllocError, Global};
use std::env;

const VIP: u32 = 0xc000_0201;

/// What is measured.
#[derive(Clone, Copy)]
struct Load {
    packets: u32,
    flows: u32,
    versions: u32,
    services: u32,
    members: u32,
    is_changing: bool,
}

/// So many members, all up, at addresses that follow one another.
fn members(alloc: Global, count: u32, addr: u32) -> Result<Vec<Member>, AllocError> {
    let mut members = Vec::new(alloc);
    for number in 0..count {
        let text = format!(in alloc; "b{number}")?;
        if let Some(name) = Name::new(text.as_bytes()) {
            let addr = addr.wrapping_add(number);
            let backend = Backend { name, addr };
            members.push(Member {
                backend,
                up: true,
                draining: false,
                weight: Weight::one(),
            })?;
        }
    }
    Ok(members)
}

/// The first address of a service's members in a version: another one than in the version before at one service a version.
fn first_address(load: Load, version: u32, service: u32) -> u32 {
    if !load.is_changing {
        return 0;
    }
    version.wrapping_add(load.services).wrapping_sub(service) / load.services.max(1)
}

/// The services of a version, at addresses that follow one another.
fn services(alloc: Global, load: Load, version: u32) -> Result<Vec<Service>, AllocError> {
    let mut services = Vec::new(alloc);
    for number in 0..load.services {
        services.push(Service {
            vip: VIP.wrapping_add(number),
            proto: 6,
            port: 80,
            members: members(alloc, load.members, first_address(load, version, number))?,
        })?;
    }
    Ok(services)
}

fn catalogue(alloc: Global, size: TableSize, load: Load) -> Result<Catalogue, AllocError>
    ensures { IfOk result (λ c. c.size ≡ size) }
{
    let mut catalogue = Catalogue::new(alloc, size);
    for number in 0..load.versions {
        let version = Version {
            number: number.wrapping_add(1),
            services: services(alloc, load, number)?,
        };
        let Ok(()) = catalogue.add(version) else {
            return Err(AllocError);
        };
    }
    Ok(catalogue)
}

/// A packet of the flow of a number, to one of so many services.
fn packet_of(number: u32, services: u32) -> Packet
    ensures { WasRead (Some result) }
{
    Packet::Good {
        flow: Flow {
            src: number,
            dst: VIP.wrapping_add(number % services.max(1)),
            sport: 1000,
            dport: 80,
            proto: 6,
        },
        len: 40,
        at: 0,
    }
}

type Cluster = Setup<Maglev<Fnv>, Fnv>;

/// One packet arrives and is served. Whether it was forwarded.
fn judge<T: ConnTable>(
    run: &mut Run<Maglev<Fnv>, T>,
    setup: &Cluster,
    catalogue: &Catalogue,
    number: u32,
    services: u32,
) -> Result<bool, AllocError>
    requires { catalogue.now.size ≡ setup.now.size }
{
    let packet = packet_of(number, services);
    let arrival = Event::Arrive {
        node: 0,
        packet: number,
        refused: [false; 16],
    };
    let _placed = run.step(setup, catalogue, &arrival, Some(&packet))?;
    let serving = Event::Serve {
        node: 0,
        worker: 0,
        version: 1,
        refused: false,
    };
    match run.step(setup, catalogue, &serving, None)? {
        Outcome::Forward { .. } => Ok(true),
        _ => Ok(false),
    }
}

/// Installs all versions on the node 1, and the first one on the node 0.
fn install<T: ConnTable>(
    run: &mut Run<Maglev<Fnv>, T>,
    setup: &Cluster,
    catalogue: &Catalogue,
    versions: u32,
) -> Result<(), AllocError>
    requires { catalogue.now.size ≡ setup.now.size }
{
    for number in 0..versions {
        let everywhere = Event::Install {
            node: 1,
            version: number.wrapping_add(1),
        };
        let _installed = run.step(setup, catalogue, &everywhere, None)?;
    }
    let here = Event::Install {
        node: 0,
        version: 1,
    };
    let _installed = run.step(setup, catalogue, &here, None)?;
    Ok(())
}

/// How many of the packets are forwarded.
fn forwarded<T: ConnTable>(
    alloc: Global,
    setup: &Cluster,
    catalogue: &Catalogue,
    load: Load,
) -> Result<u64, AllocError>
    requires { catalogue.now.size ≡ setup.now.size }
{
    let mut run: Run<Maglev<Fnv>, T> = Run::make(alloc, setup)?;
    install(&mut run, setup, catalogue, load.versions)?;
    let mut count = 0u64;
    for packet in 0..load.packets {
        if judge(
            &mut run,
            setup,
            catalogue,
            packet % load.flows.max(1),
            load.services,
        )? {
            count = count.wrapping_add(1);
        }
    }
    Ok(count)
}

fn number_at(words: &[String], place: usize, default: u32) -> u32 {
    match words.get(place) {
        Some(word) => word.as_str().parse::<u32>().unwrap_or(default),
        None => default,
    }
}

/// Judges the packets on a cluster of two nodes with one worker each.
fn bench<T: ConnTable>(alloc: Global, load: Load) -> Result<u64, AllocError> {
    let Some(size) = TableSize::new(65537) else {
        return Ok(0);
    };
    let catalogue = catalogue(alloc, size, load)?;
    let mut nodes = Vec::new(alloc);
    nodes.push(0x0a09_0001)?;
    nodes.push(0x0a09_0002)?;
    match Setup::new(Fnv, Maglev { hash: Fnv }, size, nodes, 1, 65536, None) {
        Ok(setup) => forwarded::<T>(alloc, &setup, &catalogue, load),
        Err(_) => Ok(0),
    }
}

/// The same with the table of this name.
fn bench_on(alloc: Global, load: Load, table: &str) -> Result<u64, AllocError> {
    match table {
        "plain" => bench::<PlainTable>(alloc, load),
        "lru" => bench::<LruTable>(alloc, load),
        _ => bench::<PlaceTable>(alloc, load),
    }
}

fn main(rt: HostRuntime) -> anyhow::Result<()> {
    let alloc = rt.alloc();
    let words: Vec<String> = env::args(&rt)?.collect(alloc)?;
    let load = Load {
        packets: number_at(words.as_slice(), 1, 1000),
        flows: number_at(words.as_slice(), 2, 100),
        versions: number_at(words.as_slice(), 3, 1),
        services: number_at(words.as_slice(), 4, 1),
        members: number_at(words.as_slice(), 5, 100),
        is_changing: number_at(words.as_slice(), 6, 0) == 1,
    };
    if words.len() < 8 {
        println!(rt; "place {}", bench_on(alloc, load, "place")?)?;
    }
    for table in words.iter().skip(7) {
        println!(rt; "{table} {}", bench_on(alloc, load, table.as_str())?)?;
    }
    Ok(())
}
