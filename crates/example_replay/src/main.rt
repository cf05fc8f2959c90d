//! Replays a list of events on all three connection tables. For each packet that was sent it prints the number of its backend and
//! the version under which the backend was chosen. Where memory was refused it prints `fault: Memory` alone, to standard
//! error. `tests/refused_growths_core.py` refuses each of its allocations in turn.
#![tactic(auto)]

ghost use Rattle.std.specs.Prelude.{◌≡◌, IfOk, Some};
ghost use Rattle.cluster_node.specs.Records.{WasRead};

use backend_names::{Name, TableSize, Weight};
use cluster_core::{Event, Outcome, Packet, Setup, replay_maglev};
use connection_table::{ConnTable, LruTable, PlaceTable, PlainTable};
use five_tuple::Flow;
use hash_laws::SumHash;
use pool_versions::{Backend, Catalogue, Member, Service, Version};
use selection::Maglev;
use std::alloc::{AllocError, Global};
use std::io::{self, Write};
use std::process::ExitCode;

const VIP: u32 = 0xc000_0201;

/// The backends 1, 2 and 3; the second may be down.
fn services(alloc: Global, up: bool) -> Result<Vec<Service>, AllocError> {
    let mut members = Vec::new(alloc);
    for (name, addr, up) in [(b"A", 1u32, true), (b"B", 2, up), (b"C", 3, true)] {
        if let Some(name) = Name::new(name) {
            let backend = Backend { name, addr };
            members.push(Member {
                backend,
                up,
                draining: false,
                weight: Weight::one(),
            })?;
        }
    }
    let mut services = Vec::new(alloc);
    services.push(Service {
        vip: VIP,
        proto: 6,
        port: 80,
        members,
    })?;
    Ok(services)
}

fn add(alloc: Global, to: Catalogue, number: u32, up: bool) -> Result<Catalogue, AllocError>
    ensures { IfOk result (λ c. c.size ≡ to.size) }
{
    let mut catalogue = to;
    let services = services(alloc, up)?;
    match catalogue.add(Version { number, services }) {
        Ok(()) => Ok(catalogue),
        Err(_) => Err(AllocError),
    }
}

/// The versions 1, with all backends up, and 2, without the second.
fn catalogue(alloc: Global, size: TableSize) -> Result<Catalogue, AllocError>
    ensures { IfOk result (λ c. c.size ≡ size) }
{
    let first = add(alloc, Catalogue::new(alloc, size), 1, true)?;
    add(alloc, first, 2, false)
}

/// A packet from this port.
fn packet(sport: u16) -> Packet
    ensures { WasRead (Some result) }
{
    let flow = Flow {
        src: 0x0a00_0001,
        dst: VIP,
        sport,
        dport: 80,
        proto: 6,
    };
    Packet::Good {
        flow,
        len: 40,
        at: 0,
    }
}

/// A packet arrives and is served under a version.
fn push_packet(events: &mut Vec<Event>, packet: u32, version: u32) -> Result<(), AllocError> {
    events.push(Event::Arrive {
        node: 0,
        packet,
        refused: [false; 16],
    })?;
    events.push(Event::Serve {
        node: 0,
        worker: 0,
        version,
        refused: false,
    })?;
    Ok(())
}

/// One packet under the version 1, six under the version 2.
fn events(alloc: Global) -> Result<Vec<Event>, AllocError> {
    let mut events = Vec::new(alloc);
    events.push(Event::Install {
        node: 0,
        version: 1,
    })?;
    push_packet(&mut events, 2, 1)?;
    events.push(Event::Install {
        node: 0,
        version: 2,
    })?;
    for packet in [0u32, 0, 2, 0, 1, 2] {
        push_packet(&mut events, packet, 2)?;
    }
    Ok(events)
}

/// Two nodes of one worker, whose table keeps two entries.
fn setup(alloc: Global, size: TableSize) -> Result<Setup<Maglev<SumHash>, SumHash>, AllocError>
    ensures size { IfOk result (λ s. s.size ≡ size) }
    ensures hash { IfOk result (λ s. s.scheme.hash ≡ s.hash) }
{
    let mut nodes = Vec::new(alloc);
    nodes.push(0x0a09_0001)?;
    nodes.push(0x0a09_0002)?;
    match Setup::new(SumHash, Maglev { hash: SumHash }, size, nodes, 1, 2, None) {
        Ok(setup) => Ok(setup),
        Err(_) => Err(AllocError),
    }
}

fn replayed<T: ConnTable>(alloc: Global, size: TableSize) -> Result<Vec<Outcome>, AllocError> {
    let setup = setup(alloc, size)?;
    let catalogue = catalogue(alloc, size)?;
    let packets = [packet(1000), packet(1001), packet(1006)];
    let events = events(alloc)?;
    replay_maglev::<SumHash, T>(alloc, &setup, &catalogue, &packets, events.as_slice())
}

/// What all tables answer, the plain one first.
fn all(alloc: Global) -> Result<Vec<Outcome>, AllocError> {
    let Some(size) = TableSize::new(7) else {
        return Err(AllocError);
    };
    let mut outcomes = replayed::<PlainTable>(alloc, size)?;
    for outcome in replayed::<LruTable>(alloc, size)?.as_slice() {
        outcomes.push(*outcome)?;
    }
    for outcome in replayed::<PlaceTable>(alloc, size)?.as_slice() {
        outcomes.push(*outcome)?;
    }
    Ok(outcomes)
}

fn print(rt: &HostRuntime, outcomes: &[Outcome]) -> io::Result<()> {
    for outcome in outcomes {
        if let Outcome::Forward {
            backend,
            origin,
            ..
        } = outcome
        {
            println!(rt; "{} from {origin}", backend.addr)?;
        }
    }
    Ok(())
}

fn main(rt: HostRuntime) -> anyhow::Result<ExitCode> {
    match all(rt.alloc()) {
        Ok(outcomes) => {
            print(&rt, outcomes.as_slice())?;
            Ok(ExitCode::from(0))
        }
        Err(_) => {
            eprintln!(rt; "fault: Memory")?;
            Ok(ExitCode::from(1))
        }
    }
}
