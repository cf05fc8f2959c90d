//! Runs one node on threads, with two workers and two lives. For each packet that was sent it prints the number of its
//! backend and the version under which the backend was chosen, in the order of the history. Where there is no record it
//! prints why alone, to standard error. `tests/refused_threads.py` refuses each of its threads and allocations in turn.
#![tactic(auto)]

ghost use Rattle.std.specs.Prelude.{◌<◌, IfOk, length};

use backend_names::{Name, TableSize, Weight};
use cluster_core::Setup;
use cluster_node::{Outcome, Packet};
use connection_table::PlaceTable;
use five_tuple::Flow;
use hash_laws::SumHash;
use node_threads::{NodeRun, OpenGate, RunFault, run_node};
use pool_versions::{Backend, Catalogue, Member, Service, Version};
use selection::Maglev;
use std::alloc::{AllocError, Global};
use std::io::{self, Write};
use std::process::ExitCode;
use std::sync::Wait;
use std::thread::Threads;
use thread_records::Command;

const VIP: u32 = 0xc000_0201;

type Sums = Maglev<SumHash>;

/// The backends 1, 2 and 3; the second may be down.
fn services(alloc: Global, up: bool) -> Result<Vec<Service>, AllocError> {
    let mut members = Vec::new(alloc);
    for (name, addr, up) in [(b"A", 1u32, true), (b"B", 2, up), (b"C", 3, true)] {
        if let Some(name) = Name::new(name) {
            let backend = Backend { name, addr };
            members.push(Member {
                backend,
                up,
                draining: false,
                weight: Weight::one(),
            })?;
        }
    }
    let mut services = Vec::new(alloc);
    services.push(Service {
        vip: VIP,
        proto: 6,
        port: 80,
        members,
    })?;
    Ok(services)
}

/// The versions 1, with all backends up, and 2, without the second.
fn catalogue(alloc: Global, size: TableSize) -> Result<Catalogue, AllocError> {
    let mut catalogue = Catalogue::new(alloc, size);
    for (number, up) in [(1, true), (2, false)] {
        let services = services(alloc, up)?;
        if catalogue.add(Version { number, services }).is_err() {
            return Err(AllocError);
        }
    }
    Ok(catalogue)
}

/// One node of two workers, whose tables keep two entries.
fn setup(alloc: Global, size: TableSize) -> Result<Setup<Sums, SumHash>, AllocError>
    ensures { IfOk result (λ s. 0 < length s.nodes) }
{
    let nodes = Vec::from_slice(alloc, &[0x0a09_0001])?;
    match Setup::new(SumHash, Maglev { hash: SumHash }, size, nodes, 2, 2, None) {
        Ok(setup) => Ok(setup),
        Err(_) => Err(AllocError),
    }
}

/// A packet from this port.
fn packet(sport: u16) -> Packet {
    let flow = Flow {
        src: 0x0a00_0001,
        dst: VIP,
        sport,
        dport: 80,
        proto: 6,
    };
    Packet::Good {
        flow,
        len: 40,
        at: 0,
    }
}

/// Two flows under the version 1, and in the next life both under the version 2.
fn run<R: Threads + Wait + Sync>(rt: &R, alloc: Global) -> Result<NodeRun, RunFault> {
    let Some(size) = TableSize::new(7) else {
        return Err(RunFault::Memory);
    };
    let setup = setup(alloc, size)?;
    let catalogue = catalogue(alloc, size)?;
    let packets = [packet(1000), packet(1001)];
    let commands = [
        Command::Publish(1),
        Command::Offer(0),
        Command::Offer(1),
        Command::Restart,
        Command::Publish(2),
        Command::Offer(1),
        Command::Offer(0),
    ];
    run_node::<_, _, PlaceTable, _, _>(
        rt, alloc, &setup, &catalogue, &packets, 0, &commands, 16, &OpenGate,
    )
}

fn print(rt: &HostRuntime, outcomes: &[Outcome]) -> io::Result<()> {
    for outcome in outcomes {
        if let Outcome::Forward {
            backend,
            origin,
            ..
        } = outcome
        {
            println!(rt; "{} from {origin}", backend.addr)?;
        }
    }
    Ok(())
}

fn main(rt: HostRuntime) -> anyhow::Result<ExitCode> {
    match run(&rt, rt.alloc()) {
        Ok(run) => {
            print(&rt, run.outcomes())?;
            Ok(ExitCode::from(0))
        }
        Err(fault) => {
            eprintln!(rt; "fault: {fault:?}")?;
            Ok(ExitCode::from(1))
        }
    }
}
