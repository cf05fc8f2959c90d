//! The cluster that a run is made on, and the commands of its nodes.
ghost use Rattle.std.specs.Prelude.{◌≡◌, ◌≤◌, ◌<◌, ℕ, IfOk, Some, slice_get};
ghost use Rattle.cluster_node.specs.declared.packets.Packet.{Packet};
ghost use Rattle.cluster_node.specs.Records.{WasRead};

use crate::dice::Dice;
use backend_names::{Name, TableSize, Weight};
use cluster_core::Setup;
use cluster_node::{Cause, Packet};
use five_tuple::Flow;
use hash_laws::Fnv;
use pool_versions::{Backend, Catalogue, Member, Service, Version};
use selection::Scheme;
use std::alloc::{AllocError, Global};
use thread_records::Command;

const VIP: u32 = 0xc000_0201;

/// How many packets there are.
pub const PACKETS: u32 = 8;

/// How many versions the catalogue has.
const VERSIONS: u32 = 24;

/// What is thrown for one run, beside its cluster.
#[derive(Drop)]
pub struct Throw {
    /// The commands of each node.
    pub commands: Vec<Vec<Command>>,
    /// The places of a ring.
    pub ring: u32,
    /// The seed of the gate.
    pub gate: u64,
}

// Five members, each up or down by the throw of a coin.
fn services(alloc: Global, dice: &mut Dice) -> Result<Vec<Service>, AllocError> {
    let mut members = Vec::new(alloc);
    for (name, addr) in [(b"A", 1u32), (b"B", 2), (b"C", 3), (b"D", 4), (b"E", 5)] {
        if let Some(name) = Name::new(name) {
            let backend = Backend { name, addr };
            let up = !dice.once_in(3);
            members.push(Member {
                backend,
                up,
                draining: false,
                weight: Weight::one(),
            })?;
        }
    }
    let mut services = Vec::new(alloc);
    services.push(Service {
        vip: VIP,
        proto: 6,
        port: 80,
        members,
    })?;
    Ok(services)
}

/// A catalogue of the versions from 1 on.
pub fn catalogue(alloc: Global, size: TableSize, dice: &mut Dice) -> Result<Catalogue, AllocError>
    ensures { IfOk result (λ c. c.size ≡ size) }
{
    let mut catalogue = Catalogue::new(alloc, size);
    for number in 1..=VERSIONS {
        let services = services(alloc, dice)?;
        if catalogue.add(Version { number, services }).is_err() {
            return Err(AllocError);
        }
    }
    Ok(catalogue)
}

/// A cluster of 1 to 8 nodes with 1 to 16 workers each, whose tables keep 1 to 4 entries. It has no idle limit, or one of
/// some microseconds.
pub fn setup<S: Scheme>(
    alloc: Global,
    scheme: S,
    size: TableSize,
    dice: &mut Dice,
) -> Result<Setup<S, Fnv>, AllocError>
    ensures { IfOk result (λ s. s.size ≡ size) }
{
    let mut nodes = Vec::new(alloc);
    for node in 0..1 + dice.below(8) {
        nodes.push(0x0a09_0001 + node)?;
    }
    let workers = 1 + dice.below(16) as u16;
    let capacity = 1 + dice.below(4);
    let idle = match dice.below(3) {
        0 => None,
        limit => Some(u64::from(limit) * 2),
    };
    match Setup::new(Fnv, scheme, size, nodes, workers, capacity, idle) {
        Ok(setup) => Ok(setup),
        Err(_) => Err(AllocError),
    }
}

// A packet of a flow to this port of the one address, at a time.
fn packet(sport: u16, dport: u16, at: u64) -> Packet
    ensures { WasRead (Some result) }
{
    let flow = Flow {
        src: 0x0a00_0001,
        dst: VIP,
        sport,
        dport,
        proto: 6,
    };
    Packet::Good { flow, len: 40, at }
}

/// Five flows with a service, one without, and two packets that are no datagrams.
pub fn packets() -> [Packet; 8]
    ensures { (k : ℕ) (p : Packet) → slice_get result k ≡ Some p → WasRead (Some p) }
{
    [
        packet(1000, 80, 3),
        packet(1001, 80, 0),
        packet(1002, 80, 5),
        packet(1003, 80, 1),
        packet(1006, 80, 4),
        packet(1000, 53, 9),
        Packet::Bad(Cause::Truncated),
        Packet::Bad(Cause::TooLarge),
    ]
}

// One command. Mostly it is an offer, now and then of a packet that isn't there; else a version, which may be old or
// unknown; and seldom a restart or a stop.
fn command(dice: &mut Dice) -> Command {
    match dice.below(40) {
        0 => return Command::Restart,
        1 => return Command::Stop,
        _ => (),
    }
    if dice.once_in(6) {
        return Command::Publish(dice.below(VERSIONS + 3));
    }
    Command::Offer(dice.below(PACKETS + 2))
}

// Up to 100 commands of one node.
fn commands(alloc: Global, dice: &mut Dice) -> Result<Vec<Command>, AllocError> {
    let mut commands = Vec::new(alloc);
    for _ in 0..dice.below(100) {
        commands.push(command(dice))?;
    }
    Ok(commands)
}

/// What is thrown for a run of so many nodes: commands of each, and rings of 1 to 64 places.
pub fn thrown(alloc: Global, nodes: usize, dice: &mut Dice) -> Result<Throw, AllocError>
    ensures some { IfOk result (λ t. 0 < t.ring) }
    ensures limit { IfOk result (λ t. t.ring ≤ 64) }
{
    let mut lists = Vec::new(alloc);
    for _ in 0..nodes {
        lists.push(commands(alloc, dice)?)?;
    }
    let ring = 1 + dice.below(64);
    let gate = u64::from(dice.below(1_000_000));
    Ok(Throw {
        commands: lists,
        ring,
        gate,
    })
}
