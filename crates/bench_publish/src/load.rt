//! What is published and offered.
ghost use Rattle.std.specs.Prelude.{◌≡◌, IfOk, Some};
ghost use Rattle.cluster_node.specs.Records.{WasRead};

use backend_names::{Name, TableSize, Weight};
use cluster_node::Packet;
use five_tuple::Flow;
use pool_versions::{Backend, Catalogue, Member, Service, Version};
use std::alloc::{AllocError, Global};
use thread_records::Command;

const VIP: u32 = 0xc000_0201;

/// How many flows there are.
const FLOWS: u32 = 100_000;

/// What is measured.
#[derive(Clone, Copy)]
pub struct Load {
    /// How many packets are offered.
    pub offers: u32,
    /// How many versions are published.
    pub versions: u32,
    /// How many services a version has.
    pub services: u32,
    /// How many members a service has.
    pub members: u32,
}

// So many members, all up, at addresses that follow one another.
fn members(alloc: Global, count: u32) -> Result<Vec<Member>, AllocError> {
    let mut members = Vec::new(alloc);
    for number in 0..count {
        let text = format!(in alloc; "b{number}")?;
        if let Some(name) = Name::new(text.as_bytes()) {
            members.push(Member {
                backend: Backend { name, addr: number },
                up: true,
                draining: false,
                weight: Weight::one(),
            })?;
        }
    }
    Ok(members)
}

// Members at other addresses.
fn moved(alloc: Global, members: &[Member], by: u32) -> Result<Vec<Member>, AllocError> {
    let mut moved = Vec::with_capacity(alloc, members.len())?;
    for member in members {
        let mut member = *member;
        member.backend.addr = member.backend.addr.wrapping_add(by);
        moved.push(member)?;
    }
    Ok(moved)
}

// How often a service has moved in a version: one moves from each version to the next.
fn moves(load: Load, version: u32, service: u32) -> u32 {
    version.wrapping_add(load.services).wrapping_sub(service) / load.services.max(1)
}

fn services(
    alloc: Global,
    load: Load,
    members: &[Member],
    version: u32,
) -> Result<Vec<Service>, AllocError> {
    let mut services = Vec::new(alloc);
    for number in 0..load.services {
        services.push(Service {
            vip: VIP.wrapping_add(number),
            proto: 6,
            port: 80,
            members: moved(alloc, members, moves(load, version, number))?,
        })?;
    }
    Ok(services)
}

/// The versions, from number 1 on.
pub fn catalogue(alloc: Global, size: TableSize, load: Load) -> Result<Catalogue, AllocError>
    ensures { IfOk result (λ c. c.size ≡ size) }
{
    let members = members(alloc, load.members)?;
    let mut catalogue = Catalogue::new(alloc, size);
    for number in 0..load.versions {
        let version = Version {
            number: number.wrapping_add(1),
            services: services(alloc, load, members.as_slice(), number)?,
        };
        let Ok(()) = catalogue.add(version) else {
            return Err(AllocError);
        };
    }
    Ok(catalogue)
}

fn packet_of(number: u32, services: u32) -> Packet
    ensures { WasRead (Some result) }
{
    Packet::Good {
        flow: Flow {
            src: number,
            dst: VIP.wrapping_add(number % services.max(1)),
            sport: 1000,
            dport: 80,
            proto: 6,
        },
        len: 40,
        at: 0,
    }
}

/// A packet of each flow, to one service after another.
pub fn packets(alloc: Global, load: Load) -> Result<Vec<Packet>, AllocError> {
    let mut packets = Vec::new(alloc);
    for number in 0..FLOWS {
        packets.push(packet_of(number, load.services))?;
    }
    Ok(packets)
}

/// The first version, the offers with all others but the last spread among them, and the last one.
pub fn commands(alloc: Global, load: Load) -> Result<Vec<Command>, AllocError> {
    let mut commands = Vec::new(alloc);
    commands.push(Command::Publish(1))?;
    let each = load.offers / load.versions.saturating_sub(1).max(1);
    for number in 2..load.versions {
        for offer in 0..each {
            let place = number.wrapping_mul(each).wrapping_add(offer);
            commands.push(Command::Offer(place % FLOWS))?;
        }
        commands.push(Command::Publish(number))?;
    }
    for offer in 0..each {
        commands.push(Command::Offer(offer % FLOWS))?;
    }
    commands.push(Command::Publish(load.versions))?;
    Ok(commands)
}
