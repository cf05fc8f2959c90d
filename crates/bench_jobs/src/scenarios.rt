//! Scenarios as text.
use crate::packets::FIRST_DESTINATION;
use std::alloc::{AllocError, Global};

/// A cluster of a scenario, with tables of 65,537 slots.
#[derive(Clone, Copy, Debug)]
pub struct Cluster {
    /// Its nodes.
    pub nodes: u32,
    /// The workers of each node.
    pub workers: u32,
    /// How packets go to nodes.
    pub spread: &'static str,
}

/// The servers of one service.
#[derive(Clone, Copy, Debug)]
pub struct Servers {
    /// What their names have in common.
    pub tag: u32,
    /// The number of the first one.
    pub first: u32,
    /// How many there are.
    pub count: u32,
    /// How many are down: others in each version.
    pub down: u32,
    /// One of so many has another address: none where it is 0.
    pub moved: u32,
}

/// The services of a version.
#[derive(Clone, Copy, Debug)]
pub struct Version {
    /// Its number.
    pub number: u32,
    /// How many services there are.
    pub services: u32,
    /// How many pools of servers they share: a service has that of its number modulo this.
    pub pools: u32,
    /// One of so many pools has other servers down than in version 0, in each version another part of them.
    pub turns: u32,
    /// The servers of the first pool. Those of another one have the same numbers, and other names and addresses.
    pub servers: Servers,
}

impl Version {
    /// A version of so many services with a pool each, in which every pool has its turn.
    pub fn unshared(number: u32, services: u32, servers: Servers) -> Version {
        Version {
            number,
            services,
            pools: services,
            turns: 1,
            servers,
        }
    }
}

fn push_address(text: &mut String, address: u32) -> Result<(), AllocError> {
    let [a, b, c, d] = address.to_be_bytes();
    write!(text, "{a}.{b}.{c}.{d}")
}

// The servers of another pool.
fn servers_of(servers: Servers, pool: u32) -> Servers {
    Servers {
        tag: servers.tag.wrapping_add(pool),
        ..servers
    }
}

// The version whose servers are down in a pool: this one where it's the pool's turn, else 0.
fn stage_of(version: Version, pool: u32) -> u32 {
    let turns = version.turns.max(1);
    if pool % turns == version.number % turns {
        return version.number;
    }
    0
}

// Whether a server is down in a version.
fn is_down(servers: Servers, index: u32, version: u32) -> bool {
    let count = servers.count.max(1);
    let turn = index.wrapping_mul(37).wrapping_add(servers.tag & 0xffff) % count;
    let parts = (count / servers.down.max(1)).max(1);
    turn / servers.down.max(1) == version % parts && servers.down > 0
}

// The address of a server.
fn address_of(servers: Servers, number: u32) -> u32 {
    let base = 0x0a00_0001u32.wrapping_add((servers.tag & 0xff) << 13);
    if servers.moved > 0 && number % servers.moved == 0 {
        return base.wrapping_add(0x0080_0000).wrapping_add(number);
    }
    base.wrapping_add(number)
}

/// The name of a server.
pub fn push_name(text: &mut String, tag: u32, number: u32) -> Result<(), AllocError> {
    write!(text, "web-{tag:x}-{number}")
}

// The member word of a server in a version.
fn push_member(
    text: &mut String,
    servers: Servers,
    index: u32,
    version: u32,
) -> Result<(), AllocError> {
    let number = servers.first.wrapping_add(index);
    push_name(text, servers.tag, number)?;
    text.push_str("@")?;
    push_address(text, address_of(servers, number))?;
    if is_down(servers, index, version) {
        text.push_str("/down")?;
    }
    Ok(())
}

/// Member words with single spaces between them.
pub fn member_list(alloc: Global, servers: Servers, version: u32) -> Result<String, AllocError> {
    let mut text = String::new(alloc);
    for index in 0..servers.count {
        if index > 0 {
            text.push_str(" ")?;
        }
        push_member(&mut text, servers, index, version)?;
    }
    Ok(text)
}

fn push_service(text: &mut String, version: Version, service: u32) -> Result<(), AllocError> {
    let pool = service % version.pools.max(1);
    let servers = servers_of(version.servers, pool);
    text.push_str("[[versions.services]]\nvip = \"")?;
    push_address(text, FIRST_DESTINATION.wrapping_add(service))?;
    text.push_str("\"\nproto = \"tcp\"\nport = 80\nmembers = [")?;
    for index in 0..servers.count {
        text.push_str("\"")?;
        push_member(text, servers, index, stage_of(version, pool))?;
        text.push_str("\",")?;
    }
    text.push_str("]\n")
}

/// A version.
pub fn push_version(text: &mut String, version: Version) -> Result<(), AllocError> {
    write!(text, "[[versions]]\nnumber = {}\n", version.number)?;
    for service in 0..version.services {
        push_service(text, version, service)?;
    }
    Ok(())
}

fn push_nodes(text: &mut String, count: u32) -> Result<(), AllocError> {
    for node in 0..count {
        text.push_str("\"")?;
        push_address(text, 0x0a09_0001u32.wrapping_add(node))?;
        text.push_str("\",")?;
    }
    Ok(())
}

/// A text with what a scenario begins with. Its steps are to follow.
pub fn begun(alloc: Global, cluster: Cluster) -> Result<String, AllocError> {
    let mut text = String::new(alloc);
    text.push_str("format = 1\nsize = 65537\nhash = \"fnv\"\nscheme = \"maglev\"\n")?;
    text.push_str("capacity = 65536\nring = 65536\n")?;
    write!(
        text,
        "workers = {}\nspread = \"{}\"\nnodes = [",
        cluster.workers, cluster.spread
    )?;
    push_nodes(&mut text, cluster.nodes)?;
    text.push_str("]\nsteps = [\n")?;
    Ok(text)
}

/// The step that delivers so many packets.
pub fn push_take(text: &mut String, packets: u32) -> Result<(), AllocError> {
    write!(text, "\"take {packets}\",\n")
}

/// The step that installs a version on a node.
pub fn push_install(text: &mut String, node: u32, version: u32) -> Result<(), AllocError> {
    write!(text, "\"install {node} {version}\",\n")
}

/// The step that begins another life of a node.
pub fn push_restart(text: &mut String, node: u32) -> Result<(), AllocError> {
    write!(text, "\"restart {node}\",\n")
}

/// The step after which all nodes but one are live.
pub fn push_live_without(text: &mut String, nodes: u32, absent: u32) -> Result<(), AllocError> {
    text.push_str("\"live")?;
    for node in 0..nodes {
        if node != absent {
            write!(text, " {node}")?;
        }
    }
    text.push_str("\",\n")
}

/// The end of the steps.
pub fn end_steps(text: &mut String) -> Result<(), AllocError> {
    text.push_str("]\n")
}
