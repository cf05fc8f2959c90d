//! The jobs that play scenarios.
use crate::answers::Outlets;
use crate::captures::{Law, MadeCapture, Traffic};
use crate::generator::Generator;
use crate::scenarios::{
    Cluster, Servers, Version, begun, end_steps, push_install, push_live_without, push_restart,
    push_take, push_version,
};
use maglev_cli::{Wanted, run, simulate};
use std::alloc::{AllocError, Global};
use std::sync::Wait;
use std::thread::Threads;

/// From what a job makes its input.
#[derive(Clone, Copy, Debug)]
pub struct Order {
    /// Each seed gives another input.
    pub seed: u32,
    /// The size in percent.
    pub size: u32,
}

impl Order {
    /// So many at full size.
    pub fn scaled(self, count: u32) -> u32 {
        let scaled = u64::from(count).wrapping_mul(u64::from(self.size)) / 100;
        scaled.clamp(1, 0x7fff_ffff) as u32
    }

    /// What the names of some servers have in common.
    pub fn tag(self, purpose: u32) -> u32 {
        Generator::new(self.seed, purpose).number()
    }
}

/// One node of one worker.
pub const ALONE: Cluster = Cluster {
    nodes: 1,
    workers: 1,
    spread: "hash",
};

const PLAIN: Wanted = Wanted::REPORT;

/// So many servers of which so many are down, others in each version.
pub fn servers(tag: u32, count: u32, down: u32) -> Servers {
    Servers {
        tag,
        first: 0,
        count,
        down,
        moved: 0,
    }
}

fn one_version(alloc: Global, tag: u32, packets: u32) -> Result<String, AllocError> {
    let mut text = begun(alloc, ALONE)?;
    push_install(&mut text, 0, 1)?;
    push_take(&mut text, packets)?;
    end_steps(&mut text)?;
    push_version(&mut text, Version::unshared(1, 1, servers(tag, 100, 0)))?;
    Ok(text)
}

// One node forwards some traffic under one version.
fn forwarding(
    rt: &impl Print,
    alloc: Global,
    order: Order,
    name: &str,
    traffic: Traffic,
) -> anyhow::Result<()> {
    let text = one_version(alloc, order.tag(1), traffic.packets)?;
    let mut input = MadeCapture::new(order.seed, 2, traffic);
    let mut outlets = Outlets::new();
    let outcome = simulate(
        alloc,
        text.as_bytes(),
        &mut input,
        &mut outlets.output,
        &mut outlets.report,
        PLAIN,
    );
    outlets.tell(rt, name, outcome)?;
    Ok(())
}

/// Many packets of many clients, most of them of few.
pub fn usual(rt: &impl Print, alloc: Global, order: Order) -> anyhow::Result<()> {
    let traffic = Traffic {
        packets: order.scaled(3_000_000),
        law: Law::Few,
        clients: order.scaled(100_000),
        destinations: 1,
    };
    forwarding(rt, alloc, order, "usual", traffic)
}

/// A scan beside the usual clients: the connection table is full, and its entries are pushed out all the time.
pub fn flood(rt: &impl Print, alloc: Global, order: Order) -> anyhow::Result<()> {
    let traffic = Traffic {
        packets: order.scaled(2_000_000),
        law: Law::Scan,
        clients: order.scaled(200_000),
        destinations: 1,
    };
    forwarding(rt, alloc, order, "flood", traffic)
}

const VERSIONS: u32 = 30;

// A version is installed node by node. Then one node is restarted, while the others have its packets.
fn push_turn(text: &mut String, nodes: u32, version: u32, packets: u32) -> Result<(), AllocError> {
    for node in 0..nodes {
        push_install(text, node, version)?;
        push_take(text, packets)?;
    }
    let restarted = version % nodes.max(1);
    push_live_without(text, nodes, restarted)?;
    push_take(text, packets)?;
    push_restart(text, restarted)?;
    push_live_without(text, nodes, nodes)?;
    push_take(text, packets)
}

fn push_turns(text: &mut String, nodes: u32, packets: u32) -> Result<(), AllocError> {
    let each = packets / nodes.saturating_add(2).saturating_mul(VERSIONS).max(1);
    for number in 0..VERSIONS {
        push_turn(text, nodes, number.wrapping_add(1), each)?;
    }
    push_take(text, packets)?;
    end_steps(text)
}

fn push_versions(text: &mut String, count: u32, version: Version) -> Result<(), AllocError> {
    for number in 0..count {
        let number = number.wrapping_add(1);
        push_version(text, Version { number, ..version })?;
    }
    Ok(())
}

fn rollout_text(
    alloc: Global,
    cluster: Cluster,
    tag: u32,
    packets: u32,
) -> Result<String, AllocError> {
    let mut text = begun(alloc, cluster)?;
    push_turns(&mut text, cluster.nodes, packets)?;
    push_versions(
        &mut text,
        VERSIONS,
        Version::unshared(0, 1, servers(tag, 100, 3)),
    )?;
    Ok(text)
}

// One rollout over so many packets.
fn roll_out(
    rt: &impl Print,
    alloc: Global,
    order: Order,
    purpose: u32,
    packets: u32,
    wanted: Wanted,
) -> anyhow::Result<()> {
    let cluster = Cluster {
        nodes: 8,
        workers: 4,
        spread: "hash",
    };
    let traffic = Traffic {
        packets: order.scaled(packets),
        law: Law::Few,
        clients: order.scaled(100_000),
        destinations: 1,
    };
    let text = rollout_text(alloc, cluster, order.tag(purpose), traffic.packets)?;
    let mut input = MadeCapture::new(order.seed, purpose, traffic);
    let mut outlets = Outlets::new();
    let outcome = simulate(
        alloc,
        text.as_bytes(),
        &mut input,
        &mut outlets.output,
        &mut outlets.report,
        wanted,
    );
    let name = if wanted.list {
        "rollout-list"
    } else {
        "rollout-splits"
    };
    outlets.tell(rt, name, outcome)?;
    Ok(())
}

/// Two rollouts of thirty versions each.
pub fn rollout(rt: &impl Print, alloc: Global, order: Order) -> anyhow::Result<()> {
    let splits = Wanted {
        splits: true,
        ..Wanted::REPORT
    };
    roll_out(rt, alloc, order, 3, 700_000, splits)?;
    let list = Wanted {
        list: true,
        ..Wanted::REPORT
    };
    roll_out(rt, alloc, order, 4, 400_000, list)
}

const LIVES: u32 = 6;

fn push_installs(text: &mut String, nodes: u32, version: u32) -> Result<(), AllocError> {
    for node in 0..nodes {
        push_install(text, node, version)?;
    }
    Ok(())
}

fn push_restarts(text: &mut String, nodes: u32) -> Result<(), AllocError> {
    for node in 0..nodes {
        push_restart(text, node)?;
    }
    Ok(())
}

// Each life of the nodes has one version, installed before its packets.
fn push_lives(text: &mut String, nodes: u32, lives: u32, packets: u32) -> Result<(), AllocError> {
    for life in 0..lives {
        push_installs(text, nodes, life.wrapping_add(1))?;
        push_take(text, packets)?;
        push_restarts(text, nodes)?;
    }
    end_steps(text)
}

fn lives_text(alloc: Global, nodes: u32, tag: u32, packets: u32) -> Result<String, AllocError> {
    let cluster = Cluster {
        nodes,
        workers: 1,
        spread: "hash",
    };
    let mut text = begun(alloc, cluster)?;
    push_lives(&mut text, nodes, LIVES, packets)?;
    push_versions(
        &mut text,
        LIVES,
        Version::unshared(0, 1, servers(tag, 100, 3)),
    )?;
    Ok(text)
}

/// Four nodes on threads, in six lives. No ring gets full, so that each run has the same outcome.
pub fn threads<R: Print + Threads + Wait + Sync>(
    rt: &R,
    alloc: Global,
    order: Order,
) -> anyhow::Result<()> {
    let each = order.scaled(100_000).min(100_000);
    let traffic = Traffic {
        packets: each.wrapping_mul(LIVES),
        law: Law::Few,
        clients: order.scaled(100_000),
        destinations: 1,
    };
    let text = lives_text(alloc, 4, order.tag(5), each)?;
    let mut input = MadeCapture::new(order.seed, 6, traffic);
    let mut outlets = Outlets::new();
    let outcome = run(
        rt,
        alloc,
        text.as_bytes(),
        &mut input,
        &mut outlets.output,
        &mut outlets.report,
        true,
    );
    outlets.tell(rt, "threads", outcome)?;
    Ok(())
}

fn push_phases(text: &mut String, versions: u32, packets: u32) -> Result<(), AllocError> {
    for number in 0..versions {
        push_install(text, 0, number.wrapping_add(1))?;
        push_take(text, packets / versions.max(1))?;
    }
    push_take(text, packets)?;
    end_steps(text)
}

fn services_text(alloc: Global, order: Order, traffic: Traffic) -> Result<String, AllocError> {
    let mut text = begun(alloc, ALONE)?;
    push_phases(&mut text, 4, traffic.packets)?;
    let servers = servers(order.tag(7), 20, 1);
    push_versions(
        &mut text,
        4,
        Version::unshared(0, traffic.destinations, servers),
    )?;
    Ok(text)
}

/// Four versions of 256 services, no two of which have a table in common.
pub fn services(rt: &impl Print, alloc: Global, order: Order) -> anyhow::Result<()> {
    let traffic = Traffic {
        packets: order.scaled(100_000),
        law: Law::Few,
        clients: order.scaled(50_000),
        destinations: order.scaled(256).min(256),
    };
    let text = services_text(alloc, order, traffic)?;
    let mut input = MadeCapture::new(order.seed, 8, traffic);
    let mut outlets = Outlets::new();
    let outcome = simulate(
        alloc,
        text.as_bytes(),
        &mut input,
        &mut outlets.output,
        &mut outlets.report,
        PLAIN,
    );
    outlets.tell(rt, "services", outcome)?;
    Ok(())
}

const SHARED: u32 = 4;

fn shared_text(alloc: Global, order: Order, traffic: Traffic) -> Result<String, AllocError> {
    let cluster = Cluster {
        nodes: 4,
        workers: 1,
        spread: "hash",
    };
    let mut text = begun(alloc, cluster)?;
    push_lives(&mut text, cluster.nodes, SHARED, traffic.packets / SHARED)?;
    let version = Version {
        number: 0,
        services: traffic.destinations,
        pools: order.scaled(16).clamp(4, 16),
        turns: SHARED,
        servers: servers(order.tag(20), 20, 1),
    };
    push_versions(&mut text, SHARED, version)?;
    Ok(text)
}

// What is shared, simulated.
fn simulate_shared(
    rt: &impl Print,
    alloc: Global,
    order: Order,
    traffic: Traffic,
) -> anyhow::Result<()> {
    let text = shared_text(alloc, order, traffic)?;
    let mut input = MadeCapture::new(order.seed, 21, traffic);
    let mut outlets = Outlets::new();
    let outcome = simulate(
        alloc,
        text.as_bytes(),
        &mut input,
        &mut outlets.output,
        &mut outlets.report,
        PLAIN,
    );
    outlets.tell(rt, "shared-simulate", outcome)?;
    Ok(())
}

// The same on threads.
fn run_shared<R: Print + Threads + Wait + Sync>(
    rt: &R,
    alloc: Global,
    order: Order,
    traffic: Traffic,
) -> anyhow::Result<()> {
    let text = shared_text(alloc, order, traffic)?;
    let mut input = MadeCapture::new(order.seed, 21, traffic);
    let mut outlets = Outlets::new();
    let outcome = run(
        rt,
        alloc,
        text.as_bytes(),
        &mut input,
        &mut outlets.output,
        &mut outlets.report,
        false,
    );
    outlets.tell(rt, "shared-run", outcome)?;
    Ok(())
}

/// Four versions of 256 services over 16 pools, of which one in four has another server down in each version. Four nodes have
/// a life in each version, simulated and on threads.
pub fn shared<R: Print + Threads + Wait + Sync>(
    rt: &R,
    alloc: Global,
    order: Order,
) -> anyhow::Result<()> {
    let traffic = Traffic {
        packets: order.scaled(20_000),
        law: Law::Few,
        clients: order.scaled(10_000),
        destinations: order.scaled(256).clamp(8, 256),
    };
    simulate_shared(rt, alloc, order, traffic)?;
    run_shared(rt, alloc, order, traffic)
}
