//! The job that asks what is asked before a rollout.
use crate::answers::Outlets;
use crate::captures::{Law, MadeCapture, Traffic};
use crate::jobs::{ALONE, Order, servers};
use crate::packets::{Ends, record_of};
use crate::scenarios::{
    Servers, Version, begun, end_steps, member_list, push_install, push_name, push_restart,
    push_take, push_version,
};
use maglev_cli::{TableKey, compare, explain_run, pick, plan, sketch, table};
use pcap_file::FromRead;
use std::alloc::{AllocError, Global};

const SIZE: u32 = 65537;

// Some servers after a change: a part is new, and one of five of those that stay has another address.
fn changed(servers: Servers, part: u32) -> Servers {
    Servers {
        first: servers.count / part.max(1),
        moved: 5,
        ..servers
    }
}

// So many servers at full size: at least three, and at most as many as a service may have.
fn few(order: Order, count: u32) -> u32 {
    order.scaled(count).clamp(3, 4096)
}

fn plan_text(
    alloc: Global,
    services: u32,
    before: Servers,
    after: Servers,
) -> Result<String, AllocError> {
    let mut text = begun(alloc, ALONE)?;
    end_steps(&mut text)?;
    for (number, servers) in [(1, before), (2, after)] {
        push_version(&mut text, Version::unshared(number, services, servers))?;
    }
    Ok(text)
}

// The plan from the servers of some services to those after a change.
fn planned(
    rt: &impl Print,
    alloc: Global,
    name: &str,
    services: u32,
    before: Servers,
) -> anyhow::Result<()> {
    let text = plan_text(alloc, services, before, changed(before, 4))?;
    let mut outlets = Outlets::new();
    let outcome = plan(alloc, text.as_bytes(), 1, Some(2), &mut outlets.report);
    outlets.tell(rt, name, outcome)?;
    Ok(())
}

// Each plan has a name, what its servers' names are drawn for, a number of services, and one of servers.
fn plans(rt: &impl Print, alloc: Global, order: Order) -> anyhow::Result<()> {
    let asked: [(&str, u32, u32, u32); 4] = [
        ("plan-one", 10, 1, 4096),
        ("plan-many", 11, 16, 500),
        ("plan-long", 15, 6, 2000),
        ("plan-short", 16, 24, 20),
    ];
    for (name, purpose, services, count) in asked {
        let count = few(order, count);
        let before = servers(order.tag(purpose), count, count / 100);
        planned(rt, alloc, name, services, before)?;
    }
    Ok(())
}

// So many names with single spaces between them.
fn names(alloc: Global, tag: u32, count: u32) -> Result<String, AllocError> {
    let mut text = String::new(alloc);
    for number in 0..count {
        push_name(&mut text, tag, number)?;
        text.push_str(" ")?;
    }
    Ok(text)
}

fn tabled(
    rt: &impl Print,
    alloc: Global,
    order: Order,
    hash: &str,
    count: u32,
) -> anyhow::Result<()> {
    let tag = order.tag(count.wrapping_add(100));
    let text = names(alloc, tag, few(order, count))?;
    let words: Vec<&str> = text.as_str().split_whitespace().collect(alloc)?;
    let words = words.as_slice();
    if words.is_empty() {
        return Ok(());
    }
    let mut outlets = Outlets::new();
    let outcome = table(alloc, SIZE, hash, words, &mut outlets.report);
    let name = format!(in alloc; "table-{hash}-{count}")?;
    outlets.tell(rt, name.as_str(), outcome)?;
    Ok(())
}

fn tables(rt: &impl Print, alloc: Global, order: Order) -> anyhow::Result<()> {
    let lists: [(&str, u32); 12] = [
        ("fnv", 3),
        ("fnv", 20),
        ("fnv", 200),
        ("fnv", 1000),
        ("fnv", 4096),
        ("sha256", 100),
        ("sha256", 1500),
        ("fnv", 50),
        ("fnv", 500),
        ("fnv", 2500),
        ("sha256", 10),
        ("sha256", 4000),
    ];
    for (hash, count) in lists {
        tabled(rt, alloc, order, hash, count)?;
    }
    Ok(())
}

fn compared(
    rt: &impl Print,
    alloc: Global,
    order: Order,
    count: u32,
    part: u32,
) -> anyhow::Result<()> {
    let tag = order.tag(count.wrapping_add(10_000));
    let most = few(order, count);
    let before = servers(tag, most, most / 10);
    let old = member_list(alloc, before, 1)?;
    let new = member_list(alloc, changed(before, part), 2)?;
    let mut outlets = Outlets::new();
    let outcome = compare(
        alloc,
        SIZE,
        "fnv",
        old.as_str(),
        new.as_str(),
        &mut outlets.report,
    );
    let name = format!(in alloc; "compare-{count}")?;
    outlets.tell(rt, name.as_str(), outcome)?;
    Ok(())
}

fn compares(rt: &impl Print, alloc: Global, order: Order) -> anyhow::Result<()> {
    let changes: [(u32, u32); 10] = [
        (10, 10),
        (50, 25),
        (300, 4),
        (1000, 8),
        (3000, 2),
        (20, 5),
        (100, 3),
        (500, 10),
        (2000, 5),
        (4000, 3),
    ];
    for (count, part) in changes {
        compared(rt, alloc, order, count, part)?;
    }
    Ok(())
}

// The datagram of a client, as hexadecimal digits.
fn datagram_text(alloc: Global, key: u32, client: u32) -> Result<String, AllocError> {
    let record = record_of(0, 0, Ends::new(key, client, 0));
    let mut text = String::new(alloc);
    for byte in &record[16..] {
        write!(text, "{byte:02x}")?;
    }
    Ok(text)
}

fn picked(rt: &impl Print, alloc: Global, order: Order, flow: u32) -> anyhow::Result<()> {
    let tag = order.tag(flow.wrapping_add(20_000));
    let text = names(alloc, tag, 50)?;
    let words: Vec<&str> = text.as_str().split_whitespace().collect(alloc)?;
    let words = words.as_slice();
    if words.is_empty() {
        return Ok(());
    }
    let datagram = datagram_text(alloc, tag, flow)?;
    let mut input = FromRead::new(datagram.as_bytes());
    let mut outlets = Outlets::new();
    let outcome = pick(
        alloc,
        SIZE,
        "fnv",
        true,
        words,
        &mut input,
        &mut outlets.report,
    );
    let name = format!(in alloc; "pick-{flow}")?;
    outlets.tell(rt, name.as_str(), outcome)?;
    Ok(())
}

fn picks(rt: &impl Print, alloc: Global, order: Order) -> anyhow::Result<()> {
    for flow in 0..20 {
        picked(rt, alloc, order, flow)?;
    }
    Ok(())
}

fn explained_text(alloc: Global, tag: u32, packets: u32) -> Result<String, AllocError> {
    let mut text = begun(alloc, ALONE)?;
    push_install(&mut text, 0, 1)?;
    push_take(&mut text, packets / 2)?;
    push_install(&mut text, 0, 2)?;
    push_restart(&mut text, 0)?;
    push_take(&mut text, packets)?;
    end_steps(&mut text)?;
    for number in 1..3 {
        let servers = servers(tag, 100, 40);
        push_version(&mut text, Version::unshared(number, 1, servers))?;
    }
    Ok(text)
}

// Why the first packet and the last one went where they went: both are of one client.
fn explained(
    rt: &impl Print,
    alloc: Global,
    order: Order,
    name: &str,
    purpose: u32,
    traffic: Traffic,
) -> anyhow::Result<()> {
    let text = explained_text(alloc, order.tag(purpose), traffic.packets)?;
    let last = u64::from(traffic.packets).wrapping_mul(2).wrapping_add(2);
    let mut input = MadeCapture::new(order.seed, purpose.wrapping_add(1), traffic);
    let mut outlets = Outlets::new();
    let outcome = explain_run(
        alloc,
        text.as_bytes(),
        &mut input,
        2,
        last,
        &mut outlets.report,
    );
    outlets.tell(rt, name, outcome)?;
    Ok(())
}

fn explains(rt: &impl Print, alloc: Global, order: Order) -> anyhow::Result<()> {
    let traffic = Traffic {
        packets: order.scaled(500_000),
        law: Law::Few,
        clients: order.scaled(100_000),
        destinations: 1,
    };
    explained(rt, alloc, order, "explain", 12, traffic)?;
    let scan = Traffic {
        packets: order.scaled(300_000),
        law: Law::Scan,
        ..traffic
    };
    explained(rt, alloc, order, "explain-scan", 17, scan)
}

fn sketched(
    rt: &impl Print,
    alloc: Global,
    order: Order,
    name: &str,
    purpose: u32,
    traffic: Traffic,
) -> anyhow::Result<()> {
    let mut input = MadeCapture::new(order.seed, purpose, traffic);
    let mut outlets = Outlets::new();
    let outcome = sketch(alloc, TableKey::fixed(), &mut input, &mut outlets.report);
    outlets.tell(rt, name, outcome)?;
    Ok(())
}

fn sketches(rt: &impl Print, alloc: Global, order: Order) -> anyhow::Result<()> {
    let traffic = Traffic {
        packets: order.scaled(700_000),
        law: Law::Few,
        clients: order.scaled(100_000),
        destinations: 2000,
    };
    sketched(rt, alloc, order, "sketch", 14, traffic)?;
    let wide = Traffic {
        packets: order.scaled(500_000),
        destinations: 50_000,
        ..traffic
    };
    sketched(rt, alloc, order, "sketch-wide", 19, wide)
}

/// What is asked before a rollout.
pub fn questions(rt: &impl Print, alloc: Global, order: Order) -> anyhow::Result<()> {
    plans(rt, alloc, order)?;
    tables(rt, alloc, order)?;
    compares(rt, alloc, order)?;
    picks(rt, alloc, order)?;
    explains(rt, alloc, order)?;
    sketches(rt, alloc, order)
}
