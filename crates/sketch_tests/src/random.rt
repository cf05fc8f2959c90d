// Random captures, whose sketches are read back as scenarios.
use crate::captures::{head, push_both, push_packet, push_record};
use crate::checks::{holds, same_number, same_outcome};
use connection_table::TableKey;
use pcap_file::{FromRead, ToWrite};
use pool_versions::{Service, ServiceKey};
use rand_core::{Rng, SeedableRng};
use rand_xoshiro::SplitMix64;
use scenario::{Played, ScenarioStep, read};
use scenario_sketch::sketch;
use std::alloc::Global;
use std::process::Abort;
use timed_steps::TimedStep;

// How many packets went to a destination.
#[derive(Clone, Copy)]
struct Count {
    to: ServiceKey,
    packets: u64,
}

// A destination of two addresses, two ports and both protocols.
fn destination(random: &mut SplitMix64) -> ServiceKey {
    let number = random.next_u64();
    ServiceKey {
        vip: if number % 2 == 0 {
            0xc000_0201
        } else {
            0xcb00_7107
        },
        proto: if number / 2 % 2 == 0 { 6 } else { 17 },
        port: if number / 4 % 3 == 0 { 80 } else { 65_535 },
    }
}

// One packet more, by a walk over all destinations so far.
fn note(rt: &impl Abort, counts: &mut Vec<Count>, to: ServiceKey) {
    for count in counts.iter_mut() {
        if count.to == to {
            count.packets = count.packets.saturating_add(1);
            return;
        }
    }
    counts.push(Count { to, packets: 1 }).expect(rt, "memory");
}

// The busiest destination that is left, the first of them where there are several.
fn busiest(counts: &[Count]) -> Option<Count> {
    let mut best: Option<Count> = None;
    for count in counts {
        let most = match best {
            Some(best) => best.packets,
            None => 5,
        };
        if count.packets > most {
            best = Some(*count);
        }
    }
    best
}

fn take_out(counts: &mut Vec<Count>, to: ServiceKey) {
    for count in counts.iter_mut() {
        if count.to == to {
            count.packets = 0;
        }
    }
}

fn key_of(service: &Service) -> ServiceKey {
    ServiceKey {
        vip: service.vip,
        proto: service.proto,
        port: service.port,
    }
}

// The services are the busy destinations, the busiest first, and have no members.
fn are_busiest(rt: &impl Abort, services: &[Service], counts: &mut Vec<Count>, round: usize) {
    for service in services {
        let wanted = busiest(counts.as_slice());
        holds(
            rt,
            wanted.is_some_and(|count| count.to == key_of(service)),
            "service",
            round,
        );
        holds(rt, service.members.is_empty(), "members", round);
        take_out(counts, key_of(service));
    }
    holds(rt, busiest(counts.as_slice()).is_none(), "left", round);
}

// Whether the steps play so many records.
fn play_all(steps: &[TimedStep], records: u64) -> bool {
    match steps.last() {
        Some(TimedStep::Counted(ScenarioStep::Take(count))) => u64::from(*count) == records,
        _ => false,
    }
}

fn reads_back(
    rt: &impl Abort,
    alloc: Global,
    text: &[u8],
    counts: &mut Vec<Count>,
    records: u64,
    round: usize,
) {
    let scenario = read(alloc, Played::InTurn, text).expect(rt, "a scenario");
    holds(
        rt,
        play_all(scenario.steps.as_slice(), records),
        "steps",
        round,
    );
    let version = scenario.catalogue.get(1).expect(rt, "version 1");
    are_busiest(rt, version.services.as_slice(), counts, round);
}

// So many records, of which one in nine is none, and the counts of the others.
fn random_capture(
    rt: &impl Abort,
    alloc: Global,
    random: &mut SplitMix64,
    records: u64,
) -> (Vec<u8>, Vec<Count>) {
    let mut capture = head(rt, alloc);
    let mut counts = Vec::new(alloc);
    for _ in 0..records {
        if random.next_u64() % 9 == 0 {
            push_record(rt, &mut capture, &[0x45, 0, 0]);
        } else {
            let to = destination(random);
            push_packet(rt, alloc, &mut capture, to);
            note(rt, &mut counts, to);
        }
    }
    (capture, counts)
}

#[test]
fn sketches_are_read_back(rt: HostRuntime) {
    let alloc = rt.alloc();
    let mut random = SplitMix64::seed_from_u64(20);
    for round in 0..200 {
        let records = random.next_u64() % 80;
        let (capture, mut counts) = random_capture(&rt, alloc, &mut random, records);
        let mut out = ToWrite::new(Vec::new(alloc));
        let mut input = FromRead::new(capture.as_slice());
        let done = sketch(alloc, TableKey::fixed(), &mut input, &mut out);
        same_outcome(&rt, done, Ok(()), round);
        let text = out.into_inner();
        reads_back(&rt, alloc, text.as_slice(), &mut counts, records, round);
    }
}

// Of 300 busy destinations the first 256 are services.
#[test]
fn many_destinations(rt: HostRuntime) {
    let alloc = rt.alloc();
    let mut capture = head(&rt, alloc);
    for round in 0..6 * 300u16 {
        let to = ServiceKey {
            vip: 0xc000_0201,
            proto: 17,
            port: round % 300,
        };
        push_packet(&rt, alloc, &mut capture, to);
    }
    let mut out = ToWrite::new(Vec::new(alloc));
    let mut input = FromRead::new(capture.as_slice());
    let done = sketch(alloc, TableKey::fixed(), &mut input, &mut out);
    same_outcome(&rt, done, Ok(()), 0);
    let text = out.into_inner();
    let scenario = read(alloc, Played::InTurn, text.as_slice()).expect(&rt, "a scenario");
    let version = scenario.catalogue.get(1).expect(&rt, "version 1");
    same_number(&rt, version.services.len() as u64, 256, "services", 0);
    for (place, service) in version.services.iter().enumerate() {
        same_number(&rt, u64::from(service.port), place as u64, "port", place);
    }
}

// Packets of 500 clients to two services, and as many back: the services alone are those of the sketch.
#[test]
fn both_directions(rt: HostRuntime) {
    let alloc = rt.alloc();
    let mut capture = head(&rt, alloc);
    for round in 0..6 * 500u16 {
        let client = round % 500;
        let to = ServiceKey {
            vip: 0xc000_0201,
            proto: 6,
            port: if client % 3 == 0 { 443 } else { 80 },
        };
        let from = (0x0a00_0000 + u32::from(client), 4000 + client);
        push_both(&rt, alloc, &mut capture, from, to);
    }
    let mut out = ToWrite::new(Vec::new(alloc));
    let mut input = FromRead::new(capture.as_slice());
    let done = sketch(alloc, TableKey::fixed(), &mut input, &mut out);
    same_outcome(&rt, done, Ok(()), 0);
    let text = out.into_inner();
    let scenario = read(alloc, Played::InTurn, text.as_slice()).expect(&rt, "a scenario");
    let version = scenario.catalogue.get(1).expect(&rt, "version 1");
    same_number(&rt, version.services.len() as u64, 2, "services", 0);
    for (service, port) in version.services.iter().zip([80u64, 443]) {
        same_number(&rt, u64::from(service.port), port, "port", 0);
        same_number(&rt, u64::from(service.vip), 0xc000_0201, "vip", 0);
    }
}
