//! A map of flows has for each flow the value that it got last, as a map of std has, and each flow stays at its place.
use connection_table::TableKey;
use five_tuple::Flow;
use flow_map::FlowMap;
use rand_core::{Rng, SeedableRng};
use rand_xoshiro::SplitMix64;
use std::alloc::{AllocError, Global};
use std::collections::HashMap;
use std::process::Abort;

fn flow(number: u32) -> Flow {
    Flow {
        src: number,
        dst: 0xc000_0201,
        sport: 1006,
        dport: 80,
        proto: 6,
    }
}

// A flow's value, where it has one.
fn value_of(map: &FlowMap<u32>, flow: Flow) -> Option<u32> {
    let place = map.place_of(&flow)?;
    Some(*map.value_at(place, &flow))
}

// A flow's value, in the place of the one before it, which is the answer.
fn put(map: &mut FlowMap<u32>, flow: Flow, value: u32) -> Result<Option<u32>, AllocError> {
    match map.place_of(&flow) {
        None => {
            map.push(flow, value)?;
            Ok(None)
        }
        Some(place) => {
            let before = *map.value_at(place, &flow);
            map.set(place, flow, value);
            Ok(Some(before))
        }
    }
}

// So many values, each of one of 4,000 flows that is drawn.
fn draw(rt: &impl Abort, alloc: Global, count: u32) {
    let mut dice = SplitMix64::seed_from_u64(23);
    let mut map = FlowMap::new(alloc, TableKey::fixed());
    let mut other = HashMap::with_hasher(alloc, TableKey::fixed());
    for value in 0..count {
        let flow = flow(dice.next_u32() % 4000);
        let before = put(&mut map, flow, value).expect(rt, "memory");
        let kept: Result<_, _> = other.insert(flow, value);
        assert_eq!(rt; before, kept.expect(rt, "memory"));
        assert_eq!(rt; value_of(&map, flow), Some(value));
        assert_eq!(rt; map.len(), other.len());
    }
    for number in 0..4001 {
        let flow = flow(number);
        assert_eq!(rt; value_of(&map, flow), other.get(&flow).copied());
    }
}

#[test]
fn a_map_has_what_a_map_of_std_has(rt: HostRuntime) {
    draw(&rt, rt.alloc(), 20_000);
}

// Flows stay at the places that they got first, as the map grows.
#[test]
fn flows_stay_at_their_places(rt: HostRuntime) {
    let mut map = FlowMap::new(rt.alloc(), TableKey::fixed());
    for number in 0..3000 {
        let before = put(&mut map, flow(number), number).expect(&rt, "memory");
        assert_eq!(&rt; before, None);
        assert_eq!(&rt; map.place_of(&flow(number)), Some(number + 1));
    }
    let first = flow(0);
    if let Some(place) = map.place_of(&first) {
        map.set(place, first, 9);
    }
    for number in 0..3000 {
        assert_eq!(&rt; map.place_of(&flow(number)), Some(number + 1));
    }
    assert_eq!(&rt; value_of(&map, first), Some(9));
}

// Whatever is guessed, a flow is found where it stands, and nowhere where it doesn't. A guess by the flow's hash is mostly right.
#[test]
fn a_guess_decides_nothing(rt: HostRuntime) {
    let key = TableKey::fixed();
    let mut map = FlowMap::new(rt.alloc(), key);
    assert_eq!(&rt; map.guess(7), 0);
    for number in 0..3000 {
        let before = put(&mut map, flow(number), number).expect(&rt, "memory");
        assert_eq!(&rt; before, None);
    }
    let mut right = 0u32;
    for number in 0..3000 {
        let flow = flow(number);
        let guess = map.guess(key.hash_of(&flow));
        if guess == number + 1 {
            right = right.wrapping_add(1);
        }
        assert_eq!(&rt; map.is_at(guess, &flow), guess == number + 1);
        for other in [guess, 0, number, number + 1, u32::MAX] {
            assert_eq!(&rt; map.place_by(other, &flow), Some(number + 1));
        }
    }
    assert!(&rt; right > 2700);
    let absent = flow(3000);
    for guess in [map.guess(key.hash_of(&absent)), 0, 1, 3001] {
        assert_eq!(&rt; map.place_by(guess, &absent), None);
    }
}
