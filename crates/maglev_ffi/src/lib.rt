//! Maglev's tables for programs in other languages: a static library of functions that C can call. `maglev.h` declares them.
#![tactic(auto)]

ghost use Rattle.std.specs.Prelude.{◌≡◌, ◌≢◌, length};
ghost use Rattle.maglev_ffi.specs.ManySlots.{slots_answer, slots_of};
ghost use Rattle.maglev_ffi.specs.Slots.{slot_answer, differing_answer};
ghost use Rattle.maglev_ffi.specs.Tables.{IsAnswer, IsTableOf};

mod entrants;
mod fault;
mod filling;
mod flows;
mod hashes;

use backend_names::TableSize;
use fault::Fault;
use five_tuple::Flow;
pub use flows::MaglevFlow;
use std::alloc::Global;

/// Fills `slots` with the table of some names: for each slot the place of the name that took it, among the names as they were
/// given. `names` are joined by newlines. `weights` has one from 1 to 16 for each name, or is empty, and each then counts once.
/// The names take their turns in ascending order of bytes, so that the table is the same in whatever order they are given.
/// Answers 0, or the number of a fault, and the slots are then as they were.
#[unsafe(no_mangle)]
pub extern "C" fn maglev_table(
    alloc: Global,
    size: u32,
    hash: u32,
    names: &[u8],
    weights: &[u8],
    slots: &mut [u32],
) -> u32
    ensures answer { IsAnswer result size hash names.now weights.now (length slots.old) }
    ensures table { result ≡ 0 → IsTableOf hash size names.now weights.now slots.new }
    ensures unchanged { result ≢ 0 → slots.new ≡ slots.old }
{
    match filling::fill(alloc, size, hash, names, weights, slots) {
        Ok(()) => 0,
        Err(fault) => fault.number(),
    }
}

/// The slot of a flow in a table of a size, 2^32 - 1 where the size or the hash isn't listed.
#[unsafe(no_mangle)]
pub extern "C" fn maglev_slot(
    size: u32,
    hash: u32,
    src: u32,
    dst: u32,
    sport: u16,
    dport: u16,
    proto: u8,
) -> u32
    ensures { result ≡ slot_answer size hash (record { src = src; dst = dst; sport = sport; dport = dport; proto = proto }) }
{
    let Some(size) = TableSize::new(size) else {
        return u32::MAX;
    };
    let Some(hash) = hashes::hash_of(hash) else {
        return u32::MAX;
    };
    let flow = Flow {
        src,
        dst,
        sport,
        dport,
        proto,
    };
    flows::slot_of(size, &hash, flow)
}

/// The slots of many flows: that of each flow at its place. Answers 0, or the number of a fault, and the slots are then as they
/// were.
#[unsafe(no_mangle)]
pub extern "C" fn maglev_slots(size: u32, hash: u32, flows: &[MaglevFlow], slots: &mut [u32]) -> u32
    ensures answer { result ≡ slots_answer size hash (length flows.now) (length slots.old) }
    ensures each { result ≡ 0 → slots.new ≡ slots_of size hash flows.now }
    ensures unchanged { result ≢ 0 → slots.new ≡ slots.old }
{
    let Some(size) = TableSize::new(size) else {
        return Fault::BadSize.number();
    };
    let Some(hash) = hashes::hash_of(hash) else {
        return Fault::BadHash.number();
    };
    if slots.len() != flows.len() {
        return Fault::BadRoom.number();
    }
    flows::write_by(size, hash, flows, slots);
    0
}

/// At how many slots two tables of one size differ, 2^64 - 1 where their sizes differ.
#[unsafe(no_mangle)]
pub extern "C" fn maglev_differing(old: &[u32], new: &[u32]) -> usize
    ensures { result ≡ differing_answer old.now new.now }
{
    if old.len() != new.len() {
        return usize::MAX;
    }
    let mut count = 0;
    for slot in 0..old.len() {
        if old[slot] != new[slot] {
            count += 1;
        }
    }
    count
}
