//! Fills the slots of a table.
ghost use Rattle.std.specs.Prelude.{◌≡◌, ◌≤◌, ◌<◌, ◌^◌, length, map, slice_index, IfErr, OnOk, OnErr, None};
ghost use Rattle.hash_laws.specs.Any.{plain_of};
ghost use Rattle.table_entrants.specs.Ranking.{AreDistinct};
ghost use Rattle.maglev_ffi.specs.Tables.{names_in, are_weights, first_fault, names_fault, IsTable, IsTableOf, Refuses, NamesRefuse};

use crate::entrants::{are_names, are_weights, places_of, ranked};
use crate::fault::Fault;
use crate::hashes::hash_of;
use backend_names::TableSize;
use hash_laws::AnyHash;
use maglev_table::Table;
use maglev_texts::pieces;
use std::alloc::Global;
use table_entrants::table_of;

// The first fault of some names and weights, but that a name is there twice.
fn names_fault(size: TableSize, words: &[&[u8]], weights: &[u8]) -> Option<Fault>
    ensures { result ≡ names_fault size (map (λ w. w.now) words.now) weights.now }
{
    if !are_names(words) {
        return Some(Fault::BadName);
    }
    if words.len() > size.slots() as usize {
        return Some(Fault::TooMany);
    }
    if !are_weights(words.len(), weights) {
        return Some(Fault::BadWeight);
    }
    None
}

// Writes for each slot the place of the name that took it.
fn write(table: &Table, places: &[u32], slots: &mut [u32])
    requires room { length slots.old ≡ length table.now.owners }
    requires small { length table.now.owners < 2 ^ 32 }
    requires lists { table.now.lists ≡ length places.now }
    ensures { slots.new ≡ map (λ who. slice_index places.now who) table.now.owners }
{
    for slot in 0..slots.len() {
        slots[slot] = places[table.slot(slot as u32) as usize];
    }
}

fn fill_of(
    alloc: Global,
    size: TableSize,
    hash: &AnyHash,
    words: &[&[u8]],
    weights: &[u8],
    slots: &mut [u32],
) -> Result<(), Fault>
    requires room { length slots.old ≡ size }
    requires small { size ≤ 65537 }
    ensures table { OnOk result (IsTable (plain_of hash.now) size (map (λ w. w.now) words.now) weights.now slots.new) }
    ensures unchanged { OnErr result (slots.new ≡ slots.old) }
    ensures accepted { OnOk result (names_fault size (map (λ w. w.now) words.now) weights.now ≡ None) }
    ensures distinct { OnOk result (AreDistinct (map (λ w. w.now) words.now)) }
    ensures fault { IfErr result (λ fault. NamesRefuse fault size (map (λ w. w.now) words.now) weights.now) }
{
    if let Some(fault) = names_fault(size, words, weights) {
        return Err(fault);
    }
    let entrants = ranked(alloc, words, weights)?;
    let places = places_of(alloc, entrants.as_slice())?;
    let table = match table_of(alloc, size, hash, entrants.as_slice()) {
        Ok(table) => table,
        Err(_) => return Err(Fault::Memory),
    };
    write(&table, places.as_slice(), slots);
    Ok(())
}

/// Fills the slots with the table of the names in a text.
pub(crate) fn fill(
    alloc: Global,
    size: u32,
    hash: u32,
    text: &[u8],
    weights: &[u8],
    slots: &mut [u32],
) -> Result<(), Fault>
    ensures table { OnOk result (IsTableOf hash size text.now weights.now slots.new) }
    ensures unchanged { OnErr result (slots.new ≡ slots.old) }
    ensures accepted { OnOk result (first_fault size hash text.now weights.now (length slots.old) ≡ None) }
    ensures distinct { OnOk result (AreDistinct (names_in text.now)) }
    ensures fault { IfErr result (λ fault. Refuses fault size hash text.now weights.now (length slots.old)) }
{
    let Some(size) = TableSize::new(size) else {
        return Err(Fault::BadSize);
    };
    let Some(hash) = hash_of(hash) else {
        return Err(Fault::BadHash);
    };
    if slots.len() != size.slots() as usize {
        return Err(Fault::BadRoom);
    }
    let Ok(words) = pieces(alloc, text, b'\n') else {
        return Err(Fault::Memory);
    };
    match fill_of(alloc, size, &hash, words.as_slice(), weights, slots) {
        Ok(()) => Ok(()),
        Err(fault) => Err(fault),
    }
}
