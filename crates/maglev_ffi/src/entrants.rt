//! Reads names and weights as those who share a table.
ghost use Rattle.std.specs.Prelude.{◌≡◌, ◌<◌, [], map, length, slice_index_or, IfOk, IfErr, OnOk, true};
ghost use Rattle.std.specs.List.{list_all};
ghost use Rattle.backend_names.specs.NameText.{is_name};
ghost use Rattle.maglev_ffi.specs.Tables.{is_weight, are_weights, weight_at, entrants_of, RankFails};
ghost use Rattle.table_entrants.specs.Ranking.{AreDistinct, IsRanked, places_of};

use crate::fault::Fault;
use backend_names::{Name, Weight};
use std::alloc::{AllocError, Global};
use table_entrants::{Entrant, OrderFault, enter, in_order};

fn is_name(word: &[u8]) -> bool
    ensures { result ≡ is_name word.now }
{
    Name::new(word).is_some()
}

fn are_named(words: &[&[u8]]) -> bool
    ensures { result ≡ list_all (λ w. is_name w.now) words.now }
{
    words.iter().all(|word| is_name(word))
}

/// Whether each word is a name.
pub(crate) fn are_names(words: &[&[u8]]) -> bool
    ensures { result ≡ list_all is_name (map (λ w. w.now) words.now) }
{
    are_named(words)
}

fn is_weight(weight: u8) -> bool
    ensures { result ≡ is_weight weight }
{
    1 <= weight && weight <= 16
}

fn are_all_weights(weights: &[u8]) -> bool
    ensures { result ≡ list_all is_weight weights.now }
{
    weights.iter().all(|weight| is_weight(*weight))
}

/// Whether there are no weights, or one for each of some names.
pub(crate) fn are_weights(count: usize, weights: &[u8]) -> bool
    ensures { result ≡ are_weights count weights.now }
{
    weights.len() == 0 || (weights.len() == count && are_all_weights(weights))
}

fn weight_at(count: usize, weights: &[u8], place: usize) -> Weight
    requires weights { are_weights count weights.now ≡ true }
    requires place { place < count }
    ensures { result ≡ weight_at weights.now place }
{
    if weights.len() == 0 {
        Weight::one()
    } else {
        Weight::new(weights[place]).unwrap()
    }
}

fn name_at(words: &[&[u8]], place: usize) -> Name
    requires names { list_all is_name (map (λ w. w.now) words.now) ≡ true }
    requires place { place < length words.now }
    ensures { result ≡ slice_index_or (map (λ w. w.now) words.now) place [] }
{
    Name::new(words[place]).unwrap()
}

fn entrants_of(alloc: Global, words: &[&[u8]], weights: &[u8]) -> Result<Vec<Entrant>, AllocError>
    requires names { list_all is_name (map (λ w. w.now) words.now) ≡ true }
    requires weights { are_weights (length words.now) weights.now ≡ true }
    ensures { IfOk result (λ v. v.items ≡ entrants_of (map (λ w. w.now) words.now) weights.now) }
{
    let mut entrants = Vec::with_capacity(alloc, words.len())?;
    for place in 0..words.len() {
        let weight = weight_at(words.len(), weights, place);
        enter(&mut entrants, name_at(words, place), weight)?;
    }
    Ok(entrants)
}

/// Names with their weights and places, in ascending order of bytes.
pub(crate) fn ranked(alloc: Global, words: &[&[u8]], weights: &[u8]) -> Result<Vec<Entrant>, Fault>
    requires names { list_all is_name (map (λ w. w.now) words.now) ≡ true }
    requires weights { are_weights (length words.now) weights.now ≡ true }
    ensures ranked { IfOk result (λ v. IsRanked (entrants_of (map (λ w. w.now) words.now) weights.now) v.items) }
    ensures distinct { OnOk result (AreDistinct (map (λ w. w.now) words.now)) }
    ensures fault { IfErr result (λ fault. RankFails fault (map (λ w. w.now) words.now)) }
{
    let entrants = entrants_of(alloc, words, weights)?;
    match in_order(entrants) {
        Ok(ranked) => Ok(ranked),
        Err(OrderFault::DoubleName) => Err(Fault::DoubleName),
        Err(OrderFault::Memory) => Err(Fault::Memory),
    }
}

/// The places that some names had as they were given.
pub(crate) fn places_of(alloc: Global, entrants: &[Entrant]) -> Result<Vec<u32>, AllocError>
    ensures { IfOk result (λ v. v.items ≡ places_of entrants.now) }
{
    let mut places = Vec::with_capacity(alloc, entrants.len())?;
    for entrant in entrants {
        places.push(entrant.place)?;
    }
    Ok(places)
}
