ghost use Rattle.std.specs.Prelude.{◌≡◌, [], ◌<◌, ◌≢◌, map, length, slice_index_or, IfOk, IfErr, OnOk, true};
ghost use Rattle.std.specs.List.{list_all};
ghost use Rattle.table_entrants.specs.Ranking.{names_of, IsRanked};
ghost use Rattle.table_commands.specs.Text.{weighed_in, entrants_of, name_at};
ghost use Rattle.table_commands.specs.Refusals.{is_word, NamesFail, WordsFail, AreNames, AreFew};

use backend_names::{Name, TableSize};
use command_faults::CliFault;
use maglev_table::Table;
use maglev_texts::{WeighedName, weighed_name};
use std::alloc::{AllocError, Global};
use table_entrants::{Entrant, OrderFault, enter, in_order};

fn is_name_word(word: &str) -> bool
    ensures { result ≡ is_word word.now }
{
    weighed_name(word.as_bytes()).is_some()
}

fn are_name_words(words: &[&str]) -> bool
    ensures { result ≡ list_all (λ w. is_word w.now) words.now }
{
    words.iter().all(|word| is_name_word(word))
}

fn are_names(words: &[&str]) -> bool
    ensures { result ≡ list_all is_word (map (λ w. w.now) words.now) }
{
    are_name_words(words)
}

// The name and the weight that a word is.
fn name_of(word: &str) -> WeighedName
    requires { is_word word.now ≡ true }
    ensures { result ≡ weighed_in word.now }
{
    weighed_name(word.as_bytes()).unwrap()
}

fn weighed_at(words: &[&str], place: usize) -> WeighedName
    requires names { list_all is_word (map (λ w. w.now) words.now) ≡ true }
    requires place { place < length words.now }
    ensures { result ≡ weighed_in (slice_index_or (map (λ w. w.now) words.now) place []) }
{
    name_of(words[place])
}

fn entrants_of(alloc: Global, words: &[&str]) -> Result<Vec<Entrant>, AllocError>
    requires { list_all is_word (map (λ w. w.now) words.now) ≡ true }
    ensures { IfOk result (λ v. v.items ≡ entrants_of (map (λ w. w.now) words.now)) }
{
    let mut entrants = Vec::with_capacity(alloc, words.len())?;
    for place in 0..words.len() {
        let WeighedName { name, weight } = weighed_at(words, place);
        enter(&mut entrants, name, weight)?;
    }
    Ok(entrants)
}

// The names that words are, in ascending order, with their weights.
fn names_in_order(alloc: Global, words: &[&str]) -> Result<Vec<Entrant>, CliFault>
    ensures order { IfOk result (λ v. IsRanked (entrants_of (map (λ w. w.now) words.now)) v.items) }
    ensures names { OnOk result (AreNames (map (λ w. w.now) words.now)) }
    ensures fault { IfErr result (λ fault. NamesFail fault (map (λ w. w.now) words.now)) }
{
    if !are_names(words) {
        return Err(CliFault::BadName);
    }
    let given = entrants_of(alloc, words)?;
    match in_order(given) {
        Ok(entrants) => Ok(entrants),
        Err(OrderFault::DoubleName) => Err(CliFault::DoubleName),
        Err(OrderFault::Memory) => Err(CliFault::Memory),
    }
}

/// The names that words are, in ascending order, with their weights, where a table of the size has a slot for each of them.
pub(crate) fn names_for(
    alloc: Global,
    size: TableSize,
    words: &[&str],
) -> Result<Vec<Entrant>, CliFault>
    ensures order { IfOk result (λ v. IsRanked (entrants_of (map (λ w. w.now) words.now)) v.items) }
    ensures few { OnOk result (AreFew size (map (λ w. w.now) words.now)) }
    ensures fault { IfErr result (λ fault. WordsFail fault size (map (λ w. w.now) words.now)) }
    ensures unwritten { IfErr result (λ fault. fault ≢ CliFault.Write) }
{
    let entrants = names_in_order(alloc, words)?;
    if entrants.len() > size.slots() as usize {
        return Err(CliFault::TooMany);
    }
    Ok(entrants)
}

/// The name that a slot names in a table of some names.
pub(crate) fn name_at(table: &Table, entrants: &[Entrant], slot: u32) -> Name
    requires named { table.now.lists ≡ length entrants.now }
    requires slot { slot < length table.now.owners }
    ensures { result ≡ name_at (names_of entrants.now) table.now.owners slot }
{
    entrants[table.slot(slot) as usize].name
}
