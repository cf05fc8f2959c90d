//! Tables of slots whose backends' slots are counted.
ghost use Rattle.std.specs.Prelude.{◌≡◌, ◌<◌, ◌≤◌, [], All, length, map, IfOk, OnOk, Some, None, slice_index, MatchOption};
ghost use Rattle.hash_laws.specs.Any.{plain_of};
ghost use Rattle.maglev_table.specs.Turns.{all_slots_of};
ghost use Rattle.pool_versions.specs.Pool.{ranked, AscendsByName};
ghost use Rattle.selection.specs.Picks.{preferences, slots_among, slot_names};
ghost use Rattle.rollout_plan.specs.Tables.{table_by, turn_slots, slots_by};
ghost use Rattle.rollout_plan.specs.Counts.{slots_naming, is_up};

use backend_names::{TableSize, Weight};
use hash_laws::AnyHash;
use maglev_table::{Permutation, Table, populate};
use pool_versions::{Backend, Member, Service, backends_of, weights_of};
use scenario::SchemeKind;
use selection::{is_among, places_of_name};
use std::alloc::{AllocError, Global};
use std::marker::Model;
use table_commands::NamedSlots;

/// How the tables of a scenario are made.
#[derive(Clone, Copy, Debug)]
pub struct TableRule {
    pub(crate) size: TableSize,
    pub(crate) hash: AnyHash,
    pub(crate) kind: SchemeKind,
}

/// A table of slots, the backends that they name, and how many slots each of these has. Where nobody is up no slot names
/// anybody.
#[derive(Debug, Drop)]
pub struct SlotTable {
    size: TableSize,
    ups: Vec<Backend>,
    owners: Vec<u32>,
    counts: Vec<u32>,
}

impl Model for SlotTable {
    ghost use Rattle.pool_versions.specs.Pool.{AscendsByName};
    ghost use Rattle.selection.specs.Picks.{NamedTable};
    ghost use Rattle.rollout_plan.specs.Tables.{IsSlotTable};

    ghost Value = { NamedTable };

    ghost view = { λ t. record { size = t.size; ups = t.ups.items; owners = t.owners.items } };

    ghost invariant = { λ t. IsSlotTable t.size t.ups.items t.owners.items t.counts.items × AscendsByName t.ups.items };
}

// The up ones of some members, in ascending order of name.
fn ranked(alloc: Global, members: &[Member]) -> Result<Vec<Member>, AllocError>
    ensures value { IfOk result (λ v. v.items ≡ ranked members.now) }
    ensures ascending { IfOk result (λ v. AscendsByName (map (λ m. m.backend) v.items)) }
{
    let members = Vec::from_slice(alloc, members)?;
    let service = Service {
        vip: 0,
        proto: 0,
        port: 0,
        members,
    };
    service.ranked(alloc)
}

// The backends' preference lists, in the order of the backends.
fn lists_of(
    alloc: Global,
    hash: &AnyHash,
    size: TableSize,
    ups: &[Backend],
) -> Result<Vec<Permutation>, AllocError>
    ensures { IfOk result (λ v. v.items ≡ preferences (plain_of hash.now) size ups.now) }
{
    let mut lists = Vec::with_capacity(alloc, ups.len())?;
    for backend in ups {
        lists.push(Permutation::of_name(hash, &backend.name, size))?;
    }
    Ok(lists)
}

// The list that took each slot.
fn owners_in(alloc: Global, size: TableSize, table: &Table) -> Result<Vec<u32>, AllocError>
    requires { length table.now.owners ≡ size }
    ensures owners { IfOk result (λ v. v.items ≡ table.now.owners) }
    ensures named { IfOk result (λ v. All (λ place. place < table.now.lists) v.items) }
{
    let mut owners = Vec::with_capacity(alloc, size.slots() as usize)?;
    for slot in 0..size.slots() {
        owners.push(table.slot(slot))?;
    }
    Ok(owners)
}

// The backends' places at the slots of Maglev's table.
fn table_slots(
    alloc: Global,
    rule: &TableRule,
    ups: &[Backend],
    weights: &[Weight],
) -> Result<Vec<u32>, AllocError>
    requires { length weights.now ≡ length ups.now }
    ensures slots { IfOk result (λ v. v.items ≡ slots_among (plain_of rule.now.hash) rule.now.size ups.now weights.now) }
    ensures long { IfOk result (λ v. (ups.now ≡ [] → ⊥) → length v.items ≡ rule.now.size) }
    ensures few { IfOk result (λ v. length v.items ≤ rule.now.size) }
    ensures named { IfOk result (λ v. All (λ place. place < length ups.now) v.items) }
{
    if ups.is_empty() {
        return Ok(Vec::new(alloc));
    }
    let lists = lists_of(alloc, &rule.hash, rule.size, ups)?;
    match populate(alloc, rule.size, lists.as_slice(), weights) {
        Ok(table) => Ok(owners_in(alloc, rule.size, &table)?),
        Err(_) => Err(AllocError),
    }
}

// The places of so many backends, one after the other, at the slots.
fn turn_slots(alloc: Global, size: TableSize, backends: usize) -> Result<Vec<u32>, AllocError>
    requires { backends ≤ size }
    ensures slots { IfOk result (λ v. v.items ≡ turn_slots size backends) }
    ensures long { IfOk result (λ v. 0 < backends → length v.items ≡ size) }
    ensures few { IfOk result (λ v. length v.items ≤ size) }
    ensures named { IfOk result (λ v. All (λ place. place < backends) v.items) }
{
    let mut places = Vec::new(alloc);
    if backends == 0 {
        return Ok(places);
    }
    for slot in 0..size.slots() {
        places.push((slot as usize % backends) as u32)?;
    }
    Ok(places)
}

// How many slots each of so many backends has.
fn counts_of(alloc: Global, backends: usize, owners: &[u32]) -> Result<Vec<u32>, AllocError>
    requires named { All (λ place. place < backends) owners.now }
    requires few { length owners.now ≤ 65537 }
    ensures { IfOk result (λ v. v.items ≡ all_slots_of backends owners.now) }
{
    let mut counts = vec![in alloc; 0u32; backends]?;
    for owner in owners {
        counts[*owner as usize] += 1;
    }
    Ok(counts)
}

impl TableRule {
    // The backends' places at the slots, by the kind of scheme.
    fn slots(
        &self,
        alloc: Global,
        ups: &[Backend],
        weights: &[Weight],
    ) -> Result<Vec<u32>, AllocError>
        requires { length weights.now ≡ length ups.now }
        ensures slots { IfOk result (λ v. v.items ≡ slots_by self.now.kind (plain_of self.now.hash) self.now.size ups.now weights.now) }
        ensures long { IfOk result (λ v. (ups.now ≡ [] → ⊥) → length v.items ≡ self.now.size) }
        ensures few { IfOk result (λ v. length v.items ≤ 65537) }
        ensures fit { OnOk result (length ups.now ≤ self.now.size) }
        ensures named { IfOk result (λ v. All (λ place. place < length ups.now) v.items) }
    {
        // A catalogue has no version with more members than slots.
        if ups.len() > self.size.slots() as usize {
            return Err(AllocError);
        }
        match self.kind {
            SchemeKind::Maglev => table_slots(alloc, self, ups, weights),
            SchemeKind::Plain | SchemeKind::Round => turn_slots(alloc, self.size, ups.len()),
        }
    }

    /// The table of the up ones of some members.
    pub fn table(&self, alloc: Global, members: &[Member]) -> Result<SlotTable, AllocError>
        ensures { IfOk result (λ t. t ≡ table_by self.now members.now) }
    {
        let members = ranked(alloc, members)?;
        let ups = backends_of(alloc, members.as_slice())?;
        let weights = weights_of(alloc, members.as_slice())?;
        let owners = self.slots(alloc, ups.as_slice(), weights.as_slice())?;
        let counts = counts_of(alloc, ups.len(), owners.as_slice())?;
        Ok(SlotTable {
            size: self.size,
            ups,
            owners,
            counts,
        })
    }
}

impl NamedSlots for SlotTable {
    ghost table = { λ t. t };

    fn slots(&self) -> u32 {
        self.size()
    }

    fn up_count(&self) -> usize {
        self.ups().len()
    }

    fn named_at(&self, slot: u32) -> Option<Backend> {
        self.backend_at(slot)
    }
}

impl SlotTable {
    /// The number of slots.
    pub fn size(&self) -> u32
        ensures size { result ≡ self.now.size }
        ensures high { self.now.size ≤ 65537 }
    {
        self.size.slots()
    }

    /// The up backends, in ascending order of name.
    pub fn ups(&self) -> &[Backend]
        ensures ups { result.now ≡ self.now.ups }
        ensures few { length self.now.ups ≤ 65537 }
    {
        let _slots = self.size.slots();
        self.ups.as_slice()
    }

    /// The place of the backend that a slot names, None where nobody is up. Slots begin at 0.
    pub(crate) fn place_at(&self, slot: u32) -> Option<usize>
        requires { slot < self.now.size }
        ensures { MatchOption result (self.now.ups ≡ []) (λ place. place ≡ slice_index self.now.owners slot) }
    {
        if self.ups.is_empty() {
            return None;
        }
        Some(self.owners[slot as usize] as usize)
    }

    /// The backend that a slot names, None where nobody is up. Slots begin at 0.
    pub fn backend_at(&self, slot: u32) -> Option<Backend>
        requires { slot < self.now.size }
        ensures { result ≡ slot_names self.now.ups self.now.owners slot }
    {
        let place = self.place_at(slot)?;
        self.ups.get(place).copied()
    }

    /// Whether a backend is up. It is sought by halves.
    pub(crate) fn is_up(&self, backend: &Backend) -> bool
        ensures { result ≡ is_up self.now backend.now }
    {
        is_among(self.ups.as_slice(), backend)
    }

    /// How many slots name a backend. Only those places are looked at that have its name.
    pub fn slots_of(&self, backend: &Backend) -> u32
        ensures slots { result ≡ slots_naming (Some backend.now) self.now }
        ensures few { result ≤ 65537 }
    {
        let named = places_of_name(self.ups.as_slice(), backend);
        let mut slots = 0;
        for place in named.first..named.end {
            if *backend == self.ups[place] {
                slots += self.counts[place];
            }
        }
        slots
    }

    /// How many slots name nobody.
    pub(crate) fn slots_of_nobody(&self) -> u32
        ensures slots { result ≡ slots_naming None self.now }
        ensures few { result ≤ 65537 }
    {
        if self.ups.is_empty() {
            self.size.slots()
        } else {
            0
        }
    }
}
