//! Maglev's tables.
ghost use Rattle.std.specs.Prelude.{◌≡◌, ◌<◌, ◌≤◌, ◌↔◌, true, [], length, slice_index, None, IfOk, IfErr, IfSome, IsErrOf, All, refl};
ghost use Rattle.selection.specs.Picks.{table_pick, preferences, slot_names, owners_in, IsTable, IsTableOf};
ghost use Rattle.selection.specs.Candidates.{WhoeverDrains};
ghost use Rattle.selection.specs.Shared.{IsLike};
ghost use Rattle.selection.specs.declared.scheme.PrepareFault.TheVariants.{Memory};
ghost use Rattle.selection.specs.Kept.{owners_of};
ghost use Rattle.selection.specs.PickLaws.{table_pick_is_up, table_pick_is_none, table_pick_respects, table_respects};

use crate::scheme::{PrepareFault, Scheme};
use backend_names::{TableSize, Weight};
use five_tuple::Flow;
use hash_laws::{FlowHash, remainder};
use maglev_table::{Permutation, Table, TableFault, populate};
use pool_versions::Backend;
use std::alloc::{AllocError, Global};
use std::marker::Model;
use std::sync::Arc;

/// The scheme of Maglev's tables (Maglev, section 3.4): a flow's backend is the one that the flow's slot names.
#[derive(Clone, Copy, Debug, PartialEq, Eq)]
pub struct Maglev<H: FlowHash> {
    pub hash: H,
}

// How many backends two bytes a slot can distinguish.
const MOST_NARROW: usize = 65_536;

/// For each slot the place of the backend that it names: in two bytes, or in four where two bytes can't distinguish so many
/// backends.
#[derive(Debug, Drop)]
enum Slots {
    Narrow(Vec<u16>),
    Wide(Table),
}

/// A table of slots, and the backends that they name. Where nobody is up no slot names anybody.
#[derive(Debug, Drop)]
pub struct MaglevTable {
    size: TableSize,
    ups: Vec<Backend>,
    // Tables of the same names and weights share them.
    slots: Arc<Slots>,
}

impl Model for MaglevTable {
    ghost use Rattle.std.specs.Arc.{arc_value};
    ghost use Rattle.selection.specs.Picks.{NamedTable};
    ghost use Rattle.selection.specs.Kept.{owners_of, FitsSlots};

    ghost Value = { NamedTable };

    ghost view = { λ t. record { size = t.size; ups = t.ups.items; owners = owners_of (arc_value t.slots) } };

    ghost invariant = { λ t. FitsSlots t.size t.ups.items (owners_of (arc_value t.slots)) };
}

// The backends' preference lists, in the order of the backends.
fn lists_of<H: FlowHash>(
    alloc: Global,
    hash: &H,
    size: TableSize,
    ups: &[Backend],
) -> Result<Vec<Permutation>, AllocError>
    ensures { IfOk result (λ v. v.items ≡ preferences (H.plain hash.now) size ups.now) }
{
    let mut lists = Vec::with_capacity(alloc, ups.len())?;
    for backend in ups {
        lists.push(Permutation::of_name(hash, &backend.name, size))?;
    }
    Ok(lists)
}

// The table of backends of which there are some, and no more than slots.
fn filled(
    alloc: Global,
    lists: &[Permutation],
    weights: &[Weight],
    size: TableSize,
) -> Result<Option<Table>, AllocError>
    requires sized { All (λ p. p.size ≡ size) lists.now }
    requires weighed { length weights.now ≡ length lists.now }
    requires fit { length lists.now ≤ size }
    ensures none { IfOk result (λ o. o ≡ None → lists.now ≡ []) }
    ensures some { IfOk result (λ o. IfSome o (λ t. IsTable lists.now weights.now size t)) }
{
    match populate(alloc, size, lists, weights) {
        Ok(table) => Ok(Some(table)),
        Err(TableFault::NoBackends) => Ok(None),
        Err(_) => Err(AllocError),
    }
}

// The places of a table of few lists.
fn narrowed(alloc: Global, size: TableSize, table: &Table) -> Result<Vec<u16>, AllocError>
    requires long { length table.now.owners ≡ size }
    requires few { table.now.lists ≤ 65536 }
    ensures { IfOk result (λ v. v.items ≡ table.now.owners) }
{
    let mut places = Vec::with_capacity(alloc, size.slots() as usize)?;
    for slot in 0..size.slots() {
        places.push(table.slot(slot) as u16)?;
    }
    Ok(places)
}

// The slots of a table of so many lists, none where there is no table.
fn slots_of(
    alloc: Global,
    size: TableSize,
    lists: usize,
    table: Option<Table>,
) -> Result<Slots, AllocError>
    requires { IfSome table (λ t. (length t.owners ≡ size) × (t.lists ≡ lists)) }
    ensures { IfOk result (λ s. owners_of s ≡ owners_in table) }
{
    match table {
        None => Ok(Slots::Narrow(Vec::new(alloc))),
        Some(table) => {
            if lists > MOST_NARROW {
                return Ok(Slots::Wide(table));
            }
            Ok(Slots::Narrow(narrowed(alloc, size, &table)?))
        }
    }
}

impl Slots {
    // The place that a slot names.
    fn at(&self, slot: u32) -> usize
        requires { slot < length (owners_of self.now) }
        ensures { result ≡ slice_index (owners_of self.now) slot }
    {
        match self {
            Slots::Narrow(places) => places[slot as usize] as usize,
            Slots::Wide(table) => table.slot(slot) as usize,
        }
    }
}

impl MaglevTable {
    /// The number of slots.
    pub fn size(&self) -> TableSize
        ensures { result ≡ self.now.size }
    {
        self.size
    }

    /// The backends that it was made of, in their order.
    pub fn ups(&self) -> &[Backend]
        ensures { result.now ≡ self.now.ups }
    {
        self.ups.as_slice()
    }

    /// The backend that a slot names, None where nobody is up. Slots begin at 0.
    pub fn backend_at(&self, slot: u32) -> Option<Backend>
        requires { slot < self.now.size }
        ensures { result ≡ slot_names self.now.ups self.now.owners slot }
    {
        if self.ups.is_empty() {
            return None;
        }
        self.ups.get(self.slots.at(slot)).copied()
    }
}

impl<H: FlowHash> Maglev<H> {
    /// The table of some backends that are up, each with its weight. Every slot names one of them, and their slot counts are
    /// in proportion to their weights.
    pub fn table(
        &self,
        alloc: Global,
        size: TableSize,
        ups: &[Backend],
        weights: &[Weight],
    ) -> Result<MaglevTable, PrepareFault>
        requires { length weights.now ≡ length ups.now }
        ensures table { IfOk result (λ t. WhoeverDrains (λ c. IsTableOf (H.plain self.now.hash) size c t) ups.now weights.now) }
        ensures too_many { IsErrOf result PrepareFault.TooMany ↔ (size < length ups.now) }
    {
        if ups.len() > size.slots() as usize {
            return Err(PrepareFault::TooMany);
        }
        let lists = lists_of(alloc, &self.hash, size, ups)?;
        let table = filled(alloc, lists.as_slice(), weights, size)?;
        let slots = slots_of(alloc, size, ups.len(), table)?;
        let ups = Vec::from_slice(alloc, ups)?;
        let Ok(slots) = Arc::new(alloc, slots) else {
            return Err(PrepareFault::Memory);
        };
        Ok(MaglevTable { size, ups, slots })
    }

    // The table of backends at other addresses: the same slots.
    fn renamed(
        &self,
        alloc: Global,
        size: TableSize,
        ups: &[Backend],
        like: &MaglevTable,
        _weights: &[Weight],
    ) -> Result<MaglevTable, PrepareFault>
        requires { IsLike (λ c. IsTableOf (H.plain self.now.hash) size c like.now) ups.now _weights.now }
        ensures table { IfOk result (λ t. WhoeverDrains (λ c. IsTableOf (H.plain self.now.hash) size c t) ups.now _weights.now) }
        ensures memory { IfErr result (λ e. e ≡ Memory) }
    {
        let ups = Vec::from_slice(alloc, ups)?;
        let Ok(slots) = Arc::try_clone(&like.slots) else {
            return Err(PrepareFault::Memory);
        };
        Ok(MaglevTable { size, ups, slots })
    }
}

impl<H: FlowHash> Scheme for Maglev<H> {
    ghost STEADY = { true };

    const STEADY: bool = true;

    type Prepared = MaglevTable;

    ghost pick = { λ s size ups x turn. table_pick (H.plain s.hash) size ups x };

    ghost is_prepared = { λ s size ups p. IsTableOf (H.plain s.hash) size ups p };

    fn prepare(
        &self,
        alloc: Global,
        size: TableSize,
        ups: &[Backend],
        weights: &[Weight],
    ) -> Result<MaglevTable, PrepareFault> {
        self.table(alloc, size, ups, weights)
    }

    fn prepare_like(
        &self,
        alloc: Global,
        size: TableSize,
        ups: &[Backend],
        weights: &[Weight],
        like: &MaglevTable,
    ) -> Result<MaglevTable, PrepareFault> {
        self.renamed(alloc, size, ups, like, weights)
    }

    fn choose(&self, prepared: &MaglevTable, flow: &Flow, turn: u64) -> Option<Backend> {
        let _ = turn;
        let hash = self.hash.hash(b'f', &flow.bytes());
        let slot = remainder(hash, u64::from(prepared.size().slots()));
        prepared.backend_at(slot as u32)
    }

    ghost pick_is_up = { λ s size ups x turn. table_pick_is_up (H.plain s.hash) size ups x };

    ghost pick_is_none = { λ s size ups x turn. table_pick_is_none (H.plain s.hash) size ups x };

    ghost pick_is_steady = { λ _ s size ups x t u. refl };

    ghost prepared_respects_eq = { λ a b e size ups p. table_respects (H.plain a.hash) (H.plain b.hash)
        (H.equal_values_hash_alike a.hash b.hash e) size ups p };

    ghost pick_respects_eq = { λ a b e size ups x turn. table_pick_respects (H.plain a.hash) (H.plain b.hash)
        (H.equal_values_hash_alike a.hash b.hash e) size ups x };
}
