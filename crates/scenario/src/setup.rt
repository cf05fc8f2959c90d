//! The scalars of a scenario's setup.
ghost use Rattle.std.specs.Prelude.{◌≡◌, ◌≤◌, IfOk};
ghost use Rattle.std.specs.Result.{result_ok, result_err};
ghost use Rattle.toml.specs.View.{table_view};
ghost use Rattle.scenario.specs.Setup.{choices_of, limits_of, bad_choice, bad_limit};

use backend_names::TableSize;
use hash_laws::AnyHash;
use scenario_keys::{
    Key, SchemeKind, SpreadKind, flag, hash_at, number, number_if, scheme_at, size_at, spread_at,
};
use toml::Table;

/// What a cluster chooses by.
#[derive(Clone, Copy)]
pub(crate) struct Choices {
    pub(crate) size: TableSize,
    pub(crate) hash: AnyHash,
    pub(crate) scheme: SchemeKind,
    pub(crate) spread: SpreadKind,
}

/// How much a cluster has, whether it tests checksums, and how long an entry stands without a packet.
#[derive(Clone, Copy)]
pub(crate) struct Limits {
    pub(crate) workers: u16,
    pub(crate) capacity: u32,
    pub(crate) ring: u32,
    pub(crate) check: bool,
    pub(crate) idle: Option<u64>,
}

/// What a document's cluster chooses by, or the first key that isn't as it should be.
#[tactic(auto, unfolding(crate::specs::Setup::choices_of, crate::specs::Setup::bad_choice))]
pub(crate) fn choices_at(table: &Table) -> Result<Choices, Key>
    ensures value { result_ok result ≡ choices_of (table_view table.now) }
    ensures key { result_err result ≡ bad_choice (table_view table.now) }
{
    let Some(size) = size_at(table) else {
        return Err(Key::Size);
    };
    let Some(hash) = hash_at(table) else {
        return Err(Key::Hash);
    };
    let Some(scheme) = scheme_at(table) else {
        return Err(Key::Scheme);
    };
    let Some(spread) = spread_at(table) else {
        return Err(Key::Spread);
    };
    Ok(Choices {
        size,
        hash,
        scheme,
        spread,
    })
}

/// How much a document's cluster has, or the first key that isn't as it should be.
#[tactic(auto, unfolding(crate::specs::Setup::limits_of, crate::specs::Setup::bad_limit))]
pub(crate) fn limits_at(table: &Table) -> Result<Limits, Key>
    ensures value { result_ok result ≡ limits_of (table_view table.now) }
    ensures key { result_err result ≡ bad_limit (table_view table.now) }
    ensures workers { IfOk result (λ l. (1 ≤ l.workers) × (l.workers ≤ 16)) }
    ensures capacity { IfOk result (λ l. (1 ≤ l.capacity) × (l.capacity ≤ 1000000)) }
    ensures ring { IfOk result (λ l. (1 ≤ l.ring) × (l.ring ≤ 65536)) }
{
    let Some(workers) = number(table, Key::Workers) else {
        return Err(Key::Workers);
    };
    let Some(capacity) = number(table, Key::Capacity) else {
        return Err(Key::Capacity);
    };
    let Some(ring) = number(table, Key::Ring) else {
        return Err(Key::Ring);
    };
    let Some(check) = flag(table, Key::Check) else {
        return Err(Key::Check);
    };
    let Some(idle) = number_if(table, Key::Idle) else {
        return Err(Key::Idle);
    };
    Ok(Limits {
        workers: workers as u16,
        capacity: capacity as u32,
        ring: ring as u32,
        check,
        idle,
    })
}
