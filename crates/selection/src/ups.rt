//! Backends that are up, with their weights.
ghost use Rattle.std.specs.Prelude.{◌≡◌, ◌↔◌, true, length, IsTrue, IfOk};
ghost use Rattle.pool_versions.specs.Pool.{AscendsByName, ups, weights};
ghost use Rattle.selection.specs.Shared.{names_of};

use backend_names::{Name, Weight};
use pool_versions::{Backend, Service, backends_of, weights_of};
use std::alloc::{AllocError, Global};
use std::marker::Model;

/// Backends that are up, in ascending byte order of name, and the weight of each.
#[derive(Drop)]
pub(crate) struct Ups {
    backends: Vec<Backend>,
    weights: Vec<Weight>,
}

impl Model for Ups {
    ghost use Rattle.std.specs.Prelude.{◌≡◌, length};
    ghost use Rattle.pool_versions.specs.Pool.{AscendsByName};
    ghost use Rattle.selection.specs.Shared.{Weighed};

    ghost Value = { Weighed };

    ghost view = { λ u. record { backends = u.backends.items; weights = u.weights.items } };

    ghost invariant = { λ u. AscendsByName u.backends.items × (length u.weights.items ≡ length u.backends.items) };
}

// Whether two backends are the same.
#[tactic(auto, using(crate::proofs::Among::same_iff))]
pub(crate) fn is_same(backend: &Backend, other: &Backend) -> bool
    ensures { (result ≡ true) ↔ (backend.now ≡ other.now) }
{
    backend == other
}

// Whether two lists of backends are the same.
fn are_same(ups: &[Backend], others: &[Backend]) -> bool
    ensures { (result ≡ true) ↔ (ups.now ≡ others.now) }
{
    if ups.len() != others.len() {
        return false;
    }
    for at in 0..ups.len() {
        if !is_same(&ups[at], &others[at]) {
            return false;
        }
    }
    true
}

// Whether two names are the same.
fn is_named(name: &Name, other: &Name) -> bool
    ensures { IsTrue result → name.now ≡ other.now }
{
    name == other
}

// Whether two lists of backends have the same names in the same order.
fn are_named_alike(ups: &[Backend], others: &[Backend]) -> bool
    ensures { IsTrue result → names_of ups.now ≡ names_of others.now }
{
    if ups.len() != others.len() {
        return false;
    }
    for at in 0..ups.len() {
        if !is_named(&ups[at].name, &others[at].name) {
            return false;
        }
    }
    true
}

// Whether two lists of weights are the same.
fn weigh_the_same(weights: &[Weight], others: &[Weight]) -> bool
    ensures { (result ≡ true) ↔ (weights.now ≡ others.now) }
{
    if weights.len() != others.len() {
        return false;
    }
    for at in 0..weights.len() {
        if weights[at].turns() != others[at].turns() {
            return false;
        }
    }
    true
}

// A number that is changed by a byte (FNV-1a).
fn stirred(number: u64, byte: u8) -> u64 {
    (number ^ u64::from(byte)).wrapping_mul(0x0000_0100_0000_01b3)
}

// A number that is changed by a name.
fn stirred_by_name(number: u64, name: &Name) -> u64 {
    let mut key = number;
    for byte in name.as_bytes() {
        key = stirred(key, *byte);
    }
    key
}

impl Ups {
    /// Those of a service.
    pub(crate) fn of(alloc: Global, service: &Service) -> Result<Ups, AllocError>
        ensures { IfOk result (λ u. u ≡ record { backends = ups service.now.members.items; weights = weights service.now.members.items }) }
    {
        let members = service.ranked(alloc)?;
        let backends = backends_of(alloc, members.as_slice())?;
        let weights = weights_of(alloc, members.as_slice())?;
        Ok(Ups { backends, weights })
    }

    /// The backends.
    pub(crate) fn backends(&self) -> &[Backend]
        ensures backends { result.now ≡ self.now.backends }
        ensures ascending { AscendsByName self.now.backends }
    {
        self.backends.as_slice()
    }

    /// Their weights, in their order.
    pub(crate) fn weights(&self) -> &[Weight]
        ensures weights { result.now ≡ self.now.weights }
        ensures weighed { length self.now.weights ≡ length self.now.backends }
    {
        self.weights.as_slice()
    }

    /// Whether others are the same backends of the same weights.
    pub(crate) fn is(&self, others: &Ups) -> bool
        ensures { IsTrue result → self.now ≡ others.now }
    {
        are_same(self.backends.as_slice(), others.backends.as_slice())
            && weigh_the_same(self.weights.as_slice(), others.weights.as_slice())
    }

    /// Whether others have the same names and weights.
    pub(crate) fn is_like(&self, others: &Ups) -> bool
        ensures { IsTrue result → (names_of self.now.backends ≡ names_of others.now.backends) × (self.now.weights ≡ others.now.weights) }
    {
        are_named_alike(self.backends.as_slice(), others.backends.as_slice())
            && weigh_the_same(self.weights.as_slice(), others.weights.as_slice())
    }

    /// A number that depends on names and weights alone. Nothing rests on it.
    pub(crate) fn key(&self) -> u64 {
        let mut key = 0xcbf2_9ce4_8422_2325;
        for (backend, weight) in self.backends.iter().zip(self.weights.iter()) {
            key = stirred_by_name(stirred(key, weight.turns() as u8), &backend.name);
        }
        key
    }
}
