//! Whose share it is, and in which order shares come.
ghost use Rattle.std.specs.Prelude.{◌≡◌, ◌≤◌, ◌++◌, length, position};
ghost use Rattle.std.specs.Hash as fed;
ghost use Rattle.std.specs.List.{insert};
ghost use Rattle.traffic_shares.specs.Holders.{number_of, key_of, is_backend_before, is_holder_before, is_before, placed};

use crate::sends::Sent;
use pool_versions::Backend;
use std::hash::{Hash, Hasher};

/// Whether shares are those of backends or those of nodes.
#[derive(Clone, Copy, Debug, PartialEq, Eq)]
pub enum ShareKind {
    Backends,
    Nodes,
}

/// Who has a share: a backend to which packets were sent, or a node that sent them.
#[derive(Clone, Copy, Debug)]
pub enum Holder {
    Backend(Backend),
    Node(u16),
}

impl PartialEq for Holder {
    ghost use Rattle.std.specs.Cmp as Cmp;
    ghost use Rattle.traffic_shares.specs.Holders.{same_holder};
    ghost use Rattle.traffic_shares.specs.Equals.{holder_equiv};

    ghost eq = { same_holder };

    ghost laws = { Cmp.partial_equiv_from_equiv holder_equiv };

    fn eq(&self, other: &Self) -> bool {
        match (self, other) {
            (Holder::Backend(a), Holder::Backend(b)) => *a == *b,
            (Holder::Backend(_), Holder::Node(_)) => false,
            (Holder::Node(_), Holder::Backend(_)) => false,
            (Holder::Node(a), Holder::Node(b)) => *a == *b,
        }
    }
}

impl Eq for Holder {
    ghost use Rattle.traffic_shares.specs.Equals.{holder_equiv};

    ghost laws = { holder_equiv };
}

/// A holder under a version.
#[derive(Clone, Copy, Debug, PartialEq, Eq)]
pub struct ShareKey {
    pub version: u32,
    pub holder: Holder,
}

impl Hash for ShareKey {
    ghost use Rattle.std.specs.Cmp.Rules.{hashing};
    ghost use borrow.Author.Rules.{rules};

    ghost hash_input = { λ k. fed.u32 k.version ++ fed.u32 (number_of k.holder) };

    ghost respects_eq = { Prim.search (hashing, rules) };

    fn hash<H: Hasher>(&self, state: &mut H) {
        state.write_u32(self.version);
        state.write_u32(number_of(&self.holder));
    }
}

// What is hashed of a holder: an address, or a node's place.
fn number_of(holder: &Holder) -> u32
    ensures { result ≡ number_of holder.now }
{
    match *holder {
        Holder::Backend(backend) => backend.addr,
        Holder::Node(node) => u32::from(node),
    }
}

/// Whose share a packet belongs to.
pub(crate) fn key_of(kind: ShareKind, sent: &Sent) -> ShareKey
    ensures { result ≡ key_of kind sent.now }
{
    let holder = match kind {
        ShareKind::Backends => Holder::Backend(sent.backend),
        ShareKind::Nodes => Holder::Node(sent.node),
    };
    ShareKey {
        version: sent.version,
        holder,
    }
}

// Whether a backend comes before another: by name, and then by address.
fn is_backend_before(a: &Backend, b: &Backend) -> bool
    ensures { result ≡ is_backend_before a.now b.now }
{
    if a.name == b.name {
        a.addr < b.addr
    } else {
        a.name < b.name
    }
}

// Whether a holder comes before another. Backends come before nodes, which come by place.
fn is_holder_before(a: &Holder, b: &Holder) -> bool
    ensures { result ≡ is_holder_before a.now b.now }
{
    match (a, b) {
        (Holder::Backend(a), Holder::Backend(b)) => is_backend_before(a, b),
        (Holder::Backend(_), Holder::Node(_)) => true,
        (Holder::Node(_), Holder::Backend(_)) => false,
        (Holder::Node(a), Holder::Node(b)) => *a < *b,
    }
}

// Whether a holder under a version comes before another: by version first.
fn is_before(a: &ShareKey, b: &ShareKey) -> bool
    ensures { result ≡ is_before a.now b.now }
{
    if a.version == b.version {
        is_holder_before(&a.holder, &b.holder)
    } else {
        a.version < b.version
    }
}

// The first of some that one comes before.
fn first_behind(keys: &[ShareKey], key: &ShareKey) -> Option<usize>
    ensures { result ≡ position (λ k. is_before key.now k) keys.now }
{
    keys.iter().position(|other| is_before(key, other))
}

/// Where one goes among others: before the first that it comes before.
pub(crate) fn place_among(keys: &[ShareKey], key: &ShareKey) -> usize
    ensures within { result ≤ length keys.now }
    ensures placed { insert keys.now result key.now ≡ placed key.now keys.now }
{
    match first_behind(keys, key) {
        Some(place) => place,
        None => keys.len(),
    }
}
