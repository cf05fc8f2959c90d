//! A version, prepared for a scheme.
ghost use Rattle.std.specs.Prelude.{◌≡◌, ◌<◌, ◌↔◌, true, option_copied, MatchOption, IsErrOf, IsSomeAnd, IfOk, IfSome, None, count_by};
ghost use Rattle.std.specs.Arc.{arc_value};
ghost use Rattle.std.specs.HashMap.{get};
ghost use Rattle.std.specs.List.{list_any};
ghost use Rattle.five_tuple.specs.declared.Flow.{Flow};
ghost use Rattle.pool_versions.specs.Same.{AreSame};
ghost use Rattle.selection.specs.Candidates.{candidates_under};
ghost use Rattle.pool_versions.specs.Pool.{key_of_flow, same_key};
ghost use Rattle.selection.specs.Places.{ArePlaced};
ghost use Rattle.selection.specs.Readied.{Readied, readied_version, ready_for, ups_for, has_more_ups, IsUpFor};

use crate::ready::Ready;
use crate::scheme::{PrepareFault, Scheme};
use crate::store::TableStore;
use backend_names::TableSize;
use five_tuple::Flow;
use pool_versions::{Backend, Member, Service, ServiceKey, Version};
use std::alloc::{AllocError, Global};
use std::collections::HashMap;
use std::fmt;
use std::marker::Model;
use std::sync::Arc;

/// A version, prepared for a scheme and a table size: each of its services with its up backends.
#[derive(Drop)]
pub struct PreparedVersion<S: Scheme> {
    scheme: S,
    size: TableSize,
    number: u32,
    services: Vec<Ready<S>>,
    // How many services are after the first one of a key.
    places: HashMap<ServiceKey, usize>,
    // What it was made from.
    version: Arc<Version>,
}

impl<S: Scheme> Model for PreparedVersion<S> {
    ghost use Rattle.std.specs.HashMap.{get};
    ghost use Rattle.std.specs.Prelude.{◌≡◌, map};
    ghost use Rattle.std.specs.Arc.{arc_value};
    ghost use Rattle.pool_versions.specs.Same.{parts_of};
    ghost use Rattle.pool_versions.specs.Pool.{same_key};
    ghost use Rattle.selection.specs.Places.{ArePlaced};
    ghost use Rattle.selection.specs.Readied.{Readied, AreFor, readied_version};

    ghost Value = { Readied S };

    ghost view = { λ a. record {
      scheme = a.scheme;
      size = a.size;
      number = a.number;
      services = a.services.items;
      source = map parts_of (arc_value a.version).services.items;
    } };

    ghost invariant = { λ a. AreFor a.scheme a.size a.services.items × ArePlaced (get same_key a.places) a.services.items
        × (record {
          scheme = a.scheme;
          size = a.size;
          number = a.number;
          services = a.services.items;
          source = map parts_of (arc_value a.version).services.items;
        }
        ≡ readied_version a.scheme a.size (arc_value a.version)) };
}

impl<S: Scheme> fmt::Debug for PreparedVersion<S> {
    fn fmt<W: fmt::Write>(&self, f: &mut fmt::Formatter<W>) -> fmt::Result {
        f.debug_struct("PreparedVersion")
            .field("number", &self.number)
            .field("size", &self.size)
            .field("services", &self.services)
            .finish_non_exhaustive()
    }
}

// How many members are up.
fn up_count(members: &[Member]) -> usize
    ensures count { result ≡ count_by (λ m. m.up) members.now }
{
    members.iter().filter(|member| member.up).count()
}

// Whether a service has more up backends than there are slots.
#[tactic(auto, using(crate::proofs::Counts::length_ups))]
fn has_more_ups(service: &Service, size: TableSize) -> bool
    ensures { result ≡ has_more_ups size service.now }
{
    up_count(service.members.as_slice()) > size.slots() as usize
}

fn any_has_more_ups(services: &[Service], size: TableSize) -> bool
    ensures { result ≡ list_any (has_more_ups size) services.now }
{
    services.iter().any(|service| has_more_ups(service, size))
}

// For each key how many services are after the first one that has it.
fn places_of<S: Scheme>(
    alloc: Global,
    services: &[Ready<S>],
) -> Result<HashMap<ServiceKey, usize>, AllocError>
    ensures { IfOk result (λ m. ArePlaced (get same_key m) services.now) }
{
    let mut places = HashMap::new(alloc);
    for behind in 0..services.len() {
        let service = &services[services.len() - 1 - behind];
        places.insert(service.key(), behind)?;
    }
    Ok(places)
}

// A version that is the same, for several owners.
fn shared_copy(alloc: Global, version: &Version) -> Result<Arc<Version>, AllocError>
    ensures { IfOk result (λ v. AreSame (arc_value v) version.now) }
{
    match Arc::new(alloc, version.copy(alloc)?) {
        Ok(shared) => Ok(shared),
        Err(_) => Err(AllocError),
    }
}

// What a version holds, for a version after it.
fn store_of<S: Scheme>(alloc: Global, before: &PreparedVersion<S>) -> TableStore<S> {
    let mut store = TableStore::new(alloc);
    for service in &before.services {
        store.hold(service.choices());
    }
    store
}

impl<S: Scheme> PreparedVersion<S> {
    /// Prepares a version for a scheme and a size, with what is in a store. What the scheme prepares anew is held there too.
    pub fn make_from(
        alloc: Global,
        scheme: &S,
        size: TableSize,
        version: &Version,
        store: &mut TableStore<S>,
    ) -> Result<PreparedVersion<S>, PrepareFault>
        ensures made { IfOk result (λ p. p ≡ readied_version scheme.now size version.now) }
        ensures ups { IfOk result (λ p. (x : Flow) → ups_for x p.services ≡ candidates_under version.now x) }
        ensures too_many { IsErrOf result PrepareFault.TooMany ↔ (list_any (has_more_ups size) version.now.services.items ≡ true) }
    {
        if any_has_more_ups(version.services.as_slice(), size) {
            return Err(PrepareFault::TooMany);
        }
        let mut services: Vec<Ready<S>> = Vec::new(alloc);
        for service in &version.services {
            let ready = Ready::make(alloc, scheme, size, service, store)?;
            let Ok(()) = services.push(ready) else {
                return Err(PrepareFault::Memory);
            };
        }
        let places = places_of(alloc, services.as_slice())?;
        Ok(PreparedVersion {
            scheme: *scheme,
            size,
            number: version.number,
            services,
            places,
            version: shared_copy(alloc, version)?,
        })
    }

    /// Prepares a version for a scheme and a size. TooMany is answered exactly where a service has more up backends than
    /// there are slots, which no version of a catalogue of that size has.
    pub fn make(
        alloc: Global,
        scheme: &S,
        size: TableSize,
        version: &Version,
    ) -> Result<PreparedVersion<S>, PrepareFault>
        ensures made { IfOk result (λ p. p ≡ readied_version scheme.now size version.now) }
        ensures ups { IfOk result (λ p. (x : Flow) → ups_for x p.services ≡ candidates_under version.now x) }
        ensures too_many { IsErrOf result PrepareFault.TooMany ↔ (list_any (has_more_ups size) version.now.services.items ≡ true) }
    {
        let mut store = TableStore::new(alloc);
        Self::make_from(alloc, scheme, size, version, &mut store)
    }

    /// The same. A service may have the up backends, of the same weights, that a service had in the version before. Where that
    /// was prepared for an equal scheme and the same size, the two share what was prepared: it costs no memory of its own and
    /// no table is made.
    pub fn make_after(
        alloc: Global,
        scheme: &S,
        size: TableSize,
        version: &Version,
        before: &PreparedVersion<S>,
    ) -> Result<PreparedVersion<S>, PrepareFault>
        ensures made { IfOk result (λ p. p ≡ readied_version scheme.now size version.now) }
        ensures ups { IfOk result (λ p. (x : Flow) → ups_for x p.services ≡ candidates_under version.now x) }
        ensures too_many { IsErrOf result PrepareFault.TooMany ↔ (list_any (has_more_ups size) version.now.services.items ≡ true) }
    {
        let mut store = store_of(alloc, before);
        Self::make_from(alloc, scheme, size, version, &mut store)
    }

    /// The version's number.
    pub fn number(&self) -> u32
        ensures { result ≡ self.now.number }
    {
        self.number
    }

    /// The scheme that it was prepared for.
    pub fn scheme(&self) -> S
        ensures { result ≡ self.now.scheme }
    {
        self.scheme
    }

    /// The table size that it was prepared for.
    pub fn size(&self) -> TableSize
        ensures { result ≡ self.now.size }
    {
        self.size
    }

    /// The version that it was made from, with the members that are down, all weights and the members' order. This is that
    /// version's preparation, for the scheme and the size that it has.
    pub fn version(&self) -> &Version
        ensures { self.now ≡ readied_version self.now.scheme self.now.size result.now }
    {
        &self.version
    }

    /// The same, for who keeps it longer than the tables. It is counted as one more owner, and nothing is copied. It is
    /// refused only where there are too many owners.
    pub fn share_version(&self) -> Result<Arc<Version>, AllocError>
        ensures { IfOk result (λ v. self.now ≡ readied_version self.now.scheme self.now.size (arc_value v)) }
    {
        Arc::try_clone(&self.version)
    }

    // The first service of a key.
    fn first_of(&self, key: ServiceKey) -> Option<&Ready<S>>
        ensures { (x : Flow) → key ≡ key_of_flow x → option_copied result ≡ ready_for x self.now.services }
    {
        match self.places.get(&key) {
            None => None,
            Some(behind) => self.services.get(self.services.len() - 1 - *behind),
        }
    }

    // The first service of a flow. The first of all is asked for most.
    fn first(&self, flow: &Flow) -> Option<&Ready<S>>
        ensures { option_copied result ≡ ready_for flow.now self.now.services }
    {
        let key = ServiceKey::of_flow(flow);
        match self.services.first() {
            Some(ready) if ready.key() == key => Some(ready),
            _ => self.first_of(key),
        }
    }

    /// The first service that a flow is of, prepared. Ask it for a backend: that needs no condition.
    pub fn ready(&self, flow: &Flow) -> Option<&Ready<S>>
        ensures found { option_copied result ≡ ready_for flow.now self.now.services }
        ensures own { IfSome result (λ r. (r.now.scheme ≡ self.now.scheme) × (r.now.size ≡ self.now.size)) }
    {
        let _ = &self.scheme;
        self.first(flow)
    }

    /// What the scheme prepared for the first service that a flow is of.
    pub fn find(&self, flow: &Flow) -> Option<&S::Prepared>
        ensures { MatchOption result (ups_for flow.now self.now.services ≡ None)
            (λ p. IsSomeAnd (ups_for flow.now self.now.services) (λ ups. S.is_prepared self.now.scheme self.now.size ups p.now)) }
    {
        match self.ready(flow) {
            Some(ready) => Some(ready.prepared()),
            None => None,
        }
    }

    /// Whether a backend, as the pair of a name and an address, is up in the first service that a flow is of.
    pub fn is_up(&self, flow: &Flow, backend: &Backend) -> bool
        ensures { (result ≡ true) ↔ IsUpFor flow.now backend.now self.now.services }
    {
        match self.ready(flow) {
            Some(ready) => ready.is_up(backend),
            None => false,
        }
    }
}
