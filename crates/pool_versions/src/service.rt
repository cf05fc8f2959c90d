//! Services and versions.
ghost use Rattle.std.specs.Prelude.{◌≡◌, ◌≤◌, [], map, length, All, IfOk, option_copied};
ghost use Rattle.std.specs.List.Sorted.{IsPermutation};
ghost use Rattle.pool_versions.specs.Pool.{same_service, has_too_many, key_of, up_members, up_backends, ranked, ups, draining_members, draining_backends};
ghost use Rattle.pool_versions.specs.Pool.{ascending_with, weights, AscendsByName, AreWeighed, serves, find_service};

use crate::backend::{Backend, Member};
use crate::key::ServiceKey;
use backend_names::{TableSize, Weight};
use five_tuple::Flow;
use std::alloc::{AllocError, Global};

/// The most members of a service. There may be no more of them than slots either.
pub const MOST_MEMBERS: usize = 4096;

/// A service: an IPv4 address, a protocol number, a destination port, and its members.
#[derive(Debug, Drop)]
pub struct Service {
    pub vip: u32,
    pub proto: u8,
    pub port: u16,
    pub members: Vec<Member>,
}

/// The services of one version of the pools, and the version's number.
#[derive(Debug, Drop)]
pub struct Version {
    pub number: u32,
    pub services: Vec<Service>,
}

// The up members, in their order.
fn up_members(alloc: Global, members: &[Member]) -> Result<Vec<Member>, AllocError>
    ensures { IfOk result (λ v. v.items ≡ up_members members.now) }
{
    let mut found = Vec::with_capacity(alloc, members.len())?;
    for member in members {
        if member.up {
            found.push(*member)?;
        }
    }
    Ok(found)
}

// The members that drain, in their order.
fn draining_members(alloc: Global, members: &[Member]) -> Result<Vec<Member>, AllocError>
    ensures { IfOk result (λ v. v.items ≡ draining_members members.now) }
{
    let mut found = Vec::new(alloc);
    for member in members {
        if member.is_draining() {
            found.push(*member)?;
        }
    }
    Ok(found)
}

// Members in ascending byte order of name.
fn sorted(mut members: Vec<Member>) -> Result<Vec<Member>, AllocError>
    ensures { IfOk result (λ v. v.items ≡ ascending_with [] members.items) }
{
    members.sort_by(|one, other| one.backend.name.cmp(&other.backend.name))?;
    Ok(members)
}

/// The backends of some members, in the members' order.
pub fn backends_of(alloc: Global, members: &[Member]) -> Result<Vec<Backend>, AllocError>
    ensures { IfOk result (λ v. v.items ≡ map (λ m. m.backend) members.now) }
{
    let mut backends = Vec::with_capacity(alloc, members.len())?;
    for member in members {
        backends.push(member.backend)?;
    }
    Ok(backends)
}

/// The weights of some members, in the members' order.
pub fn weights_of(alloc: Global, members: &[Member]) -> Result<Vec<Weight>, AllocError>
    ensures { IfOk result (λ v. v.items ≡ map (λ m. m.weight) members.now) }
{
    let mut weights = Vec::with_capacity(alloc, members.len())?;
    for member in members {
        weights.push(member.weight)?;
    }
    Ok(weights)
}

// That each member's weight is one, as its type keeps it.
fn weigh(members: &[Member])
    ensures { AreWeighed members.now }
{
    for member in members {
        let _turns = member.weight.turns();
    }
}

// The same of all services.
pub(crate) fn weigh_all(services: &[Service])
    ensures { All (λ s. AreWeighed s.members.items) services.now }
{
    for service in services {
        weigh(service.members.as_slice());
    }
}

impl Service {
    /// What distinguishes it from others.
    pub fn key(&self) -> ServiceKey
        ensures { result ≡ key_of self.now }
    {
        ServiceKey {
            vip: self.vip,
            proto: self.proto,
            port: self.port,
        }
    }

    /// Whether a flow is this service's: its destination, protocol and destination port are the service's.
    pub fn serves(&self, flow: &Flow) -> bool
        ensures { result ≡ serves flow.now self.now }
    {
        self.vip == flow.dst && self.proto == flow.proto && self.port == flow.dport
    }

    /// The up members, in ascending byte order of name.
    pub fn ranked(&self, alloc: Global) -> Result<Vec<Member>, AllocError>
        ensures value { IfOk result (λ v. v.items ≡ ranked self.now.members.items) }
        ensures ascending { IfOk result (λ v. AscendsByName (map (λ m. m.backend) v.items)) }
        ensures permutation { IfOk result (λ v. IsPermutation (up_members self.now.members.items) v.items) }
        ensures short { IfOk result (λ v. length v.items ≤ length self.now.members.items) }
    {
        let members = sorted(up_members(alloc, self.members.as_slice())?)?;
        Ok(members)
    }

    /// The backends of the up members, in ascending byte order of name.
    pub fn ups(&self, alloc: Global) -> Result<Vec<Backend>, AllocError>
        ensures value { IfOk result (λ v. v.items ≡ ups self.now.members.items) }
        ensures ascending { IfOk result (λ v. AscendsByName v.items) }
        ensures permutation { IfOk result (λ v. IsPermutation (up_backends self.now.members.items) v.items) }
        ensures short { IfOk result (λ v. length v.items ≤ length self.now.members.items) }
    {
        let members = self.ranked(alloc)?;
        let backends = backends_of(alloc, members.as_slice())?;
        Ok(backends)
    }

    /// The weights of the backends that [`Service::ups`] answers, in their order.
    pub fn weights(&self, alloc: Global) -> Result<Vec<Weight>, AllocError>
        ensures { IfOk result (λ v. v.items ≡ weights self.now.members.items) }
    {
        let members = self.ranked(alloc)?;
        weights_of(alloc, members.as_slice())
    }

    /// The backends of the members that drain, in ascending byte order of name.
    pub fn draining(&self, alloc: Global) -> Result<Vec<Backend>, AllocError>
        ensures value { IfOk result (λ v. v.items ≡ draining_backends self.now.members.items) }
        ensures ascending { IfOk result (λ v. AscendsByName v.items) }
    {
        let members = sorted(draining_members(alloc, self.members.as_slice())?)?;
        let backends = backends_of(alloc, members.as_slice())?;
        Ok(backends)
    }

    // Whether it serves the flows of another.
    pub(crate) fn is_same(&self, other: &Service) -> bool
        ensures { result ≡ same_service self.now other.now }
    {
        self.vip == other.vip && self.proto == other.proto && self.port == other.port
    }

    // Whether it has more members than a service may have, or than a table of a size has slots.
    pub(crate) fn is_too_long(&self, size: TableSize) -> bool
        ensures { result ≡ has_too_many size self.now }
    {
        self.members.len() > MOST_MEMBERS || self.members.len() > size.slots() as usize
    }
}

impl Version {
    /// The first service that a flow is of.
    pub fn service_of(&self, flow: &Flow) -> Option<&Service>
        ensures { option_copied result ≡ find_service flow.now self.now.services.items }
    {
        self.services.iter().find(|s| s.serves(flow))
    }
}
