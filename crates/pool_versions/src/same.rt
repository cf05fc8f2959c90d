//! Whether two versions are the same, and copies of a version.
ghost use Rattle.std.specs.Prelude.{◌≡◌, ◌↔◌, true, map, IfOk};
ghost use Rattle.pool_versions.specs.Same.{parts_of, AreSame};

use crate::backend::Member;
use crate::service::{Service, Version};
use std::alloc::{AllocError, Global};

fn is_member(member: &Member, other: &Member) -> bool
    ensures { (result ≡ true) ↔ (member.now ≡ other.now) }
{
    member == other
}

// Whether two lists of members are the same.
fn are_members(members: &[Member], others: &[Member]) -> bool
    ensures { (result ≡ true) ↔ (members.now ≡ others.now) }
{
    if members.len() != others.len() {
        return false;
    }
    for at in 0..members.len() {
        if !is_member(&members[at], &others[at]) {
            return false;
        }
    }
    true
}

// Whether two services are for the same flows and have the same members in order.
fn is_service(service: &Service, other: &Service) -> bool
    ensures { (result ≡ true) ↔ (parts_of service.now ≡ parts_of other.now) }
{
    service.vip == other.vip
        && service.proto == other.proto
        && service.port == other.port
        && are_members(service.members.as_slice(), other.members.as_slice())
}

// Whether two lists of services are the same.
fn are_services(services: &[Service], others: &[Service]) -> bool
    ensures { (result ≡ true) ↔ (map parts_of services.now ≡ map parts_of others.now) }
{
    if services.len() != others.len() {
        return false;
    }
    for at in 0..services.len() {
        if !is_service(&services[at], &others[at]) {
            return false;
        }
    }
    true
}

// A service of the same parts.
fn copy_of(alloc: Global, service: &Service) -> Result<Service, AllocError>
    ensures { IfOk result (λ s. parts_of s ≡ parts_of service.now) }
{
    let mut members = Vec::new(alloc);
    members.extend_from_slice(service.members.as_slice())?;
    Ok(Service {
        vip: service.vip,
        proto: service.proto,
        port: service.port,
        members,
    })
}

impl Version {
    /// Whether two versions have one number and equal services in order: address, protocol, port, and the members in order,
    /// up or down.
    pub fn same(&self, other: &Version) -> bool
        ensures { (result ≡ true) ↔ AreSame self.now other.now }
    {
        self.number == other.number
            && are_services(self.services.as_slice(), other.services.as_slice())
    }

    /// A version that is the same.
    pub fn copy(&self, alloc: Global) -> Result<Version, AllocError>
        ensures { IfOk result (λ v. AreSame v self.now) }
    {
        let mut services = Vec::new(alloc);
        for service in &self.services {
            services.push(copy_of(alloc, service)?)?;
        }
        Ok(Version {
            number: self.number,
            services,
        })
    }
}
