//! The catalogue of versions.
ghost use Rattle.std.specs.Prelude.{◌≡◌, ◌++◌, ◌∷◌, [], OnOk, OnErr, IfOk, IfSome, option_map, option_copied};
ghost use Rattle.std.specs.List.{list_any};
ghost use Rattle.pool_versions.specs.Pool.{Pools, services_fault, fault_of, RefusedAs, GivenBackAs, version_at, up_of, weights_of, is_over, has_too_many};
ghost use Rattle.pool_versions.specs.Pool.{has_double_name, HasUps, HasWeights, IsWithinLimits, AreSound};

use crate::backend::Backend;
use crate::doubles::{has_double_name, has_double_service};
use crate::service::{Service, Version, weigh_all};
use backend_names::{TableSize, Weight};
use five_tuple::Flow;
use std::alloc::{AllocError, Global};
use std::marker::Model;
use thiserror::Error;

/// The most versions of a catalogue.
pub const MOST_VERSIONS: usize = 1024;

/// The most services of a version.
pub const MOST_SERVICES: usize = 256;

/// Why a version was not taken. They are tested in this order.
#[derive(Clone, Copy, Debug, PartialEq, Eq, Drop, Error)]
pub enum PoolFault {
    /// The number is 0.
    #[error("a version's number is 0")]
    BadNumber,
    /// The catalogue has a version of this number.
    #[error("a version of this number is there already")]
    NumberTaken,
    /// Two services have one address, protocol and port.
    #[error("two services have one address, protocol and port")]
    DoubleService,
    /// Two members of one service have one name.
    #[error("two members of a service have one name")]
    DoubleName,
    /// More than 1,024 versions, 256 services in a version, 4,096 members in a service, or members than slots.
    #[error("too many versions, services or members")]
    TooMany,
    /// Memory was refused.
    #[error("out of memory")]
    Memory,
}

/// A version that a catalogue didn't take: the first fault in the order of `PoolFault`, and the version.
#[derive(Debug, Drop)]
pub struct RefusedVersion {
    pub fault: PoolFault,
    pub version: Version,
}

/// The versions that a cluster may run, each under its number.
#[derive(Debug, Drop)]
pub struct Catalogue {
    alloc: Global,
    size: TableSize,
    versions: Vec<Version>,
}

impl Model for Catalogue {
    ghost use Rattle.pool_versions.specs.Pool.{Pools, AreSound};

    ghost Value = { Pools };

    ghost view = { λ c. record { size = c.size; versions = c.versions.items } };

    ghost invariant = { λ c. AreSound (record { size = c.size; versions = c.versions.items }) };
}

// Whether a service has more members than a service may have, or than there are slots.
fn has_long_service(services: &[Service], size: TableSize) -> bool
    ensures { result ≡ list_any (has_too_many size) services.now }
{
    services.iter().any(|service| service.is_too_long(size))
}

// Whether a service has two members of one name.
fn any_double_name(alloc: Global, services: &[Service]) -> bool
    ensures { result ≡ list_any has_double_name services.now }
{
    services.iter().any(|service| has_double_name(alloc, service.members.as_slice()))
}

impl Catalogue {
    /// An empty catalogue for tables of a size.
    pub fn new(alloc: Global, size: TableSize) -> Catalogue
        ensures { result ≡ record { size = size; versions = [] } }
    {
        let versions = Vec::new(alloc);
        Catalogue {
            alloc,
            size,
            versions,
        }
    }

    /// The size of the tables.
    pub fn size(&self) -> TableSize
        ensures { result ≡ self.now.size }
    {
        self.size
    }

    /// No two versions have one number. Within a version no two services are for the same flows, and within a service no two
    /// members have one name. Each member's weight is from 1 to 16. The clause is the invariant.
    pub fn keeps_doubles_out(&self)
        ensures { AreSound self.now }
    {
        let _versions = &self.versions;
    }

    /// The versions, in the order in which they were added.
    pub fn versions(&self) -> &[Version]
        ensures { result.now ≡ self.now.versions }
    {
        self.versions.as_slice()
    }

    /// The version of a number. It keeps the limits of a version.
    pub fn get(&self, number: u32) -> Option<&Version>
        ensures found { option_copied result ≡ version_at number self.now.versions }
        ensures limits { IfSome result (λ v. IsWithinLimits self.now.size v.now) }
    {
        self.versions
            .iter()
            .find(|version| version.number == number)
    }

    // Whether a version of these services passes a limit.
    #[tactic(auto, unfolding(crate::specs::Pool::is_over))]
    fn is_over(&self, services: &[Service]) -> bool
        ensures { result ≡ is_over self.now services.now }
    {
        let Catalogue { size, versions, .. } = self;
        versions.len() >= MOST_VERSIONS
            || services.len() > MOST_SERVICES
            || has_long_service(services, *size)
    }

    // The first fault of a version's services.
    #[tactic(auto, unfolding(crate::specs::Pool::services_fault))]
    fn services_fault(&self, services: &[Service]) -> Option<PoolFault>
        ensures { result ≡ services_fault self.now services.now }
    {
        if has_double_service(self.alloc, services) {
            return Some(PoolFault::DoubleService);
        }
        if any_double_name(self.alloc, services) {
            return Some(PoolFault::DoubleName);
        }
        if self.is_over(services) {
            return Some(PoolFault::TooMany);
        }
        None
    }

    // The first fault of a version.
    #[tactic(auto, unfolding(crate::specs::Pool::fault_of))]
    fn fault_of(&self, version: &Version) -> Option<PoolFault>
        ensures { result ≡ fault_of self.now version.now }
    {
        if version.number == 0 {
            return Some(PoolFault::BadNumber);
        }
        if self.get(version.number).is_some() {
            return Some(PoolFault::NumberTaken);
        }
        self.services_fault(version.services.as_slice())
    }

    /// Takes a version in, unless it has a fault. One that is refused is given back.
    pub fn offer(&mut self, version: Version) -> Result<(), RefusedVersion>
        ensures judged { GivenBackAs version result (fault_of self.old version) }
        ensures ok { OnOk result (self.new ≡ record self.old { versions = self.old.versions ++ version ∷ [] }) }
        ensures err { OnErr result (self.new ≡ self.old) }
    {
        if let Some(fault) = self.fault_of(&version) {
            return Err(RefusedVersion { fault, version });
        }
        weigh_all(version.services.as_slice());
        match self.versions.push(version) {
            Ok(()) => Ok(()),
            Err(failed) => Err(RefusedVersion {
                fault: PoolFault::Memory,
                version: failed.value,
            }),
        }
    }

    /// The same, where a version that is refused isn't wanted any more. The first fault in the order of `PoolFault` is the
    /// answer.
    pub fn add(&mut self, version: Version) -> Result<(), PoolFault>
        ensures judged { RefusedAs result (fault_of self.old version) }
        ensures ok { OnOk result (self.new ≡ record self.old { versions = self.old.versions ++ version ∷ [] }) }
        ensures err { OnErr result (self.new ≡ self.old) }
    {
        match self.offer(version) {
            Ok(()) => Ok(()),
            Err(refused) => Err(refused.fault),
        }
    }

    /// The up backends of a flow's service under a version, in ascending byte order of name. None where the
    /// version or the service is missing.
    pub fn up_of(
        &self,
        alloc: Global,
        number: u32,
        flow: &Flow,
    ) -> Result<Option<Vec<Backend>>, AllocError>
        ensures value { IfOk result (λ o. option_map (λ v. v.items) o ≡ up_of self.now number flow.now) }
        ensures listed { IfOk result (λ o. IfSome o (λ v. HasUps self.now number flow.now v.items)) }
    {
        let Some(version) = self.get(number) else {
            return Ok(None);
        };
        let Some(service) = version.service_of(flow) else {
            return Ok(None);
        };
        Ok(Some(service.ups(alloc)?))
    }
    /// The weights of the backends that [`Catalogue::up_of`] answers, in their order. None where the version or the service
    /// is missing.
    pub fn weights_of(
        &self,
        alloc: Global,
        number: u32,
        flow: &Flow,
    ) -> Result<Option<Vec<Weight>>, AllocError>
        ensures value { IfOk result (λ o. option_map (λ v. v.items) o ≡ weights_of self.now number flow.now) }
        ensures listed { IfOk result (λ o. IfSome o (λ v. HasWeights self.now number flow.now v.items)) }
    {
        let Some(found) = self.get(number) else {
            return Ok(None);
        };
        let Some(service) = found.service_of(flow) else {
            return Ok(None);
        };
        Ok(Some(service.weights(alloc)?))
    }
}
