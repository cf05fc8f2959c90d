//! The first of two that are the same.
ghost use Rattle.std.specs.Prelude.{◌≡◌, nat_eq, map, IfOk};
ghost use Rattle.std.specs.Cmp.Lexicographic.{pointwise};
ghost use Rattle.version_drafts.specs.Plain.{plain_service};
ghost use Rattle.scenario_places.specs.PoolPlaces.{first_double, same_key, key_of};

use backend_names::Name;
use pool_versions::{Member, Service};
use std::alloc::{AllocError, Global};
use std::collections::BTreeSet;

/// What distinguishes services: address, protocol and port.
#[derive(Clone, Copy, PartialEq, Eq, PartialOrd, Ord)]
struct ServiceKey {
    vip: u32,
    proto: u8,
    port: u16,
}

// The place of the first key that has its equal before it.
fn first_double<K: Ord + Copy>(alloc: Global, keys: &[K]) -> Result<Option<usize>, AllocError>
    ensures { IfOk result (λ o. o ≡ first_double K.eq keys.now) }
{
    let mut seen = BTreeSet::new(alloc);
    for n in 0..keys.len() {
        if !seen.insert(keys[n])? {
            return Ok(Some(n));
        }
    }
    Ok(None)
}

fn keys_of(alloc: Global, services: &[Service]) -> Result<Vec<ServiceKey>, AllocError>
    ensures { IfOk result (λ v. v.items ≡ map key_of (map plain_service services.now)) }
{
    let mut keys = Vec::with_capacity(alloc, services.len())?;
    for service in services {
        keys.push(ServiceKey {
            vip: service.vip,
            proto: service.proto,
            port: service.port,
        })?;
    }
    Ok(keys)
}

/// The place, from 0, of the first service that is for the flows of an earlier one.
pub(crate) fn double_service(
    alloc: Global,
    services: &[Service],
) -> Result<Option<usize>, AllocError>
    ensures { IfOk result (λ o. o ≡ first_double same_key (map key_of (map plain_service services.now))) }
{
    let keys = keys_of(alloc, services)?;
    first_double(alloc, keys.as_slice())
}

fn names_of(alloc: Global, members: &[Member]) -> Result<Vec<Name>, AllocError>
    ensures { IfOk result (λ v. v.items ≡ map (λ m. m.backend.name) members.now) }
{
    let mut names = Vec::with_capacity(alloc, members.len())?;
    for member in members {
        names.push(member.backend.name)?;
    }
    Ok(names)
}

/// The place, from 0, of the first member that has the name of an earlier one.
pub(crate) fn double_name(alloc: Global, members: &[Member]) -> Result<Option<usize>, AllocError>
    ensures { IfOk result (λ o. o ≡ first_double (pointwise nat_eq) (map (λ m. m.backend.name) members.now)) }
{
    let names = names_of(alloc, members)?;
    first_double(alloc, names.as_slice())
}
