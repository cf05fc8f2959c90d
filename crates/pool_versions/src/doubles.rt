//! Whether a list holds two of a kind.
ghost use Rattle.std.specs.Prelude.{◌≡◌, not, IfOk};
ghost use Rattle.std.specs.List.{list_any};
ghost use Rattle.pool_versions.specs.Pool.{has_double, same_name, same_service, service_keys, member_names};

use crate::backend::Member;
use crate::key::ServiceKey;
use crate::service::Service;
use backend_names::Name;
use std::alloc::{AllocError, Global};

// Whether two keys are equal. A sort brings equal keys together, so that long lists need no quadratic walk.
fn has_double_key<K: Ord + Copy>(mut keys: Vec<K>) -> bool
    ensures { result ≡ has_double K.eq keys.items }
{
    keys.sort_unstable();
    !keys.is_sorted_by(
        |a: &K, b: &K| -> bool
            ensures { result ≡ not (K.eq a.now b.now) }
        { a != b },
    )
}

fn names_of(alloc: Global, members: &[Member]) -> Result<Vec<Name>, AllocError>
    ensures { IfOk result (λ v. v.items ≡ member_names members.now) }
{
    let mut names = Vec::with_capacity(alloc, members.len())?;
    for member in members {
        names.push(member.backend.name)?;
    }
    Ok(names)
}

fn keys_of(alloc: Global, services: &[Service]) -> Result<Vec<ServiceKey>, AllocError>
    ensures { IfOk result (λ v. v.items ≡ service_keys services.now) }
{
    let mut keys = Vec::with_capacity(alloc, services.len())?;
    for service in services {
        keys.push(service.key())?;
    }
    Ok(keys)
}

fn has_name(members: &[Member], member: &Member) -> bool
    ensures { result ≡ list_any (same_name member.now) members.now }
{
    members
        .iter()
        .any(|other| member.backend.name == other.backend.name)
}

fn has_service(services: &[Service], service: &Service) -> bool
    ensures { result ≡ list_any (same_service service.now) services.now }
{
    services.iter().any(|other| service.is_same(other))
}

// The answer where there is no memory for a sort: each member against those after it.
fn walk_finds_double_name(members: &[Member]) -> bool
    ensures { result ≡ has_double same_name members.now }
{
    for (i, member) in members.iter().enumerate() {
        if has_name(&members[i + 1..], member) {
            return true;
        }
    }
    false
}

fn walk_finds_double_service(services: &[Service]) -> bool
    ensures { result ≡ has_double same_service services.now }
{
    for (i, service) in services.iter().enumerate() {
        if has_service(&services[i + 1..], service) {
            return true;
        }
    }
    false
}

/// Whether two members have one name. Where memory for a sort is refused, a slow walk gives the same answer.
pub fn has_double_name(alloc: Global, members: &[Member]) -> bool
    ensures { result ≡ has_double same_name members.now }
{
    match names_of(alloc, members) {
        Ok(names) => has_double_key(names),
        Err(_) => walk_finds_double_name(members),
    }
}

/// Whether two services are for the same flows. Where memory for a sort is refused, a slow walk gives the same answer.
pub(crate) fn has_double_service(alloc: Global, services: &[Service]) -> bool
    ensures { result ≡ has_double same_service services.now }
{
    match keys_of(alloc, services) {
        Ok(keys) => has_double_key(keys),
        Err(_) => walk_finds_double_service(services),
    }
}
