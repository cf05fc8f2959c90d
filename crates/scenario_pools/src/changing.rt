//! Members and services after changes, one after another.
ghost use Rattle.std.specs.Prelude.{◌≡◌, map, ok_or, IfOk};
ghost use Rattle.std.specs.Result.{result_map_both};
ghost use Rattle.std.specs.List.{list_any};
ghost use Rattle.version_drafts.specs.Plain.{plain_service};
ghost use Rattle.version_drafts.specs.Changes.{is_of};
ghost use Rattle.scenario_pools.specs.Changes.{has_member, some_has_member, changed, service_changed_by, all_changed};
ghost use Rattle.scenario_pools.specs.BadWords.{bad_change, bad_change_of_all};

use backend_names::Name;
use pool_versions::{Member, Service};
use std::alloc::{AllocError, Global};
use version_drafts::Change;

fn has_name(name: Name, members: &[Member]) -> bool
    ensures { result ≡ list_any (is_of name) members.now }
{
    members.iter().any(|member| name == member.backend.name)
}

fn has_member(name: Option<Name>, members: &[Member]) -> bool
    ensures { result ≡ has_member name members.now }
{
    match name {
        None => true,
        Some(name) => has_name(name, members),
    }
}

/// Some members after changes, or the number of the first change that is none or whose name no member has at that point.
pub(crate) fn changed(
    alloc: Global,
    changes: &[Option<Change>],
    members: &[Member],
) -> Result<Result<Vec<Member>, usize>, AllocError>
    ensures { IfOk result (λ r. result_map_both (λ v. v.items) (λ n. n) r ≡ ok_or (changed changes.now members.now) (bad_change 0 changes.now members.now)) }
{
    let mut members = members.to_vec(alloc)?;
    for (n, change) in changes.iter().enumerate() {
        let Some(change) = change else {
            return Ok(Err(n));
        };
        if !has_member(change.name(), members.as_slice()) {
            return Ok(Err(n));
        }
        members = change.apply(alloc, members.as_slice())?;
    }
    Ok(Ok(members))
}

fn one_has_name(name: Name, services: &[Service]) -> bool
    ensures { result ≡ list_any (λ s. list_any (is_of name) s.members) (map plain_service services.now) }
{
    for service in services {
        if has_name(name, service.members.as_slice()) {
            return true;
        }
    }
    false
}

fn some_has_member(name: Option<Name>, services: &[Service]) -> bool
    ensures { result ≡ some_has_member name (map plain_service services.now) }
{
    match name {
        None => true,
        Some(name) => one_has_name(name, services),
    }
}

fn changed_service(alloc: Global, change: &Change, service: &Service) -> Result<Service, AllocError>
    ensures { IfOk result (λ s. plain_service s ≡ service_changed_by change.now (plain_service service.now)) }
{
    let members = change.apply(alloc, service.members.as_slice())?;
    Ok(Service {
        vip: service.vip,
        proto: service.proto,
        port: service.port,
        members,
    })
}

fn changed_services(
    alloc: Global,
    change: &Change,
    services: &[Service],
) -> Result<Vec<Service>, AllocError>
    ensures { IfOk result (λ v. map plain_service v.items ≡ map (service_changed_by change.now) (map plain_service services.now)) }
{
    let mut found: Vec<Service> = Vec::new(alloc);
    for service in services {
        let service = changed_service(alloc, change, service)?;
        let Ok(()) = found.push(service) else {
            return Err(AllocError);
        };
    }
    Ok(found)
}

fn copied_service(alloc: Global, service: &Service) -> Result<Service, AllocError>
    ensures { IfOk result (λ s. plain_service s ≡ plain_service service.now) }
{
    let members = service.members.as_slice().to_vec(alloc)?;
    Ok(Service {
        vip: service.vip,
        proto: service.proto,
        port: service.port,
        members,
    })
}

fn copied_services(alloc: Global, services: &[Service]) -> Result<Vec<Service>, AllocError>
    ensures { IfOk result (λ v. map plain_service v.items ≡ map plain_service services.now) }
{
    let mut found: Vec<Service> = Vec::new(alloc);
    for service in services {
        let service = copied_service(alloc, service)?;
        let Ok(()) = found.push(service) else {
            return Err(AllocError);
        };
    }
    Ok(found)
}

/// All of some services after changes, or the number of the first change that is none or for whose name no service has a
/// member at that point.
pub(crate) fn all_changed(
    alloc: Global,
    changes: &[Option<Change>],
    services: &[Service],
) -> Result<Result<Vec<Service>, usize>, AllocError>
    ensures { let ss = map plain_service services.now in
        IfOk result (λ r. result_map_both (λ v. map plain_service v.items) (λ n. n) r
        ≡ ok_or (all_changed changes.now ss) (bad_change_of_all 0 changes.now ss)) }
{
    let mut services = copied_services(alloc, services)?;
    for (n, change) in changes.iter().enumerate() {
        let Some(change) = change else {
            return Ok(Err(n));
        };
        if !some_has_member(change.name(), services.as_slice()) {
            return Ok(Err(n));
        }
        services = changed_services(alloc, change, services.as_slice())?;
    }
    Ok(Ok(services))
}
