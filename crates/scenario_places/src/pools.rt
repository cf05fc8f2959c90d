//! Where a version can't be one of a catalogue.
ghost use Rattle.std.specs.Prelude.{◌≡◌, ◌==◌, ◌||◌, map, length, IfOk};
ghost use Rattle.std.specs.List.{list_any};
ghost use Rattle.version_drafts.specs.Plain.{plain_service, plain_version};
ghost use Rattle.scenario_places.specs.Adding.{is_long};
ghost use Rattle.scenario_places.specs.PoolPlaces.{double_service, double_name_from, most_members, long_from, over_place, services_place, version_place};
ghost use Rattle.scenario_places.specs.PoolPlaces.{OnePlaceOrACatalogue};

use crate::doubles::{double_name, double_service};
use backend_names::TableSize;
use pool_versions::{MOST_MEMBERS, MOST_SERVICES, MOST_VERSIONS, Service, Version};
use scenario_keys::Key;
use std::alloc::{AllocError, Global};
use version_drafts::{Flaw, Place};

// The first service of a version that is for the flows of an earlier one.
fn double_service_place(
    alloc: Global,
    version: usize,
    services: &[Service],
) -> Result<Option<Place>, AllocError>
    ensures { IfOk result (λ o. o ≡ double_service version (map plain_service services.now)) }
{
    let double = double_service(alloc, services)?;
    Ok(double.map(|n| Place::Version(version, Flaw::Item(Key::Services, n))))
}

// The first member of a version that has the name of an earlier one of its service.
fn double_name_place(
    alloc: Global,
    version: usize,
    services: &[Service],
) -> Result<Option<Place>, AllocError>
    ensures { IfOk result (λ o. o ≡ double_name_from version 0 (map plain_service services.now)) }
{
    for (n, service) in services.iter().enumerate() {
        if let Some(member) = double_name(alloc, service.members.as_slice())? {
            return Ok(Some(Place::Service(version, n, Flaw::Item(Key::Members, member))));
        }
    }
    Ok(None)
}

// How many members a service may have.
fn most_members(size: TableSize) -> usize
    ensures { result ≡ most_members size }
{
    let slots = size.slots() as usize;
    if slots < MOST_MEMBERS {
        slots
    } else {
        MOST_MEMBERS
    }
}

fn is_long(size: TableSize, service: &Service) -> bool
    ensures { result ≡ is_long size (plain_service service.now) }
{
    let members = service.members.len();
    members > MOST_MEMBERS || members > size.slots() as usize
}

// The first member of a version that passes the limit of its service.
fn long_place(size: TableSize, version: usize, services: &[Service]) -> Option<Place>
    ensures { result ≡ long_from size version 0 (map plain_service services.now) }
{
    for (n, service) in services.iter().enumerate() {
        if is_long(size, service) {
            let item = Flaw::Item(Key::Members, most_members(size));
            return Some(Place::Service(version, n, item));
        }
    }
    None
}

fn over_place(size: TableSize, version: usize, services: &[Service]) -> Option<Place>
    ensures { result ≡ over_place size version (map plain_service services.now) }
{
    if version >= MOST_VERSIONS {
        Some(Place::Root(Flaw::Item(Key::Versions, version)))
    } else if services.len() > MOST_SERVICES {
        Some(Place::Version(version, Flaw::Item(Key::Services, MOST_SERVICES)))
    } else {
        long_place(size, version, services)
    }
}

fn services_place(
    alloc: Global,
    size: TableSize,
    version: usize,
    services: &[Service],
) -> Result<Option<Place>, AllocError>
    ensures { IfOk result (λ o. o ≡ services_place size version (map plain_service services.now)) }
{
    if let Some(place) = double_service_place(alloc, version, services)? {
        return Ok(Some(place));
    }
    if let Some(place) = double_name_place(alloc, version, services)? {
        return Ok(Some(place));
    }
    Ok(over_place(size, version, services))
}

fn has_number(versions: &[Version], number: u32) -> bool
    ensures { result ≡ list_any (λ w. w.number == number) versions.now }
{
    versions.iter().any(|version| version.number == number)
}

// Whether a number is 0 or that of a version.
fn is_refused(versions: &[Version], number: u32) -> bool
    ensures { result ≡ ((number == 0) || list_any (λ w. w.number == number) (map plain_version versions.now)) }
{
    number == 0 || has_number(versions, number)
}

/// Where a version can't follow the earlier ones: at a number, a service or a member that an earlier one has, or at the first
/// past a limit.
pub(crate) fn version_place(
    alloc: Global,
    size: TableSize,
    earlier: &[Version],
    version: &Version,
) -> Result<Option<Place>, AllocError>
    ensures { IfOk result (λ o. o ≡ version_place size (map plain_version earlier.now) (length earlier.now) (plain_version version.now)) }
{
    let at = earlier.len();
    if is_refused(earlier, version.number) {
        return Ok(Some(Place::Version(at, Flaw::Value(Key::Number))));
    }
    services_place(alloc, size, at, version.services.as_slice())
}

/// A law: versions either have a place, and are refused, or a catalogue takes them one after another.
pub fn one_place_or_a_catalogue()
    ensures { OnePlaceOrACatalogue }
{}
