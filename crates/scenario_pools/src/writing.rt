//! The versions that drafts mean, written out.
ghost use Rattle.std.specs.Prelude.{◌≡◌, ◌+◌, ◌==◌, [], Ok, Some, None, map, find, option_map, is_some, ok_or, IfOk, IfErr};
ghost use Rattle.std.specs.Result.{result_map_both};
ghost use Rattle.scenario_keys.specs.Lookups.{all_of};
ghost use Rattle.version_drafts.specs.Plain.{plain_service, plain_version};
ghost use Rattle.version_drafts.specs.Drafts.{plain_service_draft, plain_version_draft};
ghost use Rattle.scenario_pools.specs.Writing.{stated, stated_version, version_from, left, left_by_services, left_by_drafts, left_by_version, additions};
ghost use Rattle.scenario_pools.specs.Writing.{is_addition, brought, has_room, based, written_out, versions_of, IsRefused};
ghost use Rattle.scenario_pools.specs.BadWords.{bad_in_service, bad_in_stated, bad_in_based, bad_in_version, bad_word_of, IsOfWord};
ghost use Rattle.scenario_pools.specs.PrivateWalk.{IsUnmade, IsUnwritten, unwritten};

use crate::bad_words::{BadWord, Unmade};
use crate::basing::{stated_with, with_drafts};
use crate::changing::all_changed;
use crate::fault::{PoolsFault, Unwritten};
use pool_versions::{Service, Version};
use std::alloc::{AllocError, Global};
use version_drafts::{Change, ServiceDraft, VersionDraft};

/// The most services and members that versions may have in all, up to one with a base.
pub const MOST_PLACES: usize = 1_048_576;

// The service that a draft of a number states.
fn stated(
    alloc: Global,
    number: usize,
    draft: &ServiceDraft,
) -> Result<Result<Service, BadWord>, AllocError>
    ensures { let d = plain_service_draft draft.now in
        IfOk result (λ r. result_map_both plain_service (λ w. w) r ≡ ok_or (stated d) (bad_in_service number d [] d.members)) }
{
    let Some(words) = &draft.members else {
        return Ok(Err(BadWord::Service(number)));
    };
    match stated_with(alloc, draft, words.as_slice())? {
        Ok(service) => Ok(Ok(service)),
        Err(word) => Ok(Err(BadWord::Member(number, word))),
    }
}

fn all_stated(
    alloc: Global,
    drafts: &[ServiceDraft],
) -> Result<Result<Vec<Service>, BadWord>, AllocError>
    ensures { let ds = map plain_service_draft drafts.now in
        IfOk result (λ r. result_map_both (λ v. map plain_service v.items) (λ w. w) r ≡ ok_or (all_of stated ds) (bad_in_stated 0 ds)) }
{
    let mut services: Vec<Service> = Vec::new(alloc);
    for (number, draft) in drafts.iter().enumerate() {
        let service = match stated(alloc, number, draft)? {
            Ok(service) => service,
            Err(word) => return Ok(Err(word)),
        };
        let Ok(()) = services.push(service) else {
            return Err(AllocError);
        };
    }
    Ok(Ok(services))
}

fn stated_version(
    alloc: Global,
    draft: &VersionDraft,
) -> Result<Result<Version, BadWord>, AllocError>
    ensures { let d = plain_version_draft draft.now in
        IfOk result (λ r. result_map_both plain_version (λ w. w) r ≡ ok_or (stated_version d) (bad_in_stated 0 d.services)) }
{
    let services = match all_stated(alloc, draft.services.as_slice())? {
        Ok(services) => services,
        Err(word) => return Ok(Err(word)),
    };
    Ok(Ok(Version {
        number: draft.number,
        services,
    }))
}

fn version_from(
    alloc: Global,
    draft: &VersionDraft,
    base: &Version,
) -> Result<Result<Version, BadWord>, AllocError>
    ensures { let d = plain_version_draft draft.now in let b = plain_version base.now in
        IfOk result (λ r. result_map_both plain_version (λ w. w) r ≡ ok_or (version_from d b) (bad_in_based d (Some b))) }
{
    let changes = draft.changes.as_slice();
    let services = match all_changed(alloc, changes, base.services.as_slice())? {
        Ok(services) => services,
        Err(change) => return Ok(Err(BadWord::Change(change))),
    };
    let services = match with_drafts(alloc, services, draft.services.as_slice())? {
        Ok(services) => services,
        Err(word) => return Ok(Err(word)),
    };
    Ok(Ok(Version {
        number: draft.number,
        services,
    }))
}

// What is left of some room behind a service with so many members.
fn left_by_one(room: usize, members: usize) -> Option<usize>
    ensures { result ≡ left room (1 + members) }
{
    if room <= members {
        None
    } else {
        Some(room - members - 1)
    }
}

fn left_by_more(room: usize, members: usize, more: usize) -> Option<usize>
    ensures { result ≡ left room (1 + (members + more)) }
{
    let room = left_by_one(room, members)?;
    if room < more { None } else { Some(room - more) }
}

fn left_by_services(mut room: usize, more: usize, services: &[Service]) -> Option<usize>
    ensures { result ≡ left_by_services more room (map plain_service services.now) }
{
    for service in services {
        room = left_by_more(room, service.members.len(), more)?;
    }
    Some(room)
}

fn is_addition(change: &Option<Change>) -> bool
    ensures { result ≡ is_addition change.now }
{
    match change {
        Some(change) => change.name().is_none(),
        None => false,
    }
}

/// How many members changes add.
pub(crate) fn additions(changes: &[Option<Change>]) -> usize
    ensures { result ≡ additions changes.now }
{
    changes.iter().filter(|change| is_addition(change)).count()
}

fn brought(draft: &ServiceDraft) -> usize
    ensures { result ≡ brought (plain_service_draft draft.now) (plain_service_draft draft.now).members }
{
    match &draft.members {
        Some(words) => words.len(),
        None => additions(draft.changes.as_slice()),
    }
}

fn left_by_drafts(mut room: usize, drafts: &[ServiceDraft]) -> Option<usize>
    ensures { result ≡ left_by_drafts room (map plain_service_draft drafts.now) }
{
    for draft in drafts {
        room = left_by_one(room, brought(draft))?;
    }
    Some(room)
}

// Whether there is room for a version from its base.
fn has_room(room: usize, draft: &VersionDraft, base: &Version) -> bool
    ensures { result ≡ has_room room (plain_version_draft draft.now) (plain_version base.now) }
{
    let more = additions(draft.changes.as_slice());
    match left_by_services(room, more, base.services.as_slice()) {
        Some(room) => left_by_drafts(room, draft.services.as_slice()).is_some(),
        None => false,
    }
}

// What is left of some room behind a version.
fn left_by_version(room: usize, version: &Version) -> usize
    ensures { result ≡ left_by_version room (plain_version version.now) }
{
    left_by_services(room, 0, version.services.as_slice()).unwrap_or(0)
}

// The first version of a number.
fn version_of_number(versions: &[Version], number: u32) -> Option<&Version>
    ensures { option_map (λ v. plain_version v.now) result ≡ find (λ v. v.number == number) (map plain_version versions.entry.now) }
{
    for version in versions {
        if version.number == number {
            return Some(version);
        }
    }
    None
}

// A version from its base, if that is there.
fn based(
    alloc: Global,
    room: usize,
    draft: &VersionDraft,
    base: Option<&Version>,
) -> Result<Version, Unmade>
    ensures ok { IfOk result (λ v. based room (plain_version_draft draft.now) (option_map (λ b. plain_version b.now) base.entry) ≡ Ok (plain_version v)) }
    ensures refused { let d = plain_version_draft draft.now in let b = option_map (λ b. plain_version b.now) base.entry in
        IfErr result (IsUnmade (based room d b) (bad_in_based d b)) }
{
    let Some(base) = base else {
        return Err(Unmade::Bad(BadWord::Base));
    };
    if !has_room(room, draft, base) {
        return Err(Unmade::TooMany);
    }
    match version_from(alloc, draft, base) {
        Ok(Ok(version)) => Ok(version),
        Ok(Err(word)) => Err(Unmade::Bad(word)),
        Err(_) => Err(Unmade::Memory),
    }
}

// The version of a draft beside those before it.
fn written_out(
    alloc: Global,
    room: usize,
    earlier: &[Version],
    draft: &VersionDraft,
) -> Result<Version, Unmade>
    ensures ok { IfOk result (λ v. written_out room (map plain_version earlier.now) (plain_version_draft draft.now) ≡ Ok (plain_version v)) }
    ensures refused { let d = plain_version_draft draft.now in let vs = map plain_version earlier.now in
        IfErr result (IsUnmade (written_out room vs d) (bad_in_version vs d d.base)) }
{
    let Some(number) = draft.base else {
        return match stated_version(alloc, draft) {
            Ok(Ok(version)) => Ok(version),
            Ok(Err(word)) => Err(Unmade::Bad(word)),
            Err(_) => Err(Unmade::Memory),
        };
    };
    match based(alloc, room, draft, version_of_number(earlier, number)) {
        Ok(version) => Ok(version),
        Err(why) => Err(why),
    }
}

// The versions that drafts mean, written out. Else the number of the first draft that has a fault, and why it has.
#[tactic(auto, unfolding(crate::specs::Writing::versions_of, crate::specs::BadWords::bad_word_of))]
fn all_written(alloc: Global, drafts: &[VersionDraft]) -> Result<Vec<Version>, (usize, Unmade)>
    ensures ok { let ds = map plain_version_draft drafts.now in IfOk result (λ v. (versions_of ds ≡ Ok (map plain_version v.items)) × (bad_word_of ds ≡ None)) }
    ensures refused { IfErr result (λ e. IsUnwritten (map plain_version_draft drafts.now) e.0 e.1) }
{
    let mut versions: Vec<Version> = Vec::new(alloc);
    let mut room = MOST_PLACES;
    for (number, draft) in drafts.iter().enumerate() {
        let version = match written_out(alloc, room, versions.as_slice(), draft) {
            Ok(version) => version,
            Err(why) => return Err((number, why)),
        };
        room = left_by_version(room, &version);
        let Ok(()) = versions.push(version) else {
            return Err((number, Unmade::Memory));
        };
    }
    Ok(versions)
}

// Why drafts aren't written out, by the version of a number.
fn unwritten(version: usize, why: Unmade) -> Unwritten
    ensures { result ≡ unwritten version why }
{
    match why {
        Unmade::Bad(word) => Unwritten {
            fault: PoolsFault::BadMember,
            word: Some((version, word)),
        },
        Unmade::TooMany => Unwritten {
            fault: PoolsFault::TooMany,
            word: None,
        },
        Unmade::Memory => Unwritten {
            fault: PoolsFault::Memory,
            word: None,
        },
    }
}

/// The versions that drafts mean, written out. Else the fault of the first draft that has one, and the word for which it is
/// refused.
pub fn versions_of(alloc: Global, drafts: &[VersionDraft]) -> Result<Vec<Version>, Unwritten>
    ensures ok { IfOk result (λ v. versions_of (map plain_version_draft drafts.now) ≡ Ok (map plain_version v.items)) }
    ensures refused { IfErr result (λ r. IsRefused (versions_of (map plain_version_draft drafts.now)) r.fault) }
    ensures word { IfErr result (λ r. IsOfWord (map plain_version_draft drafts.now) r.fault r.word) }
{
    match all_written(alloc, drafts) {
        Ok(versions) => Ok(versions),
        Err((version, why)) => Err(unwritten(version, why)),
    }
}
