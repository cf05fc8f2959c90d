//! Services of a version from those of its base.
ghost use Rattle.std.specs.Prelude.{◌≡◌, ◌≤◌, ◌++◌, ◌∷◌, [], length, map, ok_or, IfOk};
ghost use Rattle.std.specs.Result.{result_map_both};
ghost use Rattle.std.specs.List.{list_any, position_or_len};
ghost use Rattle.pool_versions.specs.Pool.{same_key};
ghost use Rattle.scenario_keys.specs.Lookups.{all_of};
ghost use Rattle.version_drafts.specs.Plain.{plain_service, plain_key};
ghost use Rattle.version_drafts.specs.Drafts.{plain_service_draft, draft_key};
ghost use Rattle.scenario_pools.specs.Writing.{stated_with, placed, with_stated, changed_one, with_changed, with_draft, with_drafts};
ghost use Rattle.scenario_pools.specs.BadWords.{first_none, bad_change, service_for, bad_in_changes, bad_in_service, bad_in_drafts};

use crate::bad_words::BadWord;
use crate::changing::changed;
use pool_versions::{Member, Service, ServiceKey};
use std::alloc::{AllocError, Global};
use version_drafts::ServiceDraft;

// The members that some words are, or the number of the first that is none.
fn members_of(
    alloc: Global,
    words: &[Option<Member>],
) -> Result<Result<Vec<Member>, usize>, AllocError>
    ensures { IfOk result (λ r. result_map_both (λ v. v.items) (λ n. n) r ≡ ok_or (all_of (λ w. w) words.now) (first_none 0 words.now)) }
{
    let mut members: Vec<Member> = Vec::new(alloc);
    for (n, word) in words.iter().enumerate() {
        let Some(member) = word else {
            return Ok(Err(n));
        };
        members.push(*member)?;
    }
    Ok(Ok(members))
}

/// The service of a draft with these words, or the number of the first that is no member.
pub(crate) fn stated_with(
    alloc: Global,
    draft: &ServiceDraft,
    words: &[Option<Member>],
) -> Result<Result<Service, usize>, AllocError>
    ensures { IfOk result (λ r. result_map_both plain_service (λ n. n) r
        ≡ ok_or (stated_with (plain_service_draft draft.now) words.now) (first_none 0 words.now)) }
{
    let members = match members_of(alloc, words)? {
        Ok(members) => members,
        Err(word) => return Ok(Err(word)),
    };
    Ok(Ok(Service {
        vip: draft.vip,
        proto: draft.proto,
        port: draft.port,
        members,
    }))
}

/// What distinguishes the service that a draft is for.
pub(crate) fn key_of(draft: &ServiceDraft) -> ServiceKey
    ensures { result ≡ draft_key (plain_service_draft draft.now) }
{
    ServiceKey {
        vip: draft.vip,
        proto: draft.proto,
        port: draft.port,
    }
}

// Whether a draft is for the flows of a service.
fn some_is_for(key: &ServiceKey, drafts: &[ServiceDraft]) -> bool
    ensures { result ≡ list_any (λ d. same_key (draft_key d) key.now) (map plain_service_draft drafts.now) }
{
    for draft in drafts {
        if key_of(draft) == *key {
            return true;
        }
    }
    false
}

// The place of the first service of a key, the number of services where there is none.
fn place_of(key: &ServiceKey, services: &[Service]) -> usize
    ensures place { result ≡ position_or_len (λ s. same_key key.now (plain_key s)) (map plain_service services.now) }
    ensures within { result ≤ length services.now }
{
    for (place, service) in services.iter().enumerate() {
        if *key == service.key() {
            return place;
        }
    }
    services.len()
}

fn append(services: &mut Vec<Service>, service: Service) -> Result<(), AllocError>
    ensures { IfOk result (λ _. services.new.items ≡ services.old.items ++ service ∷ []) }
{
    let Ok(()) = services.push(service) else {
        return Err(AllocError);
    };
    Ok(())
}

// Puts a service in the place of the first of its key, behind all where there is none.
fn place(services: &mut Vec<Service>, service: Service) -> Result<(), AllocError>
    ensures { IfOk result (λ _. map plain_service services.new.items ≡ placed (plain_service service) (map plain_service services.old.items)) }
{
    let place = place_of(&service.key(), services.as_slice());
    if place < services.len() {
        services[place] = service;
        Ok(())
    } else {
        match append(services, service) {
            Ok(()) => Ok(()),
            Err(e) => Err(e),
        }
    }
}

// Puts a stated service among others. Where a draft before it is for its flows too, it stands behind all.
fn add_stated(
    services: &mut Vec<Service>,
    before: &[ServiceDraft],
    service: Service,
) -> Result<(), AllocError>
    ensures { IfOk result (λ _. map plain_service services.new.items
        ≡ with_stated (map plain_service_draft before.now) (map plain_service services.old.items) (plain_service service)) }
{
    if some_is_for(&service.key(), before) {
        match append(services, service) {
            Ok(()) => Ok(()),
            Err(e) => Err(e),
        }
    } else {
        match place(services, service) {
            Ok(()) => Ok(()),
            Err(e) => Err(e),
        }
    }
}

// A service with its members changed, or the number of the first change that can't be made.
fn changed_one(
    alloc: Global,
    draft: &ServiceDraft,
    service: &Service,
) -> Result<Result<Service, usize>, AllocError>
    ensures { let d = plain_service_draft draft.now in let s = plain_service service.now in
        IfOk result (λ r. result_map_both plain_service (λ n. n) r ≡ ok_or (changed_one d s) (bad_change 0 d.changes s.members)) }
{
    let changes = draft.changes.as_slice();
    let members = match changed(alloc, changes, service.members.as_slice())? {
        Ok(members) => members,
        Err(change) => return Ok(Err(change)),
    };
    Ok(Ok(Service {
        vip: service.vip,
        proto: service.proto,
        port: service.port,
        members,
    }))
}

// Changes the first service that a draft of a number is for. What is wrong where there is none, or a change can't be made.
fn change_one(
    alloc: Global,
    services: &mut Vec<Service>,
    number: usize,
    draft: &ServiceDraft,
) -> Result<Result<(), BadWord>, AllocError>
    ensures { let d = plain_service_draft draft.now in let ss = map plain_service services.old.items in
        IfOk result (λ r. result_map_both (λ _. map plain_service services.new.items) (λ w. w) r
        ≡ ok_or (with_changed d ss) (bad_in_changes number d (service_for d ss))) }
{
    let place = place_of(&key_of(draft), services.as_slice());
    if place >= services.len() {
        return Ok(Err(BadWord::Service(number)));
    }
    match changed_one(alloc, draft, &services[place])? {
        Ok(service) => {
            services[place] = service;
            Ok(Ok(()))
        }
        Err(change) => Ok(Err(BadWord::ServiceChange(number, change))),
    }
}

// Puts the service of a draft of a number among others, or changes one of them. What is wrong where a word is none, or there
// is no such service.
fn add_draft(
    alloc: Global,
    services: &mut Vec<Service>,
    before: &[ServiceDraft],
    number: usize,
    draft: &ServiceDraft,
) -> Result<Result<(), BadWord>, AllocError>
    ensures { let d = plain_service_draft draft.now in let ss = map plain_service services.old.items in
        IfOk result (λ r. result_map_both (λ _. map plain_service services.new.items) (λ w. w) r
        ≡ ok_or (with_draft (map plain_service_draft before.now) d ss) (bad_in_service number d ss d.members)) }
{
    let Some(words) = &draft.members else {
        return change_one(alloc, services, number, draft);
    };
    match stated_with(alloc, draft, words.as_slice())? {
        Ok(service) => {
            add_stated(services, before, service)?;
            Ok(Ok(()))
        }
        Err(word) => Ok(Err(BadWord::Member(number, word))),
    }
}

/// Services with drafts, one after another, or what is wrong with the first that can't be made.
pub(crate) fn with_drafts(
    alloc: Global,
    mut services: Vec<Service>,
    drafts: &[ServiceDraft],
) -> Result<Result<Vec<Service>, BadWord>, AllocError>
    ensures { let ds = map plain_service_draft drafts.now in let ss = map plain_service services.items in
        IfOk result (λ r. result_map_both (λ v. map plain_service v.items) (λ w. w) r ≡ ok_or (with_drafts [] ds ss) (bad_in_drafts [] 0 ds ss)) }
{
    for (number, draft) in drafts.iter().enumerate() {
        match add_draft(alloc, &mut services, &drafts[..number], number, draft)? {
            Ok(()) => {}
            Err(word) => return Ok(Err(word)),
        }
    }
    Ok(Ok(services))
}
