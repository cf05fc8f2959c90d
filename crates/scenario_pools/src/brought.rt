//! The word that brought a member of a version by difference.
ghost use Rattle.std.specs.Prelude.{◌≡◌, map, slice_get};
ghost use Rattle.version_drafts.specs.Plain.{plain_service, plain_version};
ghost use Rattle.version_drafts.specs.Drafts.{plain_service_draft, plain_version_draft};
ghost use Rattle.scenario_pools.specs.Brought.{adds, adds_there, added_item, by_version, by_changes, draft_for, brought_to, brought_of, placed_in, drafted};
ghost use Rattle.scenario_pools.specs.Brought.{member_in, word_at, word_of_member};

use crate::basing::key_of;
use crate::writing::additions;
use backend_names::Name;
use pool_versions::{Member, Service, Version};
use scenario_keys::Key;
use version_drafts::{Change, Flaw, Place, ServiceDraft, VersionDraft};

// Whether a change adds a member of this name.
fn adds(name: Name, change: &Option<Change>) -> bool
    ensures { result ≡ adds name change.now }
{
    match change {
        Some(Change::Add(member)) => name == member.backend.name,
        _ => false,
    }
}

// The same of the change of a number.
fn adds_at(name: Name, changes: &[Option<Change>], number: usize) -> bool
    ensures { result ≡ adds_there name (slice_get changes.now number) }
{
    match changes.get(number) {
        Some(change) => adds(name, change),
        None => false,
    }
}

// The item at `add` of the change that has so many behind it, where it adds a member of this name.
fn added_item(name: Name, behind: usize, changes: &[Option<Change>]) -> Option<usize>
    ensures { result ≡ added_item name behind changes.now }
{
    if behind >= changes.len() {
        return None;
    }
    if adds_at(name, changes, changes.len() - behind - 1) {
        Some(additions(changes).saturating_sub(behind + 1))
    } else {
        None
    }
}

// The word of a version that added a member of this name, with so many behind it.
fn by_version(
    version: usize,
    name: Name,
    behind: usize,
    changes: &[Option<Change>],
) -> Option<Place>
    ensures { result ≡ by_version version name behind changes.now }
{
    let item = added_item(name, behind, changes)?;
    Some(Place::Version(version, Flaw::Item(Key::Add, item)))
}

// The same of its service of a number, whose changes come behind those of the version.
fn by_changes(
    version: usize,
    service: usize,
    name: Name,
    behind: usize,
    of_version: &[Option<Change>],
    of_service: &[Option<Change>],
) -> Option<Place>
    ensures { result ≡ by_changes version service name behind of_version.now of_service.now }
{
    match added_item(name, behind, of_service) {
        Some(item) => Some(Place::Service(version, service, Flaw::Item(Key::Add, item))),
        None => {
            let behind = behind.saturating_sub(additions(of_service));
            by_version(version, name, behind, of_version)
        }
    }
}

// The number of the first draft of a service, that of all drafts where there is none.
fn draft_for(service: &Service, drafts: &[ServiceDraft]) -> usize
    ensures { result ≡ draft_for (plain_service service.now) (map plain_service_draft drafts.now) }
{
    for (number, draft) in drafts.iter().enumerate() {
        if key_of(draft) == service.key() {
            return number;
        }
    }
    drafts.len()
}

// The word of a version that brought member m of a service.
fn brought_to(
    version: usize,
    draft: &VersionDraft,
    service: &Service,
    m: usize,
    member: &Member,
) -> Option<Place>
    ensures { result ≡ brought_to version (plain_version_draft draft.now) (plain_service service.now) m member.now }
{
    let number = draft_for(service, draft.services.as_slice());
    let name = member.backend.name;
    let behind = service.members.len().saturating_sub(m).saturating_sub(1);
    let changes = draft.changes.as_slice();
    match draft.services.get(number) {
        None => by_version(version, name, behind, changes),
        Some(own) => match &own.members {
            None => by_changes(
                version,
                number,
                name,
                behind,
                changes,
                own.changes.as_slice(),
            ),
            Some(_) => Some(Place::Service(version, number, Flaw::Item(Key::Members, m))),
        },
    }
}

fn brought_of(version: usize, draft: &VersionDraft, m: usize, service: &Service) -> Option<Place>
    ensures { result ≡ brought_of version (plain_version_draft draft.now) m (plain_service service.now) }
{
    let member = service.members.get(m)?;
    brought_to(version, draft, service, m, member)
}

// The place of member m of a service of a version in the version's draft.
fn placed_in(
    version: usize,
    service: usize,
    m: usize,
    draft: &VersionDraft,
    whole: &Version,
) -> Place
    ensures { result ≡ placed_in version service m (plain_version_draft draft.now) (plain_version whole.now) }
{
    let word = match whole.services.get(service) {
        Some(service) => brought_of(version, draft, m, service),
        None => None,
    };
    match word {
        Some(place) => place,
        None => Place::Version(version, Flaw::Item(Key::Services, service)),
    }
}

// The same where the version has a base, and its place in the version as it is where it has none.
fn drafted(version: usize, service: usize, m: usize, draft: &VersionDraft, whole: &Version) -> Place
    ensures { result ≡ drafted version service m (plain_version_draft draft.now) (plain_version whole.now) (plain_version_draft draft.now).base }
{
    match draft.base {
        None => Place::Service(version, service, Flaw::Item(Key::Members, m)),
        Some(_) => placed_in(version, service, m, draft, whole),
    }
}

fn member_in(flaw: Flaw) -> Option<usize>
    ensures { result ≡ member_in flaw }
{
    match flaw {
        Flaw::Item(Key::Members, m) => Some(m),
        _ => None,
    }
}

fn word_at(
    drafts: &[VersionDraft],
    versions: &[Version],
    version: usize,
    service: usize,
    m: usize,
) -> Option<Place>
    ensures { result ≡ word_at (map plain_version_draft drafts.now) (map plain_version versions.now) version service m }
{
    let draft = drafts.get(version)?;
    let whole = versions.get(version)?;
    Some(drafted(version, service, m, draft, whole))
}

/// The place in drafts of a place in the versions that they mean. A member of a version by difference is told at the word that
/// brought it there, or at the number of its service in the version where no word has its name. Any other place is as it was.
pub fn word_of_member(drafts: &[VersionDraft], versions: &[Version], place: Place) -> Place
    ensures { result ≡ word_of_member (map plain_version_draft drafts.now) (map plain_version versions.now) place }
{
    let Place::Service(version, service, flaw) = place else {
        return place;
    };
    let Some(m) = member_in(flaw) else {
        return place;
    };
    match word_at(drafts, versions, version, service, m) {
        Some(word) => word,
        None => place,
    }
}
