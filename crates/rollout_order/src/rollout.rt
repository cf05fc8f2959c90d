//! What is replaced between two versions.
ghost use Rattle.std.specs.Prelude.{◌≡◌, ◌++◌, map, IfOk, OnOk};
ghost use Rattle.std.specs.List.{flat_map};
ghost use Rattle.pool_versions.specs.Pool.{ups, AscendsByName};
ghost use Rattle.rollout_plan.specs.Text.{services_gone};
ghost use Rattle.rollout_order.specs.Rollouts.{plain_change, kept_change, gone_change, changes, lost, leaving, joining, names_of, IsRollout};

use crate::names::names_of;
use backend_names::Name;
use pool_versions::{Backend, Member, Service, Version};
use rollout_plan::{TableRule, has_service, members_under};
use selection::is_among;
use std::alloc::{AllocError, Global};

/// The members of a service before and after.
#[derive(Debug, Drop)]
pub(crate) struct Change {
    pub(crate) before: Vec<Member>,
    pub(crate) after: Vec<Member>,
}

/// What is replaced between two versions: how tables are made, the names of the servers that leave and of those that join, and
/// what each service has.
#[derive(Debug, Drop)]
pub(crate) struct Rollout {
    pub(crate) rule: TableRule,
    pub(crate) leavers: Vec<Name>,
    pub(crate) joiners: Vec<Name>,
    pub(crate) changes: Vec<Change>,
}

// The change of a service of the later version.
fn kept_change(alloc: Global, before: &Version, service: &Service) -> Result<Change, AllocError>
    ensures { IfOk result (λ c. plain_change c ≡ kept_change before.now service.now) }
{
    let members = members_under(service.key(), before);
    Ok(Change {
        before: Vec::from_slice(alloc, members)?,
        after: Vec::from_slice(alloc, service.members.as_slice())?,
    })
}

// The change of a service that the later version lacks.
fn gone_change(alloc: Global, service: &Service) -> Result<Change, AllocError>
    ensures { IfOk result (λ c. plain_change c ≡ gone_change service.now) }
{
    Ok(Change {
        before: Vec::from_slice(alloc, service.members.as_slice())?,
        after: Vec::new(alloc),
    })
}

fn push_kept(
    alloc: Global,
    changes: &mut Vec<Change>,
    before: &Version,
    services: &[Service],
) -> Result<(), AllocError>
    ensures { OnOk result (map plain_change changes.new.items ≡ map plain_change changes.old.items ++ map (kept_change before.now) services.now) }
{
    for service in services {
        changes.push(kept_change(alloc, before, service)?)?;
    }
    Ok(())
}

fn push_gone(
    alloc: Global,
    changes: &mut Vec<Change>,
    services: &[Service],
    after: &Version,
) -> Result<(), AllocError>
    ensures { OnOk result (map plain_change changes.new.items ≡ map plain_change changes.old.items ++ map gone_change (services_gone services.now after.now)) }
{
    for service in services {
        if !has_service(after, service.key()) {
            changes.push(gone_change(alloc, service)?)?;
        }
    }
    Ok(())
}

// What each service of either version has.
fn changes_of(alloc: Global, before: &Version, after: &Version) -> Result<Vec<Change>, AllocError>
    ensures { IfOk result (λ v. map plain_change v.items ≡ changes before.now after.now) }
{
    let mut changes = Vec::new(alloc);
    push_kept(alloc, &mut changes, before, after.services.as_slice())?;
    push_gone(alloc, &mut changes, before.services.as_slice(), after)?;
    Ok(changes)
}

// The backends of the up ones of some members, in ascending order of name.
fn ups_of(alloc: Global, members: &[Member]) -> Result<Vec<Backend>, AllocError>
    ensures value { IfOk result (λ v. v.items ≡ ups members.now) }
    ensures ascending { IfOk result (λ v. AscendsByName v.items) }
{
    let members = Vec::from_slice(alloc, members)?;
    let service = Service {
        vip: 0,
        proto: 0,
        port: 0,
        members,
    };
    service.ups(alloc)
}

// Those of some members that are up, and not among the others' up ones.
fn push_lost(
    alloc: Global,
    found: &mut Vec<Member>,
    members: &[Member],
    others: &[Member],
) -> Result<(), AllocError>
    ensures { OnOk result (found.new.items ≡ found.old.items ++ lost members.now others.now) }
{
    let ups = ups_of(alloc, others)?;
    for member in members {
        if member.up && !is_among(ups.as_slice(), &member.backend) {
            found.push(*member)?;
        }
    }
    Ok(())
}

// The members that leave a service.
fn leaving(alloc: Global, changes: &[Change]) -> Result<Vec<Member>, AllocError>
    ensures { IfOk result (λ v. v.items ≡ flat_map leaving changes.now) }
{
    let mut found = Vec::new(alloc);
    for change in changes {
        push_lost(
            alloc,
            &mut found,
            change.before.as_slice(),
            change.after.as_slice(),
        )?;
    }
    Ok(found)
}

// The members that join one.
fn joining(alloc: Global, changes: &[Change]) -> Result<Vec<Member>, AllocError>
    ensures { IfOk result (λ v. v.items ≡ flat_map joining changes.now) }
{
    let mut found = Vec::new(alloc);
    for change in changes {
        push_lost(
            alloc,
            &mut found,
            change.after.as_slice(),
            change.before.as_slice(),
        )?;
    }
    Ok(found)
}

// The names of some members that are up, ascending, each once.
fn names_in(alloc: Global, members: &[Member]) -> Result<Vec<Name>, AllocError>
    ensures { IfOk result (λ v. v.items ≡ names_of members.now) }
{
    let ups = ups_of(alloc, members)?;
    names_of(alloc, ups.as_slice())
}

/// What is replaced between two versions.
pub(crate) fn rollout_of(
    alloc: Global,
    rule: TableRule,
    before: &Version,
    after: &Version,
) -> Result<Rollout, AllocError>
    ensures { IfOk result (IsRollout rule before.now after.now) }
{
    let changes = changes_of(alloc, before, after)?;
    let leaving = leaving(alloc, changes.as_slice())?;
    let joining = joining(alloc, changes.as_slice())?;
    Ok(Rollout {
        rule,
        leavers: names_in(alloc, leaving.as_slice())?,
        joiners: names_in(alloc, joining.as_slice())?,
        changes,
    })
}
