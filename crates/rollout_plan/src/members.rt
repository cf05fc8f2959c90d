//! Whose lines are printed: the members of a service under one version or two.
ghost use Rattle.std.specs.Prelude.{◌≡◌, map, option_copied, IfOk};
ghost use Rattle.std.specs.List.{list_any};
ghost use Rattle.std.specs.List.Sorted.{IsPermutation};
ghost use Rattle.pool_versions.specs.declared.backend.Backend.{Backend};
ghost use Rattle.pool_versions.specs.Pool.{AscendsByName, up_members};
ghost use Rattle.selection.specs.Readied.{same_backend};
ghost use Rattle.rollout_plan.specs.Text.{has_member, members_gone, in_order, members_of_both, members_under, service_by, as_up};

use pool_versions::{Backend, Member, Service, ServiceKey, Version, backends_of};
use selection::is_among;
use std::alloc::{AllocError, Global};

// Some members as ones that are up.
fn as_up(alloc: Global, members: &[Member]) -> Result<Vec<Member>, AllocError>
    ensures { IfOk result (λ v. v.items ≡ map as_up members.now) }
{
    let mut ups = Vec::with_capacity(alloc, members.len())?;
    for member in members {
        ups.push(Member {
            backend: member.backend,
            up: true,
            draining: member.draining,
            weight: member.weight,
        })?;
    }
    Ok(ups)
}

/// Some members in ascending order of name, whether they are up or down.
pub(crate) fn in_order(alloc: Global, members: &[Member]) -> Result<Vec<Member>, AllocError>
    ensures value { IfOk result (λ v. v.items ≡ in_order members.now) }
    ensures ascending { IfOk result (λ v. AscendsByName (map (λ m. m.backend) v.items)) }
    ensures permutation { IfOk result (λ v. IsPermutation (up_members (map as_up members.now)) v.items) }
{
    let service = Service {
        vip: 0,
        proto: 0,
        port: 0,
        members: as_up(alloc, members)?,
    };
    service.ranked(alloc)
}

// Their backends, in that order.
fn backends_in_order(alloc: Global, members: &[Member]) -> Result<Vec<Backend>, AllocError>
    ensures ascending { IfOk result (λ v. AscendsByName v.items) }
    ensures same { IfOk result (λ v. (b : Backend) → list_any (λ up. same_backend up b) v.items ≡ has_member members.now b) }
{
    let members = in_order(alloc, members)?;
    backends_of(alloc, members.as_slice())
}

// The members whose backend the other list lacks. That list is put in order once, so that each is sought by halves.
fn members_gone(
    alloc: Global,
    before: &[Member],
    after: &[Member],
) -> Result<Vec<Member>, AllocError>
    ensures { IfOk result (λ v. v.items ≡ members_gone before.now after.now) }
{
    let mut gone = Vec::new(alloc);
    if before.is_empty() {
        return Ok(gone);
    }
    let others = backends_in_order(alloc, after)?;
    for member in before {
        if !is_among(others.as_slice(), &member.backend) {
            gone.push(*member)?;
        }
    }
    Ok(gone)
}

/// The members of either list in ascending order of name, each backend once: those of the second as they are there.
pub(crate) fn members_of_both(
    alloc: Global,
    before: &[Member],
    after: &[Member],
) -> Result<Vec<Member>, AllocError>
    ensures { IfOk result (λ v. v.items ≡ members_of_both before.now after.now) }
{
    let mut members = members_gone(alloc, before, after)?;
    members.extend_from_slice(after)?;
    in_order(alloc, members.as_slice())
}

// The service of a version that a key is of.
fn service_by(key: ServiceKey, version: &Version) -> Option<&Service>
    ensures { option_copied result ≡ service_by key version.entry.now }
{
    version.services.iter().find(|service| service.key() == key)
}

/// The members of a service under a version, none where the version lacks it.
pub fn members_under(key: ServiceKey, version: &Version) -> &[Member]
    ensures { result.now ≡ members_under key version.entry.now }
{
    match service_by(key, version) {
        Some(service) => service.members.as_slice(),
        None => &[],
    }
}
