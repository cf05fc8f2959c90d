//! Why a flow was split.
ghost use Rattle.std.specs.Prelude.{◌≡◌};
ghost use Rattle.std.specs.List.{list_any};
ghost use Rattle.selection.specs.Candidates.{candidates_in, candidates_of, candidates_under};
ghost use Rattle.selection.specs.Readied.{same_backend, keeps};
ghost use Rattle.pool_versions.specs.Pool.{draining_backends};
ghost use Rattle.run_report.specs.Causes.{Lookups, is_kept_among, is_kept_member, drains_among, is_draining_member, drains_between};
ghost use Rattle.run_report.specs.Causes.{drains_in_service, drains_in_version, does_anybody_drain, has_drained, cause_of};

use crate::sending::Split;
use five_tuple::Flow;
use pool_versions::{Backend, Catalogue, Member, Service, Version};

/// Why the later packet of a split didn't go where the first one went.
#[derive(Clone, Copy, Debug, PartialEq, Eq)]
pub enum SplitCause {
    /// The first packet's backend neither is up nor drains for the flow under the version under which the later packet was
    /// served, and it hadn't drained before.
    Down,
    /// It is up or drains, and the later packet's forwarder had no entry of the flow that names it.
    Moved,
    /// It neither is up nor drains. It drained for the flow under a version before that one, from the version on under which
    /// it was chosen.
    Drained,
}

fn is_kept_member(members: &[Member], backend: &Backend) -> bool
    ensures { result ≡ list_any (is_kept_member backend.now) members.now }
{
    members.iter().any(|member| (member.up || member.draining) && *backend == member.backend)
}

// Whether a backend is one of the members that are up or drain.
#[tactic(auto, using(crate::proofs::Members::kept_members_are))]
fn is_kept_in(members: &[Member], backend: &Backend) -> bool
    ensures { result ≡ keeps backend.now (candidates_in members.now) }
{
    is_kept_member(members, backend)
}

// Whether a backend is up or drains for a flow under a version.
fn is_kept_under(catalogue: &Catalogue, version: u32, flow: &Flow, backend: &Backend) -> bool
    ensures { result ≡ is_kept_among backend.now (candidates_of catalogue.now version flow.now) }
{
    let Some(version) = catalogue.get(version) else {
        return false;
    };
    let Some(service) = version.service_of(flow) else {
        return false;
    };
    is_kept_in(service.members.as_slice(), backend)
}

fn is_draining_member(members: &[Member], backend: &Backend) -> bool
    ensures { result ≡ list_any (is_draining_member backend.now) members.now }
{
    members.iter().any(|member| member.is_draining() && *backend == member.backend)
}

// Whether a backend is one of the members that drain.
#[tactic(auto, using(crate::proofs::Members::draining_members_are))]
fn drains_among(members: &[Member], backend: &Backend) -> bool
    ensures { result ≡ list_any (same_backend backend.now) (draining_backends members.now) }
{
    is_draining_member(members, backend)
}

// Whether a backend drains for a flow under a version.
fn drains_under(version: &Version, flow: &Flow, backend: &Backend) -> bool
    ensures { result ≡ drains_among backend.now (candidates_under version.now flow.now) }
{
    let Some(service) = version.service_of(flow) else {
        return false;
    };
    drains_among(service.members.as_slice(), backend)
}

// Whether the first packet's backend drains for the flow under a version from its origin on, and below that of the later
// serving.
fn drains_between(version: &Version, split: &Split) -> bool
    ensures { result ≡ drains_between split.now version.now }
{
    split.first.origin <= version.number
        && version.number < split.later.version
        && drains_under(version, &split.later.flow, &split.first.backend)
}

fn has_drained(versions: &[Version], split: &Split) -> bool
    ensures { result ≡ list_any (drains_between split.now) versions.now }
{
    versions
        .iter()
        .any(|version| drains_between(version, split))
}

fn drains_in_service(service: &Service) -> bool
    ensures { result ≡ drains_in_service service.now }
{
    service.members.iter().any(|member| member.is_draining())
}

fn drains_in_version(version: &Version) -> bool
    ensures { result ≡ drains_in_version version.now }
{
    version
        .services
        .iter()
        .any(|service| drains_in_service(service))
}

fn does_any_drain(versions: &[Version]) -> bool
    ensures { result ≡ does_anybody_drain versions.now }
{
    versions.iter().any(|version| drains_in_version(version))
}

/// Whether a member of a version of the catalogue drains.
pub fn does_anybody_drain(catalogue: &Catalogue) -> bool
    ensures { result ≡ does_anybody_drain catalogue.now.versions }
{
    does_any_drain(catalogue.versions())
}

// Whether the first packet's backend left after it had drained. The versions are looked through only where a member drains.
#[tactic(auto, using(crate::proofs::Members::nobody_has_drained))]
fn has_drained_in(catalogue: &Catalogue, drains: bool, split: &Split) -> bool
    requires { drains ≡ does_anybody_drain catalogue.now.versions }
    ensures { result ≡ list_any (drains_between split.now) catalogue.now.versions }
{
    drains && has_drained(catalogue.versions(), split)
}

/// Why a flow was split, where it is known whether a member of a version drains.
pub fn cause_where(catalogue: &Catalogue, drains: bool, split: &Split) -> SplitCause
    requires { drains ≡ does_anybody_drain catalogue.now.versions }
    ensures { (lookups : Lookups) → lookups.ups ≡ (λ v x. candidates_of catalogue.now v x) → lookups.versions ≡ catalogue.now.versions →
        result ≡ cause_of lookups split.now }
{
    let later = &split.later;
    if is_kept_under(catalogue, later.version, &later.flow, &split.first.backend) {
        SplitCause::Moved
    } else if has_drained_in(catalogue, drains, split) {
        SplitCause::Drained
    } else {
        SplitCause::Down
    }
}

/// Why a flow was split, where the cluster's versions are those of a catalogue.
pub fn cause_of(catalogue: &Catalogue, split: &Split) -> SplitCause
    ensures { (lookups : Lookups) → lookups.ups ≡ (λ v x. candidates_of catalogue.now v x) → lookups.versions ≡ catalogue.now.versions →
        result ≡ cause_of lookups split.now }
{
    cause_where(catalogue, does_anybody_drain(catalogue), split)
}
