//! Names of servers.
ghost use Rattle.std.specs.Prelude.{◌≡◌, [], take, get_or, false, IfOk};
ghost use Rattle.rollout_order.specs.Rollouts.{names_behind};
ghost use Rattle.rollout_order.specs.Steps.{trues, marked, is_named};

use backend_names::Name;
use pool_versions::{Backend, Member};
use std::alloc::{AllocError, Global};

/// The names of some backends, each once.
pub(crate) fn names_of(alloc: Global, backends: &[Backend]) -> Result<Vec<Name>, AllocError>
    ensures { IfOk result (λ v. v.items ≡ names_behind [] backends.now) }
{
    let mut names: Vec<Name> = Vec::new(alloc);
    for backend in backends {
        if !names.as_slice().contains(&backend.name) {
            names.push(backend.name)?;
        }
    }
    Ok(names)
}

/// How many marks there are.
pub(crate) fn trues(marks: &[bool]) -> usize
    ensures { result ≡ trues marks.now }
{
    let mut found = 0;
    for mark in marks {
        if *mark {
            found += 1;
        }
    }
    found
}

/// Whether a place is marked. Those past the end aren't.
pub(crate) fn is_marked(marks: &[bool], place: usize) -> bool
    ensures { result ≡ get_or marks.now place false }
{
    marks.get(place).copied().unwrap_or(false)
}

/// The names that are marked.
pub(crate) fn marked(alloc: Global, marks: &[bool], names: &[Name]) -> Result<Vec<Name>, AllocError>
    ensures { IfOk result (λ v. v.items ≡ marked marks.now names.now) }
{
    let mut found = Vec::new(alloc);
    for place in 0..names.len() {
        if is_marked(marks, place) {
            found.push(names[place])?;
        }
    }
    Ok(found)
}

/// The first of some names, or all where there are no more.
pub(crate) fn first_names(names: &[Name], count: usize) -> &[Name]
    ensures { result.now ≡ take count names.now }
{
    if count < names.len() {
        &names[..count]
    } else {
        names
    }
}

/// Whether a member has one of some names.
pub(crate) fn is_named(names: &[Name], member: &Member) -> bool
    ensures { result ≡ is_named names.now member.now }
{
    names.contains(&member.backend.name)
}
