//! Changes of a service's members.
ghost use Rattle.std.specs.Prelude.{◌≡◌, ◌∷◌, ◌++◌, [], not, map, filter, IfOk};
ghost use Rattle.version_drafts.specs.Changes.{is_of, in_state, of_weight, changed_by, changed_name};

use backend_names::{Name, Weight};
use maglev_texts::WeighedName;
use pool_versions::Member;
use std::alloc::{AllocError, Global};

/// A change of a service's members.
#[derive(Clone, Copy, Debug)]
pub enum Change {
    /// The members of a name are taken out.
    Remove(Name),
    /// They are down.
    Down(Name),
    /// They drain.
    Drain(Name),
    /// They are up.
    Up(Name),
    /// They have another weight.
    Weigh(WeighedName),
    /// A member stands behind the others.
    Add(Member),
}

// Whether a member has a name.
fn is_of(name: Name, member: &Member) -> bool
    ensures { result ≡ is_of name member.now }
{
    name == member.backend.name
}

fn in_state(name: Name, up: bool, draining: bool, member: &Member) -> Member
    ensures { result ≡ in_state name up draining member.now }
{
    if is_of(name, member) {
        Member {
            backend: member.backend,
            up,
            draining,
            weight: member.weight,
        }
    } else {
        *member
    }
}

fn of_weight(name: Name, weight: Weight, member: &Member) -> Member
    ensures { result ≡ of_weight name weight member.now }
{
    if is_of(name, member) {
        Member {
            backend: member.backend,
            up: member.up,
            draining: member.draining,
            weight,
        }
    } else {
        *member
    }
}

fn without(alloc: Global, name: Name, members: &[Member]) -> Result<Vec<Member>, AllocError>
    ensures { IfOk result (λ v. v.items ≡ filter (λ m. not (is_of name m)) members.now) }
{
    let mut others = Vec::with_capacity(alloc, members.len())?;
    for member in members {
        if !is_of(name, member) {
            others.push(*member)?;
        }
    }
    Ok(others)
}

fn with_state(
    alloc: Global,
    name: Name,
    up: bool,
    draining: bool,
    members: &[Member],
) -> Result<Vec<Member>, AllocError>
    ensures { IfOk result (λ v. v.items ≡ map (in_state name up draining) members.now) }
{
    members
        .iter()
        .map(|member| in_state(name, up, draining, member))
        .collect(alloc)
}

fn with_weight(
    alloc: Global,
    name: Name,
    weight: Weight,
    members: &[Member],
) -> Result<Vec<Member>, AllocError>
    ensures { IfOk result (λ v. v.items ≡ map (of_weight name weight) members.now) }
{
    members
        .iter()
        .map(|member| of_weight(name, weight, member))
        .collect(alloc)
}

fn with_member(alloc: Global, member: Member, members: &[Member]) -> Result<Vec<Member>, AllocError>
    ensures { IfOk result (λ v. v.items ≡ members.now ++ member ∷ []) }
{
    let mut all = members.to_vec(alloc)?;
    all.push(member)?;
    Ok(all)
}

impl Change {
    /// The name that it is for, none where it adds a member.
    pub fn name(&self) -> Option<Name>
        ensures { result ≡ changed_name self.now }
    {
        match *self {
            Change::Remove(name) => Some(name),
            Change::Down(name) => Some(name),
            Change::Drain(name) => Some(name),
            Change::Up(name) => Some(name),
            Change::Weigh(weighed) => Some(weighed.name),
            Change::Add(_) => None,
        }
    }

    /// Some members after it.
    pub fn apply(&self, alloc: Global, members: &[Member]) -> Result<Vec<Member>, AllocError>
        ensures { IfOk result (λ v. v.items ≡ changed_by self.now members.now) }
    {
        match *self {
            Change::Remove(name) => without(alloc, name, members),
            Change::Down(name) => with_state(alloc, name, false, false, members),
            Change::Drain(name) => with_state(alloc, name, false, true, members),
            Change::Up(name) => with_state(alloc, name, true, false, members),
            Change::Weigh(weighed) => with_weight(alloc, weighed.name, weighed.weight, members),
            Change::Add(member) => with_member(alloc, member, members),
        }
    }
}
