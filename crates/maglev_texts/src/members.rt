ghost use Rattle.std.specs.Prelude.{◌≡◌, map, option_map, IfOk};
ghost use Rattle.maglev_texts.specs.Parsing.{member_at_address, member_at, member_named, member_of_pieces, member_of, weight_of, weighing, weighed_at};
ghost use Rattle.maglev_texts.specs.Parsing.{weighed_behind, weighed_member_of, draining_of, stated_member_of};

use crate::parsing::{address, at_first, pieces};
use crate::weights::weight;
use backend_names::{Name, Weight};
use pool_versions::{Backend, Member};
use std::alloc::{AllocError, Global};

fn member_with(
    alloc: Global,
    name: Name,
    up: bool,
    text: &[u8],
) -> Result<Option<Member>, AllocError>
    ensures { IfOk result (λ o. o ≡ member_at_address name up text.now) }
{
    let found = address(alloc, text)?;
    Ok(found.map(|addr| Member {
        backend: Backend { name, addr },
        up,
        draining: false,
        weight: Weight::one(),
    }))
}

fn member_at(alloc: Global, name: Name, parts: &[&[u8]]) -> Result<Option<Member>, AllocError>
    ensures { IfOk result (λ o. o ≡ member_at name (map (λ w. w.now) parts.now)) }
{
    match parts {
        [address] => member_with(alloc, name, true, address),
        [address, word] => {
            if *word == b"down".as_slice() {
                member_with(alloc, name, false, address)
            } else {
                Ok(None)
            }
        }
        [] => Ok(None),
        [_, _, _, ..] => Ok(None),
    }
}

fn member_named(alloc: Global, name: &[u8], place: &[u8]) -> Result<Option<Member>, AllocError>
    ensures { IfOk result (λ o. o ≡ member_named name.now place.now) }
{
    let Some(name) = Name::new(name) else {
        return Ok(None);
    };
    let parts = pieces(alloc, place, b'/')?;
    member_at(alloc, name, parts.as_slice())
}

fn member_of_pieces(alloc: Global, parts: &[&[u8]]) -> Result<Option<Member>, AllocError>
    ensures { IfOk result (λ o. o ≡ member_of_pieces (map (λ w. w.now) parts.now)) }
{
    match parts {
        [name, place] => member_named(alloc, name, place),
        [] => Ok(None),
        [_] => Ok(None),
        [_, _, _, ..] => Ok(None),
    }
}

/// The member that a word is: `NAME@ADDRESS`, followed by `/down` where the member is down. It counts once.
pub fn member(alloc: Global, word: &[u8]) -> Result<Option<Member>, AllocError>
    ensures { IfOk result (λ o. o ≡ member_of word.now) }
{
    let parts = pieces(alloc, word, b'@')?;
    member_of_pieces(alloc, parts.as_slice())
}

// The member with the weight that a text is, if it is one.
fn with_weight(member: Member, up: bool, text: &[u8]) -> Option<Member>
    ensures { result ≡ option_map (weighing member up) (weight_of text.now) }
{
    let weight = weight(text)?;
    Some(Member {
        backend: member.backend,
        up,
        draining: false,
        weight,
    })
}

fn weighed_at(member: Member, parts: &[&[u8]]) -> Option<Member>
    ensures { result ≡ weighed_at member (map (λ w. w.now) parts.now) }
{
    match parts {
        [weight] => with_weight(member, true, weight),
        [weight, state] => {
            if *state == b"down".as_slice() {
                with_weight(member, false, weight)
            } else {
                None
            }
        }
        [] => None,
        [_, _, _, ..] => None,
    }
}

fn weighed_behind(alloc: Global, tail: &[u8], member: Member) -> Result<Option<Member>, AllocError>
    ensures { IfOk result (λ o. o ≡ weighed_behind tail.now member) }
{
    if !member.up {
        return Ok(None);
    }
    let parts = pieces(alloc, tail, b'/')?;
    Ok(weighed_at(member, parts.as_slice()))
}

/// The member that a word is where weights are allowed: `NAME@ADDRESS`, then `*W` unless the weight is left out, then
/// `/down` where the member is down. W is from 1 to 16, without leading zeros.
pub fn weighed_member(alloc: Global, word: &[u8]) -> Result<Option<Member>, AllocError>
    ensures { IfOk result (λ o. o ≡ weighed_member_of word.now) }
{
    let (head, tail) = at_first(word, b'*');
    let found = member(alloc, head)?;
    match (found, tail) {
        (Some(member), Some(tail)) => weighed_behind(alloc, tail, member),
        (found, None) => Ok(found),
        (None, Some(_)) => Ok(None),
    }
}

fn draining_of(member: Member) -> Member
    ensures { result ≡ draining_of member }
{
    Member {
        backend: member.backend,
        up: false,
        draining: true,
        weight: member.weight,
    }
}

/// The member that a word is where members may drain: `NAME@ADDRESS`, then `*W` unless the weight is left out, then `/down`
/// where the member is down, or `/drain` where it drains.
pub fn stated_member(alloc: Global, word: &[u8]) -> Result<Option<Member>, AllocError>
    ensures { IfOk result (λ o. o ≡ stated_member_of word.now) }
{
    let (head, tail) = at_first(word, b'/');
    let Some(state) = tail else {
        return weighed_member(alloc, word);
    };
    if state == b"drain".as_slice() {
        let found = weighed_member(alloc, head)?;
        Ok(found.map(draining_of))
    } else {
        weighed_member(alloc, word)
    }
}
