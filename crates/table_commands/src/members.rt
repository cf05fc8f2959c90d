ghost use Rattle.std.specs.Prelude.{◌≢◌, ◌≡◌, map, Some, IfOk, IfErr};
ghost use Rattle.maglev_texts.specs.Parsing.{weighed_member_of};
ghost use Rattle.table_commands.specs.Compare.{AreMembers, AreLists, AreGood, WordsAreOther, MembersFail, ListsFail, is_long};

use backend_names::TableSize;
use command_faults::CliFault;
use maglev_texts::{pieces, weighed_member};
use pool_versions::{MOST_MEMBERS, Member, has_double_name};
use std::alloc::Global;

/// The members before and after a change.
#[derive(Drop)]
pub(crate) struct Lists {
    pub(crate) old: Vec<Member>,
    pub(crate) new: Vec<Member>,
}

// The members that words are.
fn members_of(alloc: Global, words: &[&[u8]]) -> Result<Vec<Member>, CliFault>
    ensures members { IfOk result (λ v. map weighed_member_of (map (λ w. w.now) words.now) ≡ map Some v.items) }
    ensures fault { IfErr result (λ fault. WordsAreOther fault (map (λ w. w.now) words.now)) }
{
    let mut members = Vec::new(alloc);
    for word in words {
        let member = match weighed_member(alloc, word)? {
            Some(member) => member,
            None => return Err(CliFault::BadMember),
        };
        let Ok(()) = members.push(member) else {
            return Err(CliFault::Memory);
        };
    }
    Ok(members)
}

// The members that the words of a text are, which single spaces join.
fn members_in(alloc: Global, text: &str) -> Result<Vec<Member>, CliFault>
    ensures members { IfOk result (λ v. AreMembers text.now v.items) }
    ensures fault { IfErr result (λ fault. MembersFail fault text.now) }
{
    let words = pieces(alloc, text.as_bytes(), b' ')?;
    members_of(alloc, words.as_slice())
}

fn is_long(members: &[Member], size: TableSize) -> bool
    ensures { result ≡ is_long size members.now }
{
    members.len() > MOST_MEMBERS || members.len() > size.slots() as usize
}

/// The members of two texts, tested together.
pub(crate) fn lists_in(
    alloc: Global,
    size: TableSize,
    old: &str,
    new: &str,
) -> Result<Lists, CliFault>
    ensures lists { IfOk result (λ l. AreLists old.now new.now l.old.items l.new.items) }
    ensures good { IfOk result (λ l. AreGood size l.old.items l.new.items) }
    ensures fault { IfErr result (λ fault. ListsFail fault size old.now new.now) }
    ensures unwritten { IfErr result (λ fault. fault ≢ CliFault.Write) }
{
    let old = members_in(alloc, old)?;
    let new = members_in(alloc, new)?;
    if has_double_name(alloc, old.as_slice()) || has_double_name(alloc, new.as_slice()) {
        return Err(CliFault::DoubleName);
    }
    if is_long(old.as_slice(), size) || is_long(new.as_slice(), size) {
        return Err(CliFault::TooMany);
    }
    Ok(Lists { old, new })
}
