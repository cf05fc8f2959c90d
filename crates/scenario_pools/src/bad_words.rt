//! The word of drafts for which they are refused.
ghost use Rattle.scenario_pools.specs.BadWords.{BadWordsAreBadMembers};

/// Where a version's draft is wrong. Services, members and changes are numbered from 0, changes in the order in which they
/// are made.
#[derive(Clone, Copy, Debug, PartialEq, Eq)]
pub enum BadWord {
    /// The base isn't there.
    Base,
    /// This change of the version is none, or its name isn't there.
    Change(usize),
    /// The base has no service for which this one is.
    Service(usize),
    /// Of the service of the first number this member is none.
    Member(usize, usize),
    /// Of the service of the first number this change is none, or its name isn't there.
    ServiceChange(usize, usize),
}

/// Why the version of a draft isn't made.
#[derive(Clone, Copy, Debug)]
pub(crate) enum Unmade {
    /// This word is none, or names what isn't there.
    Bad(BadWord),
    /// There is no room.
    TooMany,
    /// Memory was refused.
    Memory,
}

/// A law: drafts have such a word exactly where they are refused as BadMember. The clause is the law; the body does nothing.
pub fn bad_words_are_bad_members()
    ensures { BadWordsAreBadMembers }
{}
