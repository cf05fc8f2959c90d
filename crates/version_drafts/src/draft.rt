//! Versions as a document holds them.

use crate::change::Change;
use pool_versions::Member;

/// A service as a document holds it. Where it has no members it changes a service of the version's base. Words that are no
/// members or changes are none.
#[derive(Drop)]
pub struct ServiceDraft {
    pub vip: u32,
    pub proto: u8,
    pub port: u16,
    pub members: Option<Vec<Option<Member>>>,
    pub changes: Vec<Option<Change>>,
}

/// A version as a document holds it: the number of its base, if it has one, and changes of all the base's services.
#[derive(Drop)]
pub struct VersionDraft {
    pub number: u32,
    pub base: Option<u32>,
    pub changes: Vec<Option<Change>>,
    pub services: Vec<ServiceDraft>,
}
