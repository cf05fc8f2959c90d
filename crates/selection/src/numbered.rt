//! Prepared versions, by number.
ghost use Rattle.std.specs.Prelude.{◌≡◌, ◌↔◌, ◌==◌, ◌∷◌, [], true, IfOk, IsErrOf, OnOk, OnErr, find, option_copied, slice_get};
ghost use Rattle.std.specs.List.{list_any};
ghost use Rattle.selection.specs.Readied.{Readied, readied_version, has_more_ups};

use crate::prepared::PreparedVersion;
use crate::scheme::{PrepareFault, Scheme};
use crate::store::TableStore;
use backend_names::TableSize;
use pool_versions::Version;
use std::alloc::{AllocError, Global};
use std::collections::HashMap;
use std::fmt;
use std::marker::Model;

/// Prepared versions, the one put in last in front. A version is found by its number without a walk.
#[derive(Drop)]
pub struct PreparedVersions<S: Scheme> {
    // The one put in last is the last.
    versions: Vec<PreparedVersion<S>>,
    // Where the last one of a number is.
    places: HashMap<u32, usize>,
    // What was prepared for them.
    store: TableStore<S>,
}

impl<S: Scheme> Model for PreparedVersions<S> {
    ghost use Rattle.std.specs.Prelude.{List, nat_eq, reverse};
    ghost use Rattle.std.specs.HashMap.{get};
    ghost use Rattle.selection.specs.Places.{AreNumbered};
    ghost use Rattle.selection.specs.Readied.{Readied};

    ghost Value = { List (Readied S) };

    ghost view = { λ a. reverse a.versions.items };

    ghost invariant = { λ a. AreNumbered (get nat_eq a.places) (reverse a.versions.items) };
}

impl<S: Scheme> fmt::Debug for PreparedVersions<S> {
    fn fmt<W: fmt::Write>(&self, f: &mut fmt::Formatter<W>) -> fmt::Result {
        f.debug_list().entries(self.versions.iter()).finish()
    }
}

impl<S: Scheme> PreparedVersions<S> {
    /// No versions.
    pub fn new(alloc: Global) -> Self
        ensures { result ≡ [] }
    {
        PreparedVersions {
            versions: Vec::new(alloc),
            places: HashMap::new(alloc),
            store: TableStore::new(alloc),
        }
    }

    // Prepares a version, with what was prepared for those that are here.
    fn made(
        &mut self,
        alloc: Global,
        scheme: &S,
        size: TableSize,
        version: &Version,
    ) -> Result<PreparedVersion<S>, PrepareFault>
        ensures made { IfOk result (λ p. p ≡ readied_version scheme.now size version.now) }
        ensures too_many { IsErrOf result PrepareFault.TooMany ↔ (list_any (has_more_ups size) version.now.services.items ≡ true) }
        ensures same { self.new ≡ self.old }
    {
        PreparedVersion::make_from(alloc, scheme, size, version, &mut self.store)
    }

    /// Prepares a version for a scheme and a size, and puts it in front of the others. Services of any of them whose up
    /// backends are the same, of the same weights, share what was prepared: it costs no memory of its own and no table is made.
    /// TooMany is answered exactly where a service has more up backends than there are slots. Where anything is refused nothing
    /// changes.
    pub fn prepare(
        &mut self,
        alloc: Global,
        scheme: &S,
        size: TableSize,
        version: &Version,
    ) -> Result<(), PrepareFault>
        ensures ok { OnOk result (self.new ≡ readied_version scheme.now size version.now ∷ self.old) }
        ensures err { OnErr result (self.new ≡ self.old) }
        ensures too_many { IsErrOf result PrepareFault.TooMany ↔ (list_any (has_more_ups size) version.now.services.items ≡ true) }
    {
        let prepared = self.made(alloc, scheme, size, version)?;
        match self.put(prepared) {
            Ok(()) => Ok(()),
            Err(_) => Err(PrepareFault::Memory),
        }
    }

    /// Puts a version in front of the others. Where memory is refused nothing changes.
    #[tactic(auto, using(crate::proofs::Places::mirrored_put))]
    pub fn put(&mut self, version: PreparedVersion<S>) -> Result<(), AllocError>
        ensures ok { OnOk result (self.new ≡ version ∷ self.old) }
        ensures err { OnErr result (self.new ≡ self.old) }
    {
        self.versions.reserve(1)?;
        self.places.insert(version.number(), self.versions.len())?;
        match self.versions.push(version) {
            Ok(()) => Ok(()),
            Err(_) => Err(AllocError),
        }
    }

    // The first version of a number, by the map.
    fn of_number(&self, number: u32) -> Option<&PreparedVersion<S>>
        ensures { option_copied result ≡ find (λ p. p.number == number) self.now }
    {
        match self.places.get(&number) {
            None => None,
            Some(place) => self.versions.get(*place),
        }
    }

    /// The first version of a number. The one that was put in last is asked for most, and is looked at first.
    pub fn find(&self, number: u32) -> Option<&PreparedVersion<S>>
        ensures { option_copied result ≡ find (λ p. p.number == number) self.now }
    {
        match self.last() {
            Some(version) if version.number() == number => Some(version),
            _ => self.of_number(number),
        }
    }

    /// The version that was put in last.
    pub fn last(&self) -> Option<&PreparedVersion<S>>
        ensures { option_copied result ≡ slice_get self.now 0 }
    {
        self.versions.last()
    }
}
