//! Prepared versions that several threads take.
ghost use Rattle.std.specs.Prelude.{◌≡◌, ◌++◌, ◌∷◌, ◌==◌, ◌||◌, [], ℕ, Bool, map, IfOk, OnOk, option_map, option_copied};
ghost use Rattle.std.specs.Arc.{arc_value};
ghost use Rattle.std.specs.List.{list_any};
ghost use Rattle.cluster_node.specs.Record.{prepared_at};
ghost use Rattle.selection.specs.Readied.{readied_version};
ghost use Rattle.shared_versions.specs.Installed.{installs, is_installed, AreWanted};

use cluster_core::Setup;
use hash_laws::FlowHash;
use pool_versions::{Catalogue, Version};
use selection::{PreparedVersion, Scheme, TableStore};
use std::alloc::{AllocError, Global};
use std::fmt;
use std::marker::Model;
use std::sync::Arc;
use thread_records::Command;

/// A prepared version with several owners: the two copies that are swapped, the driver, the workers that used it last, and those
/// who lend it to all nodes.
pub type Shared<S> = Arc<PreparedVersion<S>>;

// A prepared version for several owners.
fn share<S: Scheme>(alloc: Global, version: PreparedVersion<S>) -> Result<Shared<S>, AllocError>
    ensures { IfOk result (λ p. arc_value p ≡ version) }
{
    match Arc::new(alloc, version) {
        Ok(shared) => Ok(shared),
        Err(_) => Err(AllocError),
    }
}

/// Prepares a version for a cluster. What it has in common with the version before, if there is one, is shared with it.
pub fn prepare_after<S: Scheme, H: FlowHash>(
    alloc: Global,
    setup: &Setup<S, H>,
    version: &Version,
    before: &Option<Shared<S>>,
) -> Result<Shared<S>, AllocError>
    ensures { IfOk result (λ p. arc_value p ≡ readied_version setup.now.scheme setup.now.size version.now) }
{
    let scheme = setup.scheme();
    let prepared = match before {
        None => PreparedVersion::make(alloc, &scheme, setup.size(), version),
        Some(before) => {
            PreparedVersion::make_after(alloc, &scheme, setup.size(), version, before)
        }
    };
    // A version of a catalogue has no more backends than slots, so memory was refused here.
    let Ok(prepared) = prepared else {
        return Err(AllocError);
    };
    share(alloc, prepared)
}

/// Prepared versions that all nodes of a run take. Services of any of them whose up backends are the same, of the same weights,
/// share their tables.
#[derive(Drop)]
pub struct SharedVersions<S: Scheme> {
    versions: Vec<Shared<S>>,
}

impl<S: Scheme> Model for SharedVersions<S> {
    ghost use Rattle.std.specs.Prelude.{List, map};
    ghost use Rattle.std.specs.Arc.{arc_value};
    ghost use Rattle.selection.specs.Readied.{Readied};

    ghost Value = { List (Readied S) };

    ghost view = { λ a. map arc_value a.versions.items };
}

impl<S: Scheme> fmt::Debug for SharedVersions<S> {
    fn fmt<W: fmt::Write>(&self, f: &mut fmt::Formatter<W>) -> fmt::Result {
        f.debug_struct("SharedVersions")
            .field("versions", &self.versions)
            .finish()
    }
}

// The first version of a number.
fn first_of<S: Scheme>(versions: &[Shared<S>], number: u32) -> Option<&Shared<S>>
    ensures { option_map arc_value (option_copied result) ≡ prepared_at number (map arc_value versions.now) }
{
    for version in versions {
        if version.number() == number {
            return Some(version);
        }
    }
    None
}

impl<S: Scheme> SharedVersions<S> {
    /// No versions. A driver that finds none here prepares for itself what it installs.
    pub fn none(alloc: Global) -> SharedVersions<S>
        ensures { result ≡ [] }
    {
        SharedVersions {
            versions: Vec::new(alloc),
        }
    }

    /// The version of a number.
    pub fn find(&self, number: u32) -> Option<&Shared<S>>
        ensures { option_map arc_value (option_copied result) ≡ prepared_at number self.now }
    {
        first_of(self.versions.as_slice(), number)
    }

    // One version more.
    fn put(&mut self, alloc: Global, version: PreparedVersion<S>) -> Result<(), AllocError>
        ensures { OnOk result (self.new ≡ self.old ++ version ∷ []) }
    {
        let shared = share(alloc, version)?;
        match self.versions.push(shared) {
            Ok(()) => Ok(()),
            Err(_) => Err(AllocError),
        }
    }

    // The catalogue's version of a number, if it has one, is there afterwards, with what is in the store.
    fn add<H: FlowHash>(
        &mut self,
        alloc: Global,
        setup: &Setup<S, H>,
        catalogue: &Catalogue,
        store: &mut TableStore<S>,
        number: u32,
    ) -> Result<(), AllocError>
        ensures { (wanted : ℕ → Bool) → AreWanted setup.now.scheme setup.now.size catalogue.now wanted self.old →
            OnOk result (AreWanted setup.now.scheme setup.now.size catalogue.now (λ n. wanted n || (number == n)) self.new) }
    {
        if self.find(number).is_some() {
            return Ok(());
        }
        let Some(version) = catalogue.get(number) else {
            return Ok(());
        };
        let made = PreparedVersion::make_from(alloc, &setup.scheme(), setup.size(), version, store);
        match made {
            Ok(prepared) => self.put(alloc, prepared),
            // A version of a catalogue has no more backends than slots, so memory was refused here.
            Err(_) => Err(AllocError),
        }
    }

    // The version that a command installs is there afterwards.
    fn take<H: FlowHash>(
        &mut self,
        alloc: Global,
        setup: &Setup<S, H>,
        catalogue: &Catalogue,
        store: &mut TableStore<S>,
        command: &Command,
    ) -> Result<(), AllocError>
        ensures { (wanted : ℕ → Bool) → AreWanted setup.now.scheme setup.now.size catalogue.now wanted self.old →
            OnOk result (AreWanted setup.now.scheme setup.now.size catalogue.now (λ n. wanted n || installs n command.now) self.new) }
    {
        match *command {
            Command::Publish(number) => self.add(alloc, setup, catalogue, store, number),
            Command::Offer(_) => Ok(()),
            Command::Restart => Ok(()),
            Command::Stop => Ok(()),
        }
    }

    // The versions that some commands install are there afterwards.
    fn add_all<H: FlowHash>(
        &mut self,
        alloc: Global,
        setup: &Setup<S, H>,
        catalogue: &Catalogue,
        store: &mut TableStore<S>,
        commands: &[Command],
    ) -> Result<(), AllocError>
        ensures { (wanted : ℕ → Bool) → AreWanted setup.now.scheme setup.now.size catalogue.now wanted self.old →
            OnOk result (AreWanted setup.now.scheme setup.now.size catalogue.now (λ n. wanted n || list_any (installs n) commands.now) self.new) }
    {
        for command in commands {
            self.take(alloc, setup, catalogue, store, command)?;
        }
        Ok(())
    }

    /// Prepares the versions that the commands of a cluster's nodes install and the catalogue has, each once, and no others.
    pub fn prepare<H: FlowHash>(
        alloc: Global,
        setup: &Setup<S, H>,
        catalogue: &Catalogue,
        commands: &[Vec<Command>],
    ) -> Result<SharedVersions<S>, AllocError>
        ensures { IfOk result (AreWanted setup.now.scheme setup.now.size catalogue.now (is_installed (map (λ c. c.items) commands.now))) }
    {
        let mut shared = SharedVersions::none(alloc);
        let mut store = TableStore::new(alloc);
        for list in commands {
            shared.add_all(alloc, setup, catalogue, &mut store, list.as_slice())?;
        }
        Ok(shared)
    }
}
