//! What is fixed for a run.
ghost use Rattle.std.specs.Prelude.{◌≡◌, true, MatchOption};
ghost use Rattle.cluster_core.specs.Cluster.{Orderly};
ghost use Rattle.cluster_core.specs.Deployed.{Deployed, rules_of, cluster_of, SendsArePicked};

use crate::fixed::Setup;
use hash_laws::FlowHash;
use pool_versions::Catalogue;
use selection::Scheme;
use std::fmt;
use std::marker::Model;

/// A cluster's setup, and the catalogue of its versions, which has tables of the setup's size.
#[derive(Drop)]
pub struct Deployment<S: Scheme, H: FlowHash> {
    setup: Setup<S, H>,
    catalogue: Catalogue,
}

impl<S: Scheme, H: FlowHash> Model for Deployment<S, H> {
    ghost use Rattle.std.specs.Prelude.{◌≡◌};
    ghost use Rattle.cluster_core.specs.Deployed.{Deployed};

    ghost Value = { Deployed S H };

    ghost view = { λ r. record { setup = r.setup; catalogue = r.catalogue } };

    ghost invariant = { λ r. r.catalogue.size ≡ r.setup.size };
}

impl<S: Scheme, H: FlowHash> fmt::Debug for Deployment<S, H> {
    fn fmt<W: fmt::Write>(&self, f: &mut fmt::Formatter<W>) -> fmt::Result {
        f.debug_struct("Deployment")
            .field("setup", &self.setup)
            .field("catalogue", &self.catalogue)
            .finish()
    }
}

impl<S: Scheme, H: FlowHash> Deployment<S, H> {
    /// A setup with a catalogue. None exactly where their tables' sizes differ.
    pub fn new(setup: Setup<S, H>, catalogue: Catalogue) -> Option<Self>
        ensures { MatchOption result
            (catalogue.size ≡ setup.size → ⊥)
            (λ r. (catalogue.size ≡ setup.size) × (r ≡ record { setup = setup; catalogue = catalogue })) }
    {
        if catalogue.size().slots() == setup.size().slots() {
            Some(Deployment { setup, catalogue })
        } else {
            None
        }
    }

    /// What is fixed for the cluster.
    pub fn setup(&self) -> &Setup<S, H>
        ensures setup { result.now ≡ self.now.setup }
        ensures size { self.now.catalogue.size ≡ result.now.size }
    {
        &self.setup
    }

    /// The versions that may be installed.
    pub fn catalogue(&self) -> &Catalogue
        ensures catalogue { result.now ≡ self.now.catalogue }
        ensures size { result.now.size ≡ self.now.setup.size }
    {
        &self.catalogue
    }

    /// No worker serves more than was placed on it, and what is sent is the packet that waits first. The body does
    /// nothing.
    pub fn keep_order(&self)
        ensures { Orderly (cluster_of (λ s z. S.pick s z) (λ h. H.plain h) self.now) }
    {}

    /// For a scheme to which the turn doesn't matter, what was sent went to the pick under its origin, as `explain` asks of
    /// two outcomes. The body does nothing.
    pub fn send_by_picks(&self)
        ensures { S.STEADY ≡ true → SendsArePicked (rules_of (λ s z. S.pick s z) (λ h. H.plain h) self.now) }
    {}
}
