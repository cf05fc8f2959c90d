//! What a worker keeps of a version that it used.
ghost use Rattle.std.specs.Prelude.{◌↔◌, IfOk, IsTrue};
ghost use Rattle.thread_records.specs.Sources.{MadeOf, IsMadeOf, IsFrom};

use backend_names::TableSize;
use cluster_core::Setup;
use hash_laws::FlowHash;
use pool_versions::{Catalogue, Version};
use selection::{PreparedVersion, Scheme};
use std::alloc::AllocError;
use std::marker::Model;
use std::sync::Arc;

/// The version that a prepared one was made from, with the scheme and the size. It keeps none of the tables.
#[derive(Drop)]
pub(crate) struct Source<S: Scheme> {
    scheme: S,
    size: TableSize,
    version: Arc<Version>,
}

impl<S: Scheme> Model for Source<S> {
    ghost use Rattle.std.specs.Arc.{arc_value};
    ghost use Rattle.thread_records.specs.Sources.{MadeOf};

    ghost Value = { MadeOf S };

    ghost view = { λ s. record { scheme = s.scheme; size = s.size; version = arc_value s.version } };
}

impl<S: Scheme> Source<S> {
    /// What a prepared version was made from.
    pub(crate) fn of(prepared: &PreparedVersion<S>) -> Result<Source<S>, AllocError>
        ensures { IfOk result (λ s. IsMadeOf prepared.now s) }
    {
        Ok(Source {
            scheme: prepared.scheme(),
            size: prepared.size(),
            version: prepared.share_version()?,
        })
    }

    /// Whether the catalogue has this very version, and the scheme and the size are the cluster's.
    pub(crate) fn is_from<H: FlowHash>(&self, setup: &Setup<S, H>, catalogue: &Catalogue) -> bool
        ensures { IsTrue result ↔ IsFrom (λ a b. S.eq a b) setup.now catalogue.now self.now }
    {
        match catalogue.get(self.version.number) {
            None => false,
            Some(version) => {
                self.version.same(version)
                    && self.scheme == setup.scheme()
                    && self.size.slots() == setup.size().slots()
            }
        }
    }
}
