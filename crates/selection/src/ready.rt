//! One service of a version, prepared for a scheme.
ghost use Rattle.std.specs.Prelude.{◌≡◌, ◌↔◌, true, [], IfOk, IfErr, IsFalse, Contains};
ghost use Rattle.std.specs.List.{list_any};
ghost use Rattle.pool_versions.specs.Pool.{ups};
ghost use Rattle.selection.specs.Places.{key_of_readied};
ghost use Rattle.selection.specs.Readied.{ReadiedService, readied_of, same_backend, keeps};
ghost use Rattle.selection.specs.Faults.{IsPrepareFault};

use crate::by_name::is_among;
use crate::choices::Choices;
use crate::scheme::{PrepareFault, Scheme};
use crate::store::TableStore;
use crate::ups::Ups;
use backend_names::TableSize;
use five_tuple::Flow;
use pool_versions::{Backend, Service, ServiceKey};
use std::alloc::Global;
use std::fmt;
use std::marker::Model;
use std::sync::Arc;

/// A service's up backends, prepared for a scheme, and those that drain. Services whose up backends are the same share what
/// was prepared.
#[derive(Drop)]
pub struct Ready<S: Scheme> {
    scheme: S,
    size: TableSize,
    key: ServiceKey,
    choices: Arc<Choices<S>>,
    // In ascending byte order of name.
    draining: Vec<Backend>,
}

impl<S: Scheme> Model for Ready<S> {
    ghost use Rattle.std.specs.Arc.{arc_value};
    ghost use Rattle.pool_versions.specs.Pool.{AscendsByName};
    ghost use Rattle.selection.specs.Candidates.{among};
    ghost use Rattle.selection.specs.Shared.{StandsFor};
    ghost use Rattle.selection.specs.Readied.{ReadiedService};

    ghost Value = { ReadiedService S };

    ghost view = { λ a. record {
      scheme = a.scheme;
      size = a.size;
      vip = a.key.vip;
      proto = a.key.proto;
      port = a.key.port;
      ups = among (arc_value a.choices).ups.backends (arc_value a.choices).ups.weights a.draining.items;
    } };

    ghost invariant = { λ a. StandsFor (λ s z c p. S.is_prepared s z c p) a.scheme a.size (arc_value a.choices).ups (arc_value a.choices)
        × AscendsByName a.draining.items };
}

impl<S: Scheme> fmt::Debug for Ready<S> {
    fn fmt<W: fmt::Write>(&self, f: &mut fmt::Formatter<W>) -> fmt::Result {
        f.debug_struct("Ready")
            .field("key", &self.key)
            .field("size", &self.size)
            .finish_non_exhaustive()
    }
}

impl<S: Scheme> Ready<S> {
    // Prepares a service, with what is in a store.
    pub(crate) fn make(
        alloc: Global,
        scheme: &S,
        size: TableSize,
        service: &Service,
        store: &mut TableStore<S>,
    ) -> Result<Ready<S>, PrepareFault>
        ensures ok { IfOk result (λ r. r ≡ readied_of scheme.now size service.now) }
        ensures err { IfErr result (IsPrepareFault size (ups service.now.members.items)) }
    {
        let draining = service.draining(alloc)?;
        let ups = Ups::of(alloc, service)?;
        let choices = store.choices(alloc, scheme, size, ups)?;
        Ok(Ready {
            scheme: *scheme,
            size,
            key: service.key(),
            choices,
            draining,
        })
    }

    // What it shares with others.
    pub(crate) fn choices(&self) -> &Arc<Choices<S>> {
        &self.choices
    }

    // What distinguishes this service from others.
    pub(crate) fn key(&self) -> ServiceKey
        ensures { result ≡ key_of_readied self.now }
    {
        self.key
    }

    /// The backend of a flow at a turn: the scheme's pick of the service's up backends. None exactly where nobody is up.
    pub fn choose(&self, flow: &Flow, turn: u64) -> Option<Backend>
        ensures { result ≡ S.pick self.now.scheme self.now.size self.now.ups flow.now turn }
    {
        self.scheme.choose(self.prepared(), flow, turn)
    }

    /// Whether the service has a backend that is up.
    pub fn is_anybody_up(&self) -> bool
        ensures { IsFalse result ↔ (self.now.ups.backends ≡ []) }
    {
        !self.choices.ups().is_empty()
    }

    /// What the scheme prepared.
    pub fn prepared(&self) -> &S::Prepared
        ensures { S.is_prepared self.now.scheme self.now.size self.now.ups result.now }
    {
        self.choices.prepared()
    }

    /// Whether a backend, as the pair of a name and an address, is one of the service's up backends.
    #[tactic(auto, using(crate::proofs::Among::any_is_contained))]
    pub fn is_up(&self, backend: &Backend) -> bool
        ensures among { (result ≡ true) ↔ Contains self.now.ups.backends backend.now }
        ensures value { result ≡ list_any (same_backend backend.now) self.now.ups.backends }
    {
        if self.choices.is_where_expected(backend) {
            return true;
        }
        is_among(self.choices.ups(), backend)
    }

    // Whether a backend is one of those that drain.
    fn drains(&self, backend: &Backend) -> bool
        ensures { result ≡ list_any (same_backend backend.now) self.now.ups.draining }
    {
        is_among(self.draining.as_slice(), backend)
    }

    /// Whether a flow that has a backend, as the pair of a name and an address, keeps it: the backend is up or drains.
    pub fn keeps(&self, backend: &Backend) -> bool
        ensures { result ≡ keeps backend.now self.now.ups }
    {
        self.is_up(backend) || self.drains(backend)
    }
}
