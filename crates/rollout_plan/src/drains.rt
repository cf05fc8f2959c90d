//! The members that drain.
ghost use Rattle.std.specs.Prelude.{◌≡◌, IfOk};
ghost use Rattle.pool_versions.specs.Pool.{draining_backends};
ghost use Rattle.rollout_plan.specs.Counts.{drains};
ghost use Rattle.rollout_plan.specs.Text.{told};

use pool_versions::{Backend, Member, Service};
use selection::is_among;
use std::alloc::{AllocError, Global};
use std::marker::Model;

/// The backends that drain, in ascending order of name.
#[derive(Debug, Drop)]
pub(crate) struct Draining {
    backends: Vec<Backend>,
}

impl Model for Draining {
    ghost use Rattle.std.specs.Prelude.{List};
    ghost use Rattle.pool_versions.specs.declared.backend.Backend.{Backend};
    ghost use Rattle.pool_versions.specs.Pool.{AscendsByName};

    ghost Value = { List Backend };

    ghost view = { λ d. d.backends.items };

    ghost invariant = { λ d. AscendsByName d.backends.items };
}

impl Draining {
    /// Those of some members.
    pub(crate) fn of(alloc: Global, members: &[Member]) -> Result<Draining, AllocError>
        ensures { IfOk result (λ d. d ≡ draining_backends members.now) }
    {
        let service = Service {
            vip: 0,
            proto: 0,
            port: 0,
            members: Vec::from_slice(alloc, members)?,
        };
        let backends = service.draining(alloc)?;
        Ok(Draining { backends })
    }

    /// Whether a backend drains. It is sought by halves.
    pub(crate) fn has(&self, backend: &Backend) -> bool
        ensures { result ≡ drains self.now backend.now }
    {
        is_among(self.backends.as_slice(), backend)
    }

    /// A count, where some drain.
    pub(crate) fn told(&self, count: u32) -> Option<u32>
        ensures { result ≡ told self.now count }
    {
        if self.backends.is_empty() {
            None
        } else {
            Some(count)
        }
    }
}
