//! Backends and members.
ghost use Rattle.std.specs.Prelude.{◌≡◌};
ghost use Rattle.pool_versions.specs.Pool.{is_draining};

use backend_names::{Name, Weight};

/// A backend: its name and its IPv4 address, most significant byte first. Two backends are equal where both parts are.
#[derive(Clone, Copy, Debug, PartialEq, Eq)]
pub struct Backend {
    pub name: Name,
    pub addr: u32,
}

/// A backend as a member of a service: up, draining or down, and of which weight among the service's up members. State and
/// weight are no part of the backend.
#[derive(Clone, Copy, Debug, PartialEq, Eq)]
pub struct Member {
    pub backend: Backend,
    /// It takes new connections.
    pub up: bool,
    /// It takes no new connections and keeps those that it has. This matters only where it isn't up.
    pub draining: bool,
    pub weight: Weight,
}

impl Member {
    /// Whether it takes no new connections and keeps those that it has.
    pub fn is_draining(&self) -> bool
        ensures { result ≡ is_draining self.now }
    {
        !self.up && self.draining
    }
}
