//! Pools by version: which backends serve a service, and which of them are up.
//!
//! A version says which services there are, and which members each has. A catalogue holds the versions that a cluster may
//! run, each under its number. What was taken into it never changes.
#![tactic(auto)]

mod backend;
mod catalogue;
mod doubles;
mod key;
mod same;
mod service;

pub use backend::{Backend, Member};
pub use catalogue::{Catalogue, MOST_SERVICES, MOST_VERSIONS, PoolFault, RefusedVersion};
pub use doubles::has_double_name;
pub use key::ServiceKey;
pub use service::{MOST_MEMBERS, Service, Version, backends_of, weights_of};
