//! Schemes, which choose a backend for a flow among those that are up, and versions prepared for them.
//!
//! [`Maglev`] chooses by a table of slots (Maglev, section 3.4), [`PlainHash`] by a hash modulo the number of backends,
//! [`RoundRobin`] by turns. A scheme of one's own is a type that meets the laws of [`Scheme`].
#![tactic(auto)]

mod by_name;
mod choices;
mod laws;
mod maglev;
mod numbered;
mod plain;
mod prepared;
mod ready;
mod round;
mod scheme;
mod store;
mod ups;

pub use by_name::{PlaceRange, is_among, places_of_name};
pub use laws::maglev_and_plain_hash_are_steady;
pub use maglev::{Maglev, MaglevTable};
pub use numbered::PreparedVersions;
pub use plain::PlainHash;
pub use prepared::PreparedVersion;
pub use ready::Ready;
pub use round::RoundRobin;
pub use scheme::{PrepareFault, Scheme};
pub use store::TableStore;
