//! The texts that people write and read: numbers, addresses, member words, backends and flows.
#![tactic(auto)]

mod laws;
mod members;
mod parsing;
mod printing;
mod weights;

pub use laws::texts_are_read_back;
pub use members::{member, stated_member, weighed_member};
pub use parsing::{address, decimal, pieces};
pub use printing::{AddressText, BackendText, FlowText};
pub use weights::{WeighedName, weighed_name, weight};
