//! What pools and tables are told in: names of backends, sizes of tables and weights. Each is a type of its own, so that
//! whoever has one needs no test.
#![tactic(auto)]

mod name;
mod size;
mod weight;

pub use name::Name;
pub use size::TableSize;
pub use weight::Weight;
