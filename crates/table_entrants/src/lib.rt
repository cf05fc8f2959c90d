//! Names that share a table: in ascending order of bytes, each once, and the table that they share.
//!
//! [`enter`] lists what was read as names. [`in_order`] sorts them, and finds a name that is there twice. [`table_of`] makes the
//! table in which they take their turns.
#![tactic(auto)]

mod entering;
mod entrant;
mod order;
mod turns;

pub use entering::enter;
pub use entrant::{Entrant, OrderFault};
pub use order::in_order;
pub use turns::table_of;
