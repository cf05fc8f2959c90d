//! The order of last use of numbered places.
#![tactic(auto)]

mod order;

pub use order::RecentOrder;
