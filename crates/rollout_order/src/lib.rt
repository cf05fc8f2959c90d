//! In which order servers can be replaced between two versions of a scenario's pools, and what each order moves.
//!
//! A server leaves where it is up before and isn't after; it joins where it is up after and wasn't before. Step by step one
//! that leaves, and one that joins, become in each service what they are after. A step's count is that of the slots that name
//! another server though theirs stays, over all services. [`order`] writes the orders.
#![tactic(auto)]

mod counts;
mod greedy;
mod names;
mod objects;
mod order_command;
mod orders;
mod rollout;
mod text;

pub use order_command::order;
