//! Connection tables: which backend a flow was given, for a bounded number of flows by least recent use.
//!
//! A table remembers the flows that were used most recently. For each it has the backend that the flow was sent to, and the
//! version of the pools under which that backend was chosen (connection tracking, Maglev, NSDI 2016, section 3.4).
//! `PlainTable` keeps a vector, `LruTable` a hash map with links, `PlaceTable` places in buckets with links. All three keep one
//! law, that of `ConnTable`. The programs use `PlaceTable`, the fastest.
#![tactic(auto)]

mod hasher;
mod key;
mod laws;
mod lru_table;
mod pairs;
mod place_table;
mod plain;
mod slot;
mod table;

pub use hasher::KeyedHasher;
pub use key::TableKey;
pub use laws::tables_stay_tables;
pub use lru_table::LruTable;
pub use place_table::PlaceTable;
pub use plain::PlainTable;
pub use table::{ConnTable, Entry, Renewed};
