//! One life of a node on threads. It is laid out: a worker on which packets may be placed gets a part of the counts, a ring from
//! the driver, one to the mux, and a place to read versions. Their threads are started, driven and joined. Then what all workers
//! did is compared with what was placed on them, and written after the driver's steps.
//!
//! [`live`] does all of that. A worker on which no packet can be placed gets no thread, and a record of nothing. In a life without
//! packets the mux gets no thread either: to start one takes longer than all else in such a life.
#![tactic(auto)]

mod begun;
mod ends;
mod homes;
mod life;
mod living;
mod rings;

pub use begun::Life;
pub use life::LifeRun;
pub use living::live;
