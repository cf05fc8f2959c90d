//! What became of the packets of a cluster, counted while its threads run.
//!
//! [`Stats`] are the counts: by their type what was received is what was forwarded, what was dropped and what waits. A
//! [`StatsBook`] has them beside a ledger for each of the fifteen counts that only grow. Each thread that counts has
//! [`Shares`] of all ledgers, which move with the counts. So whoever has all shares knows that the counts are their sums.
//! Nothing here waits or starts a thread; a book that threads share is guarded by a lock of theirs.
#![tactic(auto)]

mod book;
mod drops;
mod ledgers;
mod shares;
mod stats;

pub use book::{Blanks, StatsBook};
pub use ledgers::{Names, Of};
pub use shares::Shares;
pub use stats::Stats;
