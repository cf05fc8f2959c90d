//! What a summary tells of a cluster's connections where no idle limit is set. That is how many there are, which of them changed
//! their server, and by whom both packets of each change were sent.
//!
//! No cause depends on a time there. So a [`SummaryBook`] keeps less than a book of changes: 32 bytes for a flow with its last
//! send, and nothing for a record. It looks up the flows of some sends at once: first all places, and then the flows that stand
//! there. So it waits for memory once where it would wait for each of them.
#![tactic(auto)]

mod book;
mod last;
mod seen;
mod sent;

pub use book::SummaryBook;
