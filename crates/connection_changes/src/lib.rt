//! Which connections changed their server: where both packets were sent, and why the later one went elsewhere.
//!
//! A change is a split with the sites of its two sends. `ChangeBook` finds them as a cluster's events come. It keeps each flow's
//! last send with its site, the splits, the times of records, and a clock for each worker, and no event. In `TurnedBook` a flow that
//! begins again is another connection.
#![tactic(auto)]

mod account;
mod book;
mod causes;
mod changed;
mod clocks;
mod laws;
mod lines;
mod numbers;
mod sites;
mod summary;
mod turned;
mod worker_numbers;

pub use account::Account;
pub use book::ChangeBook;
pub use causes::{Change, ChangeCause, cause_between};
pub use changed::ChangedFlows;
pub use laws::{causes_add_up, moves_of_one_worker_are_evictions};
pub use lines::{ChangeCauseText, TimeText, push_places, push_told_places};
pub use sites::{Site, begun_by};
pub use summary::{causes_of, count_of, push_summary, push_told_summary};
pub use turned::TurnedBook;
