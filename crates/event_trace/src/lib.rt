//! The trace of a scenario: the list of events that its steps and a capture's records define, with the outcome of each.
//!
//! The records of a capture are handed out by the steps: taken, lost, or delivered again. A delivered packet goes to the
//! node that a spreader chooses among the live ones. Where it is placed there on a worker and the node isn't held, the
//! worker serves at once.
//!
//! [`Core`] is what the steps of a scenario ask of a core, and [`Balancers`] is a run as one. Of its events it keeps what
//! [`Notes`] are taken of them, for what is asked of the run.
#![tactic(auto)]

mod balancers;
mod counts;
mod delivery;
mod laws;
mod machine;
mod notes;
mod play;
mod steps;
mod task;

pub use balancers::Balancers;
pub use counts::Counts;
pub use delivery::Delivery;
pub use laws::traces_add_up;
pub use machine::Core;
pub use notes::Notes;
pub use play::{Play, Tally, all_live};
pub use steps::ScenarioStep;
pub use task::Task;
