//! The output of the commands as JSON Lines: one object a line, with no spaces, whose first key is `type`.
//!
//! Each text says what its plain form in `run_report`, `connection_changes` or `traffic_shares` says. Names have only letters, digits, `-` and
//! `.`, so nothing in a string needs an escape. [`Form`] is the choice between the two.
#![tactic(auto)]

mod events;
mod forms;
mod heads;
mod members;
mod places;
mod reports;
mod shares;
mod splits;
mod summaries;
mod verdicts;

pub use events::push_json_event;
pub use forms::Form;
pub use heads::{push_json_audit, push_json_head};
pub use members::{BackendMembers, BoolText};
pub use places::push_json_places;
pub use reports::push_json_report;
pub use shares::push_json_shares;
pub use splits::push_json_splits;
pub use summaries::push_json_summary;
pub use verdicts::push_json_verdict;
