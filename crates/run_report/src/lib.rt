//! What a user reads of a run: its events with their outcomes, its report, why two packets went where they went, and which
//! connections were split, and why.
//!
//! A split is two packets of one flow that were sent to different backends, with no packet of that flow sent between them.
//! `SplitBook` finds them as a cluster's events come; it keeps the last send of each flow and the splits, and no event. Beside
//! each send it keeps what its caller gives.
#![tactic(auto)]

mod book;
mod cause;
mod last_sends;
mod laws;
mod lines;
mod names;
mod noted;
mod pieces;
mod reports;
mod sending;
mod split_lines;
mod verdicts;

pub use book::SplitBook;
pub use cause::{SplitCause, cause_of, cause_where, does_anybody_drain};
pub use laws::{splits_are_all_pairs, splits_are_explained, splits_follow_picks};
pub use lines::push_line;
pub use names::{CauseText, ReasonText};
pub use noted::{Beside, Noted};
pub use reports::{CAUSES, report_text};
pub use sending::{Sending, Split, sent_by, version_of};
pub use split_lines::{
    Gone, SplitCauseText, SplitText, gone_of, push_split_counts, push_splits, push_told_counts,
    push_told_splits, slot_of,
};
pub use verdicts::{explained_text, left_drained, verdict_text};
