//! The commands that need no scenario: `table`, `pick` and `compare`, over any reader and writer.
//!
//! Each engine's contract says which text it has written where it answers Ok, and which fault it names where it doesn't.
#![tactic(auto)]

mod compare_command;
mod compare_text;
mod members;
mod names;
mod objects;
mod options;
mod pick_command;
mod pick_text;
mod table_command;
mod table_text;

pub use compare_command::{compare, compare_as};
pub use compare_text::{NamedSlots, compare_text_of};
pub use options::TableOptions;
pub use pick_command::{datagram_of, pick, pick_as};
pub use pick_text::{drop_text_of, flow_text_of};
pub use table_command::{table, table_as};
pub use table_text::{push_count_line, push_slot_line, table_head};
