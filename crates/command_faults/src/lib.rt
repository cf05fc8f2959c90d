//! The faults of the program's commands: their names, how a command's end is reported, and how a command's text is written.
#![tactic(auto)]

mod conversions;
mod fault;
mod finishing;
mod writing;

pub use fault::CliFault;
pub use finishing::finish;
pub use writing::put_text;
