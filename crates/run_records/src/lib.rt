//! The records of a capture as a run on threads keeps them. They are read to the capture's end, parsed on several threads, and
//! written again, wrapped, as what the nodes sent.
#![tactic(auto)]

mod blocks;
mod firsts;
mod reading;
mod records;
mod sender;
mod sending;
mod wrapping;

pub use reading::{Captured, packets_of, read_whole};
pub use records::Records;
pub use sender::Sender;
pub use sending::write_capture;
