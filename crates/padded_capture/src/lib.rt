//! A capture whose records were cut, read as the capture that it was, with zeros where bytes are missing.
//!
//! [`Padded`] stands between a source and its reader. A record that captured fewer bytes than its frame had comes with as many
//! as the frame had, if a record may have so many: its captured length is raised to the original one, and zeros stand behind its
//! bytes. All else comes as it is, and so does what is no capture. Nothing is kept but the bytes of one header.
#![tactic(auto)]

mod either;
mod laws;
mod padded;
mod stage;

pub use either::CaptureSource;
pub use laws::padded_is_whole;
pub use padded::Padded;
