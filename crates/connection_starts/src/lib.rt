//! Which connection of its flow a record of a capture belongs to: a flow that begins again is another connection.
//!
//! A flow begins again with a TCP SYN without ACK after FIN or RST, or after a time that the caller gives. The *ordinal* of a
//! record's connection says how often its flow has begun again up to this record: the first connection has 0. It depends on the
//! capture alone. Records that carry no TCP segment of a flow have 0.
#![tactic(auto)]

mod laws;
mod ordinals;
mod reading;
mod segment;
mod starts;

pub use laws::nothing_ends_nothing_begins;
pub use ordinals::Ordinals;
pub use reading::read_ordinals;
pub use segment::{Segment, segment_in};
pub use starts::StartRules;
