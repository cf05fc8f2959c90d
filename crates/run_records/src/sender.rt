//! The records of which packets are sent, beside the packets that they are.
ghost use Rattle.std.specs.Prelude.{◌≡◌, ◌<◌, length, Some, slice_get};
ghost use Rattle.pcap_file.specs.Format.{Record};
ghost use Rattle.simulation.specs.Sent.{packet_in, packets_of};

use crate::records::Records;
use cluster_node::Packet;
use simulation::Wire;
use std::fmt;

/// The records of which packets are sent, the packets that they were read as, and how they are sent.
#[derive(Clone, Copy)]
pub struct Sender<'a> {
    /// How they are sent.
    pub wire: Wire<'a>,
    /// The records.
    pub records: &'a Records,
    /// The packet of each.
    pub packets: &'a [Packet],
    pub ghost read: { packets.now ≡ packets_of wire.link wire.check records.now },
}

impl fmt::Debug for Sender<'_> {
    fn fmt<W: fmt::Write>(&self, f: &mut fmt::Formatter<W>) -> fmt::Result {
        f.debug_struct("Sender")
            .field("wire", &self.wire)
            .field("records", &self.records)
            .finish_non_exhaustive()
    }
}

impl Sender<'_> {
    /// The packet of a record.
    pub(crate) fn packet(&self, at: usize) -> &Packet
        requires { at < length self.now.records.now }
        ensures { (r : Record) → slice_get self.now.records.now at ≡ Some r → result.now ≡ packet_in self.now.wire.link self.now.wire.check r }
    {
        &self.packets[at]
    }
}
