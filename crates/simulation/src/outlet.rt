//! Where what a run sends goes.
ghost use Rattle.std.specs.Prelude.{◌≡◌, OnOk, IfErr, [], Some};
ghost use Rattle.pcap_file.specs.Device.{Tape, PutRefused};
ghost use Rattle.pcap_file.specs.Format.{packet, written_head};
ghost use Rattle.simulation.specs.Sent.{packet_in, sent_at, Wrote, WroteUntil};
ghost use Rattle.simulation.specs.Simulated.{Begun, IsOfRun};
ghost use Rattle.simulation.specs.Wires.{traffic, unkept};

use crate::fault::SimulationFault;
use crate::lent::LentRecord;
use crate::sending::Wire;
use cluster_node::Packet;
use pcap_file::{Frame, Sink, write_head};
use pool_versions::Backend;

/// Where what a run sends goes: into a capture on a device, or nowhere.
pub trait Outlet {
    /// The device. Where there is none, one that tells no bytes and never fails.
    ghost tape: { Self → Tape };

    /// Begins the capture.
    fn begin(&mut self) -> Result<(), SimulationFault>
        ensures begun { OnOk result (Begun (tape self.old) (tape self.new)) }
        ensures refused { IfErr result (λ fault. (fault ≡ SimulationFault.Write) × PutRefused written_head (tape self.old) (tape self.new)) };

    /// What a node sends to a backend of a record, which was read as this packet. The room is used again.
    fn send(
        &mut self,
        room: &mut Vec<u8>,
        wire: &Wire<'_>,
        node: u16,
        backend: &Backend,
        frame: &Frame,
        read: &Packet,
    ) -> Result<(), SimulationFault>
        requires { read.now ≡ packet_in wire.now.link wire.now.check (packet frame.now) }
        ensures ok { let sends = sent_at (traffic wire.now []) node backend.entry.now (Some (packet frame.now)) in
            OnOk result (Wrote (tape self.old) (tape self.new) sends) }
        ensures named { IfErr result IsOfRun }
        ensures cut { let sends = sent_at (traffic wire.now []) node backend.entry.now (Some (packet frame.now)) in
            IfErr result (λ fault. WroteUntil fault (tape self.old) (tape self.new) sends) };
}

/// A device gets a capture: its header, and a record for each datagram that is sent, wrapped in a tunnel.
impl<O: Sink> Outlet for O {
    ghost tape = { λ o. O.tape o };

    fn begin(&mut self) -> Result<(), SimulationFault> {
        match write_head(self) {
            Ok(()) => Ok(()),
            Err(_) => Err(SimulationFault::Write),
        }
    }

    #[inline(always)]
    fn send(
        &mut self,
        room: &mut Vec<u8>,
        wire: &Wire<'_>,
        node: u16,
        backend: &Backend,
        frame: &Frame,
        read: &Packet,
    ) -> Result<(), SimulationFault> {
        wire.send_record(room, self, node, backend, LentRecord::of(frame), read)
    }
}

/// Nothing is wrapped or written: for a run of which only the trace is wanted.
#[derive(Debug, Drop)]
pub struct Nowhere;

impl Outlet for Nowhere {
    ghost tape = { λ _. unkept };

    fn begin(&mut self) -> Result<(), SimulationFault> {
        Ok(())
    }

    #[inline(always)]
    fn send(
        &mut self,
        _room: &mut Vec<u8>,
        _wire: &Wire<'_>,
        _node: u16,
        _backend: &Backend,
        _frame: &Frame,
        _read: &Packet,
    ) -> Result<(), SimulationFault> {
        Ok(())
    }
}
