//! What the nodes sent is written.
ghost use Rattle.std.specs.Prelude.{OnOk, IfErr};
ghost use Rattle.std.specs.Io.KnownBytes.{Appends};
ghost use Rattle.pcap_file.specs.Device.{Unfailed};
ghost use Rattle.simulation.specs.Sent.{sent_by, capture_text, Wrote, WroteUntil};
ghost use Rattle.simulation.specs.Simulated.{IsOfRun, CaptureUntil};
ghost use Rattle.run_records.specs.Traffic.{traffic_by};
ghost use Rattle.run_records.specs.Sends.{sent_by_lives, sent_by_nodes};

use crate::sender::Sender;
use crate::wrapping::{NodeSender, Wrapping};
use cluster_node::Outcome;
use pcap_file::{Sink, write_head};
use simulation::SimulationFault;
use std::alloc::Global;
use std::thread::Threads;
use thread_records::LeanRecord;

impl Sender<'_> {
    // Sends the packet that an outcome sends. The datagram is wrapped in the room, which is used again.
    #[tactic(auto, unfolding(simulation::specs::Sent::sent_by))]
    pub(crate) fn send_outcome<O: Sink>(
        &self,
        room: &mut Vec<u8>,
        output: &mut O,
        outcome: &Outcome,
    ) -> Result<(), SimulationFault>
        ensures ok { OnOk result (Wrote (O.tape output.old) (O.tape output.new) (sent_by (traffic_by self.now) outcome.now)) }
        ensures named { IfErr result IsOfRun }
        ensures cut { IfErr result (λ fault. WroteUntil fault (O.tape output.old) (O.tape output.new) (sent_by (traffic_by self.now) outcome.now)) }
    {
        match outcome {
            Outcome::Forward {
                node,
                packet,
                backend,
                ..
            } => {
                let at = *packet as usize;
                if at >= self.records.len() {
                    return Ok(());
                }
                let lent = self.records.at(at);
                let read = self.packet(at);
                self.wire
                    .send_record(room, output, *node, backend, lent, read)
            }
            _ => Ok(()),
        }
    }

    // Sends what a node sent, life by life.
    fn send_lives<O: Sink, R: Threads + Sync>(
        &self,
        wrapping: &mut Wrapping<'_, R>,
        output: &mut O,
        node: &LeanRecord,
    ) -> Result<(), SimulationFault>
        ensures ok { OnOk result (Wrote (O.tape output.old) (O.tape output.new) (sent_by_lives (traffic_by self.now) node.now.sent.items)) }
        ensures named { IfErr result IsOfRun }
        ensures cut { IfErr result (λ fault. WroteUntil fault (O.tape output.old) (O.tape output.new)
            (sent_by_lives (traffic_by self.now) node.now.sent.items)) }
    {
        let lives = node.sent();
        let own = NodeSender {
            sender: *self,
            node,
        };
        for life in lives {
            own.send_life(wrapping, output, life.as_slice())?;
        }
        Ok(())
    }

    // Sends what the nodes sent, node by node.
    fn send_nodes<O: Sink, R: Threads + Sync>(
        &self,
        wrapping: &mut Wrapping<'_, R>,
        output: &mut O,
        nodes: &[LeanRecord],
    ) -> Result<(), SimulationFault>
        ensures ok { OnOk result (Wrote (O.tape output.old) (O.tape output.new) (sent_by_nodes (traffic_by self.now) nodes.now)) }
        ensures named { IfErr result IsOfRun }
        ensures cut { IfErr result (λ fault. WroteUntil fault (O.tape output.old) (O.tape output.new) (sent_by_nodes (traffic_by self.now) nodes.now)) }
    {
        for node in nodes {
            self.send_lives(wrapping, output, node)?;
        }
        Ok(())
    }
}

/// Writes what the nodes sent as a capture: node by node, and of each node life by life. What a life sent is wrapped on several
/// threads where it is much, and some 32,000 datagrams or 64 MiB at a time. Where memory for a datagram in a tunnel is refused,
/// the output is cut between records.
pub fn write_capture<O: Sink, R: Threads + Sync>(
    rt: &R,
    alloc: Global,
    output: &mut O,
    sender: &Sender<'_>,
    nodes: &[LeanRecord],
) -> Result<(), SimulationFault>
    ensures written { OnOk result (Appends (O.tape output.old).bytes (O.tape output.new).bytes
        (capture_text (sent_by_nodes (traffic_by sender.now) nodes.now)) × Unfailed (O.tape output.old) (O.tape output.new)) }
    ensures named { IfErr result IsOfRun }
    ensures cut { IfErr result (λ fault. CaptureUntil fault (O.tape output.old) (O.tape output.new) (sent_by_nodes (traffic_by sender.now) nodes.now)) }
{
    match write_head(output) {
        Ok(()) => {}
        Err(_) => return Err(SimulationFault::Write),
    }
    let mut wrapping = Wrapping::new(rt, alloc);
    match sender.send_nodes(&mut wrapping, output, nodes) {
        Ok(()) => Ok(()),
        Err(fault) => Err(fault),
    }
}
