//! The destinations of a capture's datagrams.
ghost use Rattle.std.specs.Prelude.{◌≡◌, ◌<◌, ◌++◌, ◌∷◌, [], length, IfOk, IfErr, OnOk};
ghost use Rattle.pcap_file.specs.Device.{Unfailed};
ghost use Rattle.pcap_file.specs.Format.{packet, max_records};
ghost use Rattle.pcap_file.specs.Text.{AllRefused};
ghost use Rattle.scenario_sketch.specs.Hops.{destinations_in};
ghost use Rattle.scenario_sketch.specs.Reading.{hop_in, IsCounted};

use crate::hop::Hop;
use crate::origins::Origins;
use crate::tally::Tally;
use cluster_core::{Packet, read_packet};
use ip_headers::Link;
use pcap_file::{Ending, Frame, Head, PcapFault, Source, read_record_into};
use std::alloc::{AllocError, Global};

// Counts a packet.
fn count_hop(tally: &mut Tally, origins: &mut Origins, hop: Hop) -> Result<(), AllocError>
    requires { length tally.old < max_records }
    ensures counted { OnOk result (tally.new ≡ tally.old ++ destinations_in (hop ∷ [])) }
    ensures noted { OnOk result (origins.new ≡ origins.old ++ hop ∷ []) }
{
    tally.count(hop.to)?;
    origins.note(hop)
}

// Counts a frame's datagram, where it is one that can be balanced.
fn count_frame(
    tally: &mut Tally,
    origins: &mut Origins,
    link: Link,
    frame: &Frame,
) -> Result<(), AllocError>
    requires { length tally.old < max_records }
    ensures counted { OnOk result (tally.new ≡ tally.old ++ destinations_in (hop_in link (packet frame.now))) }
    ensures noted { OnOk result (origins.new ≡ origins.old ++ hop_in link (packet frame.now)) }
{
    match read_packet(link, frame.bytes.as_slice(), 0, true) {
        Packet::Good { flow, .. } => count_hop(tally, origins, Hop::of_flow(&flow)),
        Packet::Bad(_) => Ok(()),
    }
}

/// Counts the destinations of all records after a header, notes where their packets came from, and says how many records there
/// are. An input that ends inside a
/// record ends there.
pub(crate) fn count_records<I: Source>(
    alloc: Global,
    input: &mut I,
    head: Head,
    tally: &mut Tally,
    origins: &mut Origins,
) -> Result<u32, PcapFault>
    requires uncounted { tally.old ≡ [] }
    requires unnoted { origins.old ≡ [] }
    ensures counted { IfOk result (λ n. IsCounted head (I.tape input.old).bytes n origins.new) }
    ensures same { IfOk result (λ _. tally.new ≡ destinations_in origins.new) }
    ensures unfailed { OnOk result (Unfailed (I.tape input.old) (I.tape input.new)) }
    ensures refused { IfErr result (AllRefused head (I.tape input.old) (I.tape input.new)) }
{
    let mut frame = Frame::empty(alloc);
    let mut given = 0;
    loop {
        match read_record_into(input, head, given, &mut frame) {
            Ok(()) => {
                let Ok(()) = count_frame(tally, origins, head.link, &frame) else {
                    return Err(PcapFault::Memory);
                };
                given += 1;
            }
            Err(Ending::End) => return Ok(given),
            Err(Ending::Cut) => return Ok(given),
            Err(Ending::Failed(fault)) => return Err(fault),
        }
    }
}
