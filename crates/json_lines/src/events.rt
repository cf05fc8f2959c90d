//! The lines of events, each with its outcome.
ghost use Rattle.std.specs.Prelude.{◌≡◌, ◌++◌, OnOk, option_copied, string_bytes};
ghost use Rattle.event_trace.specs.Noting.{said_by};
ghost use Rattle.json_lines.specs.Events.{event_json};

use crate::members::BackendMembers;
use cluster_node::{Event, Outcome, Packet};
use connection_changes::TimeText;
use five_tuple::Flow;
use maglev_texts::FlowText;
use pool_versions::Backend;
use run_report::{CauseText, ReasonText};
use std::alloc::AllocError;
use std::fmt;

/// What is known of a packet that arrives, printed as `,"time":TIME,"bytes":BYTES,"flow":"FLOW"`. Nothing is printed of a
/// packet that couldn't be read.
#[derive(Clone, Copy)]
struct PacketMembers(Option<Packet>);

impl fmt::Display for PacketMembers {
    ghost use Rattle.std.specs.Prelude.{Some};
    ghost use Rattle.json_lines.specs.Events.{packet_members};

    ghost output = { λ p. Some (packet_members p.0) };

    fn fmt<W: fmt::Write>(&self, f: &mut fmt::Formatter<W>) -> fmt::Result {
        match self.0 {
            Some(Packet::Good { flow, len, at }) => {
                let time = TimeText(at);
                let flow = FlowText(flow);
                write!(f, ",\"time\":{time},\"bytes\":{len},\"flow\":\"{flow}\"")
            }
            Some(Packet::Bad(_)) => f.write_str(""),
            None => f.write_str(""),
        }
    }
}

/// An event, with the packet that it names where it is an arrival, printed as `"kind":"KIND","node":NODE` and what else it has.
#[derive(Clone, Copy)]
struct EventMembers(Event, Option<Packet>);

impl fmt::Display for EventMembers {
    ghost use Rattle.std.specs.Prelude.{Some};
    ghost use Rattle.json_lines.specs.Events.{event_members};

    ghost output = { λ e. Some (event_members e.0 e.1) };

    fn fmt<W: fmt::Write>(&self, f: &mut fmt::Formatter<W>) -> fmt::Result {
        match self.0 {
            Event::Install { node, version } => write!(
                f,
                "\"kind\":\"install\",\"node\":{node},\"version\":{version}"
            ),
            Event::Arrive { node, packet, .. } => {
                let more = PacketMembers(self.1);
                write!(
                    f,
                    "\"kind\":\"arrive\",\"node\":{node},\"record\":{packet}{more}"
                )
            }
            Event::Serve {
                node,
                worker,
                version,
                ..
            } => write!(
                f,
                "\"kind\":\"serve\",\"node\":{node},\"worker\":{worker},\"version\":{version}"
            ),
            Event::Restart { node } => write!(f, "\"kind\":\"restart\",\"node\":{node}"),
        }
    }
}

/// The record whose packet was dropped, printed as `"record":RECORD,` where the event is a serving. Of another event its own
/// members tell it.
#[derive(Clone, Copy)]
struct ServedMember(Event, u32);

impl fmt::Display for ServedMember {
    ghost use Rattle.std.specs.Prelude.{Some};
    ghost use Rattle.json_lines.specs.Events.{served_member};

    ghost output = { λ s. Some (served_member s.0 s.1) };

    fn fmt<W: fmt::Write>(&self, f: &mut fmt::Formatter<W>) -> fmt::Result {
        let packet = self.1;
        match self.0 {
            Event::Serve { .. } => write!(f, "\"record\":{packet},"),
            _ => f.write_str(""),
        }
    }
}

/// A packet that was sent, printed as `"record":RECORD,"flow":"FLOW","backend":"NAME","address":"ADDRESS","chosen":VERSION`.
#[derive(Clone, Copy)]
struct SentMembers {
    packet: u32,
    flow: Flow,
    backend: Backend,
    origin: u32,
}

impl fmt::Display for SentMembers {
    ghost use Rattle.std.specs.Prelude.{Some};
    ghost use Rattle.json_lines.specs.Events.{sent_members};

    ghost output = { λ s. Some (sent_members s.packet s.flow s.backend s.origin) };

    #[tactic(auto, unfolding(crate::specs::Events::sent_members))]
    fn fmt<W: fmt::Write>(&self, f: &mut fmt::Formatter<W>) -> fmt::Result {
        let packet = self.packet;
        let flow = FlowText(self.flow);
        let backend = BackendMembers(self.backend);
        let origin = self.origin;
        write!(
            f,
            "\"record\":{packet},\"flow\":\"{flow}\",{backend},\"chosen\":{origin}"
        )
    }
}

/// The outcome of an event, printed as `"outcome":"OUTCOME"` and what else it has.
#[derive(Clone, Copy)]
struct OutcomeMembers(Event, Outcome);

impl fmt::Display for OutcomeMembers {
    ghost use Rattle.std.specs.Prelude.{Some};
    ghost use Rattle.json_lines.specs.Events.{outcome_members};

    ghost output = { λ o. Some (outcome_members o.0 o.1) };

    fn fmt<W: fmt::Write>(&self, f: &mut fmt::Formatter<W>) -> fmt::Result {
        match self.1 {
            Outcome::Installed => f.write_str("\"outcome\":\"installed\""),
            Outcome::Placed { worker, .. } => {
                write!(f, "\"outcome\":\"placed\",\"worker\":{worker}")
            }
            Outcome::Forward {
                packet,
                flow,
                backend,
                origin,
                ..
            } => {
                let sent = SentMembers {
                    packet,
                    flow,
                    backend,
                    origin,
                };
                write!(f, "\"outcome\":\"forward\",{sent}")
            }
            Outcome::Dropped { packet, cause } => {
                let served = ServedMember(self.0, packet);
                let cause = CauseText(cause);
                write!(f, "\"outcome\":\"drop\",{served}\"cause\":\"{cause}\"")
            }
            Outcome::Restarted { lost } => {
                write!(f, "\"outcome\":\"restarted\",\"lost\":{lost}")
            }
            Outcome::Refused(reason) => {
                let reason = ReasonText(reason);
                write!(f, "\"outcome\":\"refused\",\"reason\":\"{reason}\"")
            }
        }
    }
}

fn push_event(
    text: &mut String,
    number: u64,
    event: Event,
    packet: Option<Packet>,
    outcome: Outcome,
) -> Result<(), AllocError>
    ensures { OnOk result (string_bytes text.new ≡ string_bytes text.old ++ event_json number (said_by event packet outcome)) }
{
    let members = EventMembers(event, packet);
    let outcome = OutcomeMembers(event, outcome);
    write!(
        text,
        "{{\"type\":\"event\",\"event\":{number},{members},{outcome}}}\n"
    )
}

/// Puts the line of an event after a text, with its number and its outcome. An arrival's line has the packet that it names.
pub fn push_json_event(
    text: &mut String,
    number: u64,
    event: &Event,
    packet: Option<&Packet>,
    outcome: &Outcome,
) -> Result<(), AllocError>
    ensures { OnOk result (string_bytes text.new ≡ string_bytes text.old
        ++ event_json number (said_by event.now (option_copied packet.entry) outcome.now)) }
{
    push_event(text, number, *event, packet.copied(), *outcome)
}
