//! The lines of a listing: one for each event, with its outcome.
ghost use Rattle.std.specs.Prelude.{◌≡◌, ◌≤◌, ◌+◌, ◌++◌, drop, OnOk, string_bytes, IsAscii};
ghost use Rattle.run_report.specs.Lines.{event_text, outcome_text, line_of};

use crate::names::{cause_word, reason_word};
use crate::pieces::{ROOM, put_backend, put_two, put_u16, put_u32, put_u64, put_word};
use cluster_node::{Event, Outcome};
use std::alloc::AllocError;

// An event's text, of up to 28 bytes, so that it ends at `end`. Gives where it starts.
fn put_event(line: &mut [u8; ROOM], end: usize, event: &Event) -> usize
    requires room { 28 ≤ end }
    requires within { end ≤ ROOM }
    ensures low { end ≤ result + 28 }
    ensures high { result ≤ end }
    ensures written { drop result line.new ≡ event_text event.now ++ drop end line.old }
    ensures ascii { IsAscii (event_text event.now) }
{
    match event {
        Event::Install { node, version } => {
            let at = put_two(line, end, *node, *version);
            put_word(line, at, b"install ")
        }
        Event::Arrive { node, packet, .. } => {
            let at = put_two(line, end, *node, *packet);
            put_word(line, at, b"arrive ")
        }
        Event::Serve {
            node,
            worker,
            version,
            ..
        } => {
            let at = put_two(line, end, *worker, *version);
            let at = put_word(line, at, b" ");
            let at = put_u16(line, at, *node);
            put_word(line, at, b"serve ")
        }
        Event::Restart { node } => {
            let at = put_u16(line, end, *node);
            put_word(line, at, b"restart ")
        }
    }
}

// The same of an outcome's text, of up to 72 bytes.
fn put_outcome(line: &mut [u8; ROOM], end: usize, outcome: &Outcome) -> usize
    requires room { 72 ≤ end }
    requires within { end ≤ ROOM }
    ensures low { end ≤ result + 72 }
    ensures high { result ≤ end }
    ensures written { drop result line.new ≡ outcome_text outcome.now ++ drop end line.old }
    ensures ascii { IsAscii (outcome_text outcome.now) }
{
    match outcome {
        Outcome::Installed => put_word(line, end, b"installed"),
        Outcome::Placed { worker, .. } => {
            let at = put_u16(line, end, *worker);
            put_word(line, at, b"placed ")
        }
        Outcome::Forward {
            backend,
            origin,
            ..
        } => {
            let at = put_u32(line, end, *origin);
            let at = put_word(line, at, b" from ");
            let at = put_backend(line, at, backend);
            put_word(line, at, b"forward ")
        }
        Outcome::Dropped { cause, .. } => {
            let at = put_word(line, end, cause_word(*cause).as_bytes());
            put_word(line, at, b"drop ")
        }
        Outcome::Restarted { lost } => {
            let at = put_u64(line, end, *lost);
            put_word(line, at, b"restarted ")
        }
        Outcome::Refused(reason) => {
            let at = put_word(line, end, reason_word(*reason).as_bytes());
            put_word(line, at, b"refused ")
        }
    }
}

// A whole line, at the end of the array. Gives where it starts.
fn put_line(line: &mut [u8; ROOM], number: u64, event: &Event, outcome: &Outcome) -> usize
    ensures start { result ≤ ROOM }
    ensures written { drop result line.new ≡ line_of number event.now outcome.now }
    ensures ascii { IsAscii (line_of number event.now outcome.now) }
{
    let at = put_word(line, ROOM, b"\n");
    let at = put_outcome(line, at, outcome);
    let at = put_word(line, at, b": ");
    let at = put_event(line, at, event);
    let at = put_word(line, at, b" ");
    put_u64(line, at, number)
}

/// Puts the line of an event after a text: `K EVENT: OUTCOME`, where K is the event's number.
pub fn push_line(
    text: &mut String,
    number: u64,
    event: &Event,
    outcome: &Outcome,
) -> Result<(), AllocError>
    ensures { OnOk result (string_bytes text.new ≡ string_bytes text.old ++ line_of number event.now outcome.now) }
{
    let mut line = [0; ROOM];
    let start = put_line(&mut line, number, event, outcome);
    text.push_str(str::from_utf8(&line[start..]).unwrap())
}
