//! What is said of a report's counts.
use crate::counts::{Counts, Drops};
use crate::first_frame::frame_words;
use std::alloc::{AllocError, Global};

// Why packets are dropped for a cause, and what helps.
fn help_for(cause: &str) -> &'static str {
    match cause {
        "NotIpv4" =>
            "their frames aren't IPv4: VLAN tags and IPv6 aren't read, and docs/USING.md has commands that take tags off",
        "Truncated" =>
            "the capture has only the beginnings of its packets: play them as they were by --cut pad, or capture whole ones, with tcpdump -s 0",
        "BadHeader" | "BadTransport" => "their headers aren't those of a datagram",
        "BadChecksum" =>
            "their header checksums are wrong, as where a network card makes them: check = false in SCENARIO",
        "Fragment" => "they are fragments, which have no ports",
        "NotTcpUdp" => "they are neither TCP nor UDP",
        "TooLarge" => "they don't fit into a tunnel's datagram",
        "NoService" =>
            "SCENARIO has no service of their address, protocol and port: maglev scenario INPUT lists those that INPUT has",
        "NoBackend" => "their service had no member, or every member was down or drained",
        "NoVersion" => "their balancer had no version yet: begin with a step install",
        "LostAtRestart" => "they waited on a balancer that was restarted",
        _ =>
            "every ring was full: by a step full; in run give more places by ring in SCENARIO, or --pace, whose drivers wait for room",
    }
}

// One in how many is one.
fn plural(count: u64) -> &'static str {
    if count == 1 { "" } else { "s" }
}

// What so many of them did.
fn were(count: u64) -> &'static str {
    if count == 1 { "was" } else { "were" }
}

// One thing more.
fn tell(advice: &mut Vec<String>, line: String) -> Result<(), AllocError> {
    advice.push(line)?;
    Ok(())
}

// What is known of the first frame of a capture that begins so, where packets were dropped since they aren't IPv4.
fn frame_help(alloc: Global, cause: &str, head: &[u8]) -> Result<Option<String>, AllocError> {
    match cause {
        "NotIpv4" => frame_words(alloc, head),
        _ => Ok(None),
    }
}

// Of packets that were dropped for a cause.
fn advise_dropped(
    alloc: Global,
    received: u64,
    drops: Drops<'_>,
    head: &[u8],
    advice: &mut Vec<String>,
) -> Result<(), AllocError> {
    let Drops { cause, count } = drops;
    let told = frame_help(alloc, cause, head)?;
    let help = match &told {
        Some(words) => words.as_str(),
        None => help_for(cause),
    };
    let were = were(count);
    tell(
        advice,
        format!(in alloc; "of {received} packets {count} {were} dropped as {cause}: {help}")?,
    )
}

// Of packets that were nearly all dropped, of rings that were full, and of packets of which the capture has only the beginnings.
fn advise_drops(
    alloc: Global,
    counts: &Counts<'_>,
    head: &[u8],
    advice: &mut Vec<String>,
) -> Result<(), AllocError> {
    for drops in counts.drops_to_tell() {
        if drops.count > 0 {
            advise_dropped(alloc, counts.received, drops, head, advice)?;
        }
    }
    Ok(())
}

// Of records that no step reads.
fn advise_left(
    alloc: Global,
    counts: &Counts<'_>,
    advice: &mut Vec<String>,
) -> Result<(), AllocError> {
    let left = counts.left;
    if left == 0 {
        return Ok(());
    }
    let plural = plural(left);
    tell(
        advice,
        format!(in alloc; "{left} record{plural} at the end of INPUT: no step reads them")?,
    )
}

// Of packets that came when no balancer was live.
fn advise_unrouted(
    alloc: Global,
    counts: &Counts<'_>,
    advice: &mut Vec<String>,
) -> Result<(), AllocError> {
    let unrouted = counts.unrouted;
    if unrouted == 0 {
        return Ok(());
    }
    let plural = plural(unrouted);
    tell(
        advice,
        format!(in alloc; "{unrouted} packet{plural} came when no balancer was live")?,
    )
}

// Of events that were refused.
fn advise_refused(
    alloc: Global,
    counts: &Counts<'_>,
    advice: &mut Vec<String>,
) -> Result<(), AllocError> {
    let refused = counts.refused;
    if refused == 0 {
        return Ok(());
    }
    let plural = plural(refused);
    tell(
        advice,
        format!(in alloc;
            "{refused} event{plural} refused, as an install of a version that isn't newer, or isn't there: simulate --list shows which"
        )?,
    )
}

// Of packets that a count of connections leaves out, since no server got them.
fn advise_unsent(
    alloc: Global,
    counts: &Counts<'_>,
    advice: &mut Vec<String>,
) -> Result<(), AllocError> {
    let unsent = counts.unsent();
    if unsent == 0 {
        return Ok(());
    }
    let received = counts.received;
    tell(
        advice,
        format!(in alloc;
            "of {received} packets {unsent} got no server: --fail-above doesn't count them"
        )?,
    )
}

/// What a run's end is looked at for.
#[derive(Clone, Copy, Debug)]
pub struct Asked {
    /// All that may be amiss is told.
    pub all: bool,
    /// The command's status goes by the connections, so that what these leave out is told.
    pub judged: bool,
}

/// A line for each thing that may be amiss in a run over a capture, by the report that a text ends with and by the capture's first
/// bytes, up to its first frame's Ethernet header: no line where nothing is. Refused events are told whatever is asked.
pub fn advice_of(
    alloc: Global,
    asked: Asked,
    report: &str,
    head: &[u8],
) -> Result<Vec<String>, AllocError> {
    let counts = Counts::of_report(report);
    let mut advice = Vec::new(alloc);
    if asked.all {
        advise_drops(alloc, &counts, head, &mut advice)?;
    }
    if asked.all || asked.judged {
        advise_unrouted(alloc, &counts, &mut advice)?;
        advise_left(alloc, &counts, &mut advice)?;
    }
    if asked.judged {
        advise_unsent(alloc, &counts, &mut advice)?;
    }
    advise_refused(alloc, &counts, &mut advice)?;
    Ok(advice)
}
