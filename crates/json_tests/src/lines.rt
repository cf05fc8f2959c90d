//! Lines of events, reports and verdicts, as they are printed.
use backend_names::Name;
use cluster_core::{Totals, Verdict};
use cluster_node::{Cause, Event, Outcome, Packet, Reason};
use event_trace::Tally;
use five_tuple::Flow;
use json_lines::{
    push_json_audit, push_json_event, push_json_head, push_json_report, push_json_verdict,
};
use pool_versions::Backend;
use std::alloc::{AllocError, Global};
use std::process::Abort;

fn shows(rt: &impl Abort, made: Result<String, AllocError>, text: &str) {
    let made = made.expect(rt, "memory");
    assert_eq!(rt; made.as_str(), text);
}

fn backend(rt: &impl Abort) -> Backend {
    Backend {
        name: Name::new(b"web-1.a").expect(rt, "a name"),
        addr: 0x0a08_0001,
    }
}

const FLOW: Flow = Flow {
    src: 0x0a00_0001,
    dst: 0xc000_0201,
    sport: 1234,
    dport: 80,
    proto: 6,
};

const ARRIVE: Event = Event::Arrive {
    node: 1,
    packet: 7,
    refused: [false; 16],
};

const SERVE: Event = Event::Serve {
    node: 1,
    worker: 2,
    version: 3,
    refused: false,
};

// An event's line.
fn line(
    alloc: Global,
    event: &Event,
    packet: Option<&Packet>,
    outcome: &Outcome,
) -> Result<String, AllocError> {
    let mut text = String::new(alloc);
    push_json_event(&mut text, 9, event, packet, outcome)?;
    Ok(text)
}

#[test]
fn arrivals(rt: HostRuntime) {
    let good = Packet::Good {
        flow: FLOW,
        len: 40,
        at: 1_000_250,
    };
    let placed = Outcome::Placed {
        worker: 2,
        floor: 3,
    };
    let dropped = Outcome::Dropped {
        packet: 7,
        cause: Cause::TooLarge,
    };
    shows(
        &rt,
        line(rt.alloc(), &ARRIVE, Some(&good), &placed),
        "{\"type\":\"event\",\"event\":9,\"kind\":\"arrive\",\"node\":1,\"record\":7,\"time\":1.000250,\"bytes\":40,\"flow\":\"tcp 10.0.0.1:1234>192.0.2.1:80\",\"outcome\":\"placed\",\"worker\":2}\n",
    );
    shows(
        &rt,
        line(
            rt.alloc(),
            &ARRIVE,
            Some(&Packet::Bad(Cause::TooLarge)),
            &dropped,
        ),
        "{\"type\":\"event\",\"event\":9,\"kind\":\"arrive\",\"node\":1,\"record\":7,\"outcome\":\"drop\",\"cause\":\"TooLarge\"}\n",
    );
}

#[test]
fn servings(rt: HostRuntime) {
    let sent = Outcome::Forward {
        node: 1,
        worker: 2,
        packet: 7,
        flow: FLOW,
        backend: backend(&rt),
        origin: 2,
    };
    let dropped = Outcome::Dropped {
        packet: 7,
        cause: Cause::NoBackend,
    };
    shows(
        &rt,
        line(rt.alloc(), &SERVE, None, &sent),
        "{\"type\":\"event\",\"event\":9,\"kind\":\"serve\",\"node\":1,\"worker\":2,\"version\":3,\"outcome\":\"forward\",\"record\":7,\"flow\":\"tcp 10.0.0.1:1234>192.0.2.1:80\",\"backend\":\"web-1.a\",\"address\":\"10.8.0.1\",\"chosen\":2}\n",
    );
    shows(
        &rt,
        line(rt.alloc(), &SERVE, None, &dropped),
        "{\"type\":\"event\",\"event\":9,\"kind\":\"serve\",\"node\":1,\"worker\":2,\"version\":3,\"outcome\":\"drop\",\"record\":7,\"cause\":\"NoBackend\"}\n",
    );
}

#[test]
fn other_events(rt: HostRuntime) {
    let install = Event::Install {
        node: 1,
        version: 3,
    };
    let restart = Event::Restart { node: 1 };
    shows(
        &rt,
        line(rt.alloc(), &install, None, &Outcome::Installed),
        "{\"type\":\"event\",\"event\":9,\"kind\":\"install\",\"node\":1,\"version\":3,\"outcome\":\"installed\"}\n",
    );
    shows(
        &rt,
        line(rt.alloc(), &restart, None, &Outcome::Restarted { lost: 4 }),
        "{\"type\":\"event\",\"event\":9,\"kind\":\"restart\",\"node\":1,\"outcome\":\"restarted\",\"lost\":4}\n",
    );
    shows(
        &rt,
        line(
            rt.alloc(),
            &restart,
            None,
            &Outcome::Refused(Reason::NoNode),
        ),
        "{\"type\":\"event\",\"event\":9,\"kind\":\"restart\",\"node\":1,\"outcome\":\"refused\",\"reason\":\"NoNode\"}\n",
    );
}

const TALLY: Tally = Tally {
    packets: 5,
    lost: 1,
    unrouted: 2,
    skipped: 3,
    left: 4,
};

const TOTALS: Totals = Totals {
    received: 15,
    forwarded: 6,
    dropped: [20, 21, 22, 23, 24, 25, 26, 27, 28, 29, 30, 31, 32],
    waiting: 7,
    refused: 8,
};

// The first line, and a report with its audit.
fn report(alloc: Global) -> Result<String, AllocError> {
    let mut text = String::new(alloc);
    push_json_head(&mut text, "simulate")?;
    push_json_report(&mut text, TALLY, &TOTALS, false)?;
    push_json_audit(&mut text, true)?;
    Ok(text)
}

#[test]
fn reports(rt: HostRuntime) {
    shows(
        &rt,
        report(rt.alloc()),
        "{\"type\":\"maglev\",\"version\":1,\"command\":\"simulate\"}
{\"type\":\"report\",\"packets\":5,\"lost\":1,\"unrouted\":2,\"skipped\":3,\"left\":4,\"cut\":false,\"received\":15,\"forwarded\":6,\"dropped\":{\"NotIpv4\":20,\"Truncated\":21,\"BadHeader\":22,\"BadChecksum\":23,\"Fragment\":24,\"NotTcpUdp\":25,\"BadTransport\":26,\"TooLarge\":27,\"NoService\":28,\"NoBackend\":29,\"NoVersion\":30,\"RingsFull\":31,\"LostAtRestart\":32},\"waiting\":7,\"refused\":8}
{\"type\":\"audit\",\"agrees\":true}
",
    );
}

// A verdict's line.
fn told(alloc: Global, verdict: &Verdict, drained: bool) -> Result<String, AllocError> {
    let mut text = String::new(alloc);
    push_json_verdict(&mut text, verdict, drained)?;
    Ok(text)
}

#[test]
fn verdicts(rt: HostRuntime) {
    let split = Verdict::Split {
        slot: 3,
        v1: 1,
        v2: 2,
        b1: backend(&rt),
        b2: backend(&rt),
    };
    shows(
        &rt,
        told(rt.alloc(), &Verdict::OtherFlow, false),
        "{\"type\":\"explain\",\"verdict\":\"other flow\"}\n",
    );
    shows(
        &rt,
        told(rt.alloc(), &split, true),
        "{\"type\":\"explain\",\"verdict\":\"split\",\"slot\":3,\"first\":{\"version\":1,\"backend\":\"web-1.a\",\"address\":\"10.8.0.1\"},\"later\":{\"version\":2,\"backend\":\"web-1.a\",\"address\":\"10.8.0.1\"},\"drained\":true}\n",
    );
}
