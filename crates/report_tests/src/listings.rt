//! Lines of histories, reports and verdicts, as they are printed.
use crate::checks::shows;
use backend_names::Name;
use cluster_core::{Totals, Verdict};
use cluster_node::{Cause, Event, LogEntry, Outcome, Reason};
use event_trace::Tally;
use five_tuple::Flow;
use pool_versions::Backend;
use run_report::{explained_text, push_line, report_text, verdict_text};
use std::alloc::{AllocError, Global};
use std::process::Abort;

fn backend(rt: &impl Abort, name: &str, addr: u32) -> Backend {
    Backend {
        name: Name::new(name.as_bytes()).expect(rt, "a name"),
        addr,
    }
}

fn said(event: Event, outcome: Outcome) -> LogEntry {
    LogEntry {
        event,
        packet: None,
        outcome,
    }
}

fn install(version: u32) -> LogEntry {
    said(Event::Install { node: 0, version }, Outcome::Installed)
}

fn arrive(packet: u32, outcome: Outcome) -> LogEntry {
    let event = Event::Arrive {
        node: 0,
        packet,
        refused: [false; 16],
    };
    said(event, outcome)
}

fn serve(worker: u16, version: u32, outcome: Outcome) -> LogEntry {
    let event = Event::Serve {
        node: 0,
        worker,
        version,
        refused: false,
    };
    said(event, outcome)
}

fn forward(packet: u32, backend: Backend, origin: u32) -> Outcome {
    Outcome::Forward {
        node: 0,
        worker: 0,
        packet,
        flow: Flow {
            src: 0x0a00_0001,
            dst: 0xc000_0201,
            sport: 1001,
            dport: 80,
            proto: 6,
        },
        backend,
        origin,
    }
}

fn placed(floor: u32) -> Outcome {
    Outcome::Placed { worker: 0, floor }
}

// The lines of a history, numbered from 0.
fn listed(alloc: Global, history: &[LogEntry]) -> Result<String, AllocError> {
    let mut text = String::new(alloc);
    for (number, said) in history.iter().enumerate() {
        push_line(&mut text, number as u64, &said.event, &said.outcome)?;
    }
    Ok(text)
}

#[test]
fn a_listing(rt: HostRuntime) {
    let a = backend(&rt, "A", 0x0a08_0001);
    let b = backend(&rt, "B", 0x0a08_0002);
    let history = [
        install(1),
        arrive(0, placed(1)),
        serve(0, 1, forward(0, b, 1)),
        install(2),
        arrive(1, placed(2)),
        serve(0, 2, forward(1, a, 2)),
    ];
    shows(
        &rt,
        listed(rt.alloc(), &history),
        "0 install 0 1: installed
1 arrive 0 0: placed 0
2 serve 0 0 1: forward B@10.8.0.2 from 1
3 install 0 2: installed
4 arrive 0 1: placed 0
5 serve 0 0 2: forward A@10.8.0.1 from 2
",
    );
    shows(&rt, listed(rt.alloc(), &[]), "");
}

#[test]
fn other_outcomes(rt: HostRuntime) {
    let dropped = Outcome::Dropped {
        packet: 4,
        cause: Cause::RingsFull,
    };
    let history = [
        arrive(4, dropped),
        serve(7, 9, Outcome::Refused(Reason::UnknownVersion)),
        said(Event::Restart { node: 1 }, Outcome::Restarted { lost: 2 }),
    ];
    shows(
        &rt,
        listed(rt.alloc(), &history),
        "0 arrive 0 4: drop RingsFull
1 serve 0 7 9: refused UnknownVersion
2 restart 1: restarted 2
",
    );
}

static LENGTHS: [(u32, &str); 12] = [
    (0, "0 install 0 0: installed\n"),
    (9, "0 install 0 9: installed\n"),
    (10, "0 install 0 10: installed\n"),
    (99, "0 install 0 99: installed\n"),
    (100, "0 install 0 100: installed\n"),
    (999, "0 install 0 999: installed\n"),
    (1000, "0 install 0 1000: installed\n"),
    (9999, "0 install 0 9999: installed\n"),
    (10_000, "0 install 0 10000: installed\n"),
    (99_999, "0 install 0 99999: installed\n"),
    (100_000, "0 install 0 100000: installed\n"),
    (u32::MAX, "0 install 0 4294967295: installed\n"),
];

#[test]
fn numbers_of_all_lengths(rt: HostRuntime) {
    for (number, line) in LENGTHS.iter() {
        shows(&rt, listed(rt.alloc(), &[install(*number)]), line);
    }
}

// A line after two bytes.
fn after_two(alloc: Global, number: u64, said: &LogEntry) -> Result<String, AllocError> {
    let mut text = String::new(alloc);
    text.push_str("# ")?;
    push_line(&mut text, number, &said.event, &said.outcome)?;
    Ok(text)
}

#[test]
fn the_longest_lines(rt: HostRuntime) {
    let event = Event::Serve {
        node: u16::MAX,
        worker: u16::MAX,
        version: u32::MAX,
        refused: true,
    };
    let backend = backend(&rt, "a-name.of.32.bytes-0123456789-ab", u32::MAX);
    shows(
        &rt,
        after_two(
            rt.alloc(),
            u64::MAX,
            &said(event, forward(0, backend, u32::MAX)),
        ),
        "# 18446744073709551615 serve 65535 65535 4294967295: forward a-name.of.32.bytes-0123456789-ab@255.255.255.255 from 4294967295\n",
    );
    let restart = said(
        Event::Restart { node: u16::MAX },
        Outcome::Restarted { lost: u64::MAX },
    );
    shows(
        &rt,
        after_two(rt.alloc(), u64::MAX, &restart),
        "# 18446744073709551615 restart 65535: restarted 18446744073709551615\n",
    );
}

const NOTHING: Tally = Tally {
    packets: 0,
    lost: 0,
    unrouted: 0,
    skipped: 0,
    left: 0,
};

const NOBODY: Totals = Totals {
    received: 0,
    forwarded: 0,
    dropped: [0; 13],
    waiting: 0,
    refused: 0,
};

// What the records came to, the totals, whether the capture is cut, and the report.
struct Report {
    tally: Tally,
    totals: Totals,
    cut: bool,
    text: &'static str,
}

static REPORTS: [Report; 4] = [
    // Two packets are sent.
    Report {
        tally: Tally {
            packets: 2,
            ..NOTHING
        },
        totals: Totals {
            received: 2,
            forwarded: 2,
            ..NOBODY
        },
        cut: false,
        text: "packets 2
lost 0
unrouted 0
skipped 0
left 0
cut no
received 2
forwarded 2
waiting 0
refused 0
",
    },
    // Two are lost at a restart.
    Report {
        tally: Tally {
            packets: 3,
            ..NOTHING
        },
        totals: Totals {
            received: 3,
            forwarded: 1,
            dropped: [0, 0, 0, 0, 0, 0, 0, 0, 0, 0, 0, 0, 2],
            ..NOBODY
        },
        cut: false,
        text: "packets 3
lost 0
unrouted 0
skipped 0
left 0
cut no
received 3
forwarded 1
drop LostAtRestart 2
waiting 0
refused 0
",
    },
    // Each count of the records.
    Report {
        tally: Tally {
            packets: 2,
            unrouted: 1,
            skipped: 1,
            left: 1,
            ..NOTHING
        },
        totals: Totals {
            refused: 1,
            ..NOBODY
        },
        cut: false,
        text: "packets 2
lost 0
unrouted 1
skipped 1
left 1
cut no
received 0
forwarded 0
waiting 0
refused 1
",
    },
    // Drops of many causes.
    Report {
        tally: Tally { lost: 6, ..NOTHING },
        totals: Totals {
            received: 76,
            dropped: [1, 2, 3, 4, 5, 6, 7, 8, 0, 10, 0, 12, 13],
            waiting: 5,
            ..NOBODY
        },
        cut: true,
        text: "packets 0
lost 6
unrouted 0
skipped 0
left 0
cut yes
received 76
forwarded 0
drop NotIpv4 1
drop Truncated 2
drop BadHeader 3
drop BadChecksum 4
drop Fragment 5
drop NotTcpUdp 6
drop BadTransport 7
drop TooLarge 8
drop NoBackend 10
drop RingsFull 12
drop LostAtRestart 13
waiting 5
refused 0
",
    },
];

#[test]
fn reports(rt: HostRuntime) {
    for row in REPORTS.iter() {
        let made = report_text(rt.alloc(), row.tally, &row.totals, row.cut);
        shows(&rt, made, row.text);
    }
}

fn split(rt: &impl Abort, versions: (u32, u32), one: (&str, u32), other: (&str, u32)) -> Verdict {
    Verdict::Split {
        slot: 5,
        v1: versions.0,
        v2: versions.1,
        b1: backend(rt, one.0, one.1),
        b2: backend(rt, other.0, other.1),
    }
}

#[test]
fn verdicts(rt: HostRuntime) {
    let moved = split(&rt, (1, 2), ("A", 0x0a08_0001), ("C", 0x0a08_0003));
    let line = "split slot 5 version 1 A@10.8.0.1 version 2 C@10.8.0.3\n";
    shows(&rt, verdict_text(rt.alloc(), &moved), line);
    let turned = split(&rt, (1, 1), ("B", 0x0a08_0002), ("A", 0x0a08_0001));
    let line = "split slot 5 version 1 B@10.8.0.2 version 1 A@10.8.0.1\n";
    shows(&rt, verdict_text(rt.alloc(), &turned), line);
    shows(
        &rt,
        verdict_text(rt.alloc(), &Verdict::NotSent),
        "not sent\n",
    );
    shows(
        &rt,
        verdict_text(rt.alloc(), &Verdict::OtherFlow),
        "other flow\n",
    );
    shows(&rt, verdict_text(rt.alloc(), &Verdict::Same), "same\n");
}

#[test]
fn a_drain_is_told_behind_a_split_alone(rt: HostRuntime) {
    let moved = split(&rt, (1, 3), ("A", 0x0a08_0001), ("C", 0x0a08_0003));
    let line = "split slot 5 version 1 A@10.8.0.1 version 3 C@10.8.0.3 drained\n";
    shows(&rt, explained_text(rt.alloc(), &moved, true), line);
    let line = "split slot 5 version 1 A@10.8.0.1 version 3 C@10.8.0.3\n";
    shows(&rt, explained_text(rt.alloc(), &moved, false), line);
    for (verdict, line) in [(Verdict::NotSent, "not sent\n"), (Verdict::Same, "same\n")] {
        shows(&rt, explained_text(rt.alloc(), &verdict, true), line);
    }
}

static CAUSES: [(Cause, &str); 13] = [
    (Cause::NotIpv4, "0 arrive 0 4: drop NotIpv4\n"),
    (Cause::Truncated, "0 arrive 0 4: drop Truncated\n"),
    (Cause::BadHeader, "0 arrive 0 4: drop BadHeader\n"),
    (Cause::BadChecksum, "0 arrive 0 4: drop BadChecksum\n"),
    (Cause::Fragment, "0 arrive 0 4: drop Fragment\n"),
    (Cause::NotTcpUdp, "0 arrive 0 4: drop NotTcpUdp\n"),
    (Cause::BadTransport, "0 arrive 0 4: drop BadTransport\n"),
    (Cause::TooLarge, "0 arrive 0 4: drop TooLarge\n"),
    (Cause::NoService, "0 arrive 0 4: drop NoService\n"),
    (Cause::NoBackend, "0 arrive 0 4: drop NoBackend\n"),
    (Cause::NoVersion, "0 arrive 0 4: drop NoVersion\n"),
    (Cause::RingsFull, "0 arrive 0 4: drop RingsFull\n"),
    (Cause::LostAtRestart, "0 arrive 0 4: drop LostAtRestart\n"),
];

static REASONS: [(Reason, &str); 7] = [
    (Reason::NoNode, "0 serve 0 7 9: refused NoNode\n"),
    (Reason::NoWorker, "0 serve 0 7 9: refused NoWorker\n"),
    (Reason::NoPacket, "0 serve 0 7 9: refused NoPacket\n"),
    (
        Reason::UnknownVersion,
        "0 serve 0 7 9: refused UnknownVersion\n",
    ),
    (Reason::NotNewer, "0 serve 0 7 9: refused NotNewer\n"),
    (Reason::Idle, "0 serve 0 7 9: refused Idle\n"),
    (
        Reason::VersionRange,
        "0 serve 0 7 9: refused VersionRange\n",
    ),
];

#[test]
fn names(rt: HostRuntime) {
    for (cause, line) in CAUSES.iter() {
        let dropped = Outcome::Dropped {
            packet: 4,
            cause: *cause,
        };
        shows(&rt, listed(rt.alloc(), &[arrive(4, dropped)]), line);
    }
    for (reason, line) in REASONS.iter() {
        let refused = Outcome::Refused(*reason);
        shows(&rt, listed(rt.alloc(), &[serve(7, 9, refused)]), line);
    }
}
