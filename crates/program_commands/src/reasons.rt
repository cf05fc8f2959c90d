//! What `--verbose` says after a fault: where it is, what was found there and what was expected.
use crate::described::STANDARD_INPUT;
use crate::files::Paths;
use command_faults::CliFault;
use lazy_files::{FirstBytes, Refusal};
use pcap_file::{MAX_RECORDS, PcapFault};
use pool_versions::PoolFault;
use scenario::{Place, ScenarioFault};
use scenario_diagnostics::words_of;
use scenario_faults::PlacedFault;
use shown_text::shown;
use std::alloc::Global;
use std::io;

/// A fault of a command, and where in its scenario it is. Beside it stand what the system said of a file that it refused, and
/// INPUT's first bytes.
#[derive(Clone, Copy)]
pub(crate) struct Trouble {
    pub(crate) fault: CliFault,
    pub(crate) place: Option<Place>,
    pub(crate) system: Option<Refusal>,
    pub(crate) head: FirstBytes,
    /// Whether it is the report that couldn't be written.
    pub(crate) of_report: bool,
}

impl Trouble {
    /// That of a file which the system refused.
    pub(crate) fn of_system(fault: CliFault, error: &io::Error) -> Trouble {
        Trouble {
            fault,
            place: None,
            system: Some(Refusal::of(error)),
            head: FirstBytes::empty(),
            of_report: false,
        }
    }

    /// Whether whoever read what is written went away.
    pub(crate) fn is_of_reader(&self) -> bool {
        let broken = self.system.is_some_and(|refusal| refusal.is_of_reader());
        broken && self.fault == CliFault::Write
    }

    /// That of a report which couldn't be written.
    pub(crate) fn of_report(error: &io::Error) -> Trouble {
        Trouble {
            of_report: true,
            ..Trouble::of_system(CliFault::Write, error)
        }
    }
}

impl From<PlacedFault> for Trouble {
    fn from(stopped: PlacedFault) -> Trouble {
        Trouble {
            fault: stopped.fault,
            place: stopped.place,
            system: None,
            head: FirstBytes::empty(),
            of_report: false,
        }
    }
}

impl From<CliFault> for Trouble {
    fn from(fault: CliFault) -> Trouble {
        Trouble::from(PlacedFault { fault, place: None })
    }
}

/// What is known of a command's files.
#[derive(Clone, Copy)]
pub(crate) struct Files<'a, 'b> {
    pub(crate) paths: Paths<'a>,
    /// The scenario's text, as far as it could be read.
    pub(crate) text: &'b [u8],
    /// The records of INPUT in front of the fault, where it could be read again.
    pub(crate) records: Option<u32>,
}

/// What is said of a fault, None where nothing more is known or memory was refused. A terminal can show it, whatever the files
/// are called and whatever the scenario says.
pub(crate) fn reason(alloc: Global, trouble: &Trouble, files: &Files<'_, '_>) -> Option<String> {
    let scenario = shown(alloc, files.paths.scenario).ok()?;
    let input = shown(alloc, files.paths.input).ok()?;
    let output = shown(alloc, files.paths.output).ok()?;
    let paths = Paths {
        scenario: scenario.as_str(),
        input: input.as_str(),
        output: output.as_str(),
    };
    let shown = Files {
        paths,
        text: files.text,
        records: files.records,
    };
    reason_by(alloc, trouble, &shown)
}

// Whether a file begins as a capture of packets does.
fn is_capture(head: &[u8]) -> bool {
    let [first, second, third, last, ..] = head else {
        return false;
    };
    let bytes = [*first, *second, *third, *last];
    let magics = [0xa1b2_c3d4, 0xa1b2_3c4d, 0xa1b2_cd34, 0x0a0d_0d0a];
    magics.contains(&u32::from_be_bytes(bytes)) || magics.contains(&u32::from_le_bytes(bytes))
}

// The same, of paths that a terminal can show.
fn reason_by(alloc: Global, trouble: &Trouble, files: &Files<'_, '_>) -> Option<String> {
    match trouble.fault {
        CliFault::TooLong | CliFault::BadToml if is_capture(files.text) => {
            let path = files.paths.scenario;
            format!(in alloc;
                "{path}: found a capture, expected a scenario: SCENARIO comes before INPUT"
            ).ok()
        }
        CliFault::OpenScenario | CliFault::ReadScenario => {
            system(alloc, files.paths.scenario, trouble.system)
        }
        CliFault::OpenInput => system(alloc, files.paths.input, trouble.system),
        CliFault::Write if trouble.of_report => system(alloc, "the report", trouble.system),
        CliFault::OpenOutput | CliFault::Write => system(alloc, files.paths.output, trouble.system),
        CliFault::NoRandom => plain(
            alloc,
            "the system gives no random bytes, of which the tables' key is drawn",
        ),
        CliFault::ThreadLost => plain(
            alloc,
            "a thread couldn't be started: allow more threads, or take fewer balancers and workers",
        ),
        CliFault::TooLong => {
            let path = files.paths.scenario;
            format!(in alloc; "{path}: expected at most 1048576 bytes").ok()
        }
        CliFault::BadService => plain(
            alloc,
            "--service: expected a service as plan prints it, or that the version has only one",
        ),
        CliFault::BadScheme => plain(
            alloc,
            "scheme: expected \"maglev\", since the others have no table",
        ),
        CliFault::Capture(fault) => capture(alloc, fault, trouble, files),
        CliFault::Pool(PoolFault::BadNumber) => bad_number(alloc, files, trouble.place),
        fault => words_of(alloc, files.text, scenario_fault(fault)?, trouble.place),
    }
}

// Whether a command has a file INPUT.
fn has_input(path: &str) -> bool {
    !path.is_empty() && path != STANDARD_INPUT
}

// Where a version's number is 0, or else that a version or a balancer which was asked for isn't there. A command with a file
// INPUT asks for no version.
fn bad_number(alloc: Global, files: &Files<'_, '_>, place: Option<Place>) -> Option<String> {
    let fault = ScenarioFault::Pool(PoolFault::BadNumber);
    match words_of(alloc, files.text, fault, place) {
        Some(words) => Some(words),
        None if place.is_some() => None,
        None if has_input(files.paths.input) => plain(
            alloc,
            "--node: expected the number of a balancer that the scenario has, counted from 0",
        ),
        None => plain(
            alloc,
            "version: expected the number of one that the scenario has",
        ),
    }
}

// What the system said of a file.
fn system(alloc: Global, path: &str, refusal: Option<Refusal>) -> Option<String> {
    match refusal {
        Some(refusal) if refusal.is_of_one_file() => {
            format!(in alloc; "{path}: found a file that is read, expected another one").ok()
        }
        Some(refusal) => {
            let error = refusal.error();
            format!(in alloc; "{path}: {error}").ok()
        }
        None => plain(alloc, path),
    }
}

fn plain(alloc: Global, words: &str) -> Option<String> {
    String::from_str(alloc, words).ok()
}

fn capture(
    alloc: Global,
    fault: PcapFault,
    trouble: &Trouble,
    files: &Files<'_, '_>,
) -> Option<String> {
    match fault {
        PcapFault::TooLong if files.records == Some(MAX_RECORDS) => {
            record(alloc, files, "expected at most 1000000000 records")
        }
        PcapFault::TooLong => record(alloc, files, "expected a record of at most 262144 bytes"),
        PcapFault::Read => match trouble.system {
            Some(refusal) => {
                let error = refusal.error();
                let words = format!(in alloc; "{error}").ok()?;
                record(alloc, files, words.as_str())
            }
            None => record(alloc, files, "it can't be read"),
        },
        PcapFault::Write => system(alloc, files.paths.output, trouble.system),
        PcapFault::Memory => None,
        fault => header(alloc, fault, files.paths.input, trouble.head.bytes()),
    }
}

// What is wrong with the header of a capture.
fn header(alloc: Global, fault: PcapFault, path: &str, head: &[u8]) -> Option<String> {
    match fault {
        PcapFault::ShortHeader => {
            let bytes = head.len();
            format!(in alloc; "{path}: found {bytes} bytes, expected a header of 24").ok()
        }
        PcapFault::BadMagic => {
            let (form, command) = form_of(head);
            format!(in alloc; "{path}: found {form}, expected classic pcap: {command}").ok()
        }
        PcapFault::BadVersion => {
            format!(in alloc; "{path}: expected version 2.4 of classic pcap").ok()
        }
        PcapFault::BadLink => {
            let number = link_number(head)?;
            let name = link_name(number);
            format!(in alloc;
                "{path}: found link type {number}, {name}, expected 1 (Ethernet), 101 or 228 (raw IP): docs/USING.md has commands"
            ).ok()
        }
        _ => None,
    }
}

// What is wrong with a record of INPUT.
fn record(alloc: Global, files: &Files<'_, '_>, what: &str) -> Option<String> {
    let path = files.paths.input;
    match files.records {
        Some(records) => format!(in alloc; "{path}, record {records}: {what}").ok(),
        None => format!(in alloc; "{path}: {what}").ok(),
    }
}

// The format of a file that begins so, and what makes classic pcap of it.
fn form_of(head: &[u8]) -> (&'static str, &'static str) {
    let convert = "editcap -F pcap INPUT out.pcap";
    if head.starts_with(&[0x0a, 0x0d, 0x0d, 0x0a]) {
        ("pcapng", convert)
    } else if head.starts_with(&[0x1f, 0x8b]) {
        ("gzip", "gunzip -c INPUT > out.pcap")
    } else if head.starts_with(&[0x28, 0xb5, 0x2f, 0xfd]) {
        ("zstd", "zstd -d -c INPUT > out.pcap")
    } else if head.starts_with(&[0xa1, 0xb2, 0xcd, 0x34])
        || head.starts_with(&[0x34, 0xcd, 0xb2, 0xa1])
    {
        ("modified pcap", convert)
    } else {
        ("another format", "docs/USING.md has commands")
    }
}

// The link type of a header that is whole, in its own byte order.
fn link_number(head: &[u8]) -> Option<u32> {
    let [a, b, c, d] = head.get(20..24)? else {
        return None;
    };
    let bytes = [*a, *b, *c, *d];
    if head.starts_with(&[0xa1]) {
        Some(u32::from_be_bytes(bytes))
    } else {
        Some(u32::from_le_bytes(bytes))
    }
}

// The name of a link type, of those that are seen most.
fn link_name(number: u32) -> &'static str {
    match number {
        0 => "loopback of BSD",
        9 => "PPP",
        12 | 14 => "raw IP under a number of one system",
        105 => "802.11",
        108 => "loopback of OpenBSD",
        113 => "Linux cooked capture",
        127 => "802.11 with radiotap",
        147..=162 => "of a user's own",
        189 => "USB of Linux",
        195 => "802.15.4",
        229 => "IPv6",
        239 => "netfilter log",
        276 => "Linux cooked capture, version 2",
        _ => "which isn't Ethernet or raw IP",
    }
}

// A fault of a command that is its scenario's.
fn scenario_fault(fault: CliFault) -> Option<ScenarioFault> {
    match fault {
        CliFault::BadToml => Some(ScenarioFault::BadToml),
        CliFault::BadFormat => Some(ScenarioFault::BadFormat),
        CliFault::BadKey => Some(ScenarioFault::BadKey),
        CliFault::BadMember => Some(ScenarioFault::BadMember),
        CliFault::Pool(fault) => Some(ScenarioFault::Pool(fault)),
        CliFault::BadStep(step) => Some(ScenarioFault::BadStep(step)),
        _ => None,
    }
}
