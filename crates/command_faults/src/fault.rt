ghost use Rattle.std.specs.Prelude.{◌≡◌, ◌++◌};
ghost use Rattle.command_faults.specs.Faults.{pool_name, capture_name, fault_name, number_text};

use pcap_file::PcapFault;
use pool_versions::PoolFault;
use std::fmt;
use thiserror::Error;

/// Why a command gave up. A fault is printed by its name.
#[derive(Debug, Clone, Copy, PartialEq, Eq, Drop, Error)]
pub enum CliFault {
    /// The size isn't a listed one.
    BadSize,
    /// The hash isn't a listed one.
    BadHash,
    /// A name isn't one.
    BadName,
    /// A name comes twice in one list.
    DoubleName,
    /// There are more names or members than slots, or than a service may have.
    TooMany,
    /// The output couldn't be written.
    Write,
    /// The input isn't hexadecimal digits, two a byte, with at most one newline after them.
    BadHex,
    /// The input is longer than any datagram, or a scenario's text has more than 1,048,576 bytes.
    TooLong,
    /// The input couldn't be read.
    Read,
    /// A member word isn't one.
    BadMember,
    /// A scenario is no TOML document.
    BadToml,
    /// A scenario's format is missing or none of 1, 2 and 3.
    BadFormat,
    /// A key of a scenario is missing or unknown, or its value isn't one of those that it may have.
    BadKey,
    /// A scenario's versions, added in order, have this fault.
    Pool(PoolFault),
    /// This step of a scenario, from 0, isn't one, and all before it are.
    BadStep(u32),
    /// A scenario's version has no such service, or several where none is named.
    BadService,
    /// A scenario's scheme has no tables.
    BadScheme,
    /// The input isn't a capture, or couldn't be read as one.
    Capture(PcapFault),
    /// The scenario's file couldn't be opened.
    OpenScenario,
    /// The input's file couldn't be opened.
    OpenInput,
    /// The output's file couldn't be opened.
    OpenOutput,
    /// The scenario's file couldn't be read.
    ReadScenario,
    /// The system gave no random bytes for the key of the connection tables.
    NoRandom,
    /// A thread couldn't be started.
    ThreadLost,
    /// A worker used a version that its node hadn't published.
    Foreign,
    /// A packet was lost in a ring, or a ring refused one too early.
    RingLost,
    /// A run's counts couldn't be kept.
    BookLost,
    /// A growth was refused.
    Memory,
}

// A fault of the pools, by its name.
fn pool_name(fault: PoolFault) -> &'static str
    ensures { result.now ≡ pool_name fault }
{
    match fault {
        PoolFault::BadNumber => "BadNumber",
        PoolFault::NumberTaken => "NumberTaken",
        PoolFault::DoubleService => "DoubleService",
        PoolFault::DoubleName => "DoubleName",
        PoolFault::TooMany => "TooMany",
        PoolFault::Memory => "Memory",
    }
}

// A capture's fault, by its name.
fn capture_name(fault: PcapFault) -> &'static str
    ensures { result.now ≡ capture_name fault }
{
    match fault {
        PcapFault::ShortHeader => "ShortHeader",
        PcapFault::BadMagic => "BadMagic",
        PcapFault::BadVersion => "BadVersion",
        PcapFault::BadLink => "BadLink",
        PcapFault::TooLong => "TooLong",
        PcapFault::Read => "Read",
        PcapFault::Write => "Write",
        PcapFault::Memory => "Memory",
    }
}

/// The words of a fault, up to its number, if it has one.
pub(crate) fn word_of(fault: &CliFault) -> &'static str
    ensures { fault_name fault.now ≡ result.now ++ number_text fault.now }
{
    match fault {
        CliFault::BadSize => "BadSize",
        CliFault::BadHash => "BadHash",
        CliFault::BadName => "BadName",
        CliFault::DoubleName => "DoubleName",
        CliFault::TooMany => "TooMany",
        CliFault::Write => "Write",
        CliFault::BadHex => "BadHex",
        CliFault::TooLong => "TooLong",
        CliFault::Read => "Read",
        CliFault::BadMember => "BadMember",
        CliFault::BadToml => "BadToml",
        CliFault::BadFormat => "BadFormat",
        CliFault::BadKey => "BadKey",
        CliFault::Pool(fault) => pool_name(*fault),
        CliFault::BadStep(_) => "BadStep ",
        CliFault::BadService => "BadService",
        CliFault::BadScheme => "BadScheme",
        CliFault::Capture(fault) => capture_name(*fault),
        CliFault::OpenScenario => "OpenScenario",
        CliFault::OpenInput => "OpenInput",
        CliFault::OpenOutput => "OpenOutput",
        CliFault::ReadScenario => "ReadScenario",
        CliFault::NoRandom => "NoRandom",
        CliFault::ThreadLost => "ThreadLost",
        CliFault::Foreign => "Foreign",
        CliFault::RingLost => "RingLost",
        CliFault::BookLost => "BookLost",
        CliFault::Memory => "Memory",
    }
}

impl fmt::Display for CliFault {
    ghost use Rattle.command_faults.specs.Faults.{fault_name};
    ghost use Rattle.std.specs.Prelude.{Some};

    ghost output = { λ fault. Some (fault_name fault) };

    fn fmt<W: fmt::Write>(&self, f: &mut fmt::Formatter<W>) -> fmt::Result {
        f.write_str(word_of(self))?;
        match self {
            CliFault::BadStep(step) => write!(f, "{step}"),
            _ => Ok(()),
        }
    }
}
