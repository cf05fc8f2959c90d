//! The names of causes and reasons.
ghost use Rattle.std.specs.Prelude.{◌≡◌, ◌≤◌, length, IsAscii};
ghost use Rattle.run_report.specs.Names.{cause_name, reason_name};

use cluster_node::{Cause, Reason};
use std::fmt;

/// A cause of a drop, printed by its name.
#[derive(Clone, Copy, Debug)]
pub struct CauseText(pub Cause);

impl fmt::Display for CauseText {
    ghost use Rattle.std.specs.Prelude.{Some};
    ghost use Rattle.run_report.specs.Names.{cause_name};

    ghost output = { λ c. Some (cause_name c.0) };

    fn fmt<W: fmt::Write>(&self, f: &mut fmt::Formatter<W>) -> fmt::Result {
        f.write_str(cause_word(self.0))
    }
}

/// A reason of a refusal, printed by its name.
#[derive(Clone, Copy, Debug)]
pub struct ReasonText(pub Reason);

impl fmt::Display for ReasonText {
    ghost use Rattle.std.specs.Prelude.{Some};
    ghost use Rattle.run_report.specs.Names.{reason_name};

    ghost output = { λ r. Some (reason_name r.0) };

    fn fmt<W: fmt::Write>(&self, f: &mut fmt::Formatter<W>) -> fmt::Result {
        f.write_str(reason_word(self.0))
    }
}

// The name of a cause, of up to 13 letters.
pub(crate) fn cause_word(cause: Cause) -> &'static str
    ensures name { result.now ≡ cause_name cause }
    ensures short { length (cause_name cause) ≤ 13 }
    ensures ascii { IsAscii (cause_name cause) }
{
    match cause {
        Cause::NotIpv4 => "NotIpv4",
        Cause::Truncated => "Truncated",
        Cause::BadHeader => "BadHeader",
        Cause::BadChecksum => "BadChecksum",
        Cause::Fragment => "Fragment",
        Cause::NotTcpUdp => "NotTcpUdp",
        Cause::BadTransport => "BadTransport",
        Cause::TooLarge => "TooLarge",
        Cause::NoService => "NoService",
        Cause::NoBackend => "NoBackend",
        Cause::NoVersion => "NoVersion",
        Cause::RingsFull => "RingsFull",
        Cause::LostAtRestart => "LostAtRestart",
    }
}

// The name of a reason, of up to 14 letters.
pub(crate) fn reason_word(reason: Reason) -> &'static str
    ensures name { result.now ≡ reason_name reason }
    ensures short { length (reason_name reason) ≤ 14 }
    ensures ascii { IsAscii (reason_name reason) }
{
    match reason {
        Reason::NoNode => "NoNode",
        Reason::NoWorker => "NoWorker",
        Reason::NoPacket => "NoPacket",
        Reason::UnknownVersion => "UnknownVersion",
        Reason::NotNewer => "NotNewer",
        Reason::Idle => "Idle",
        Reason::VersionRange => "VersionRange",
    }
}
