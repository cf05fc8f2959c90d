//! What a command says on standard error: in lines for people, or in objects for programs.
use crate::reasons::Trouble;
use crate::{GONE, told};
use clap::ArgMatches;
use command_faults::CliFault;
use std::io::{IsTerminal, Write};

/// How a command speaks on standard error.
#[derive(Clone, Copy)]
pub(crate) struct Voice<'x> {
    rt: &'x HostRuntime,
    says_more: bool,
    in_objects: bool,
}

impl<'x> Voice<'x> {
    /// As the command line asks for it.
    pub(crate) fn of(rt: &'x HostRuntime, matches: &ArgMatches<'_>) -> Voice<'x> {
        Voice {
            rt,
            says_more: matches.get_flag("verbose") || rt.stderr().is_terminal(),
            in_objects: matches.get_flag("json"),
        }
    }

    /// Whether more is said than the fixed texts: where that is asked for, or where a person reads it.
    pub(crate) fn says_more(self) -> bool {
        self.says_more
    }

    // A fault as an object. Where memory for its detail in quotes is refused it is that of the fault Memory.
    fn fault_object(self, fault: CliFault, detail: Option<String>) -> u8 {
        let quoted = detail.map(|text| serde_json::to_string(self.rt.alloc(), &text.as_str()));
        let (fault, detail) = match &quoted {
            Some(Ok(detail)) => (fault, detail.as_str()),
            Some(Err(_)) => (CliFault::Memory, "null"),
            None => (fault, "null"),
        };
        let line = r#"{"type":"fault","fault":""#;
        let _ = writeln!(self.rt.stderr(), "{line}{fault}\",\"detail\":{detail}}}");
        1
    }

    // A fault as a line, and where more is said, what is known of it.
    fn fault_lines<F>(self, fault: CliFault, reason: F) -> u8
    where
        F: FnOnce() -> Option<String> + Drop,
        requires { F.IsAlwaysCallable reason }
    {
        let status = told(self.rt, fault);
        if self.says_more
            && let Some(line) = reason()
        {
            let _ = writeln!(self.rt.stderr(), "{line}");
        }
        status
    }

    /// The end of a command, and its status. Of a fault `reason` knows more, and of a reader that went away nothing is said.
    pub(crate) fn ended<F>(self, outcome: &Result<(), Trouble>, reason: F) -> u8
    where
        F: FnOnce(&Trouble) -> Option<String> + Drop,
        requires { F.IsAlwaysCallable reason }
    {
        let Err(trouble) = outcome else {
            return 0;
        };
        if trouble.is_of_reader() {
            return GONE;
        }
        if self.in_objects {
            self.fault_object(trouble.fault, reason(trouble))
        } else {
            self.fault_lines(trouble.fault, || reason(trouble))
        }
    }

    /// Warns of what may be amiss.
    pub(crate) fn warn(self, line: &str) {
        if !self.in_objects {
            let _ = writeln!(self.rt.stderr(), "warning: {line}");
        } else if let Ok(detail) = serde_json::to_string(self.rt.alloc(), &line) {
            let _ = writeln!(
                self.rt.stderr(),
                "{{\"type\":\"warning\",\"detail\":{detail}}}"
            );
        }
    }
}
