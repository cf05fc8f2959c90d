//! The first line of each command's output, and the line of an audit.
ghost use Rattle.std.specs.Prelude.{◌≡◌, ◌++◌, OnOk, string_bytes};
ghost use Rattle.json_lines.specs.Heads.{head_json, audit_json};

use crate::members::BoolText;
use std::alloc::AllocError;

/// Puts the first line of a command's output after a text: the format's version and the command's name, which has nothing to
/// be escaped.
pub fn push_json_head(text: &mut String, command: &str) -> Result<(), AllocError>
    ensures { OnOk result (string_bytes text.new ≡ string_bytes text.old ++ head_json command.now) }
{
    write!(
        text,
        "{{\"type\":\"maglev\",\"version\":1,\"command\":\"{command}\"}}\n"
    )
}

/// Puts after a text whether the audit agrees with the run.
pub fn push_json_audit(text: &mut String, agrees: bool) -> Result<(), AllocError>
    ensures { OnOk result (string_bytes text.new ≡ string_bytes text.old ++ audit_json agrees) }
{
    let agrees = BoolText(agrees);
    write!(text, "{{\"type\":\"audit\",\"agrees\":{agrees}}}\n")
}
