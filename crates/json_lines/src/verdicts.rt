//! Why two packets went where they went.
ghost use Rattle.std.specs.Prelude.{◌≡◌, ◌++◌, OnOk, string_bytes};
ghost use Rattle.json_lines.specs.Verdicts.{verdict_json};

use crate::members::{BackendMembers, BoolText};
use cluster_core::Verdict;
use pool_versions::Backend;
use std::alloc::AllocError;
use std::fmt;

/// A version and the backend that was chosen under it, printed as `"version":VERSION,"backend":"NAME","address":"ADDRESS"`.
#[derive(Clone, Copy)]
struct ChoiceMembers(u32, Backend);

impl fmt::Display for ChoiceMembers {
    ghost use Rattle.std.specs.Prelude.{Some};
    ghost use Rattle.json_lines.specs.Verdicts.{choice_members};

    ghost output = { λ c. Some (choice_members c.0 c.1) };

    fn fmt<W: fmt::Write>(&self, f: &mut fmt::Formatter<W>) -> fmt::Result {
        let version = self.0;
        let backend = BackendMembers(self.1);
        write!(f, "\"version\":{version},{backend}")
    }
}

/// A flow's slot, how each of two packets got its backend, and whether a version drained the first one's server before it left.
/// They are printed as the members that a split has behind its verdict.
#[derive(Clone, Copy)]
struct ChoicesMembers(u32, ChoiceMembers, ChoiceMembers, bool);

impl fmt::Display for ChoicesMembers {
    ghost use Rattle.std.specs.Prelude.{Some};
    ghost use Rattle.json_lines.specs.Verdicts.{choices_members};

    ghost output = { λ c. Some (choices_members c.0 c.1.0 c.1.1 c.2.0 c.2.1 c.3) };

    #[tactic(auto, unfolding(crate::specs::Verdicts::choices_members))]
    fn fmt<W: fmt::Write>(&self, f: &mut fmt::Formatter<W>) -> fmt::Result {
        let slot = self.0;
        let first = self.1;
        let later = self.2;
        let drained = BoolText(self.3);
        write!(
            f,
            "\"slot\":{slot},\"first\":{{{first}}},\"later\":{{{later}}},\"drained\":{drained}"
        )
    }
}

/// A verdict, and whether the first packet's server left after it had drained, printed as `"verdict":"VERDICT"` and what else
/// a split has.
#[derive(Clone, Copy)]
struct VerdictMembers(Verdict, bool);

impl fmt::Display for VerdictMembers {
    ghost use Rattle.std.specs.Prelude.{Some};
    ghost use Rattle.json_lines.specs.Verdicts.{verdict_members};

    ghost output = { λ v. Some (verdict_members v.0 v.1) };

    fn fmt<W: fmt::Write>(&self, f: &mut fmt::Formatter<W>) -> fmt::Result {
        match self.0 {
            Verdict::NotSent => f.write_str("\"verdict\":\"not sent\""),
            Verdict::OtherFlow => f.write_str("\"verdict\":\"other flow\""),
            Verdict::Same => f.write_str("\"verdict\":\"same\""),
            Verdict::Split {
                slot,
                v1,
                v2,
                b1,
                b2,
            } => {
                let first = ChoiceMembers(v1, b1);
                let later = ChoiceMembers(v2, b2);
                let choices = ChoicesMembers(slot, first, later, self.1);
                write!(f, "\"verdict\":\"split\",{choices}")
            }
        }
    }
}

/// Puts the line of a verdict after a text. Of a split it says whether the first packet's server left after it had drained.
pub fn push_json_verdict(
    text: &mut String,
    verdict: &Verdict,
    drained: bool,
) -> Result<(), AllocError>
    ensures { OnOk result (string_bytes text.new ≡ string_bytes text.old ++ verdict_json verdict.now drained) }
{
    let verdict = VerdictMembers(*verdict, drained);
    write!(text, "{{\"type\":\"explain\",{verdict}}}\n")
}
