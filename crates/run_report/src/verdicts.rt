//! Why two packets went where they went.
ghost use Rattle.std.specs.Prelude.{◌≡◌, IfOk, string_bytes};
ghost use Rattle.run_report.specs.Verdicts.{verdict_text, is_split, drained_end, left_drained, explained_text};
ghost use Rattle.run_report.specs.Causes.{Lookups};
ghost use Rattle.selection.specs.Candidates.{candidates_of};

use crate::cause::{SplitCause, cause_of};
use crate::sending::{Sending, Split};
use cluster_core::Verdict;
use maglev_texts::BackendText;
use pool_versions::{Backend, Catalogue};
use std::alloc::{AllocError, Global};
use std::fmt;

/// A version and the backend that was chosen under it, printed as `version V BACKEND`.
#[derive(Clone, Copy, Debug)]
pub struct ChoiceText(pub u32, pub Backend);

#[derive(Clone, Copy)]
struct VerdictText(Verdict);

impl fmt::Display for ChoiceText {
    ghost use Rattle.std.specs.Prelude.{Some};
    ghost use Rattle.run_report.specs.Verdicts.{choice_text};

    ghost output = { λ c. Some (choice_text c.0 c.1) };

    fn fmt<W: fmt::Write>(&self, f: &mut fmt::Formatter<W>) -> fmt::Result {
        let version = self.0;
        let backend = BackendText(self.1);
        write!(f, "version {version} {backend}")
    }
}

impl fmt::Display for VerdictText {
    ghost use Rattle.std.specs.Prelude.{Some};
    ghost use Rattle.run_report.specs.Verdicts.{verdict_words};

    ghost output = { λ v. Some (verdict_words v.0) };

    fn fmt<W: fmt::Write>(&self, f: &mut fmt::Formatter<W>) -> fmt::Result {
        match self.0 {
            Verdict::NotSent => f.write_str("not sent"),
            Verdict::OtherFlow => f.write_str("other flow"),
            Verdict::Same => f.write_str("same"),
            Verdict::Split {
                slot,
                v1,
                v2,
                b1,
                b2,
            } => {
                let one = ChoiceText(v1, b1);
                let other = ChoiceText(v2, b2);
                write!(f, "split slot {slot} {one} {other}")
            }
        }
    }
}

/// The line that a verdict is.
pub fn verdict_text(alloc: Global, verdict: &Verdict) -> Result<String, AllocError>
    ensures { IfOk result (λ s. string_bytes s ≡ verdict_text verdict.now) }
{
    let verdict = VerdictText(*verdict);
    format!(in alloc; "{verdict}\n")
}

fn is_split(verdict: &Verdict) -> bool
    ensures { result ≡ is_split verdict.now }
{
    match verdict {
        Verdict::Split { .. } => true,
        Verdict::NotSent | Verdict::OtherFlow | Verdict::Same => false,
    }
}

/// Whether two packets were sent, and the first one's server had left after it had drained when the later one was served.
pub fn left_drained(catalogue: &Catalogue, first: Option<Sending>, later: Option<Sending>) -> bool
    ensures { (lookups : Lookups) → lookups.ups ≡ (λ v x. candidates_of catalogue.now v x) → lookups.versions ≡ catalogue.now.versions →
        result ≡ left_drained lookups first later }
{
    let (Some(first), Some(later)) = (first, later) else {
        return false;
    };
    match cause_of(catalogue, &Split { first, later }) {
        SplitCause::Drained => true,
        SplitCause::Down | SplitCause::Moved => false,
    }
}

fn drained_end(drained: bool) -> &'static str
    ensures { result.now ≡ drained_end drained }
{
    if drained { " drained" } else { "" }
}

/// The line that a verdict is. Behind a split it says that the first packet's server left after it had drained, where it did.
pub fn explained_text(alloc: Global, verdict: &Verdict, drained: bool) -> Result<String, AllocError>
    ensures { IfOk result (λ s. string_bytes s ≡ explained_text verdict.now drained) }
{
    let end = drained_end(is_split(verdict) && drained);
    let verdict = VerdictText(*verdict);
    format!(in alloc; "{verdict}{end}\n")
}
