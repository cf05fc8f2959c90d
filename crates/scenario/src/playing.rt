//! How a scenario is played.
ghost use Rattle.std.specs.Prelude.{◌≡◌};
ghost use Rattle.scenario.specs.Steps.{plain_step, allows};

use event_trace::ScenarioStep;

/// How a scenario is played, which decides what steps it may have.
#[derive(Clone, Copy, Debug, PartialEq, Eq)]
pub enum Played {
    /// Step by step, as `simulate` and `explain` do: it has no `stop`.
    InTurn,
    /// By threads, as `run` does: it has no `full`, `hold` and `drain`.
    OnThreads,
    /// Not at all, as `plan` and `table` read one: it may have any step that is played in turn or on threads.
    NotAtAll,
}

impl Played {
    /// Whether a scenario that is played so may have this step.
    pub(crate) fn allows(self, step: &ScenarioStep) -> bool
        ensures { result ≡ allows self (plain_step step.now) }
    {
        match self {
            Played::InTurn => match step {
                ScenarioStep::Stop(_) => false,
                _ => true,
            },
            Played::OnThreads => match step {
                ScenarioStep::Full { node: _, marks: _ } => false,
                ScenarioStep::Hold(_) => false,
                ScenarioStep::Drain(_) => false,
                _ => true,
            },
            Played::NotAtAll => true,
        }
    }
}
