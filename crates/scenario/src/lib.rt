//! Scenarios: what a TOML document says that a cluster is and what happens to it.
//!
//! [`read`] answers the scenario that a text means, or the first of its faults. Which one is a function of how it is played
//! and of the document's members, stated apart from the code: `plan_of` in `specs/Meaning.antt`. [`read_placed`] also tells
//! the fault's place, by `IsAt` in `specs/Places.antt`.
#![tactic(auto)]

mod draft;
mod fault;
mod laws;
mod plan;
mod playing;
mod reading;
mod refused;
mod setup;
mod step;
mod threads;
mod times;
mod told;

pub use event_trace::ScenarioStep;
pub use fault::ScenarioFault;
pub use laws::{formats_mean_the_same, texts_are_steps};
pub use plan::Scenario;
pub use playing::Played;
pub use reading::{read, read_for_threads, read_placed};
pub use refused::Refused;
pub use scenario_keys::{Format, Key, SchemeKind, SpreadKind, format_of};
pub use threads::ThreadScenario;
pub use timed_steps::TimedStep;
pub use version_drafts::{Flaw, Place};
