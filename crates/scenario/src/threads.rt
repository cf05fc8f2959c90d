//! A scenario that is played on threads.
ghost use Rattle.scenario.specs.Meaning.{IsSupported};
ghost use Rattle.scenario.specs.declared.playing.Played.TheVariants.{OnThreads};

use crate::plan::Scenario;

/// A scenario that a cluster on threads can play. By its type each step is one that such a cluster knows: none is a `full`, a
/// `hold` or a `drain`.
#[derive(Debug, Drop)]
pub struct ThreadScenario {
    /// What is played.
    pub scenario: Scenario,
    pub ghost supported: { IsSupported OnThreads scenario },
}
