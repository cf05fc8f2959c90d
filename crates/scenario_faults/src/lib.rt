//! The fault of a command over a scenario, and where in the scenario it is.
#![tactic(auto)]

ghost use Rattle.std.specs.Prelude.{◌≡◌, ◌≢◌, IfOk, IfErr};
ghost use Rattle.scenario.specs.declared.playing.Played.TheVariants.{InTurn, OnThreads, NotAtAll};
ghost use Rattle.scenario.specs.Meaning.{Means};
ghost use Rattle.scenario_faults.specs.Refusals.{ScenarioFails, IsPlaced};

use command_faults::CliFault;
use scenario::{Place, Played, Refused, Scenario, ThreadScenario, read_for_threads, read_placed};
use std::alloc::Global;

/// Why a command over a scenario gave up, and where in the scenario that is.
#[derive(Clone, Copy, Debug, PartialEq, Eq)]
pub struct PlacedFault {
    /// Why it gave up.
    pub fault: CliFault,
    /// The place of the scenario's own fault, where that has one. None where the fault is another.
    pub place: Option<Place>,
}

impl From<Refused> for PlacedFault {
    ghost use Rattle.scenario_faults.specs.Refusals.{placed_fault};

    ghost from_gives = { λ refused placed. placed ≡ placed_fault refused };

    fn from(refused: Refused) -> PlacedFault {
        PlacedFault {
            fault: CliFault::from(refused.fault),
            place: refused.place,
        }
    }
}

/// The scenario that a text means, which is played in turn, or why a command over it gives up.
pub fn scenario_in(alloc: Global, text: &[u8]) -> Result<Scenario, PlacedFault>
    ensures means { IfOk result (Means InTurn text.now) }
    ensures refused { IfErr result (λ r. ScenarioFails InTurn r.fault text.now) }
    ensures devices { IfErr result (λ r. (r.fault ≢ CliFault.Read) × (r.fault ≢ CliFault.Write)) }
    ensures place { IfErr result (IsPlaced InTurn text.now) }
{
    Ok(read_placed(alloc, Played::InTurn, text)?)
}

/// The same of a scenario that isn't played, which may have any step.
pub fn unplayed_scenario_in(alloc: Global, text: &[u8]) -> Result<Scenario, PlacedFault>
    ensures means { IfOk result (Means NotAtAll text.now) }
    ensures refused { IfErr result (λ r. ScenarioFails NotAtAll r.fault text.now) }
    ensures devices { IfErr result (λ r. (r.fault ≢ CliFault.Read) × (r.fault ≢ CliFault.Write)) }
    ensures place { IfErr result (IsPlaced NotAtAll text.now) }
{
    Ok(read_placed(alloc, Played::NotAtAll, text)?)
}

/// The same of a scenario that is played on threads.
pub fn thread_scenario_in(alloc: Global, text: &[u8]) -> Result<ThreadScenario, PlacedFault>
    ensures means { IfOk result (λ t. Means OnThreads text.now t.scenario) }
    ensures refused { IfErr result (λ r. ScenarioFails OnThreads r.fault text.now) }
    ensures devices { IfErr result (λ r. (r.fault ≢ CliFault.Read) × (r.fault ≢ CliFault.Write)) }
    ensures place { IfErr result (IsPlaced OnThreads text.now) }
{
    Ok(read_for_threads(alloc, text)?)
}
