//! Why a run on threads stopped.
use node_threads::RunFault;
use simulation::SimulationFault;
use std::alloc::AllocError;
use thiserror::Error;

/// Why the run of a scenario's cluster on threads stopped.
#[derive(Clone, Copy, Debug, PartialEq, Eq, Drop, Error)]
pub enum RunFailure {
    /// The input isn't a capture or couldn't be read, the output couldn't be written, or memory was refused.
    #[error(transparent)]
    Simulation(SimulationFault),
    /// The threads' run had this fault.
    #[error(transparent)]
    Threads(RunFault),
}

impl From<SimulationFault> for RunFailure {
    ghost use Rattle.std.specs.Prelude.{◌≡◌};
    ghost use Rattle.run_scenario.specs.declared.failure.RunFailure.TheVariants.{Simulation};

    ghost from_gives = { λ fault stop. stop ≡ Simulation fault };

    fn from(fault: SimulationFault) -> RunFailure {
        RunFailure::Simulation(fault)
    }
}

impl From<RunFault> for RunFailure {
    ghost use Rattle.std.specs.Prelude.{◌≡◌};
    ghost use Rattle.run_scenario.specs.declared.failure.RunFailure.TheVariants.{Threads};

    ghost from_gives = { λ fault stop. stop ≡ Threads fault };

    fn from(fault: RunFault) -> RunFailure {
        RunFailure::Threads(fault)
    }
}

impl From<AllocError> for RunFailure {
    ghost use Rattle.std.specs.Prelude.{◌≡◌};
    ghost use Rattle.simulation.specs.declared.fault.SimulationFault.TheVariants.{Memory};
    ghost use Rattle.run_scenario.specs.declared.failure.RunFailure.TheVariants.{Simulation};

    ghost from_gives = { λ _ stop. stop ≡ Simulation Memory };

    fn from(_: AllocError) -> RunFailure {
        RunFailure::Simulation(SimulationFault::Memory)
    }
}
