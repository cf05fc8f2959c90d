//! The faults of the crates below, as a command's.
ghost use Rattle.std.specs.Prelude.{◌≡◌};
ghost use Rattle.command_faults.specs.declared.fault.CliFault.TheVariants.{Memory};
ghost use Rattle.command_faults.specs.Faults.{capture_fault, pool_fault, run_fault, scenario_fault, threads_fault};

use super::fault::CliFault;
use pcap_file::PcapFault;
use pool_versions::PoolFault;
use scenario::ScenarioFault;
use simulation::SimulationFault;
use std::alloc::AllocError;
use thread_roles::RunFault;

impl From<AllocError> for CliFault {
    ghost from_gives = { λ _ fault. fault ≡ Memory };

    fn from(_error: AllocError) -> CliFault {
        CliFault::Memory
    }
}

// The fault of a command whose versions were refused.
impl From<PoolFault> for CliFault {
    ghost from_gives = { λ refusal fault. fault ≡ pool_fault refusal };

    fn from(refusal: PoolFault) -> CliFault {
        match refusal {
            PoolFault::Memory => CliFault::Memory,
            refusal => CliFault::Pool(refusal),
        }
    }
}

// The fault of a command that couldn't read or write a capture.
impl From<PcapFault> for CliFault {
    ghost from_gives = { λ refusal fault. fault ≡ capture_fault refusal };

    fn from(refusal: PcapFault) -> CliFault {
        match refusal {
            PcapFault::Memory => CliFault::Memory,
            refusal => CliFault::Capture(refusal),
        }
    }
}

// The fault of a command whose scenario was refused.
impl From<ScenarioFault> for CliFault {
    ghost from_gives = { λ refusal fault. fault ≡ scenario_fault refusal };

    fn from(refusal: ScenarioFault) -> CliFault {
        match refusal {
            ScenarioFault::TooLong => CliFault::TooLong,
            ScenarioFault::BadToml => CliFault::BadToml,
            ScenarioFault::BadFormat => CliFault::BadFormat,
            ScenarioFault::BadKey => CliFault::BadKey,
            ScenarioFault::BadMember => CliFault::BadMember,
            ScenarioFault::Pool(refusal) => CliFault::from(refusal),
            ScenarioFault::BadStep(step) => CliFault::BadStep(step),
            ScenarioFault::Memory => CliFault::Memory,
        }
    }
}

// The fault of a command whose run over a capture stopped.
impl From<SimulationFault> for CliFault {
    ghost from_gives = { λ stop fault. fault ≡ run_fault stop };

    fn from(stop: SimulationFault) -> CliFault {
        match stop {
            SimulationFault::Capture(refusal) => CliFault::from(refusal),
            SimulationFault::Write => CliFault::Write,
            SimulationFault::Memory => CliFault::Memory,
        }
    }
}

// The fault of a command whose run on threads has no record.
impl From<RunFault> for CliFault {
    ghost from_gives = { λ stop fault. fault ≡ threads_fault stop };

    fn from(stop: RunFault) -> CliFault {
        match stop {
            RunFault::Foreign => CliFault::Foreign,
            RunFault::RingLost => CliFault::RingLost,
            RunFault::ThreadLost => CliFault::ThreadLost,
            RunFault::BookLost => CliFault::BookLost,
            RunFault::Memory => CliFault::Memory,
        }
    }
}
