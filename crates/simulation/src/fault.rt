use pcap_file::PcapFault;
use std::alloc::AllocError;
use thiserror::Error;

/// Why a run over a capture stopped.
#[derive(Clone, Copy, Debug, PartialEq, Eq, Drop, Error)]
pub enum SimulationFault {
    /// The input isn't a capture, or couldn't be read.
    #[error(transparent)]
    Capture(PcapFault),
    /// The output couldn't be written.
    #[error("the output can't be written")]
    Write,
    /// Memory was refused.
    #[error("out of memory")]
    Memory,
}

impl From<AllocError> for SimulationFault {
    ghost use Rattle.std.specs.Prelude.{◌≡◌};
    ghost use Rattle.simulation.specs.declared.fault.SimulationFault.TheVariants.{Memory};

    ghost from_gives = { λ _ fault. fault ≡ Memory };

    fn from(_: AllocError) -> SimulationFault {
        SimulationFault::Memory
    }
}

impl From<PcapFault> for SimulationFault {
    ghost use Rattle.std.specs.Prelude.{◌≡◌};
    ghost use Rattle.simulation.specs.declared.fault.SimulationFault.TheVariants.{Capture};

    ghost from_gives = { λ refusal fault. fault ≡ Capture refusal };

    fn from(refusal: PcapFault) -> SimulationFault {
        SimulationFault::Capture(refusal)
    }
}
