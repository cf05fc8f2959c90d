//! Why a run has no record.
ghost use Rattle.std.specs.Prelude.{◌≡◌, IfSome};
ghost use Rattle.thread_roles.specs.Faults.{IsRefusal, first_fault, rank_of, run_fault};

use std::alloc::AllocError;
use thiserror::Error;
use thread_records::LifeFault;

/// Why a run has no record. Memory comes before ThreadLost. Where neither came, all records are compared after the joins,
/// and then Foreign comes before RingLost, and BookLost is last.
#[derive(Clone, Copy, Debug, PartialEq, Eq, Drop, Error)]
pub enum RunFault {
    /// A version was used that was not installed on the node before, or that isn't the catalogue's, prepared for the cluster.
    #[error("a worker used a version that wasn't installed on its node")]
    Foreign,
    /// What a worker took isn't what was placed on it, or what was gathered isn't a merge of what the workers sent. Or a
    /// ring refused a packet before it had taken as many as it has places.
    #[error("a ring lost, changed or refused a packet")]
    RingLost,
    /// A thread couldn't be started, had no place to read versions, or couldn't read them any more.
    #[error("a thread can't be started, or can't read versions")]
    ThreadLost,
    /// The book of the run's counts refused one: a count was at its greatest, or no packet waited.
    #[error("the book of counts refused one")]
    BookLost,
    /// Memory was refused.
    #[error("out of memory")]
    Memory,
}

impl From<AllocError> for RunFault {
    ghost use Rattle.thread_roles.specs.declared.fault.RunFault.TheVariants.{Memory};

    ghost from_gives = { λ _ e. e ≡ Memory };

    fn from(_refusal: AllocError) -> RunFault
        ensures { result ≡ Memory }
    {
        RunFault::Memory
    }
}

/// The same fault of a life's records.
pub fn fault_of(fault: LifeFault) -> RunFault
    ensures { result ≡ run_fault fault }
{
    match fault {
        LifeFault::Foreign => RunFault::Foreign,
        LifeFault::RingLost => RunFault::RingLost,
        LifeFault::Memory => RunFault::Memory,
    }
}

// The place of a fault in the order in which faults are reported.
fn rank(fault: RunFault) -> u8
    ensures { result ≡ rank_of fault }
{
    match fault {
        RunFault::Memory => 0,
        RunFault::ThreadLost => 1,
        RunFault::Foreign => 2,
        RunFault::RingLost => 3,
        RunFault::BookLost => 4,
    }
}

/// The fault of two that is reported.
pub fn first_of(fault: Option<RunFault>, other: RunFault) -> RunFault
    ensures first { result ≡ first_fault fault other }
    ensures refusal { IfSome fault (λ f. IsRefusal f) → IsRefusal other → IsRefusal result }
{
    match fault {
        Some(fault) if rank(fault) <= rank(other) => fault,
        _ => other,
    }
}
