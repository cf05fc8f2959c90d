//! What a worker's thread promises.
ghost use Rattle.std.specs.Prelude.{MatchResult};
ghost use Rattle.thread_roles.specs.Counts.{IsWork};
ghost use Rattle.thread_roles.specs.Faults.{IsRefusal};

use crate::fault::RunFault;
use crate::tally::ThreadShares;
use connection_table::ConnTable;
use selection::Scheme;
use stats_book::Names;
use std::fmt;
use std::thread::Promise;
use thread_records::WorkerRecord;

/// What a worker did in a life: its record, and what it counted.
#[derive(Drop)]
pub struct WorkerRun<S: Scheme, T: ConnTable, B: Names> {
    /// What it handled.
    pub record: WorkerRecord<S, T>,
    /// What it counted.
    pub tally: ThreadShares<B>,
}

impl<S: Scheme, T: ConnTable, B: Names> fmt::Debug for WorkerRun<S, T, B> {
    fn fmt<W: fmt::Write>(&self, f: &mut fmt::Formatter<W>) -> fmt::Result {
        f.debug_struct("WorkerRun")
            .field("record", &self.record)
            .finish_non_exhaustive()
    }
}

/// What a worker's thread promises: that it counted what it handled, and else that memory was refused or what is shown couldn't
/// be read.
#[derive(Clone, Copy, Debug, Drop)]
pub struct CountsOwn;

impl<S: Scheme, T: ConnTable, B: Names> Promise<Result<WorkerRun<S, T, B>, RunFault>>
    for CountsOwn {
    ghost kept_by = { λ p r. MatchResult r (λ w. IsWork w.record w.tally.lost w.tally.shares) (λ fault. IsRefusal fault) };
}
