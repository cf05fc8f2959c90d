//! The first records of a capture.
ghost use Rattle.std.specs.Prelude.{◌≡◌, ◌⊎◌, true, [], OnOk, OnErr};
ghost use Rattle.std.specs.Fn.{FnReturnsAt};
ghost use Rattle.pcap_file.specs.Format.{packet};
ghost use Rattle.run_records.specs.Firsts.{Sparing, one_more, stopped, IsSplit};

use crate::records::Records;
use ghost_log::Log;
use pcap_file::Frame;
use std::alloc::{AllocError, Global};
use std::marker::Model;

// Where so many are kept it is asked for the first time whether they are enough, and at the earliest so many further on again.
const ASKED_AFTER: usize = 1_024;

/// The first records of a capture, and how many come behind them.
#[derive(Drop)]
pub(crate) struct FirstRecords {
    limit: usize,
    // At so many kept ones it is asked again whether they are enough.
    mark: usize,
    kept: Records,
    others: usize,
    // What isn't kept, the last in front.
    log: Log<Frame>,
}

impl Model for FirstRecords {
    ghost use Rattle.std.specs.Prelude.{◌≡◌, ◌≤◌, ◌⊎◌, ◌++◌, length, map, reverse};
    ghost use Rattle.pcap_file.specs.Format.{packet};
    ghost use Rattle.run_records.specs.Firsts.{Sparing};

    ghost Value = { Sparing };

    ghost view = { λ f. record { limit = f.limit; kept = f.kept; all = f.kept ++ reverse (map packet f.log.items) } };

    ghost invariant = { λ f. (f.others ≡ length f.log.items) × ((f.others ≡ 0) ⊎ (f.limit ≤ length f.kept)) };
}

impl FirstRecords {
    /// No records. At most so many are kept.
    pub(crate) fn new(alloc: Global, limit: usize) -> FirstRecords
        ensures { result ≡ record { limit = limit; kept = []; all = [] } }
    {
        FirstRecords {
            limit,
            mark: ASKED_AFTER,
            kept: Records::new(alloc),
            others: 0,
            log: Log::new(),
        }
    }

    /// One record more: a copy of the frame, or one in the count. Where memory is refused the records stay.
    pub(crate) fn push(&mut self, frame: &Frame) -> Result<(), AllocError>
        ensures ok { OnOk result (self.new ≡ one_more self.old (packet frame.now)) }
        ensures err { OnErr result (self.new ≡ self.old) }
    {
        if self.kept.len() < self.limit {
            return match self.kept.push(frame) {
                Ok(()) => Ok(()),
                Err(refusal) => Err(refusal),
            };
        }
        let Some(others) = self.others.checked_add(1) else {
            return Err(AllocError);
        };
        self.others = others;
        self.log = self.log.and(frame);
        Ok(())
    }

    // Whether as many are kept as the mark says. If so it goes on by an eighth, so that asking goes over the records nine times at most.
    fn passes_mark(&mut self) -> bool
        ensures { self.new ≡ self.old }
    {
        let kept = self.kept.len();
        if kept < self.mark {
            return false;
        }
        self.mark = kept.saturating_add(ASKED_AFTER.max(kept / 8));
        true
    }

    /// Keeps no more, where those that are kept are enough. That is asked only from mark to mark.
    pub(crate) fn ask<F: Fn(&Records) -> bool>(&mut self, enough: &F)
        requires { F.IsAlwaysCallable enough.now }
        ensures asked { (self.new ≡ self.old) ⊎ ((self.new ≡ stopped self.old) × FnReturnsAt F.Fn enough.entry.now self.old.kept true) }
        ensures all { self.new.all ≡ self.old.all }
    {
        if self.passes_mark() && enough(&self.kept) {
            self.limit = self.kept.len();
        }
    }

    /// Those that are kept, and how many others there are.
    pub(crate) fn split(self) -> (Records, usize)
        ensures kept { result.0 ≡ self.kept }
        ensures split { IsSplit (λ rs. ⊥) self.limit self.all result.0 result.1 }
    {
        let FirstRecords { kept, others, .. } = self;
        (kept, others)
    }
}
