//! Numbers, each at a place.
ghost use Rattle.std.specs.Prelude.{◌≡◌, ◌≤◌, ◌==◌, ℕ, IfOk, OnOk, max, slice_index, vec_len, if◌then◌else◌};

use std::alloc::{AllocError, Global};

/// Numbers, each at a place. Where none was put it is 0.
#[derive(Drop)]
pub(crate) struct Numbers {
    all: Vec<u64>,
}

impl Numbers {
    /// None was put.
    pub(crate) fn new(alloc: Global) -> Numbers
        ensures { (k : ℕ) → slice_index result.all.items k ≡ 0 }
    {
        Numbers {
            all: Vec::new(alloc),
        }
    }

    /// The number at a place.
    pub(crate) fn at(&self, place: u32) -> u64
        ensures { result ≡ slice_index self.now.all.items place }
    {
        self.all.get(place as usize).copied().unwrap_or(0)
    }

    // Makes room for so many places.
    fn reach(&mut self, len: usize) -> Result<(), AllocError>
        ensures room { OnOk result (len ≤ vec_len self.new.all) }
        ensures same { OnOk result ((k : ℕ) → slice_index self.new.all.items k ≡ slice_index self.old.all.items k) }
    {
        for _ in self.all.len()..len {
            let Ok(()) = self.all.push(0) else {
                return Err(AllocError);
            };
        }
        Ok(())
    }

    // Puts a number at the first place behind the others.
    fn push(&mut self, number: u64) -> Result<(), AllocError>
        ensures { OnOk result ((k : ℕ) → slice_index self.new.all.items k ≡ (if vec_len self.old.all == k then number else slice_index self.old.all.items k)) }
    {
        let Ok(()) = self.all.push(number) else {
            return Err(AllocError);
        };
        Ok(())
    }

    /// Puts a number at a place. Where memory is refused the others are as they were.
    #[inline(always)]
    pub(crate) fn put(&mut self, place: u32, number: u64) -> Result<(), AllocError>
        ensures { OnOk result ((k : ℕ) → slice_index self.new.all.items k ≡ (if place == k then number else slice_index self.old.all.items k)) }
    {
        let at = place as usize;
        if at < self.all.len() {
            self.all[at] = number;
            return Ok(());
        }
        if at == self.all.len() {
            return self.push(number);
        }
        self.reach(at + 1)?;
        self.all[at] = number;
        Ok(())
    }

    /// Raises the number at a place to this one where it is lower. The answer is the number that stands there then.
    #[inline(always)]
    pub(crate) fn raise(&mut self, place: u32, number: u64) -> Result<u64, AllocError>
        ensures value { IfOk result (λ m. m ≡ max (slice_index self.old.all.items place) number) }
        ensures numbers { OnOk result ((k : ℕ) → slice_index self.new.all.items k ≡
            (if place == k then max (slice_index self.old.all.items place) number else slice_index self.old.all.items k)) }
    {
        let raised = self.at(place).max(number);
        self.put(place, raised)?;
        Ok(raised)
    }
}
