// The counts that a device reports.
ghost use Rattle.std.specs.Prelude.{◌≡◌, ◌<◌, ◌^◌};
ghost use Rattle.pcap_file.specs.Device.{Called, fault_for, failures_with, interruptions_with};

use crate::device::DeviceFault;

/// How often a device failed, was interrupted and was called.
#[derive(Clone, Copy, Debug, PartialEq, Eq)]
pub struct CallCounts {
    /// Its failures.
    pub failures: u64,
    /// Its interruptions: the count stays at its greatest.
    pub interruptions: u64,
    /// Its calls, modulo 2 ^ 64.
    pub calls: u64,
}

impl CallCounts {
    /// Those of a device that wasn't called.
    pub fn none() -> CallCounts
        ensures { result ≡ record { failures = 0; interruptions = 0; calls = 0 } }
    {
        CallCounts {
            failures: 0,
            interruptions: 0,
            calls: 0,
        }
    }

    /// Counts a call.
    pub fn call(&mut self)
        ensures calls { Called 1 self.old.calls self.new.calls }
        ensures failures { self.new.failures ≡ self.old.failures }
        ensures few { self.new.failures < 2 ^ 64 }
        ensures interruptions { self.new.interruptions ≡ self.old.interruptions }
    {
        let _failures = self.failures;
        self.calls = self.calls.wrapping_add(1);
    }

    /// Counts a fault of the call that was counted last. At the greatest count of failures each fault is reported as an
    /// interruption.
    pub fn fault(&mut self, is_interrupted: bool) -> DeviceFault
        ensures told { result ≡ fault_for is_interrupted self.old.failures }
        ensures failures { self.new.failures ≡ failures_with self.old.failures result }
        ensures few { self.new.failures < 2 ^ 64 }
        ensures interruptions { self.new.interruptions ≡ interruptions_with self.old.interruptions result }
        ensures calls { self.new.calls ≡ self.old.calls }
    {
        let interruptions = self.interruptions;
        if is_interrupted || self.failures == u64::MAX {
            self.interruptions = interruptions.saturating_add(1);
            return DeviceFault::Interrupted;
        }
        self.failures += 1;
        DeviceFault::Failed
    }
}
