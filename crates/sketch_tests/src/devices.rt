// Devices that fail at one of their calls.
ghost use Rattle.std.specs.Prelude.{None};
ghost use Rattle.pcap_file.specs.Host.{taped};

use pcap_file::{CallCounts, DeviceFault, Sink, Source};
use std::alloc::Global;

/// A source that gives 16 bytes a call, and fails at one call.
#[derive(Drop)]
pub(crate) struct FailingSource<'a> {
    pub(crate) bytes: &'a [u8],
    pub(crate) fails_at: u64,
    pub(crate) counts: CallCounts,
}

/// A sink that takes 16 bytes a call, and fails at one call.
#[derive(Drop)]
pub(crate) struct FailingSink {
    pub(crate) bytes: Vec<u8>,
    pub(crate) fails_at: u64,
    pub(crate) counts: CallCounts,
}

pub(crate) fn source(bytes: &[u8], fails_at: u64) -> FailingSource<'_> {
    FailingSource {
        bytes,
        fails_at,
        counts: CallCounts::none(),
    }
}

pub(crate) fn sink(alloc: Global, fails_at: u64) -> FailingSink {
    FailingSink {
        bytes: Vec::new(alloc),
        fails_at,
        counts: CallCounts::none(),
    }
}

impl Source for FailingSource<'_> {
    ghost tape = { λ s. taped None s.counts };

    fn read(&mut self, buf: &mut [u8]) -> Result<usize, DeviceFault> {
        let call = self.counts.calls;
        self.counts.call();
        if call == self.fails_at {
            return Err(self.counts.fault(false));
        }
        let n = buf.len().min(self.bytes.len()).min(16);
        buf[..n].copy_from_slice(&self.bytes[..n]);
        self.bytes = &self.bytes[n..];
        Ok(n)
    }
}

impl Sink for FailingSink {
    ghost tape = { λ s. taped None s.counts };

    fn write(&mut self, buf: &[u8]) -> Result<usize, DeviceFault> {
        let call = self.counts.calls;
        self.counts.call();
        if call == self.fails_at {
            return Err(self.counts.fault(false));
        }
        let n = buf.len().min(16);
        match self.bytes.extend_from_slice(&buf[..n]) {
            Ok(()) => Ok(n),
            Err(_) => Err(self.counts.fault(false)),
        }
    }
}
