// The standard library's readers and writers as devices.
ghost use Rattle.std.specs.Prelude.{◌≡◌, ◌<◌, ◌^◌, false, Ok, Err};
ghost use Rattle.pcap_file.specs.Device.{fault_for, failures_after, interruptions_after};

use crate::counts::CallCounts;
use crate::device::{DeviceFault, Sink, Source};
use std::fmt;
use std::io::{ErrorKind, Read, Write};

/// A reader as a source. An error that isn't Interrupted is a failure.
#[derive(Drop)]
pub struct FromRead<R> {
    reader: R,
    counts: CallCounts,
}

impl<R> fmt::Debug for FromRead<R> {
    fn fmt<W: fmt::Write>(&self, f: &mut fmt::Formatter<W>) -> fmt::Result {
        f.debug_struct("FromRead")
            .field("counts", &self.counts)
            .finish_non_exhaustive()
    }
}

impl<R: Read> FromRead<R> {
    ghost use Rattle.pcap_file.specs.Host.{uncalled};

    /// The reader, with nothing counted.
    pub fn new(reader: R) -> FromRead<R>
        ensures { ⟦<FromRead<R> as Source>⟧.tape result ≡ uncalled (R.remaining reader) }
    {
        FromRead {
            reader,
            counts: CallCounts::none(),
        }
    }

    /// The reader back.
    pub fn into_inner(self) -> R
        ensures { R.remaining result ≡ (⟦<FromRead<R> as Source>⟧.tape self).bytes }
    {
        self.reader
    }
}

impl<R: Read> Source for FromRead<R> {
    ghost use Rattle.pcap_file.specs.Host.{taped};

    ghost tape = { λ s. taped (R.remaining s.reader) s.counts };

    #[inline(always)]
    fn read(&mut self, buf: &mut [u8]) -> Result<usize, DeviceFault> {
        self.counts.call();
        match self.reader.read(buf) {
            Ok(n) => Ok(n),
            Err(e) => Err(self.counts.fault(e.kind() == ErrorKind::Interrupted)),
        }
    }
}

/// A writer as a sink. An error that isn't Interrupted is a failure, and so is a write that takes none
/// of some bytes. It isn't flushed.
#[derive(Drop)]
pub struct ToWrite<W> {
    writer: W,
    counts: CallCounts,
}

impl<W> fmt::Debug for ToWrite<W> {
    fn fmt<F: fmt::Write>(&self, f: &mut fmt::Formatter<F>) -> fmt::Result {
        f.debug_struct("ToWrite")
            .field("counts", &self.counts)
            .finish_non_exhaustive()
    }
}

impl<W: Write> ToWrite<W> {
    ghost use Rattle.pcap_file.specs.Host.{uncalled};

    /// The writer, with nothing counted.
    pub fn new(writer: W) -> ToWrite<W>
        ensures { ⟦<ToWrite<W> as Sink>⟧.tape result ≡ uncalled (W.contents writer) }
    {
        ToWrite {
            writer,
            counts: CallCounts::none(),
        }
    }

    /// The writer back.
    pub fn into_inner(self) -> W
        ensures { W.contents result ≡ (⟦<ToWrite<W> as Sink>⟧.tape self).bytes }
    {
        self.writer
    }
}

// What a write is answered with that took so many of the bytes that were wanted: none of some is a failure.
#[inline(always)]
fn taken(counts: &mut CallCounts, count: usize, wanted: usize) -> Result<usize, DeviceFault>
    ensures none { count ≡ 0 → 0 < wanted → result ≡ Err (fault_for false counts.old.failures) }
    ensures some { 0 < count → result ≡ Ok count }
    ensures nothing { wanted ≡ 0 → result ≡ Ok count }
    ensures failures { counts.new.failures ≡ failures_after counts.old.failures result }
    ensures few { counts.new.failures < 2 ^ 64 }
    ensures interruptions { counts.new.interruptions ≡ interruptions_after counts.old.interruptions result }
    ensures calls { counts.new.calls ≡ counts.old.calls }
{
    if count == 0 && wanted > 0 {
        return Err(counts.fault(false));
    }
    let _failures = counts.failures;
    Ok(count)
}

impl<W: Write> Sink for ToWrite<W> {
    ghost use Rattle.pcap_file.specs.Host.{taped};

    ghost tape = { λ s. taped (W.contents s.writer) s.counts };

    #[inline(always)]
    fn write(&mut self, buf: &[u8]) -> Result<usize, DeviceFault> {
        self.counts.call();
        match self.writer.write(buf) {
            Ok(count) => taken(&mut self.counts, count, buf.len()),
            Err(e) => Err(self.counts.fault(e.kind() == ErrorKind::Interrupted)),
        }
    }
}
