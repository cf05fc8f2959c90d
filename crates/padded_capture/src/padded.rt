// A source that is padded.
ghost use Rattle.std.specs.Prelude.{◌≡◌, ◌<◌, length, OnOk, ◌⊎◌, false};
ghost use Rattle.std.specs.Io.{ReadsAtMost};
ghost use Rattle.std.specs.Io.KnownBytes.{ReadConsumes, Keeps};
ghost use Rattle.pcap_file.specs.Host.{taped};
ghost use Rattle.padded_capture.specs.Stages.{coming_of, IsTurn, IsOver};

use crate::stage::{Stage, Turn};
use pcap_file::{CallCounts, DeviceFault, Source};
use std::fmt;

/// A capture's source, whose cut records come as long as their frames were.
///
/// Each call reads the source once at most. A fault of the source is this one's, at the same place, and none of the bytes is
/// lost. Where a call of the source doesn't end a header, this one is interrupted.
#[derive(Drop)]
pub struct Padded<I> {
    source: I,
    stage: Stage,
    counts: CallCounts,
}

impl<I> fmt::Debug for Padded<I> {
    fn fmt<W: fmt::Write>(&self, f: &mut fmt::Formatter<W>) -> fmt::Result {
        f.debug_struct("Padded")
            .field("counts", &self.counts)
            .finish_non_exhaustive()
    }
}

impl<I: Source> Padded<I> {
    ghost use Rattle.pcap_file.specs.Host.{uncalled};
    ghost use Rattle.padded_capture.specs.Stages.{padded_of, State};

    /// The source, of which nothing was read yet, with nothing counted.
    pub fn new(source: I) -> Padded<I>
        ensures { ⟦<Padded<I> as Source>⟧.tape result ≡ uncalled (padded_of (I.tape source).bytes) }
    {
        Padded {
            source,
            stage: Stage::fresh(),
            counts: CallCounts::none(),
        }
    }

    /// The source back, as far as it was read.
    pub fn into_inner(self) -> I
        ensures { (s : State) × ((⟦<Padded<I> as Source>⟧.tape self).bytes ≡ coming_of s (I.tape result).bytes) }
    {
        self.source
    }
}

// Bytes that come as they are.
fn pass<I: Source>(source: &mut I, stage: &mut Stage, buf: &mut [u8]) -> Result<usize, DeviceFault>
    requires turn { IsTurn Turn.Pass stage.old }
    requires room { 0 < length buf.old }
    ensures bound { ReadsAtMost result buf.new }
    ensures bytes { ReadConsumes (coming_of stage.old (I.tape source.old).bytes) (coming_of stage.new (I.tape source.new).bytes) result buf.new }
{
    let most = stage.most(buf.len());
    match source.read(&mut buf[..most]) {
        Ok(n) => {
            stage.pass(n);
            Ok(n)
        }
        Err(fault) => Err(fault),
    }
}

// Bytes of a header are read, and kept. At the end of the text what was kept comes as it is.
fn gather<I: Source>(source: &mut I, stage: &mut Stage) -> Result<(), DeviceFault>
    requires { IsTurn Turn.Gather stage.old }
    ensures kept { Keeps (coming_of stage.old (I.tape source.old).bytes) (coming_of stage.new (I.tape source.new).bytes) }
    ensures gives { OnOk result (stage.new.is_gathering ≡ false) }
    ensures some { OnOk result ((0 < length stage.new.waiting) ⊎ IsOver stage.new (I.tape source.new).bytes) }
{
    let mut bytes = [0u8; 24];
    let missing = stage.missing();
    let n = match source.read(&mut bytes[..missing]) {
        Ok(n) => n,
        Err(fault) => return Err(fault),
    };
    if n == 0 {
        stage.end();
        return Ok(());
    }
    stage.keep(&bytes[..n]);
    match stage.next() {
        Turn::Give => Ok(()),
        _ => Err(DeviceFault::Interrupted),
    }
}

// Bytes of a header are read, and come where it is whole.
fn read_header<I: Source>(
    source: &mut I,
    stage: &mut Stage,
    buf: &mut [u8],
) -> Result<usize, DeviceFault>
    requires turn { IsTurn Turn.Gather stage.old }
    requires room { 0 < length buf.old }
    ensures bound { ReadsAtMost result buf.new }
    ensures bytes { ReadConsumes (coming_of stage.old (I.tape source.old).bytes) (coming_of stage.new (I.tape source.new).bytes) result buf.new }
{
    match gather(source, stage) {
        Ok(()) => Ok(stage.give(buf)),
        Err(fault) => Err(fault),
    }
}

// What is read next.
fn read_on<I: Source>(
    source: &mut I,
    stage: &mut Stage,
    buf: &mut [u8],
) -> Result<usize, DeviceFault>
    requires { 0 < length buf.old }
    ensures bound { ReadsAtMost result buf.new }
    ensures bytes { ReadConsumes (coming_of stage.old (I.tape source.old).bytes) (coming_of stage.new (I.tape source.new).bytes) result buf.new }
{
    match stage.next() {
        Turn::Gather => read_header(source, stage, buf),
        Turn::Give => Ok(stage.give(buf)),
        Turn::Pass => pass(source, stage, buf),
        Turn::Zero => Ok(stage.zero(buf)),
    }
}

impl<I: Source> Source for Padded<I> {
    ghost tape = { λ p. taped (coming_of p.stage (I.tape p.source).bytes) p.counts };

    fn read(&mut self, buf: &mut [u8]) -> Result<usize, DeviceFault> {
        self.counts.call();
        if buf.is_empty() {
            return Ok(0);
        }
        match read_on(&mut self.source, &mut self.stage, buf) {
            Ok(n) => Ok(n),
            Err(fault) => Err(self.counts.fault(fault == DeviceFault::Interrupted)),
        }
    }
}
