// Whole pieces are read and written.
ghost use Rattle.std.specs.Prelude.{◌≤◌, ◌<◌, ◌+◌, ◌^◌, length, take, IfOk, OnOk, OnErr};
ghost use Rattle.std.specs.Io.KnownBytes.{Consumes, Appends, IsAtEnd};
ghost use Rattle.pcap_file.specs.Device.{WithinCalls, Unfailed, ReadRefused, PutRefused};

use crate::device::{DeviceFault, Sink, Source};
use thiserror::Error;

/// A device failed, or was called as often as a piece allows.
#[derive(Clone, Copy, Debug, PartialEq, Eq, Drop, Error)]
#[error("the device failed, or was called too often")]
pub struct Refused;

/// Reads until the place is full or the input ends, and answers how many bytes came. The device is
/// called at most 1,000 times more than the place has bytes; an empty place makes no call. What was read before a refusal
/// is lost.
#[inline(always)]
pub fn fill<S: Source>(source: &mut S, buf: &mut [u8]) -> Result<usize, Refused>
    requires { length buf.old + 1000 < 2 ^ 64 }
    ensures bound { IfOk result (λ n. n ≤ length buf.new) }
    ensures bytes { IfOk result (λ n. Consumes (S.tape source.old).bytes (S.tape source.new).bytes (take n buf.new)) }
    ensures end { IfOk result (λ n. n < length buf.new → IsAtEnd (S.tape source.new).bytes) }
    ensures unfailed { OnOk result (Unfailed (S.tape source.old) (S.tape source.new)) }
    ensures refused { OnErr result (ReadRefused (length buf.old) (S.tape source.old) (S.tape source.new)) }
    ensures calls { WithinCalls (length buf.old) (S.tape source.old) (S.tape source.new) }
{
    let mut at = 0;
    for _ in 0..buf.len() + 1000 {
        if at >= buf.len() {
            return Ok(at);
        }
        match source.read(&mut buf[at..]) {
            Ok(0) => return Ok(at),
            Ok(n) => at += n,
            Err(DeviceFault::Interrupted) => {}
            Err(DeviceFault::Failed) => return Err(Refused),
        }
    }
    if at >= buf.len() {
        Ok(at)
    } else {
        Err(Refused)
    }
}

/// Writes all of the bytes, in at most 1,000 calls more than there are bytes.
#[inline(always)]
pub fn put_all<S: Sink>(sink: &mut S, bytes: &[u8]) -> Result<(), Refused>
    requires { length bytes.now + 1000 < 2 ^ 64 }
    ensures bytes { OnOk result (Appends (S.tape sink.old).bytes (S.tape sink.new).bytes bytes.now) }
    ensures unfailed { OnOk result (Unfailed (S.tape sink.old) (S.tape sink.new)) }
    ensures refused { OnErr result (PutRefused bytes.now (S.tape sink.old) (S.tape sink.new)) }
    ensures calls { WithinCalls (length bytes.now) (S.tape sink.old) (S.tape sink.new) }
{
    let mut at = 0;
    for _ in 0..bytes.len() + 1000 {
        if at >= bytes.len() {
            return Ok(());
        }
        match sink.write(&bytes[at..]) {
            Ok(n) => at += n,
            Err(DeviceFault::Interrupted) => {}
            Err(DeviceFault::Failed) => return Err(Refused),
        }
    }
    if at >= bytes.len() {
        Ok(())
    } else {
        Err(Refused)
    }
}
