//! A source that is padded, or comes as it is.
use crate::padded::Padded;
use pcap_file::{DeviceFault, Source};

/// A capture's source, as it is, or padded.
#[derive(Debug, Drop)]
pub enum CaptureSource<I> {
    /// All comes as it is.
    Plain(I),
    /// Cut records come as long as their frames were.
    Padded(Padded<I>),
}

impl<I: Source> CaptureSource<I> {
    ghost use Rattle.std.specs.Prelude.{◌≡◌};
    ghost use Rattle.padded_capture.specs.Stages.{coming_of, State};

    /// The source back, as far as it was read.
    pub fn into_inner(self) -> I
        ensures { (s : State) × ((⟦<CaptureSource<I> as Source>⟧.tape self).bytes ≡ coming_of s (I.tape result).bytes) }
    {
        match self {
            CaptureSource::Plain(source) => source,
            CaptureSource::Padded(padded) => padded.into_inner(),
        }
    }
}

impl<I: Source> Source for CaptureSource<I> {
    ghost use Rattle.padded_capture.specs.Either.{tape_of};

    ghost tape = { λ s. tape_of (λ source. I.tape source) (λ padded. ⟦<Padded<I> as Source>⟧.tape padded) s };

    #[inline(always)]
    fn read(&mut self, buf: &mut [u8]) -> Result<usize, DeviceFault> {
        match self {
            CaptureSource::Plain(source) => source.read(buf),
            CaptureSource::Padded(padded) => padded.read(buf),
        }
    }
}
