//! A record of a capture whose bytes are lent.
ghost use Rattle.std.specs.Prelude.{◌≡◌};
ghost use Rattle.pcap_file.specs.Format.{packet};
ghost use Rattle.simulation.specs.Sent.{time_of};
ghost use Rattle.simulation.specs.Wires.{lent_record};

use pcap_file::Frame;

/// A record of a capture. Its bytes stay where they are.
#[derive(Clone, Copy, Debug)]
pub struct LentRecord<'a> {
    pub secs: u32,
    pub micros: u32,
    pub original: u32,
    pub bytes: &'a [u8],
}

impl<'a> LentRecord<'a> {
    /// The record of a frame.
    #[inline(always)]
    pub fn of(frame: &'a Frame) -> LentRecord<'a>
        ensures { lent_record result ≡ packet frame.now }
    {
        LentRecord {
            secs: frame.secs,
            micros: frame.micros,
            original: frame.original,
            bytes: frame.bytes.as_slice(),
        }
    }

    /// When the record came, in microseconds.
    #[inline(always)]
    pub fn time(self) -> u64
        ensures { result ≡ time_of (lent_record self.entry) }
    {
        let secs = self.secs as u64;
        let micros = self.micros as u64;
        secs * 1_000_000 + micros
    }
}
