//! The TCP segment of a record.
ghost use Rattle.std.specs.Prelude.{◌≡◌};
ghost use Rattle.ip_headers.specs.Ipv4.{view, ipv4_answer};
ghost use Rattle.five_tuple.specs.Flow.{flow_answer};
ghost use Rattle.pcap_file.specs.Format.{packet};
ghost use Rattle.connection_starts.specs.Segments.{segment_of, segment_read, segment_in};

use five_tuple::{Flow, flow_of};
use ip_headers::{Ipv4View, Link, TCP, read_frame, read_ipv4};
use pcap_file::Frame;

/// What a TCP segment tells of its connection: its flow, the byte of its flags (RFC 793, 3.1: FIN 1, SYN 2, RST 4, ACK 16), and
/// when it came, in microseconds.
#[derive(Clone, Copy, Debug, PartialEq, Eq)]
pub struct Segment {
    pub flow: Flow,
    pub flags: u8,
    pub at: u64,
}

impl Segment {
    ghost use Rattle.connection_starts.specs.Segments.{opens, closes};

    /// Whether it has SYN and not ACK.
    pub fn opens(&self) -> bool
        ensures { result ≡ opens self.now.flags }
    {
        self.flags / 2 % 2 == 1 && !(self.flags / 16 % 2 == 1)
    }

    /// Whether it has FIN or RST.
    pub fn closes(&self) -> bool
        ensures { result ≡ closes self.now.flags }
    {
        self.flags % 2 == 1 || self.flags / 4 % 2 == 1
    }
}

// The segment that a datagram carries.
fn segment_of(datagram: &Ipv4View<'_>, at: u64) -> Option<Segment>
    ensures { result ≡ segment_of at (view datagram.now) (flow_answer (view datagram.now)) }
{
    let Ok(flow) = flow_of(datagram) else {
        return None;
    };
    if flow.proto != TCP {
        return None;
    }
    let flags = datagram.payload.get(13).copied().unwrap_or(0);
    Some(Segment { flow, flags, at })
}

// The segment in the bytes of a datagram.
fn segment_read(bytes: &[u8], at: u64, check: bool) -> Option<Segment>
    ensures { result ≡ segment_read at (ipv4_answer check bytes.now) }
{
    match read_ipv4(bytes, check) {
        Err(_) => None,
        Ok(datagram) => segment_of(&datagram, at),
    }
}

/// The TCP segment of a record's frame, if it carries one: a whole datagram, or the first cause for which it can't be read is
/// there, and then there is none. With `check` the checksum of the IPv4 header is tested.
#[tactic(auto, unfolding(crate::specs::Segments::segment_in))]
pub fn segment_in(check: bool, link: Link, frame: &Frame) -> Option<Segment>
    ensures { result ≡ segment_in check link (packet frame.now) }
{
    let secs = frame.secs as u64;
    let micros = frame.micros as u64;
    let at = secs * 1_000_000 + micros;
    match read_frame(link, frame.bytes.as_slice()) {
        Err(_) => None,
        Ok(bytes) => segment_read(bytes, at, check),
    }
}
