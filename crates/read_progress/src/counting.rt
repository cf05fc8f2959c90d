//! The records of a capture, counted as its bytes go by.

use byteorder::{BigEndian, ByteOrder, LittleEndian};

/// The bytes of a capture's header, and of a record's (draft-ietf-opsawg-pcap, 4 and 5).
const FILE_HEADER: usize = 24;

const RECORD_HEADER: usize = 16;

/// Where a record's header has the length of what was captured.
const CAPTURED: usize = 8;

/// Counts the records of a classic capture, whose bytes are given in pieces of any length. A record counts from its header on.
#[derive(Clone, Copy, Debug)]
pub struct RecordCount {
    records: u64,
    // The bytes to the next header.
    left: u64,
    // What there is of a header, and how long it is.
    header: [u8; FILE_HEADER],
    held: usize,
    whole: usize,
    is_big: bool,
}

impl RecordCount {
    /// Of no byte yet.
    pub fn new() -> RecordCount {
        RecordCount {
            records: 0,
            left: 0,
            header: [0; FILE_HEADER],
            held: 0,
            whole: FILE_HEADER,
            is_big: false,
        }
    }

    /// How many records there were.
    pub fn records(&self) -> u64 {
        self.records
    }

    // The length in a record's header.
    #[inline(always)]
    fn length_in(&self, header: &[u8]) -> u32 {
        let Some(bytes) = header.get(CAPTURED..RECORD_HEADER) else {
            return 0;
        };
        if self.is_big {
            BigEndian::read_u32(bytes)
        } else {
            LittleEndian::read_u32(bytes)
        }
    }

    // A header is whole: the capture's, or else a record's.
    fn end_header(&mut self) {
        if self.whole == FILE_HEADER {
            self.is_big = self.header[0] == 0xa1;
            self.whole = RECORD_HEADER;
        } else {
            self.records = self.records.saturating_add(1);
            self.left = u64::from(self.length_in(&self.header));
        }
        self.held = 0;
    }

    // Takes a header's bytes from the front, and answers how many.
    fn take_header(&mut self, bytes: &[u8]) -> usize {
        let missing = self.whole.saturating_sub(self.held);
        let places = self.header.iter_mut().skip(self.held).take(missing);
        for (place, byte) in places.zip(bytes.iter()) {
            *place = *byte;
        }
        let taken = missing.min(bytes.len());
        self.held = self.held.saturating_add(taken);
        if self.held >= self.whole {
            self.end_header();
        }
        taken
    }

    // Takes what is there of a record's bytes from the front, and answers how many.
    fn take_bytes(&mut self, bytes: &[u8]) -> usize {
        let taken = self.left.min(bytes.len() as u64);
        self.left = self.left.saturating_sub(taken);
        taken as usize
    }

    // How many records have whole headers, one behind the other from the front on, and how long these records are.
    fn whole_records(&self, bytes: &[u8]) -> (u64, usize) {
        let (mut records, mut length) = (0u64, 0usize);
        for _ in 0..bytes.len() {
            let Some(header) = bytes.get(length..length.wrapping_add(RECORD_HEADER)) else {
                break;
            };
            records = records.wrapping_add(1);
            let captured = self.length_in(header) as usize;
            length = length.wrapping_add(RECORD_HEADER).wrapping_add(captured);
        }
        (records, length)
    }

    // Takes the records whose headers are whole from the front, and answers how many bytes.
    fn take_records(&mut self, bytes: &[u8]) -> usize {
        let (records, length) = self.whole_records(bytes);
        self.records = self.records.saturating_add(records);
        self.left = length as u64;
        self.take_bytes(bytes)
    }

    // Takes bytes from the front, and answers how many: records whose headers are whole, or a part of one.
    fn take(&mut self, bytes: &[u8]) -> usize {
        let is_next = self.held == 0 && self.whole == RECORD_HEADER;
        if self.left > 0 {
            self.take_bytes(bytes)
        } else if is_next && bytes.len() >= RECORD_HEADER {
            self.take_records(bytes)
        } else {
            self.take_header(bytes)
        }
    }

    /// More bytes go by.
    pub fn note(&mut self, bytes: &[u8]) {
        let mut rest = bytes;
        for _ in 0..bytes.len() {
            if rest.is_empty() {
                return;
            }
            let taken = self.take(rest);
            rest = rest.get(taken..).unwrap_or(&[]);
        }
    }
}
