//! Packets from a template.
use crate::generator::mixed;

/// The address of the first destination.
pub const FIRST_DESTINATION: u32 = 0xc000_0201;

/// The bytes of a record: its 16, and a datagram of 40.
pub const RECORD: usize = 56;

/// The file header of a capture in little-endian and microseconds, of raw datagrams.
pub const HEAD: [u8; 24] = [
    0xd4, 0xc3, 0xb2, 0xa1, 2, 0, 4, 0, 0, 0, 0, 0, 0, 0, 0, 0, 0xff, 0xff, 0, 0, 101, 0, 0, 0,
];

// A record of a TCP segment without data to port 80. Times, addresses, source port and checksum are 0.
const TEMPLATE: [u8; RECORD] = [
    0, 0, 0, 0, 0, 0, 0, 0, 40, 0, 0, 0, 40, 0, 0, 0, 0x45, 0, 0, 40, 0, 0, 0x40, 0, 60, 6, 0, 0,
    0, 0, 0, 0, 0, 0, 0, 0, 0, 0, 0, 80, 0, 0, 3, 0xe8, 0, 0, 0, 0, 0x50, 0x10, 0xfa, 0xf0, 0, 0,
    0, 0,
];

// The sum of the words of the template's IPv4 header.
const TEMPLATE_SUM: u32 = 0x4500 + 40 + 0x4000 + 0x3c06;

/// Who sends to whom.
#[derive(Clone, Copy, Debug)]
pub struct Ends {
    client: u32,
    destination: u32,
    port: u16,
}

impl Ends {
    /// A client and a destination by their numbers. Under one key no two clients have the same address.
    #[inline(always)]
    pub fn new(key: u32, client: u32, destination: u32) -> Ends {
        let address = (client ^ key).wrapping_mul(0x9e37_79b1);
        let port = mixed(u64::from(address)) & 0xffff;
        Ends {
            client: address,
            destination: FIRST_DESTINATION.wrapping_add(destination),
            port: port as u16 | 1024,
        }
    }
}

#[inline(always)]
fn word_sum(address: u32) -> u32 {
    (address >> 16).wrapping_add(address & 0xffff)
}

#[inline(always)]
fn folded(sum: u32) -> u32 {
    (sum & 0xffff).wrapping_add(sum >> 16)
}

// The checksum of a header with these addresses.
#[inline(always)]
fn checksum(ends: Ends) -> u16 {
    let sum = TEMPLATE_SUM
        .wrapping_add(word_sum(ends.client))
        .wrapping_add(word_sum(ends.destination));
    (!folded(folded(sum)) & 0xffff) as u16
}

/// The record of a packet.
#[inline(always)]
pub fn record_of(seconds: u32, micros: u32, ends: Ends) -> [u8; RECORD] {
    let mut room = TEMPLATE;
    room[0..4].copy_from_slice(&seconds.to_le_bytes());
    room[4..8].copy_from_slice(&micros.to_le_bytes());
    room[26..28].copy_from_slice(&checksum(ends).to_be_bytes());
    room[28..32].copy_from_slice(&ends.client.to_be_bytes());
    room[32..36].copy_from_slice(&ends.destination.to_be_bytes());
    room[36..38].copy_from_slice(&ends.port.to_be_bytes());
    room
}
