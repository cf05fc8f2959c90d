//! Two datagrams, and bytes that are changed.

/// A TCP datagram of 40 bytes, from 10.0.0.1:1000 to 192.0.2.1:80.
pub(crate) const OF_TCP: [u8; 40] = [
    0x45, 0, 0, 0x28, 0, 1, 0, 0, 0x40, 6, 0xae, 0xcd, 10, 0, 0, 1, 0xc0, 0, 2, 1, 3, 0xe8, 0,
    0x50, 0, 0, 0, 1, 0, 0, 0, 0, 0x50, 2, 0x20, 0, 0, 0, 0, 0,
];

/// A UDP datagram of 28 bytes, from 10.0.0.1:1000 to 192.0.2.1:53.
pub(crate) const OF_UDP: [u8; 28] = [
    0x45, 0, 0, 0x1c, 0, 1, 0, 0, 0x40, 0x11, 0xae, 0xce, 10, 0, 0, 1, 0xc0, 0, 2, 1, 3, 0xe8, 0,
    0x35, 0, 8, 0, 0,
];

/// Code reads them here; rows refer to the constants.
pub(crate) static TCP: [u8; 40] = OF_TCP;

pub(crate) static UDP: [u8; 28] = OF_UDP;

/// Places and the bytes that are put there.
pub(crate) type Changes = &'static [(usize, u8)];

/// The bytes, some of them changed, with zeros after them.
pub(crate) fn changed(bytes: &[u8], changes: &[(usize, u8)]) -> [u8; 64] {
    let mut room = [0u8; 64];
    let kept = bytes.len().min(64);
    room[..kept].copy_from_slice(&bytes[..kept]);
    for (place, byte) in changes {
        if *place < 64 {
            room[*place] = *byte;
        }
    }
    room
}
