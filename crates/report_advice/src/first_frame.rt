//! What the first frame of a capture is, by the capture's first bytes.
use std::alloc::{AllocError, Global};

/// The link type of frames with an Ethernet header.
const ETHERNET: u32 = 1;
/// The bytes of such a header.
const ETHERNET_HEADER: u32 = 14;

// A number of four bytes, in the byte order of a capture that begins with this byte.
fn number_of(first: u8, bytes: &[u8]) -> Option<u32> {
    let [a, b, c, d] = bytes else {
        return None;
    };
    let bytes = [*a, *b, *c, *d];
    if first == 0xa1 {
        Some(u32::from_be_bytes(bytes))
    } else {
        Some(u32::from_le_bytes(bytes))
    }
}

// The EtherType of the first frame. None where the capture isn't of Ethernet, or its first bytes don't have it: the file's header
// of 24 bytes ends with the link type, and the record's of 16 has the frame's length in its third word.
fn first_ethertype(head: &[u8]) -> Option<u16> {
    let first = *head.first()?;
    let link = number_of(first, head.get(20..24)?)?;
    let length = number_of(first, head.get(32..36)?)?;
    let [high, low] = head.get(52..54)? else {
        return None;
    };
    if link == ETHERNET && length >= ETHERNET_HEADER {
        Some(u16::from_be_bytes([*high, *low]))
    } else {
        None
    }
}

// What a frame of an EtherType is. Numbers below 0x0600 are lengths.
fn kind_of(alloc: Global, ethertype: u16) -> Result<String, AllocError> {
    match ethertype {
        0x8100 | 0x88a8 | 0x9100 => format!(in alloc;
            "has a VLAN tag (EtherType 0x{ethertype:04x})"
        ),
        0x86dd => String::from_str(alloc, "is IPv6 (EtherType 0x86dd)"),
        0x0806 => String::from_str(alloc, "is ARP (EtherType 0x0806)"),
        0x0000..=0x05ff => String::from_str(alloc, "has a length in place of an EtherType"),
        _ => format!(in alloc; "has the EtherType 0x{ethertype:04x}"),
    }
}

/// Why packets of a capture that begins so aren't IPv4, by its first frame. None where that is IPv4, or isn't known.
pub(crate) fn frame_words(alloc: Global, head: &[u8]) -> Result<Option<String>, AllocError> {
    let ethertype = match first_ethertype(head) {
        Some(0x0800) | None => return Ok(None),
        Some(ethertype) => ethertype,
    };
    let kind = kind_of(alloc, ethertype)?;
    let help = match ethertype {
        0x8100 | 0x88a8 | 0x9100 => ": docs/USING.md has commands that take tags off",
        _ => "",
    };
    let words = format!(in alloc; "the first frame {kind}, which isn't read{help}")?;
    Ok(Some(words))
}
