//! IPv4, TCP and UDP headers.
use crate::checks::{holds, same_number};
use crate::datagrams::{Changes, OF_TCP, OF_UDP, TCP, UDP, changed};
use ip_headers::{
    IpFault, Ipv4View, Link, Ports, header_sum, read_frame, read_ipv4, read_ports, write_outer,
};
use std::process::Abort;

type Answer = Result<Ports, IpFault>;

fn ports(bytes: &[u8], check: bool) -> Answer {
    read_ports(&read_ipv4(bytes, check)?)
}

fn same_answer(rt: &impl Abort, found: Answer, wanted: Answer, at: usize) {
    assert_eq!(rt; found, wanted, "at {at}");
}

const TO_80: Answer = Ok(Ports {
    sport: 1000,
    dport: 80,
});

const TO_53: Answer = Ok(Ports {
    sport: 1000,
    dport: 53,
});

fn numbers(view: &Ipv4View<'_>) -> [u32; 9] {
    [
        u32::from(view.service),
        u32::from(view.total),
        u32::from(view.ident),
        u32::from(view.flags),
        u32::from(view.ttl),
        u32::from(view.proto),
        u32::from(view.sum),
        view.src,
        view.dst,
    ]
}

static NUMBERS: [u32; 9] = [0, 40, 1, 0, 64, 6, 0xaecd, 0x0a00_0001, 0xc000_0201];

fn has_fields(rt: &impl Abort, view: &Ipv4View<'_>) {
    assert_eq!(rt; numbers(view), NUMBERS);
    same_number(rt, view.options.len() as u64, 0, "options", 0);
    same_number(rt, view.payload.len() as u64, 20, "payload", 0);
    same_answer(rt, read_ports(view), TO_80, 0);
}

#[test]
fn fields(rt: HostRuntime) {
    match read_ipv4(&TCP, true) {
        Ok(view) => has_fields(&rt, &view),
        Err(_) => holds(&rt, false, "it is refused", 0),
    }
}

// Bytes, how many of them are kept, changes, and their sum.
type Summed = (&'static [u8], usize, Changes, u64);

// Sums worked out by another implementation of RFC 1071; the last one is the example of RFC 1071, 3.
static SUMS: [Summed; 8] = [
    (&OF_TCP, 20, &[(10, 0), (11, 0)], 0xaecd),
    (&OF_TCP, 20, &[(6, 0x20), (10, 0), (11, 0)], 0x8ecd),
    (&OF_TCP, 20, &[], 0),
    (&OF_UDP, 20, &[(10, 0), (11, 0)], 0xaece),
    (&[0x80, 0, 8, 0, 0, 0, 0, 0, 1, 2, 3], 11, &[], 0x73fd),
    (&[], 0, &[], 0xffff),
    (&[0xff, 0xff], 2, &[], 0),
    (&[0, 1, 0xf2, 3, 0xf4, 0xf5, 0xf6, 0xf7], 8, &[], 0x220d),
];

#[test]
fn checksums(rt: HostRuntime) {
    for (at, (bytes, kept, changes, sum)) in SUMS.iter().enumerate() {
        let room = changed(bytes, changes);
        let found = header_sum(room.get(..*kept).unwrap_or(&[]));
        same_number(&rt, u64::from(found), *sum, "sum", at);
    }
}

// The checksum, byte by byte: each is the upper or the lower half of a word.
fn plain_sum(bytes: &[u8]) -> u16 {
    let mut sum = 0u16;
    for (i, byte) in bytes.iter().enumerate() {
        let word = u16::from(*byte) * if i % 2 == 0 { 256 } else { 1 };
        let (next, carries) = sum.overflowing_add(word);
        sum = if carries { next.wrapping_add(1) } else { next };
    }
    u16::MAX - sum
}

fn sums_alike(rt: &impl Abort, bytes: &[u8; 70]) {
    for len in 0..=70usize {
        let (found, wanted) = (header_sum(&bytes[..len]), plain_sum(&bytes[..len]));
        same_number(rt, u64::from(found), u64::from(wanted), "bytes", len);
    }
}

fn mixed() -> [u8; 70] {
    let mut mixed = [0u8; 70];
    let mut seed = 1u32;
    for place in &mut mixed {
        seed = seed.wrapping_mul(1_103_515_245).wrapping_add(12_345);
        *place = (seed / 65536 % 256) as u8;
    }
    mixed
}

// Each length from 0 to 70, of bytes that differ, of zeros and of ones.
#[test]
fn sums_of_all_lengths(rt: HostRuntime) {
    sums_alike(&rt, &mixed());
    sums_alike(&rt, &[0; 70]);
    sums_alike(&rt, &[0xff; 70]);
}

// A total length, and the header of a datagram from 10.9.0.1 to 10.8.0.1.
static OUTERS: [(u16, [u8; 20]); 2] = [
    (
        64,
        [
            0x45, 0, 0, 0x40, 0, 0, 0x40, 0, 0x40, 0x2f, 0x26, 0x7d, 10, 9, 0, 1, 10, 8, 0, 1,
        ],
    ),
    (
        31,
        [
            0x45, 0, 0, 0x1f, 0, 0, 0x40, 0, 0x40, 0x2f, 0x26, 0x9e, 10, 9, 0, 1, 10, 8, 0, 1,
        ],
    ),
];

#[test]
fn outer_headers(rt: HostRuntime) {
    let mut out = [1u8; 20];
    for (total, header) in OUTERS.iter() {
        write_outer(&mut out, *total, 0x0a09_0001, 0x0a08_0001);
        assert_eq!(rt; out, *header, "total {total}");
    }
}

static LINKS: [(u32, Option<Link>); 7] = [
    (0, None),
    (1, Some(Link::Ethernet)),
    (2, None),
    (101, Some(Link::RawIp)),
    (228, Some(Link::Ipv4)),
    (229, None),
    (0x0001_0001, None),
];

#[test]
fn links_by_number(rt: HostRuntime) {
    for (number, link) in LINKS.iter() {
        assert_eq!(rt; Link::of(*number), *link, "link {number}");
    }
}

fn answer_of(first: u8) -> Answer {
    match first {
        0x40..=0x44 => Err(IpFault::BadHeader),
        0x45 => TO_80,
        0x46..=0x4a => Err(IpFault::BadTransport),
        0x4b..=0x4f => Err(IpFault::Truncated),
        _ => Err(IpFault::NotIpv4),
    }
}

#[test]
fn every_first_byte(rt: HostRuntime) {
    let mut bytes = TCP;
    for first in 0..=255u8 {
        bytes[0] = first;
        let found = ports(&bytes, false);
        same_answer(&rt, found, answer_of(first), usize::from(first));
    }
}

fn answer_for(total: u16) -> Answer {
    match total {
        0..=19 => Err(IpFault::BadHeader),
        20..=39 => Err(IpFault::BadTransport),
        40 => TO_80,
        _ => Err(IpFault::Truncated),
    }
}

#[test]
fn every_total_length(rt: HostRuntime) {
    let mut bytes = TCP;
    for total in 0..=65535u16 {
        bytes[2..4].copy_from_slice(&total.to_be_bytes());
        let found = ports(&bytes, false);
        same_answer(&rt, found, answer_for(total), usize::from(total));
    }
}

// A datagram, changes, and its ports or its fault, with the test of the checksum or without.
type Reading = (&'static [u8], Changes, bool, Answer);

static READINGS: [Reading; 10] = [
    (&OF_TCP, &[], true, TO_80),
    (&OF_UDP, &[], true, TO_53),
    (
        &OF_TCP,
        &[(6, 0x20), (10, 0x8e)],
        true,
        Err(IpFault::Fragment),
    ),
    (&OF_TCP, &[(7, 1)], true, Err(IpFault::BadChecksum)),
    (&OF_TCP, &[(7, 1)], false, Err(IpFault::Fragment)),
    (&OF_TCP, &[(11, 0xce)], true, Err(IpFault::BadChecksum)),
    (&OF_TCP, &[(11, 0xce)], false, TO_80),
    // Reserved, and don't fragment.
    (&OF_TCP, &[(6, 0xc0)], false, TO_80),
    (
        &OF_TCP,
        &[(6, 0xc0), (9, 1)],
        false,
        Err(IpFault::NotTcpUdp),
    ),
    (&OF_UDP, &[(25, 7)], true, Err(IpFault::BadTransport)),
];

// Malformed ones, which are refused by their first fault, with the test of the checksum and without.
static HOSTILE: [(Changes, IpFault); 4] = [
    (&[(0, 0x4f)], IpFault::Truncated),
    (&[(0, 0x40)], IpFault::BadHeader),
    (&[(0, 0x65), (2, 0xff)], IpFault::NotIpv4),
    (&[(0, 0x44), (2, 0xff)], IpFault::Truncated),
];

fn reads(rt: &impl Abort, bytes: &[u8], changes: &[(usize, u8)], check: bool, wanted: Answer) {
    let room = changed(bytes, changes);
    let kept = bytes.len().min(64);
    same_answer(rt, ports(&room[..kept], check), wanted, kept);
}

#[test]
fn faults(rt: HostRuntime) {
    for (bytes, changes, check, wanted) in READINGS.iter() {
        reads(&rt, bytes, changes, *check, *wanted);
    }
    reads(&rt, &UDP, &[(25, 9)], true, Err(IpFault::BadTransport));
}

fn is_refused(rt: &impl Abort, bytes: &[u8], fault: IpFault) {
    same_answer(rt, ports(bytes, false), Err(fault), bytes.len());
    same_answer(rt, ports(bytes, true), Err(fault), bytes.len());
}

// From 1 to 63 times the same byte.
fn refuses_each(rt: &impl Abort, byte: u8, fault: IpFault) {
    let bytes = [byte; 64];
    for len in 1..64usize {
        is_refused(rt, &bytes[..len], fault);
    }
}

// Short, cut, blank and malformed inputs.
#[test]
fn hostile_bytes(rt: HostRuntime) {
    for kept in 0..40usize {
        is_refused(&rt, &TCP[..kept], IpFault::Truncated);
    }
    refuses_each(&rt, 0, IpFault::NotIpv4);
    refuses_each(&rt, 0xff, IpFault::NotIpv4);
    refuses_each(&rt, 0x44, IpFault::Truncated);
    for (changes, fault) in HOSTILE.iter() {
        let room = changed(&TCP, changes);
        is_refused(&rt, room.get(..40).unwrap_or(&[]), *fault);
    }
}

// Ethernet: 14 bytes, the datagram, and 6 bytes of padding.
fn ethernet() -> [u8; 60] {
    let mut frame = [0u8; 60];
    frame[12] = 8;
    frame[14..54].copy_from_slice(&TCP);
    frame
}

// How many bytes of a frame are its datagram's and what is behind it.
fn length_in(link: Link, frame: &[u8]) -> Result<usize, IpFault> {
    Ok(read_frame(link, frame)?.len())
}

fn has_length(rt: &impl Abort, link: Link, frame: &[u8], wanted: Result<usize, IpFault>) {
    assert_eq!(rt; length_in(link, frame), wanted);
}

fn is_cut_off(rt: &impl Abort, frame: &[u8]) {
    match read_ipv4(frame, true) {
        Ok(view) => {
            same_number(rt, u64::from(view.total), 40, "total", 0);
            same_number(rt, view.payload.len() as u64, 20, "payload", 1);
        },
        Err(_) => holds(rt, false, "it is refused", 0),
    }
}

#[test]
fn frames(rt: HostRuntime) {
    let mut frame = ethernet();
    has_length(&rt, Link::Ethernet, &frame, Ok(46));
    is_cut_off(&rt, read_frame(Link::Ethernet, &frame).unwrap_or(&[]));
    has_length(&rt, Link::RawIp, &frame, Ok(60));
    has_length(&rt, Link::Ipv4, &frame, Ok(60));
    let short = &frame[..13];
    has_length(&rt, Link::Ethernet, short, Err(IpFault::Truncated));
    has_length(&rt, Link::Ethernet, &frame[..14], Ok(0));
    frame[12] = 0x86;
    frame[13] = 0xdd;
    has_length(&rt, Link::Ethernet, &frame, Err(IpFault::NotIpv4));
}
