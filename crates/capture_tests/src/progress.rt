//! A capture in pieces of any length, and what is shown of a reading and of a playing.
use read_progress::{Reading, RecordCount, played_text, status_text};
use std::alloc::Global;
use std::process::Abort;
use std::time::Duration;

// A capture of three records, of 5, 0 and 300 bytes, in a byte order.
fn capture(rt: &impl Abort, alloc: Global, is_big: bool) -> Vec<u8> {
    let mut bytes = Vec::new(alloc);
    let number = |value: u32| if is_big {
        value.to_be_bytes()
    } else {
        value.to_le_bytes()
    };
    for word in [0xa1b2_c3d4, 0x0002_0004, 0, 0, 65535, 1] {
        bytes.extend_from_slice(&number(word)).expect(rt, "memory");
    }
    for length in [5, 0, 300] {
        for word in [1, 2, length, length] {
            bytes.extend_from_slice(&number(word)).expect(rt, "memory");
        }
        for _ in 0..length {
            bytes.push(0xa1).expect(rt, "memory");
        }
    }
    bytes
}

// The records that are counted where the bytes come in pieces of one byte and so many more.
fn counted(bytes: &[u8], more: u8) -> u64 {
    let mut count = RecordCount::new();
    for piece in bytes.chunks(usize::from(more) + 1) {
        count.note(piece);
    }
    count.records()
}

// So many bytes of the front.
fn front(bytes: &Vec<u8>, length: usize) -> &[u8] {
    bytes.get(..length).unwrap_or(&[])
}

#[test]
fn records_are_counted_in_pieces_of_any_length(rt: HostRuntime) {
    for is_big in [false, true] {
        let bytes = capture(&rt, rt.alloc(), is_big);
        for more in [0, 1, 6, 15, 23, 24, 63, 255] {
            assert_eq!(&rt; counted(bytes.as_slice(), more), 3);
        }
        assert_eq!(&rt; counted(front(&bytes, 24 + 15), 3), 0);
        assert_eq!(&rt; counted(front(&bytes, 24 + 16), 3), 1);
    }
}

// What is shown of a reading that took so many milliseconds.
fn shown(rt: &impl Abort, alloc: Global, reading: (u64, u64, Option<u64>, u64)) -> String {
    let (packets, bytes, whole, millis) = reading;
    let taken = Duration::from_millis(millis);
    let reading = Reading {
        packets,
        bytes,
        whole,
        taken,
    };
    status_text(alloc, &reading).expect(rt, "memory")
}

#[test]
fn a_status_has_the_share_the_rate_and_the_time_left(rt: HostRuntime) {
    let text = shown(&rt, rt.alloc(), (3000, 250, Some(1000), 1500));
    assert_eq!(&rt;
        text.as_str(),
        "3000 packets, 25 % of INPUT, 2000 a second, 4 s left"
    );
    let text = shown(&rt, rt.alloc(), (9, 1, Some(1000), 200_000));
    assert_eq!(&rt;
        text.as_str(),
        "9 packets, 0 % of INPUT, 0 a second, 55 h 30 min left"
    );
    let text = shown(&rt, rt.alloc(), (10, 100, Some(1000), 10_000));
    assert_eq!(&rt;
        text.as_str(),
        "10 packets, 10 % of INPUT, 1 a second, 1 min 30 s left"
    );
    let text = shown(&rt, rt.alloc(), (5, 100, None, 0));
    assert_eq!(&rt; text.as_str(), "5 packets, 0 a second");
    let text = shown(&rt, rt.alloc(), (u64::MAX, u64::MAX, Some(1), u64::MAX));
    assert!(&rt; text.len() < 80);
}

// What is shown of a playing that took so many milliseconds.
fn shown_played(rt: &impl Abort, alloc: Global, playing: (u64, Option<u64>, u64)) -> String {
    let (packets, whole, millis) = playing;
    let taken = Duration::from_millis(millis);
    played_text(alloc, packets, whole, taken).expect(rt, "memory")
}

#[test]
fn a_playing_has_the_share_of_the_packets(rt: HostRuntime) {
    let text = shown_played(&rt, rt.alloc(), (1_228_800, Some(2_800_000), 1024));
    assert_eq!(&rt;
        text.as_str(),
        "1228800 packets played, 43 % of INPUT, 1200000 a second, 1 s left"
    );
    let text = shown_played(&rt, rt.alloc(), (5, None, 0));
    assert_eq!(&rt; text.as_str(), "5 packets played, 0 a second");
    let text = shown_played(&rt, rt.alloc(), (u64::MAX, Some(1), u64::MAX));
    assert!(&rt; text.len() < 80);
}
