//! What is shown of a reading.
use std::alloc::{AllocError, Global};
use std::time::Duration;

/// How far a reading is: the packets so far, the bytes, how many the file has, where that is known, and how long it took.
#[derive(Clone, Copy, Debug, PartialEq, Eq)]
pub struct Reading {
    pub packets: u64,
    pub bytes: u64,
    pub whole: Option<u64>,
    pub taken: Duration,
}

// A part of a number: `of` times `by`, divided by `whole`, or 0 where that is 0.
fn scaled(of: u64, by: u64, whole: u64) -> u64 {
    let product = u128::from(of).wrapping_mul(u128::from(by));
    match product.checked_div(u128::from(whole)) {
        Some(part) => u64::try_from(part).unwrap_or(u64::MAX),
        None => 0,
    }
}

// The milliseconds of a time.
fn millis(taken: Duration) -> u64 {
    u64::try_from(taken.as_millis()).unwrap_or(u64::MAX)
}

// So many packets in a time, as packets of a second.
fn rate(packets: u64, taken: Duration) -> u64 {
    scaled(packets, 1000, millis(taken))
}

// How many of a hundred are done, and the seconds that the others will take.
fn rest(done: u64, whole: Option<u64>, taken: Duration) -> Option<(u64, u64)> {
    let whole = whole.filter(|whole| *whole > 0)?;
    let left = whole.saturating_sub(done);
    let seconds = scaled(millis(taken), left, done) / 1000;
    Some((scaled(done, 100, whole).min(100), seconds))
}

// A time in words: 4 s, 3 min 20 s, 2 h 5 min.
fn time_text(alloc: Global, seconds: u64) -> Result<String, AllocError> {
    let (minutes, hours) = (seconds / 60, seconds / 3600);
    if hours > 0 {
        format!(in alloc; "{hours} h {} min", minutes % 60)
    } else if minutes > 0 {
        format!(in alloc; "{minutes} min {} s", seconds % 60)
    } else {
        format!(in alloc; "{seconds} s")
    }
}

/// A reading in words, on less than a line of 80 columns.
pub fn status_text(alloc: Global, reading: &Reading) -> Result<String, AllocError> {
    let Reading {
        packets,
        bytes,
        whole,
        taken,
    } = *reading;
    let rate = rate(packets, taken);
    match rest(bytes, whole, taken) {
        None => format!(in alloc; "{packets} packets, {rate} a second"),
        Some((share, seconds)) => {
            let left = time_text(alloc, seconds)?;
            format!(in alloc; "{packets} packets, {share} % of INPUT, {rate} a second, {left} left")
        }
    }
}

/// A writing in words: the packets so far, and how many in a second.
pub(crate) fn sent_text(
    alloc: Global,
    packets: u64,
    taken: Duration,
) -> Result<String, AllocError> {
    let rate = rate(packets, taken);
    format!(in alloc; "{packets} packets sent, {rate} a second")
}

/// A playing in words, on less than a line of 80 columns: the packets that were played, of as many as INPUT has, where that is known.
pub fn played_text(
    alloc: Global,
    packets: u64,
    whole: Option<u64>,
    taken: Duration,
) -> Result<String, AllocError> {
    let rate = rate(packets, taken);
    match rest(packets, whole, taken) {
        None => format!(in alloc; "{packets} packets played, {rate} a second"),
        Some((share, seconds)) => {
            let left = time_text(alloc, seconds)?;
            format!(in alloc;
                "{packets} packets played, {share} % of INPUT, {rate} a second, {left} left"
            )
        }
    }
}
