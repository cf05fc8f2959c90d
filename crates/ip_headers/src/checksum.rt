// The Internet checksum (RFC 791, 3.1; RFC 1071).
ghost use Rattle.std.specs.Prelude.{◌≡◌, ◌<◌, ◌^◌, length};
ghost use Rattle.ip_headers.specs.Sum.{word_sum, folded, sum_of};

// A multiple of 65,535 that leaves room for a word above it.
const FULL: u64 = 0x7fff_8000_0000_0000;

// The sum of what is left after the last whole word of 32 bits.
#[inline(always)]
fn last_sum(bytes: &[u8]) -> u64
    requires { length bytes.now < 4 }
    ensures sum { result ≡ word_sum bytes.now }
    ensures small { result < 2 ^ 17 }
{
    match bytes {
        [first, second, third] => {
            (u64::from(*first) + u64::from(*third)) * 256 + u64::from(*second)
        }
        [first, second] => u64::from(*first) * 256 + u64::from(*second),
        [first] => u64::from(*first) * 256,
        _ => 0,
    }
}

// A sum of words of 32 bits. Since 65,536 is 1 modulo 65,535, such a word counts as its two halves. What
// is full is taken off, so no length overflows the sum, and none but 0 becomes 0.
#[inline(always)]
fn wide_sum(bytes: &[u8]) -> u64
    ensures { folded result ≡ folded (word_sum bytes.now) }
{
    let mut sum = 0u64;
    let mut left = bytes;
    while let [first, second, third, fourth, rest @ ..] = left {
        sum += u64::from(u32::from_be_bytes([*first, *second, *third, *fourth]));
        if sum > FULL {
            sum -= FULL;
        }
        left = rest;
    }
    sum + last_sum(left)
}

// The number from 1 to 65,535 that differs by a multiple of 65,535, or 0 of 0.
#[inline(always)]
fn fold(sum: u64) -> u16
    ensures { result ≡ folded sum }
{
    if sum == 0 {
        0
    } else {
        ((sum - 1) % 65535 + 1) as u16
    }
}

#[inline(always)]
pub(crate) fn folded_sum(bytes: &[u8]) -> u16
    ensures { result ≡ folded (word_sum bytes.now) }
{
    fold(wide_sum(bytes))
}

/// The Internet checksum of some bytes (RFC 791, 3.1): what goes into the checksum field of a header
/// in which that field is zero. Over a header that holds its own checksum it is 0. An odd last byte
/// counts as followed by a zero byte; of no bytes it is 0xffff.
#[inline(always)]
pub fn header_sum(bytes: &[u8]) -> u16
    ensures { result ≡ sum_of bytes.now }
{
    65535 - folded_sum(bytes)
}
