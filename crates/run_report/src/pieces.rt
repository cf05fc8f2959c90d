//! The pieces of a line, each put before what is already there.
//!
//! A line is written from its end to its start, into an array on the stack, and goes into a text as a whole. That is fast:
//! a number's digits come from its end too, so they are written where they stand, and only the whole line asks for room.
ghost use Rattle.std.specs.Prelude.{◌≡◌, ◌≤◌, ◌+◌, ◌++◌, drop, length, codes, IsAscii};
ghost use Rattle.std.specs.Fmt.{decimal};
ghost use Rattle.maglev_texts.specs.Printing.{address_text, backend_text};

use itoa::write_digits;
use pool_versions::Backend;

// How many bytes a line has room for. The longest one has 124.
pub(crate) const ROOM: usize = 128;

// Puts a word so that it ends at `end`, as each piece here, and gives where it starts.
#[inline(always)]
pub(crate) fn put_word(line: &mut [u8; ROOM], end: usize, word: &[u8]) -> usize
    requires room { length word.now ≤ end }
    requires within { end ≤ ROOM }
    ensures start { result + length word.now ≡ end }
    ensures written { drop result line.new ≡ word.now ++ drop end line.old }
{
    let start = end - word.len();
    line[start..end].copy_from_slice(word);
    start
}

// A number, by two digits for each division.
#[inline(always)]
fn put_decimal(line: &mut [u8; ROOM], end: usize, number: u64) -> usize
    requires room { length (decimal number) ≤ end }
    requires within { end ≤ ROOM }
    ensures start { result + length (decimal number) ≡ end }
    ensures written { drop result line.new ≡ decimal number ++ drop end line.old }
{
    write_digits(number, line, end)
}

// A number of up to 20 digits.
pub(crate) fn put_u64(line: &mut [u8; ROOM], end: usize, number: u64) -> usize
    requires room { 20 ≤ end }
    requires within { end ≤ ROOM }
    ensures low { end ≤ result + 20 }
    ensures high { result ≤ end }
    ensures written { drop result line.new ≡ decimal number ++ drop end line.old }
    ensures ascii { IsAscii (decimal number) }
{
    put_decimal(line, end, number)
}

// A number of up to 10 digits.
pub(crate) fn put_u32(line: &mut [u8; ROOM], end: usize, number: u32) -> usize
    requires room { 10 ≤ end }
    requires within { end ≤ ROOM }
    ensures low { end ≤ result + 10 }
    ensures high { result ≤ end }
    ensures written { drop result line.new ≡ decimal number ++ drop end line.old }
    ensures ascii { IsAscii (decimal number) }
{
    put_decimal(line, end, number as u64)
}

// A number of up to 5 digits.
pub(crate) fn put_u16(line: &mut [u8; ROOM], end: usize, number: u16) -> usize
    requires room { 5 ≤ end }
    requires within { end ≤ ROOM }
    ensures low { end ≤ result + 5 }
    ensures high { result ≤ end }
    ensures written { drop result line.new ≡ decimal number ++ drop end line.old }
    ensures ascii { IsAscii (decimal number) }
{
    put_decimal(line, end, number as u64)
}

// A number of up to 3 digits.
fn put_u8(line: &mut [u8; ROOM], end: usize, number: u8) -> usize
    requires room { 3 ≤ end }
    requires within { end ≤ ROOM }
    ensures low { end ≤ result + 3 }
    ensures high { result ≤ end }
    ensures written { drop result line.new ≡ decimal number ++ drop end line.old }
    ensures ascii { IsAscii (decimal number) }
{
    put_decimal(line, end, number as u64)
}

// A number of up to 5 digits, a space and one of up to 10.
pub(crate) fn put_two(line: &mut [u8; ROOM], end: usize, first: u16, second: u32) -> usize
    requires room { 16 ≤ end }
    requires within { end ≤ ROOM }
    ensures low { end ≤ result + 16 }
    ensures high { result ≤ end }
    ensures written { drop result line.new ≡ decimal first ++ (codes " " ++ decimal second) ++ drop end line.old }
    ensures ascii { IsAscii (decimal first ++ (codes " " ++ decimal second)) }
{
    let at = put_u32(line, end, second);
    let at = put_word(line, at, b" ");
    put_u16(line, at, first)
}

// Four numbers joined by dots, of up to 15 bytes.
fn put_address(line: &mut [u8; ROOM], end: usize, addr: u32) -> usize
    requires room { 15 ≤ end }
    requires within { end ≤ ROOM }
    ensures low { end ≤ result + 15 }
    ensures high { result ≤ end }
    ensures written { drop result line.new ≡ address_text addr ++ drop end line.old }
    ensures ascii { IsAscii (address_text addr) }
{
    let at = put_u8(line, end, (addr % 256) as u8);
    let at = put_word(line, at, b".");
    let at = put_u8(line, at, (addr / 256 % 256) as u8);
    let at = put_word(line, at, b".");
    let at = put_u8(line, at, (addr / 65_536 % 256) as u8);
    let at = put_word(line, at, b".");
    put_u8(line, at, (addr / 16_777_216) as u8)
}

// `NAME@ADDRESS`, of up to 48 bytes.
pub(crate) fn put_backend(line: &mut [u8; ROOM], end: usize, backend: &Backend) -> usize
    requires room { 48 ≤ end }
    requires within { end ≤ ROOM }
    ensures low { end ≤ result + 48 }
    ensures high { result ≤ end }
    ensures written { drop result line.new ≡ backend_text backend.now ++ drop end line.old }
    ensures ascii { IsAscii (backend_text backend.now) }
{
    let at = put_address(line, end, backend.addr);
    let at = put_word(line, at, b"@");
    put_word(line, at, backend.name.as_bytes())
}
