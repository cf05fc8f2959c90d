// How far a capture was padded.
ghost use Rattle.std.specs.Prelude.{◌≡◌, ◌≤◌, ◌<◌, ◌+◌, ◌-◌, ◌++◌, true, false, min, length, take, drop, [], replicate, slice_range, nat_lt};
ghost use Rattle.std.specs.Prelude.{◌&&◌, not};
ghost use Rattle.pcap_file.specs.Format.{number_in, magic_of, max_captured};
ghost use Rattle.padded_capture.specs.Padding.{mended, missing};
ghost use Rattle.padded_capture.specs.Stages.{fresh, header_len, form_of, ComesSame, IsTurn, FitsIn, left_of};

use byteorder::{BigEndian, ByteOrder, LittleEndian};
use pcap_file::Order;
use std::marker::Model;

/// The most bytes that a record may have.
const MOST: u32 = 262_144;

/// What is known of a capture's form.
#[derive(Clone, Copy, Debug, PartialEq, Eq)]
pub(crate) enum Form {
    /// Its header isn't read yet.
    Unknown,
    /// Its numbers are in this order.
    Ordered(Order),
    /// It is none, or it has ended: what comes is as it is.
    Plain,
}

/// What is to be done next.
#[derive(Clone, Copy, Debug, PartialEq, Eq)]
pub(crate) enum Turn {
    /// More bytes of a header are read.
    Gather,
    /// Bytes that wait are handed out.
    Give,
    /// Bytes are read that come as they are.
    Pass,
    /// Zeros are handed out.
    Zero,
}

/// How far a capture was padded. Contracts see the bytes that wait in place of where they lie.
#[derive(Debug, Drop)]
pub(crate) struct Stage {
    form: Form,
    is_gathering: bool,
    text: [u8; 24],
    given: usize,
    held: usize,
    plain: u32,
    zeros: u32,
}

impl Model for Stage {
    ghost use Rattle.std.specs.Prelude.{◌≡◌, ◌≤◌, true, take, drop};
    ghost use Rattle.padded_capture.specs.Stages.{State, header_len};

    ghost Value = { State };

    ghost view = { λ s. record {
      form = s.form;
      is_gathering = s.is_gathering;
      waiting = drop s.given (take s.held s.text);
      plain = s.plain;
      zeros = s.zeros;
    } };

    ghost invariant = { λ s. (s.given ≤ s.held) × (s.held ≤ 24) × (s.is_gathering ≡ true → s.given ≡ 0)
        × (s.is_gathering ≡ true → s.held ≤ header_len s.form) };
}

// The number of four bytes, from a place on.
fn number(order: Order, bytes: &[u8], at: usize) -> u32
    requires { at + 4 ≤ length bytes.now }
    ensures { result ≡ number_in order at 4 bytes.now }
{
    match order {
        Order::Big => BigEndian::read_u32(&bytes[at..]),
        Order::Little => LittleEndian::read_u32(&bytes[at..]),
    }
}

// What the first four bytes say of the form.
fn form_of(bytes: &[u8]) -> Form
    requires { 4 ≤ length bytes.now }
    ensures { result ≡ form_of (magic_of (number_in Order.Big 0 4 bytes.now)) }
{
    match BigEndian::read_u32(bytes) {
        0xa1b2_c3d4 | 0xa1b2_3c4d => Form::Ordered(Order::Big),
        0xd4c3_b2a1 | 0x4d3c_b2a1 => Form::Ordered(Order::Little),
        _ => Form::Plain,
    }
}

impl Stage {
    /// Nothing was read yet.
    pub(crate) fn fresh() -> Stage
        ensures { result ≡ fresh }
    {
        Stage {
            form: Form::Unknown,
            is_gathering: true,
            text: [0; 24],
            given: 0,
            held: 0,
            plain: 0,
            zeros: 0,
        }
    }

    /// Hands out bytes that wait, as many as there is room for.
    pub(crate) fn give(&mut self, buf: &mut [u8]) -> usize
        requires { self.old.is_gathering ≡ false }
        ensures count { result ≡ min (length buf.old) (length self.old.waiting) }
        ensures bytes { take result buf.new ≡ take result self.old.waiting }
        ensures rest { self.new ≡ record self.old { waiting = drop result self.old.waiting } }
    {
        let n = buf.len().min(self.held - self.given);
        let end = self.given + n;
        buf[..n].copy_from_slice(&self.text[self.given..end]);
        self.given = end;
        n
    }

    /// Keeps bytes of a header.
    pub(crate) fn keep(&mut self, bytes: &[u8])
        requires gathers { self.old.is_gathering ≡ true }
        requires room { length self.old.waiting + length bytes.now ≤ header_len self.old.form }
        ensures { self.new ≡ record self.old { waiting = self.old.waiting ++ bytes.now } }
    {
        let end = self.held + bytes.len();
        self.text[self.held..end].copy_from_slice(bytes);
        self.held = end;
    }
    // The captured length of the header that waits becomes the original one.
    fn raise(&mut self)
        requires gathers { self.old.is_gathering ≡ true }
        requires count { length self.old.waiting ≡ 16 }
        ensures { self.new ≡ record self.old {
          waiting = take 8 self.old.waiting ++ (slice_range self.old.waiting 12 16
              ++ slice_range self.old.waiting 12 16);
        } }
    {
        let original = [self.text[12], self.text[13], self.text[14], self.text[15]];
        self.text[8..12].copy_from_slice(&original);
    }

    // The header that waits is that of a whole record. What is missing of it comes as zeros.
    fn mend(&mut self, captured: u32, original: u32)
        requires gathers { self.old.is_gathering ≡ true }
        requires count { length self.old.waiting ≡ 16 }
        ensures { self.new ≡ record self.old {
          waiting = mended (nat_lt captured original && not (nat_lt max_captured original)) self.old.waiting;
          zeros = missing (nat_lt captured original && not (nat_lt max_captured original)) captured original;
        } }
    {
        if captured < original && original <= MOST {
            self.zeros = original - captured;
            self.raise();
        } else {
            self.zeros = 0;
        }
    }

    // A number of the header that waits.
    fn number(&self, order: Order, at: usize) -> u32
        requires gathers { self.now.is_gathering ≡ true }
        requires count { length self.now.waiting ≡ 16 }
        requires within { at + 4 ≤ 16 }
        ensures { result ≡ number_in order at 4 self.now.waiting }
    {
        number(order, &self.text[..self.held], at)
    }

    // A record's header is whole.
    fn begin_record(&mut self, order: Order)
        requires gathers { self.old.is_gathering ≡ true }
        requires form { self.old.form ≡ Form.Ordered order }
        requires count { length self.old.waiting ≡ 16 }
        ensures same { ComesSame self.old self.new }
        ensures gives { (self.new.is_gathering ≡ false) × (0 < length self.new.waiting) }
    {
        let captured = self.number(order, 8);
        let original = self.number(order, 12);
        self.mend(captured, original);
        self.plain = captured;
        self.is_gathering = false;
    }

    // The file's header is whole.
    fn begin_file(&mut self)
        requires gathers { self.old.is_gathering ≡ true }
        requires form { self.old.form ≡ Form.Unknown }
        requires count { length self.old.waiting ≡ 24 }
        ensures same { ComesSame self.old self.new }
        ensures gives { (self.new.is_gathering ≡ false) × (0 < length self.new.waiting) }
    {
        self.form = form_of(&self.text[..self.held]);
        self.plain = 0;
        self.zeros = 0;
        self.is_gathering = false;
    }
    // A header is whole, and comes.
    fn begin(&mut self) -> Turn
        requires gathers { self.old.is_gathering ≡ true }
        requires count { length self.old.waiting ≡ header_len self.old.form }
        ensures same { ComesSame self.old self.new }
        ensures turn { IsTurn result self.new }
    {
        match self.form {
            Form::Unknown => {
                self.begin_file();
                Turn::Give
            }
            Form::Ordered(order) => {
                self.begin_record(order);
                Turn::Give
            }
            Form::Plain => {
                self.is_gathering = false;
                Turn::Pass
            }
        }
    }

    // The next header is gathered.
    fn gather(&mut self)
        ensures { self.new ≡ record self.old { is_gathering = true; waiting = [] } }
    {
        self.is_gathering = true;
        self.given = 0;
        self.held = 0;
    }

    // What is to be done behind a header.
    fn next_behind(&mut self) -> Turn
        requires gives { self.old.is_gathering ≡ false }
        requires none { self.old.waiting ≡ [] }
        ensures same { ComesSame self.old self.new }
        ensures turn { IsTurn result self.new }
    {
        match self.form {
            Form::Ordered(_) if self.plain > 0 => Turn::Pass,
            Form::Ordered(_) if self.zeros > 0 => Turn::Zero,
            Form::Ordered(_) => {
                self.gather();
                Turn::Gather
            }
            _ => Turn::Pass,
        }
    }

    // How many bytes are missing of the header that is gathered.
    pub(crate) fn missing(&self) -> usize
        requires { self.now.is_gathering ≡ true }
        ensures { result ≡ header_len self.now.form - length self.now.waiting }
    {
        let length: usize = match self.form {
            Form::Unknown => 24,
            Form::Ordered(_) => 16,
            Form::Plain => 0,
        };
        length - self.held
    }

    /// What is to be done next.
    pub(crate) fn next(&mut self) -> Turn
        ensures same { ComesSame self.old self.new }
        ensures turn { IsTurn result self.new }
    {
        if self.is_gathering {
            if self.missing() > 0 {
                return Turn::Gather;
            }
            return self.begin();
        }
        if self.given < self.held {
            return Turn::Give;
        }
        self.next_behind()
    }

    /// The text is over: what waits comes as it is.
    pub(crate) fn end(&mut self)
        ensures { self.new ≡ record self.old { form = Form.Plain; is_gathering = false } }
    {
        self.form = Form::Plain;
        self.is_gathering = false;
    }

    /// How many bytes may come as they are, where there is room for so many.
    pub(crate) fn most(&self, room: usize) -> usize
        requires turn { IsTurn Turn.Pass self.now }
        requires some { 0 < room }
        ensures fits { FitsIn self.now.form result self.now.plain }
        ensures within { result ≤ room }
        ensures some { 0 < result }
    {
        match self.form {
            Form::Ordered(_) => room.min(self.plain as usize),
            _ => room,
        }
    }

    /// So many bytes came as they are.
    pub(crate) fn pass(&mut self, n: usize)
        requires { FitsIn self.old.form n self.old.plain }
        ensures { self.new ≡ record self.old { plain = left_of self.old.form self.old.plain n } }
    {
        if let Form::Ordered(_) = self.form {
            self.plain -= n as u32;
        }
    }

    /// Hands out zeros, as many as there is room for.
    pub(crate) fn zero(&mut self, buf: &mut [u8]) -> usize
        ensures count { result ≡ min (length buf.old) self.old.zeros }
        ensures bytes { take result buf.new ≡ replicate result 0 }
        ensures rest { self.new ≡ record self.old { zeros = self.old.zeros - result } }
    {
        let n = buf.len().min(self.zeros as usize);
        buf[..n].fill(0);
        self.zeros -= n as u32;
        n
    }
}
