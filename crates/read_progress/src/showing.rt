//! Where and how often it is shown how far something is.
use std::alloc::AllocError;
use std::io::Write;
use std::sync::atomic::{AtomicU64, Ordering};
use std::time::Duration;

/// Where it is shown how far a command is.
#[derive(Clone, Copy, Debug, PartialEq, Eq)]
pub enum Place {
    /// On one line of a terminal, which is written again four times a second.
    Line,
    /// On lines that stay, one in ten seconds.
    Lines,
}

/// How many packets INPUT has, which its reading tells at its end to those who play them. Nothing is told where no reading is shown.
#[derive(Drop)]
pub struct ReadMark {
    packets: AtomicU64,
}

impl ReadMark {
    /// Nothing is told yet.
    pub fn new() -> ReadMark {
        ReadMark {
            packets: AtomicU64::new(0),
        }
    }

    /// How many packets INPUT has, where that is told.
    pub fn packets(&self) -> Option<u64> {
        let packets = self.packets.load(Ordering::SeqCst);
        Some(packets).filter(|packets| *packets > 0)
    }

    // INPUT has so many packets.
    pub(crate) fn tell(&self, packets: u64) {
        self.packets.store(packets, Ordering::SeqCst);
    }
}

/// What a line says at the end of a reading.
#[derive(Clone, Copy)]
pub enum AtEnd<'a> {
    /// Nothing: it goes.
    Gone,
    /// That INPUT is read. It stays until it is cleared.
    Read,
    /// The same, and that the balancers run now. They are told how many packets there are.
    Running(&'a ReadMark),
}

/// How it is shown how far a command is.
#[derive(Clone, Copy)]
pub struct Showing<'a> {
    pub place: Place,
    /// The line is there from the beginning on, and not from half a second on.
    pub is_eager: bool,
    pub at_end: AtEnd<'a>,
}

/// What a terminal gets to begin its line again: the cursor goes to its start, and what stands there is cleared (ECMA-48, EL).
const CLEARED: &str = "\r\u{1b}[K";

impl Showing<'_> {
    /// How long nothing is shown at first.
    pub fn delay(self) -> Duration {
        match self.place {
            Place::Line if self.is_eager => Duration::from_millis(0),
            Place::Line => Duration::from_millis(500),
            Place::Lines => Duration::from_secs(10),
        }
    }

    /// The time from one status to the next.
    pub fn pause(self) -> Duration {
        match self.place {
            Place::Line => Duration::from_millis(250),
            Place::Lines => Duration::from_secs(10),
        }
    }

    /// Whether it is shown on a line that is cleared at the end.
    pub fn is_line(self) -> bool {
        self.place == Place::Line
    }

    /// Shows a text in place of what a line shows, or on a line of its own.
    pub fn put(self, rt: &HostRuntime, text: &str) -> Result<(), AllocError> {
        let alloc = rt.alloc();
        let line = if self.is_line() {
            format!(in alloc; "{CLEARED}{text}")?
        } else {
            format!(in alloc; "{text}\n")?
        };
        let _ = rt.stderr().write_all(line.as_bytes());
        Ok(())
    }

    /// Clears the line of a terminal.
    pub fn clear(self, rt: &HostRuntime) {
        if self.is_line() {
            let _ = rt.stderr().write_all(CLEARED.as_bytes());
        }
    }
}
