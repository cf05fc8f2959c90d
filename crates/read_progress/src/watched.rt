//! A reader and a writer whose progress is shown.
use crate::counting::RecordCount;
use crate::showing::{AtEnd, Showing};
use crate::status::{Reading, sent_text, status_text};
use std::alloc::AllocError;
use std::io;
use std::io::{Read, Write};
use std::time::{Duration, Instant};

// What goes on.
#[derive(Clone, Copy)]
enum Going {
    // A reading of so many bytes, where that is known.
    Reading(Option<u64>),
    Writing,
}

// What is shown of a reading or a writing, and when.
#[derive(Drop)]
struct Progress<'a> {
    rt: &'a HostRuntime,
    showing: Showing<'a>,
    going: Going,
    start: Instant,
    due: Duration,
    bytes: u64,
    records: RecordCount,
    is_shown: bool,
    is_over: bool,
}

impl<'a> Progress<'a> {
    // Of what begins now. Without a way to show it, or a clock, there is none.
    fn new(
        rt: &'a HostRuntime,
        showing: Option<Showing<'a>>,
        going: Going,
    ) -> Option<Progress<'a>> {
        let showing = showing?;
        let start = Instant::now(rt).ok()?;
        Some(Progress {
            rt,
            showing,
            going,
            start,
            due: showing.delay(),
            bytes: 0,
            records: RecordCount::new(),
            is_shown: false,
            is_over: false,
        })
    }

    // Shows a text in place of what is shown.
    fn put(&mut self, text: &str) -> Result<(), AllocError> {
        self.showing.put(self.rt, text)?;
        self.is_shown = true;
        Ok(())
    }

    // How far it is, in words.
    fn text(&self, taken: Duration) -> Result<String, AllocError> {
        let (alloc, packets) = (self.rt.alloc(), self.records.records());
        match self.going {
            Going::Writing => sent_text(alloc, packets, taken),
            Going::Reading(whole) => {
                let reading = Reading {
                    packets,
                    bytes: self.bytes,
                    whole,
                    taken,
                };
                status_text(alloc, &reading)
            }
        }
    }

    // Shows how far it is.
    fn show(&mut self, taken: Duration) {
        if let Ok(text) = self.text(taken) {
            let _ = self.put(text.as_str());
        }
        self.due = taken.saturating_add(self.showing.pause());
    }

    // The reading is at its end. Where nothing was shown on the line there is no need to.
    fn end(&mut self) {
        if self.is_over {
            return;
        }
        self.is_over = true;
        let records = self.records.records();
        let (goes, behind) = match self.showing.at_end {
            AtEnd::Gone => (true, ""),
            AtEnd::Read => (false, ""),
            AtEnd::Running(mark) => {
                mark.tell(records);
                (false, ", the balancers run")
            }
        };
        if self.showing.is_line() && (goes || !self.is_shown) {
            return self.clear();
        }
        if let Ok(text) = format!(in self.rt.alloc(); "{records} packets, INPUT is read{behind}") {
            let _ = self.put(text.as_str());
        }
    }

    // Bytes were read, or written.
    fn note(&mut self, bytes: &[u8]) {
        self.records.note(bytes);
        self.bytes = self.bytes.saturating_add(bytes.len() as u64);
        if let Ok(taken) = self.start.elapsed(self.rt)
            && taken >= self.due
        {
            self.show(taken);
        }
    }

    // Clears the line of a terminal.
    fn clear(&mut self) {
        if self.is_shown {
            self.showing.clear(self.rt);
        }
        self.is_shown = false;
    }
}

/// A reader that may show how far it is.
#[derive(Drop)]
pub struct Watched<'a, R> {
    reader: R,
    progress: Option<Progress<'a>>,
}

impl<'a, R> Watched<'a, R> {
    /// A reader of so many bytes, where that is known, of which nothing is read yet. Without a way to show it nothing is shown.
    pub fn new(
        rt: &'a HostRuntime,
        reader: R,
        showing: Option<Showing<'a>>,
        whole: Option<u64>,
    ) -> Watched<'a, R> {
        Watched {
            reader,
            progress: Progress::new(rt, showing, Going::Reading(whole)),
        }
    }

    /// Takes what is shown from a terminal, and shows nothing more.
    pub fn clear(&mut self) {
        if let Some(progress) = &mut self.progress {
            progress.clear();
        }
        self.progress = None;
    }
}

impl<R> Watched<'_, R> {
    // Bytes were read into the front of a place; none at the end.
    #[inline(never)]
    fn note(&mut self, bytes: &[u8]) {
        if let Some(progress) = &mut self.progress {
            if bytes.is_empty() {
                progress.end();
            } else {
                progress.note(bytes);
            }
        }
    }
}

impl<R: Read> Read for Watched<'_, R> {
    #[inline(always)]
    fn read(&mut self, buf: &mut [u8]) -> io::Result<usize> {
        match self.reader.read(buf) {
            Ok(length) => {
                if self.progress.is_some() {
                    self.note(buf.get(..length).unwrap_or(&[]));
                }
                Ok(length)
            }
            Err(error) => Err(error),
        }
    }
}

/// A writer of a capture that may show how many packets were written.
#[derive(Drop)]
pub struct WatchedWriter<'a, W> {
    writer: W,
    progress: Option<Progress<'a>>,
}

impl<'a, W> WatchedWriter<'a, W> {
    /// A writer to which nothing is written yet. Without a way to show it nothing is shown.
    pub fn new(
        rt: &'a HostRuntime,
        writer: W,
        showing: Option<Showing<'a>>,
    ) -> WatchedWriter<'a, W> {
        WatchedWriter {
            writer,
            progress: Progress::new(rt, showing, Going::Writing),
        }
    }

    /// Takes what is shown from a terminal, and shows nothing more.
    pub fn clear(&mut self) {
        if let Some(progress) = &mut self.progress {
            progress.clear();
        }
        self.progress = None;
    }
}

impl<W: Write> Write for WatchedWriter<'_, W> {
    #[inline(always)]
    fn write(&mut self, buf: &[u8]) -> io::Result<usize> {
        match self.writer.write(buf) {
            Ok(length) => {
                if let Some(progress) = &mut self.progress {
                    progress.note(buf.get(..length).unwrap_or(&[]));
                }
                Ok(length)
            }
            Err(error) => Err(error),
        }
    }

    fn flush(&mut self) -> io::Result<()> {
        self.writer.flush()
    }
}
