//! Files and standard streams that are opened at the first call, and remember what the system refused them. An input is a device.
#![tactic(auto)]

mod ahead;

ghost use Rattle.std.specs.Prelude.{◌≡◌, ◌<◌, ◌^◌, Ok, OnOk, MatchResult};
ghost use Rattle.std.specs.Io.{ReadsAtMost, WritesAtMost};
ghost use Rattle.pcap_file.specs.Device.{failures_after, interruptions_after};

use crate::ahead::{Ahead, PIECE};
use pcap_file::{CallCounts, DeviceFault, Source};
use read_progress::{Showing, Watched, WatchedWriter};
use std::alloc::Global;
use std::fs::{File, metadata};
use std::io;
use std::io::{BufWriter, ErrorKind, Printer, Read, Stdin, Write};
use std::os::fd::AsRawFd;
use std::os::unix::fs::{FileTypeExt, MetadataExt};
use thiserror::Error;

/// The bytes that an output's buffer holds.
const BUFFER: usize = 65_536;

/// The descriptor of standard error, the last of the standard streams.
const LAST_STANDARD: i32 = 2;

/// The word that means standard input or standard output in the place of a path.
const STANDARD: &str = "-";

/// Whether a path means a standard stream.
pub fn is_standard(path: &str) -> bool {
    path == STANDARD
}

/// Gives each standard stream that is closed a file that has nothing to read and can't be written. So no file that is opened
/// later takes its place. The files take the places of the streams as long as they are kept.
pub fn stand_for_closed(rt: &HostRuntime) -> [Option<File>; 3] {
    let first = stand_in(rt);
    // Descriptors are given from the least one on, so that after one above the streams' no stream is closed.
    let second = first.as_ref().and_then(|_| stand_in(rt));
    let third = second.as_ref().and_then(|_| stand_in(rt));
    [first, second, third]
}

// A file of the least descriptor that is free, where that is a standard stream's.
fn stand_in(rt: &HostRuntime) -> Option<File> {
    match File::open(rt, "/dev/null") {
        Ok(file) if file.as_raw_fd() <= LAST_STANDARD => Some(file),
        _ => None,
    }
}

/// Why a file isn't open.
#[derive(Clone, Copy, Debug, PartialEq, Eq, Drop, Error)]
pub enum FileFault {
    /// There was no memory for its buffer.
    #[error("out of memory")]
    Memory,
    /// The system refused it, or what is written would have come to a file that is read.
    #[error("the system refused the file, or it is also read")]
    Refused,
}

/// What the system answered where it refused a file.
#[derive(Clone, Copy, Debug)]
pub struct Refusal {
    kind: ErrorKind,
    code: Option<i32>,
}

impl Refusal {
    /// That of an error.
    pub fn of(error: &io::Error) -> Refusal {
        Refusal {
            kind: error.kind(),
            code: error.raw_os_error(),
        }
    }

    // The fault of a file that can't be opened.
    fn fault(self) -> FileFault {
        match self.kind {
            ErrorKind::OutOfMemory => FileFault::Memory,
            _ => FileFault::Refused,
        }
    }

    /// Whether it isn't the system's: what is written would have come to a file that is read.
    pub fn is_of_one_file(self) -> bool {
        self.code.is_none() && self.kind == ErrorKind::InvalidInput
    }

    /// Whether whoever read a pipe went away.
    pub fn is_of_reader(self) -> bool {
        self.kind == ErrorKind::BrokenPipe
    }

    /// The error, which prints the system's words.
    pub fn error(self) -> io::Error {
        match self.code {
            Some(code) => io::Error::from_raw_os_error(code),
            None => io::Error::from(self.kind),
        }
    }
}

// What the system answered, of which a refusal is remembered.
#[inline(always)]
fn noted<T>(answer: io::Result<T>, refusal: &mut Option<Refusal>) -> io::Result<T>
    ensures { result ≡ answer }
{
    if let Err(error) = &answer {
        *refusal = Some(Refusal::of(error));
    }
    answer
}

/// The bytes of a capture's file header, of its first record's and of an Ethernet header, as far as they were read.
#[derive(Clone, Copy)]
pub struct FirstBytes {
    bytes: [u8; 54],
    length: usize,
}

impl FirstBytes {
    /// No byte yet.
    pub fn empty() -> FirstBytes {
        FirstBytes {
            bytes: [0; 54],
            length: 0,
        }
    }

    // Takes what is missing from the front of some bytes.
    fn note(&mut self, bytes: &[u8]) {
        let missing = self.bytes.len().saturating_sub(self.length);
        for byte in bytes.iter().take(missing) {
            if let Some(place) = self.bytes.get_mut(self.length) {
                *place = *byte;
                self.length = self.length.saturating_add(1);
            }
        }
    }

    /// The bytes.
    pub fn bytes(&self) -> &[u8] {
        self.bytes.get(..self.length).unwrap_or(&[])
    }
}

// The device and the number of what a path names there.
fn identity(rt: &HostRuntime, path: &str) -> Option<(u64, u64)> {
    match metadata(rt, path) {
        Ok(found) => Some((found.dev(), found.ino())),
        Err(_) => None,
    }
}

// Whether a path names a regular file, of which writing changes what is read.
fn is_regular(rt: &HostRuntime, path: &str) -> bool {
    match metadata(rt, path) {
        Ok(found) => found.is_file(),
        Err(_) => false,
    }
}

/// Whether a path names a pipe or a socket.
pub fn is_pipe(rt: &HostRuntime, path: &str) -> bool {
    match metadata(rt, path) {
        Ok(found) => {
            let kind = found.file_type();
            kind.is_fifo() || kind.is_socket()
        }
        Err(_) => false,
    }
}

// The bytes of a regular file.
fn length_of(rt: &HostRuntime, path: &str) -> Option<u64> {
    match metadata(rt, path) {
        Ok(found) if found.is_file() => Some(found.len()),
        _ => None,
    }
}

// The path of a file, or of the standard stream that is meant in its place.
fn path_or<'a>(path: &'a str, stream: &'a str) -> &'a str {
    if is_standard(path) { stream } else { path }
}

// Whether two paths name one file.
fn are_one(rt: &HostRuntime, one: &str, other: &str) -> bool {
    match (identity(rt, one), identity(rt, other)) {
        (Some(one), Some(other)) => one == other,
        _ => false,
    }
}

/// Whether what is written to a path comes out of standard output, so that nothing else may be written there.
pub fn is_standard_output(rt: &HostRuntime, path: &str) -> bool {
    is_standard(path) || (are_one(rt, path, "/dev/stdout") && !are_one(rt, path, "/dev/null"))
}

// What an input is read from.
#[derive(Drop)]
enum Reader<'a> {
    File(Watched<'a, File>),
    Standard(Watched<'a, Stdin>),
}

impl Read for Reader<'_> {
    #[inline(always)]
    fn read(&mut self, buf: &mut [u8]) -> io::Result<usize> {
        match self {
            Reader::File(reader) => reader.read(buf),
            Reader::Standard(reader) => reader.read(buf),
        }
    }
}

/// An input that is opened at the first read, and read a piece at a time. It may show how far it is.
#[derive(Drop)]
pub struct InputFile<'a> {
    rt: &'a HostRuntime,
    path: &'a str,
    showing: Option<Showing<'a>>,
    ahead: Ahead,
    counts: CallCounts,
    reader: Option<Reader<'a>>,
    head: FirstBytes,
    refusal: Option<Refusal>,
}

impl<'a> InputFile<'a> {
    /// The file of this path, not opened yet. How far it is, is shown so.
    pub fn new(rt: &'a HostRuntime, path: &'a str, showing: Option<Showing<'a>>) -> InputFile<'a> {
        InputFile {
            rt,
            path,
            showing,
            ahead: Ahead::new(rt.alloc()),
            counts: CallCounts::none(),
            reader: None,
            head: FirstBytes::empty(),
            refusal: None,
        }
    }

    // The bytes that it has, where that is to be shown.
    fn length(&self) -> Option<u64> {
        match self.showing {
            Some(_) => length_of(self.rt, self.path),
            None => None,
        }
    }

    // Standard input has no length of its own.
    fn open(&self) -> io::Result<Reader<'a>> {
        if is_standard(self.path) {
            let watched = Watched::new(self.rt, self.rt.stdin(), self.showing, None);
            return Ok(Reader::Standard(watched));
        }
        let file = File::open(self.rt, self.path)?;
        let watched = Watched::new(self.rt, file, self.showing, self.length());
        Ok(Reader::File(watched))
    }

    /// Takes from a terminal what is shown of how far it is.
    pub fn clear(&mut self) {
        match &mut self.reader {
            Some(Reader::File(reader)) => reader.clear(),
            Some(Reader::Standard(reader)) => reader.clear(),
            None => {}
        }
    }

    fn opened(&mut self) -> io::Result<()> {
        let reader = self.open()?;
        self.ahead = Ahead::with_room(self.rt.alloc())?;
        self.reader = Some(reader);
        self.refusal = None;
        Ok(())
    }

    /// What opening the file was refused with, if it was.
    pub fn fault(&self) -> Option<FileFault> {
        match (&self.reader, self.refusal) {
            (None, Some(refusal)) => Some(refusal.fault()),
            _ => None,
        }
    }

    /// What the system answered at the last refusal.
    pub fn refusal(&self) -> Option<Refusal> {
        self.refusal
    }

    /// The first bytes that were read.
    pub fn head(&self) -> FirstBytes {
        self.head
    }

    // Opens the file where it isn't open yet.
    fn open_once(&mut self) -> io::Result<()> {
        if self.reader.is_some() {
            return Ok(());
        }
        let opened = self.opened();
        noted(opened, &mut self.refusal)
    }

    // Reads into a place itself.
    fn read_into(&mut self, buf: &mut [u8]) -> io::Result<usize>
        ensures { ReadsAtMost result buf.new }
    {
        let Some(reader) = &mut self.reader else {
            return Ok(0);
        };
        let read = reader.read(buf);
        if let Ok(count) = &read {
            self.head.note(buf.get(..*count).unwrap_or(&[]));
        }
        noted(read, &mut self.refusal)
    }

    // Reads the next piece.
    fn read_piece(&mut self) -> io::Result<()> {
        let Some(reader) = &mut self.reader else {
            return Ok(());
        };
        let read = reader.read(self.ahead.room());
        let count = noted(read, &mut self.refusal)?;
        self.ahead.hold(count);
        self.head.note(self.ahead.waiting());
        Ok(())
    }

    // Reads where fewer bytes are ahead than there is room for. What isn't smaller than a piece is read by itself.
    fn read_on(&mut self, buf: &mut [u8]) -> io::Result<usize>
        ensures { ReadsAtMost result buf.new }
    {
        self.open_once()?;
        if !self.ahead.has(1) {
            if buf.len() >= PIECE {
                return self.read_into(buf);
            }
            self.read_piece()?;
        }
        Ok(self.ahead.give(buf))
    }

    // The same, as a device answers it.
    #[inline(never)]
    fn read_counted(&mut self, buf: &mut [u8]) -> Result<usize, DeviceFault>
        ensures bound { ReadsAtMost result buf.new }
        ensures failures { self.new.counts.failures ≡ failures_after self.old.counts.failures result }
        ensures few { self.new.counts.failures < 2 ^ 64 }
        ensures interruptions { self.new.counts.interruptions ≡ interruptions_after self.old.counts.interruptions result }
        ensures calls { self.new.counts.calls ≡ self.old.counts.calls }
    {
        let mut counts = self.counts;
        let read = self.read_on(buf);
        let read = counted(&mut counts, read);
        self.counts = counts;
        read
    }
}

// What a device answers in the place of a file.
fn counted(counts: &mut CallCounts, read: io::Result<usize>) -> Result<usize, DeviceFault>
    ensures count { MatchResult read (λ n. result ≡ Ok n) (λ _. OnOk result ⊥) }
    ensures failures { counts.new.failures ≡ failures_after counts.old.failures result }
    ensures few { counts.new.failures < 2 ^ 64 }
    ensures interruptions { counts.new.interruptions ≡ interruptions_after counts.old.interruptions result }
    ensures calls { counts.new.calls ≡ counts.old.calls }
{
    match read {
        Ok(count) => {
            let _failures = counts.failures;
            Ok(count)
        }
        Err(error) => Err(counts.fault(error.kind() == ErrorKind::Interrupted)),
    }
}

impl Source for InputFile<'_> {
    ghost use Rattle.std.specs.Prelude.{None};
    ghost use Rattle.pcap_file.specs.Host.{taped};

    ghost tape = { λ f. taped None f.counts };

    #[inline(always)]
    fn read(&mut self, buf: &mut [u8]) -> Result<usize, DeviceFault> {
        self.counts.call();
        if self.ahead.has(buf.len()) {
            return Ok(self.ahead.give(buf));
        }
        self.read_counted(buf)
    }
}

// What an output is written to.
#[derive(Drop)]
enum Writer<'a> {
    File(BufWriter<WatchedWriter<'a, File>>),
    Standard(BufWriter<WatchedWriter<'a, Printer<'a, HostRuntime>>>),
}

/// An output that is made, or emptied, at the first write. It is refused where it is one of the files that are read, whatever
/// each of them is called: standard input and standard output may be files too. It may show how far it is.
#[derive(Drop)]
pub struct OutputFile<'a> {
    rt: &'a HostRuntime,
    path: &'a str,
    read: [&'a str; 2],
    showing: Option<Showing<'a>>,
    writer: Option<Writer<'a>>,
    refusal: Option<Refusal>,
}

impl<'a> OutputFile<'a> {
    /// The file of this path, not opened yet, beside the paths of files that are read. How far it is, is shown so.
    pub fn new(
        rt: &'a HostRuntime,
        path: &'a str,
        read: [&'a str; 2],
        showing: Option<Showing<'a>>,
    ) -> OutputFile<'a> {
        OutputFile {
            rt,
            path,
            read,
            showing,
            writer: None,
            refusal: None,
        }
    }

    // Whether it is a file that is read.
    fn is_what_is_read(&self) -> bool {
        let path = path_or(self.path, "/dev/stdout");
        is_regular(self.rt, path)
            && self
                .read
                .iter()
                .any(|read| are_one(self.rt, path, path_or(read, "/dev/stdin")))
    }

    fn open(&self) -> io::Result<Writer<'a>> {
        let alloc: Global = self.rt.alloc();
        if self.is_what_is_read() {
            return Err(io::Error::from(ErrorKind::InvalidInput));
        }
        if is_standard(self.path) {
            let watched = WatchedWriter::new(self.rt, io::writer(self.rt), self.showing);
            let writer = BufWriter::with_capacity(alloc, BUFFER, watched)?;
            return Ok(Writer::Standard(writer));
        }
        let file = File::create(self.rt, self.path)?;
        let watched = WatchedWriter::new(self.rt, file, self.showing);
        let writer = BufWriter::with_capacity(alloc, BUFFER, watched)?;
        Ok(Writer::File(writer))
    }

    fn opened(&mut self) -> io::Result<()> {
        match self.open() {
            Ok(writer) => {
                self.writer = Some(writer);
                self.refusal = None;
                Ok(())
            }
            Err(error) => {
                self.refusal = Some(Refusal::of(&error));
                Err(error)
            }
        }
    }

    /// What opening the file was refused with, if it was.
    pub fn fault(&self) -> Option<FileFault> {
        match (&self.writer, self.refusal) {
            (None, Some(refusal)) => Some(refusal.fault()),
            _ => None,
        }
    }

    /// What the system answered at the last refusal.
    pub fn refusal(&self) -> Option<Refusal> {
        self.refusal
    }

    /// Takes from a terminal what is shown of how far it is.
    pub fn clear(&mut self) {
        match &mut self.writer {
            Some(Writer::File(writer)) => writer.get_mut().clear(),
            Some(Writer::Standard(writer)) => writer.get_mut().clear(),
            None => {}
        }
    }

    #[inline(always)]
    fn write_on(&mut self, buf: &[u8]) -> io::Result<usize>
        ensures { WritesAtMost result buf.now }
    {
        match &mut self.writer {
            Some(Writer::File(writer)) => writer.write(buf),
            Some(Writer::Standard(writer)) => writer.write(buf),
            None => Ok(0),
        }
    }

    fn flush_on(&mut self) -> io::Result<()> {
        match &mut self.writer {
            Some(Writer::File(writer)) => writer.flush(),
            Some(Writer::Standard(writer)) => writer.flush(),
            None => Ok(()),
        }
    }
}

impl Write for OutputFile<'_> {
    #[inline(always)]
    fn write(&mut self, buf: &[u8]) -> io::Result<usize> {
        if self.writer.is_none() {
            self.opened()?;
        }
        let written = self.write_on(buf);
        noted(written, &mut self.refusal)
    }

    fn flush(&mut self) -> io::Result<()> {
        let flushed = self.flush_on();
        noted(flushed, &mut self.refusal)
    }
}

/// Standard output.
#[derive(Drop)]
pub struct StandardOutput<'a> {
    writer: Printer<'a, HostRuntime>,
    refusal: Option<Refusal>,
}

impl<'a> StandardOutput<'a> {
    /// Nothing was written yet.
    pub fn new(rt: &'a HostRuntime) -> StandardOutput<'a> {
        StandardOutput {
            writer: io::writer(rt),
            refusal: None,
        }
    }

    /// What the system answered at the last refusal.
    pub fn refusal(&self) -> Option<Refusal> {
        self.refusal
    }
}

impl Write for StandardOutput<'_> {
    fn write(&mut self, buf: &[u8]) -> io::Result<usize> {
        let written = self.writer.write(buf);
        noted(written, &mut self.refusal)
    }

    fn flush(&mut self) -> io::Result<()> {
        let flushed = self.writer.flush();
        noted(flushed, &mut self.refusal)
    }
}

/// How many bytes of the end of a text are kept at least, where it is printed as it comes.
const END: usize = 65_536;

/// A report that is kept until it is printed, or that is printed as it comes, and of which the end is kept.
#[derive(Drop)]
pub struct ReportText<'a> {
    rt: &'a HostRuntime,
    text: Vec<u8>,
    is_short: bool,
    is_printed: bool,
    to_error: bool,
    refusal: Option<Refusal>,
}

impl<'a> ReportText<'a> {
    /// No text yet. It is kept.
    pub fn kept(rt: &'a HostRuntime) -> ReportText<'a> {
        ReportText {
            rt,
            text: Vec::new(rt.alloc()),
            is_short: false,
            is_printed: false,
            to_error: false,
            refusal: None,
        }
    }

    /// No text yet. It is printed as it comes: on standard output, or on standard error.
    pub fn printed(rt: &'a HostRuntime, to_error: bool) -> ReportText<'a> {
        ReportText {
            is_printed: true,
            to_error,
            ..ReportText::kept(rt)
        }
    }

    /// The text, or its end where it was printed as it came.
    pub fn text(&self) -> &[u8] {
        self.text.as_slice()
    }

    /// Whether memory for the text was refused.
    pub fn is_short(&self) -> bool {
        self.is_short
    }

    /// Whether it was printed as it came.
    pub fn is_printed(&self) -> bool {
        self.is_printed
    }

    /// What the system answered where printing it was refused.
    pub fn refusal(&self) -> Option<Refusal> {
        self.refusal
    }

    #[inline(always)]
    fn keep(&mut self, buf: &[u8]) -> io::Result<usize>
        ensures { WritesAtMost result buf.now }
    {
        let written = self.text.write(buf);
        self.is_short = written.is_err();
        written
    }

    fn print(&mut self, buf: &[u8]) -> io::Result<usize>
        ensures { WritesAtMost result buf.now }
    {
        let printed = if self.to_error {
            self.rt.stderr().write(buf)
        } else {
            io::writer(self.rt).write(buf)
        };
        noted(printed, &mut self.refusal)
    }

    // Lets go of what comes before the end of the text. Where memory is refused nothing is kept.
    fn shorten(&mut self) {
        let from = self.text.len().saturating_sub(END);
        let end = Vec::from_slice(self.rt.alloc(), self.text.get(from..).unwrap_or(&[]));
        self.text = end.unwrap_or(Vec::new(self.rt.alloc()));
    }

    // Keeps the end of the text, with what was printed now. Where memory is refused nothing is kept of what came before.
    fn keep_end(&mut self, bytes: &[u8]) {
        if bytes.len() >= END {
            self.text.clear();
        } else if self.text.len().saturating_add(bytes.len()) > 2 * END {
            self.shorten();
        }
        let from = bytes.len().saturating_sub(END);
        if self.text.write(bytes.get(from..).unwrap_or(&[])).is_err() {
            self.text.clear();
        }
    }
}

impl Write for ReportText<'_> {
    #[inline(always)]
    fn write(&mut self, buf: &[u8]) -> io::Result<usize> {
        if !self.is_printed {
            return self.keep(buf);
        }
        let printed = self.print(buf);
        if let Ok(length) = &printed {
            self.keep_end(buf.get(..*length).unwrap_or(&[]));
        }
        printed
    }

    fn flush(&mut self) -> io::Result<()> {
        Ok(())
    }
}
