//! The commands that play a scenario, over files.
ghost use Rattle.std.specs.Prelude.{◌≡◌, IfErr};
ghost use Rattle.command_faults.specs.declared.fault.CliFault.TheVariants.{NoRandom};

use crate::reasons::Trouble;
use change_share::ChangeCounts;
use command_faults::CliFault;
use connection_starts::Ordinals;
use connection_table::TableKey;
use lazy_files::{
    FileFault, FirstBytes, InputFile, OutputFile, Refusal, ReportText, StandardOutput, is_standard,
    is_standard_output,
};
use padded_capture::{CaptureSource, Padded};
use pcap_file::{Frame, FromRead, PcapFault, ToWrite, read_record_into, read_start};
use read_progress::{AtEnd, Showing};
use scenario::Played;
use scenario_commands::{answer_keyed, ordinals_in, thread_ordinals_in};
use scenario_faults::PlacedFault;
use scenario_sketch::sketch;
use simulate_scenario::Query;
use std::fs::File;
use std::io;
use std::io::{BufReader, ErrorKind, Read, Write};
use std::random::RandomSource;

/// INPUT's device, which may pad what a snap length cut.
pub type CaptureFile<'x> = CaptureSource<InputFile<'x>>;

// INPUT, with or without zeros where bytes are missing.
fn capture_file<'x>(
    rt: &'x HostRuntime,
    path: &'x str,
    reading: ReadingManner<'x>,
) -> CaptureFile<'x> {
    let input = InputFile::new(rt, path, reading.showing);
    if reading.is_padded {
        CaptureSource::Padded(Padded::new(input))
    } else {
        CaptureSource::Plain(input)
    }
}

/// How a command reads its capture.
#[derive(Clone, Copy)]
pub(crate) struct ReadingManner<'a> {
    /// Records that a snap length cut are read as they were.
    pub(crate) is_padded: bool,
    /// How it is shown how far the reading is.
    pub(crate) showing: Option<Showing<'a>>,
}

/// The paths of a command's files. `explain` has no output.
#[derive(Clone, Copy)]
pub(crate) struct Paths<'a> {
    pub(crate) scenario: &'a str,
    pub(crate) input: &'a str,
    pub(crate) output: &'a str,
}

impl<'a> Paths<'a> {
    // Those of files that are read.
    fn read(&self) -> [&'a str; 2] {
        [self.scenario, self.input]
    }
}

/// The most bytes of a scenario that are read: one more than it may have.
const MOST: u64 = 1_048_577;

/// The text of a scenario's file, up to the bytes that show that it is too long, and what became of reading it. Where it was
/// refused the text is what came before.
pub(crate) fn read_scenario(rt: &HostRuntime, path: &str) -> (Vec<u8>, Result<(), Trouble>) {
    let mut text = Vec::new(rt.alloc());
    let outcome = scenario_into(rt, path, &mut text);
    (text, outcome)
}

fn scenario_into(rt: &HostRuntime, path: &str, text: &mut Vec<u8>) -> Result<(), Trouble> {
    if is_standard(path) {
        return text_into(rt.stdin(), text);
    }
    match File::open(rt, path) {
        Ok(file) => text_into(file, text),
        Err(error) => Err(Trouble::of_system(CliFault::OpenScenario, &error)),
    }
}

fn text_into<R: Read + Drop>(file: R, text: &mut Vec<u8>) -> Result<(), Trouble> {
    match file.take(MOST).read_to_end(text) {
        Ok(_) => Ok(()),
        Err(error) if error.kind() == ErrorKind::OutOfMemory => Err(CliFault::Memory.into()),
        Err(error) => Err(Trouble::of_system(CliFault::ReadScenario, &error)),
    }
}

/// A key that nobody else knows. No answer depends on it. Where the system gives no random bytes there is none, since flows
/// can be chosen for a key that is known.
pub(crate) fn table_key(rt: &impl RandomSource) -> Result<TableKey, CliFault>
    ensures { IfErr result (λ fault. fault ≡ NoRandom) }
{
    match TableKey::drawn(rt) {
        Ok(key) => Ok(key),
        Err(_) => Err(CliFault::NoRandom),
    }
}

// The fault of a file that isn't open: this one, where no memory was refused.
fn of_file(refused: FileFault, fault: CliFault) -> CliFault {
    match refused {
        FileFault::Memory => CliFault::Memory,
        FileFault::Refused => fault,
    }
}

// A fault of reading, where opening the input may have been refused.
fn of_input(fault: CliFault, input: &InputFile<'_>) -> CliFault {
    match (fault, input.fault()) {
        (CliFault::Capture(PcapFault::Read), Some(refused)) => {
            of_file(refused, CliFault::OpenInput)
        }
        _ => fault,
    }
}

// A fault of writing, where opening the output or keeping the report may have been refused.
fn of_output(fault: CliFault, output: &OutputFile<'_>, report: &ReportText<'_>) -> CliFault {
    match (fault, output.fault()) {
        (CliFault::Write, Some(refused)) => of_file(refused, CliFault::OpenOutput),
        (CliFault::Write, None) if report.is_short() => CliFault::Memory,
        _ => fault,
    }
}

// What became of a fault, with what the system answered and the first bytes of the input.
fn trouble_of(stopped: PlacedFault, input: &InputFile<'_>, output: Option<Refusal>) -> Trouble {
    let system = match stopped.fault {
        CliFault::Write | CliFault::OpenOutput => output,
        _ => input.refusal(),
    };
    Trouble {
        system,
        head: input.head(),
        ..Trouble::from(stopped)
    }
}

// Writes out what the output's buffer holds.
fn flushed(output: &mut OutputFile<'_>) -> Result<(), CliFault> {
    match output.flush() {
        Ok(()) => Ok(()),
        Err(_) => Err(CliFault::Write),
    }
}

// Prints the report: on standard output, or on standard error where what is sent goes to standard output.
fn print_report(rt: &HostRuntime, text: &[u8], to_error: bool) -> Result<(), Trouble> {
    let done = if to_error {
        rt.stderr().write_all(text)
    } else {
        io::writer(rt).write_all(text)
    };
    done.map_err(|error| Trouble::of_report(&error))
}

/// What a command printed, with how INPUT begins, and how many connections there were and changed their server, where that was
/// counted.
#[derive(Drop)]
pub(crate) struct Printed<'x> {
    pub(crate) report: ReportText<'x>,
    pub(crate) head: FirstBytes,
    pub(crate) counts: Option<ChangeCounts>,
}

// The end of a command: the output is written out, and then the report is printed and answered, or the fault is.
fn finished<'x>(
    rt: &HostRuntime,
    files: &Paths<'_>,
    mut input: InputFile<'_>,
    mut output: OutputFile<'_>,
    report: ReportText<'x>,
    outcome: Result<Option<ChangeCounts>, PlacedFault>,
) -> Result<Printed<'x>, Trouble> {
    let written = flushed(&mut output);
    input.clear();
    output.clear();
    let stopped = match (written, outcome) {
        (Err(fault), _) => PlacedFault { fault, place: None },
        (Ok(()), Ok(counts)) => {
            if !report.is_printed() {
                print_report(rt, report.text(), is_standard_output(rt, files.output))?;
            }
            let head = input.head();
            return Ok(Printed {
                report,
                head,
                counts,
            });
        }
        (Ok(()), Err(stopped)) if report.refusal().is_some() => {
            return Err(Trouble {
                system: report.refusal(),
                of_report: true,
                ..Trouble::from(stopped)
            });
        }
        (Ok(()), Err(stopped)) => PlacedFault {
            fault: of_output(of_input(stopped.fault, &input), &output, &report),
            place: stopped.place,
        },
    };
    Err(trouble_of(stopped, &input, output.refusal()))
}

/// How a command reads its capture, and prints its report.
#[derive(Clone, Copy)]
pub(crate) struct Manner<'a> {
    pub(crate) reading: ReadingManner<'a>,
    /// The report is printed as it comes.
    pub(crate) is_streamed: bool,
}

impl<'a> Manner<'a> {
    // How it is shown how far the writing is. Where the capture is written as it is read, the reading shows it.
    fn writing(self) -> Option<Showing<'a>> {
        let showing = self.reading.showing?;
        match showing.at_end {
            AtEnd::Running(_) => Some(showing),
            _ => None,
        }
    }

    // Where the report goes.
    fn report<'x>(self, rt: &'x HostRuntime, output: &str) -> ReportText<'x> {
        if self.is_streamed {
            ReportText::printed(rt, is_standard_output(rt, output))
        } else {
            ReportText::kept(rt)
        }
    }
}

/// A command that reads a capture and writes another: `play` gets the tables' key, the scenario's text, and the devices, each
/// of which is opened at its first call. The report is kept until the output is written out, and then printed, or it is
/// printed as it comes. It is answered too.
pub(crate) fn between_files<'x, F>(
    rt: &'x HostRuntime,
    files: &Paths<'x>,
    manner: Manner<'x>,
    text: &[u8],
    play: F,
) -> Result<Printed<'x>, Trouble>
where
    F: FnOnce(
        TableKey,
        &[u8],
        &mut CaptureFile<'x>,
        &mut ToWrite<OutputFile<'x>>,
        &mut ToWrite<ReportText<'x>>,
    ) -> Result<Option<ChangeCounts>, PlacedFault>,
    F: Drop,
    requires { F.IsAlwaysCallable play }
{
    let key = table_key(rt)?;
    let mut input = capture_file(rt, files.input, manner.reading);
    let file = OutputFile::new(rt, files.output, files.read(), manner.writing());
    let mut output = ToWrite::new(file);
    let mut report = ToWrite::new(manner.report(rt, files.output));
    let outcome = play(key, text, &mut input, &mut output, &mut report);
    finished(
        rt,
        files,
        input.into_inner(),
        output.into_inner(),
        report.into_inner(),
        outcome,
    )
}

/// How the ordinals of the records of INPUT are read: for a scenario that is played so. A flow begins again after so many
/// microseconds without a segment too, where they are given.
#[derive(Clone, Copy)]
pub struct FirstReading<'a> {
    pub(crate) path: &'a str,
    pub(crate) reading: ReadingManner<'a>,
    pub(crate) played: Played,
    pub(crate) idle: Option<u64>,
}

/// The ordinals of the records of INPUT, which is read whole for them.
pub fn ordinals_of(
    rt: &HostRuntime,
    first: FirstReading<'_>,
    key: TableKey,
    text: &[u8],
) -> Result<Ordinals, PlacedFault> {
    let FirstReading {
        path,
        reading,
        played,
        idle,
    } = first;
    let mut input = capture_file(rt, path, reading);
    let found = match played {
        Played::OnThreads => thread_ordinals_in(rt.alloc(), key, text, idle, &mut input),
        _ => ordinals_in(rt.alloc(), key, text, idle, &mut input),
    };
    let mut input = input.into_inner();
    input.clear();
    match found {
        Ok(ordinals) => Ok(ordinals),
        Err(PlacedFault { fault, place }) => {
            let fault = of_input(fault, &input);
            Err(PlacedFault { fault, place })
        }
    }
}

/// What became of a command that printed on standard output.
pub(crate) fn outcome_of(
    outcome: Result<(), PlacedFault>,
    output: &StandardOutput<'_>,
) -> Result<(), Trouble> {
    match outcome {
        Ok(()) => Ok(()),
        Err(stopped) if stopped.fault == CliFault::Write => Err(Trouble {
            system: output.refusal(),
            of_report: true,
            ..Trouble::from(stopped)
        }),
        Err(stopped) => Err(stopped.into()),
    }
}

// The same of a command that reads a capture.
fn outcome_over(
    outcome: Result<(), PlacedFault>,
    mut input: InputFile<'_>,
    output: &StandardOutput<'_>,
) -> Result<(), Trouble> {
    input.clear();
    match outcome {
        Err(PlacedFault { fault, place }) if fault != CliFault::Write => {
            let fault = of_input(fault, &input);
            Err(trouble_of(PlacedFault { fault, place }, &input, None))
        }
        outcome => outcome_of(outcome, output),
    }
}

/// The command `explain` over files.
pub(crate) fn explain_files(
    rt: &HostRuntime,
    files: &Paths<'_>,
    reading: ReadingManner<'_>,
    text: &[u8],
    asked: Query,
) -> Result<(), Trouble> {
    let key = table_key(rt)?;
    let mut input = capture_file(rt, files.input, reading);
    let mut report = ToWrite::new(StandardOutput::new(rt));
    let outcome = answer_keyed(rt.alloc(), key, text, asked, &mut input, &mut report);
    outcome_over(outcome, input.into_inner(), &report.into_inner())
}

/// The command `scenario` over a file.
pub(crate) fn sketch_file(
    rt: &HostRuntime,
    path: &str,
    reading: ReadingManner<'_>,
) -> Result<(), Trouble> {
    let key = table_key(rt)?;
    let mut input = capture_file(rt, path, reading);
    let mut out = ToWrite::new(StandardOutput::new(rt));
    let outcome = sketch(rt.alloc(), key, &mut input, &mut out);
    let outcome = outcome.map_err(|fault| PlacedFault { fault, place: None });
    outcome_over(outcome, input.into_inner(), &out.into_inner())
}

/// How many whole records are before the one at which reading a capture stops. Standard input can't be read again.
pub(crate) fn records_before(rt: &HostRuntime, path: &str) -> Option<u32> {
    if is_standard(path) {
        return None;
    }
    let file = File::open(rt, path).ok()?;
    let mut source = FromRead::new(BufReader::new(rt.alloc(), file).ok()?);
    let head = read_start(&mut source).ok()?;
    let mut frame = Frame::empty(rt.alloc());
    for given in 0..u32::MAX {
        if read_record_into(&mut source, head, given, &mut frame).is_err() {
            return Some(given);
        }
    }
    None
}
