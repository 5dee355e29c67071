//! `cdmseq`: plans the start-up times of an airport's departures from its files.
#![tactic(auto)]

ghost use Rattle.std.specs.Prelude.{◌≡◌, false, true};
ghost use Rattle.cdm_fault.specs.Statuses.{status_of_fault};

mod console;
mod explaining;
mod names;
mod refused;
mod shown;
mod stack;
mod standard;
mod unended;

use crate::console::Console;
use crate::explaining::{explanation, wrong_feed};
use crate::refused::tell_refused;
use crate::shown::ShownPaths;
use crate::stack::short_stack;
use crate::standard::{Closed, Standard, unread};
use crate::unended::Unended;
use cdm_ask::{Answer, Ended, Job, Question, answer_of, job_of, open, served, shown, unopened};
pub use cdm_command::{Command, CommandFault, DayFiles, command_of};
use cdm_day::Airport;
pub use cdm_fault::{
    Fault, OpenReason, ServedFiles, UnopenedFile, report_command_fault, report_fault,
    report_served_fault,
};
use cdm_feed::{
    Asked, CommonFault, Counted, DayText, Device, Input, RunError, WriteFault, airport_of,
    read_whole, write_text,
};
use cdm_kinds::{Format, kinds_text};
pub use cdm_live::{LiveCounts, LiveError, run_live};
use cdm_phase::OpenGate;
use cdm_port::{OpenFault, OpenJournal, Streams};
use cdm_serve::{ReplyForm, ServeError};
use cdm_table::Table;
use std::alloc::{AllocError, Global};
use std::fs::File;
use std::io::{BufReader, ErrorKind, IsTerminal, Read, Write};
use std::process::ExitCode;
use std::rt::{Env, Files};
use std::sync::Wait;
use std::thread::Threads;
use std::{env, io};

/// The bytes that Linux gives a word at most.
const LONGEST_WORD: usize = 131_072;

fn main(rt: HostRuntime) -> ExitCode {
    let standard = Standard::fill(&rt);
    if let Some(bytes) = short_stack(&rt) {
        let fault = Fault::ShortStack(bytes);
        let errors = &mut Device::new(rt.stderr());
        return ExitCode::from(report_fault(&fault, errors));
    }
    let mut out = Device::new(rt.stdout());
    let errors = rt.stderr();
    let is_terminal = errors.is_terminal();
    let status = status_of(
        &rt,
        standard.closed(),
        &mut out,
        Device::new(errors),
        is_terminal,
    );
    ExitCode::from(status)
}

// Runs the command that the program's words name, and answers the exit status. Texts go to `out`,
// and what stops the program is told on `errors`, which may be a terminal. It isn't a part of `main`, so that this needs little stack.
#[inline(never)]
fn status_of<R, O: Write, E: Write + Drop>(
    rt: &R,
    closed: Closed,
    out: &mut Device<O>,
    mut errors: Device<E>,
    is_terminal: bool,
) -> u8
where
    R: AllocGlobal + Env + Files<File = File> + io::Input + Threads + Wait + Sync,
    requires { out.old.failed ≡ false }
{
    let (program, words) = match words_of(rt) {
        Ok(words) => words,
        Err(fault) => return report_command_fault(&fault, &mut errors),
    };
    let command = match command_of(rt.alloc(), words.as_slice()) {
        Ok(command) => command,
        Err(fault) => return report_command_fault(&fault, &mut errors),
    };
    let mut console = Console {
        errors,
        is_terminal,
        program: &program,
    };
    run_open(rt, closed, &command, out, &mut console)
}

// Runs the command, unless a standard stream that it needs is closed, and answers the exit status.
fn run_open<R, O: Write, E: Write>(
    rt: &R,
    closed: Closed,
    command: &Command<'_>,
    out: &mut Device<O>,
    console: &mut Console<'_, E>,
) -> u8
where
    R: AllocGlobal + Files<File = File> + io::Input + Threads + Wait + Sync,
    requires { out.old.failed ≡ false }

    // Nothing is read or planned where nothing can be written.
    ensures closed { closed.output ≡ true → (result ≡ 1) × (out.new ≡ out.old) }
{
    if closed.output {
        let unwritten = Fault::Run(RunError::Common(CommonFault::Write));
        return report_fault(&unwritten, &mut console.errors);
    }
    if closed.input {
        if let Some(fault) = unread(command) {
            return report_fault(&fault, &mut console.errors);
        }
    }
    match run_command(rt, command, out, console) {
        Ok(status) => status,
        Err(fault) => stop(rt, command, &fault, console),
    }
}

// Tells the fault that stops a command, and a person why a record is refused, if it is that. Answers the exit status.
fn stop<R: AllocGlobal + Files + io::Input + Threads + Sync, E: Write>(
    rt: &R,
    command: &Command<'_>,
    fault: &Fault,
    console: &mut Console<'_, E>,
) -> u8 {
    if !console.is_terminal {
        return report(command, fault, console);
    }
    match explanation(rt, command, fault) {
        Ok(Some(line)) => {
            let status = report(command, fault, console);
            console.tell(&line);
            status
        }
        Ok(None) => report(command, fault, console),
        Err(memory) => report(command, &memory, console),
    }
}

// Tells the fault that stops a command, and answers the exit status.
fn report<E: Write>(command: &Command<'_>, fault: &Fault, console: &mut Console<'_, E>) -> u8
    ensures { result ≡ status_of_fault fault.now }
{
    match (command, fault) {
        (
            Command::Serve {
                airport,
                journal,
                ..
            },
            _,
        ) => {
            let files = ServedFiles {
                airport: *airport,
                journal: *journal,
            };
            report_served_fault(fault, files, &mut console.errors)
        }
        (
            Command::Tell {
                text: DayText::Table(Table::Sweep(_) | Table::SweepJson(_)),
                ..
            },
            Fault::Run(RunError::OtherDay),
        ) => report_fault(&Fault::OtherSteps, &mut console.errors),
        _ => report_fault(fault, &mut console.errors),
    }
}

// The program's name as it was called, and the words after it.
fn words_of<R: AllocGlobal + Env>(rt: &R) -> Result<(String, Vec<String>), CommandFault> {
    match env::args(rt) {
        Ok(mut words) => {
            let program = words.next().unwrap_or(String::new(rt.alloc()));
            Ok((program, words.collect(rt.alloc())?))
        }
        Err(error) if error.kind() == ErrorKind::InvalidData => {
            let place = place_not_utf8(rt)?;
            let text = format!(in rt.alloc(); "error: argument {place} is not UTF-8\n")?;
            Err(CommandFault::Usage(text))
        }
        Err(_) => Err(CommandFault::Memory),
    }
}

// The place, from 1, of the first word after the program's name that is not UTF-8.
fn place_not_utf8<R: AllocGlobal + Env>(rt: &R) -> Result<usize, AllocError> {
    let mut buffer = Vec::new(rt.alloc());
    buffer.resize(LONGEST_WORD, 0)?;
    for place in 1..usize::MAX {
        let Ok(length) = rt.arg(place, buffer.as_mut_slice()) else {
            return Ok(place);
        };
        let word = buffer.get(..length).unwrap_or_default();
        if str::from_utf8(word).is_err() {
            return Ok(place);
        }
    }
    Ok(0)
}

// Runs the command, whose text goes to `out` and what it tells besides to `console`, and answers the exit status. But for a line that
// a served day leaves out, nothing is told besides where standard error is no terminal.
fn run_command<R, W: Write, E: Write>(
    rt: &R,
    command: &Command<'_>,
    out: &mut Device<W>,
    console: &mut Console<'_, E>,
) -> Result<u8, Fault>
where
    R: AllocGlobal + Files<File = File> + io::Input + Threads + Wait + Sync,
    requires { out.old.failed ≡ false }
{
    let paths = ShownPaths::of(rt.alloc(), command)?;
    match job_of(paths.paths(), command) {
        Job::Ask(question) => run_question(rt, &question, out, console),
        Job::Live {
            airport,
            feed1,
            feed2,
        } => live(rt, [airport, feed1, feed2], out, console),
        Job::Serve {
            airport,
            journal,
            form,
        } => serve_day(rt, [airport, journal], form, out, console),
        Job::Kinds(format) => print(&kinds_text(rt.alloc(), format)?, out),
        Job::Print(text) => print(text.as_bytes(), out),
    }
}

// Writes a text, and answers the exit status.
fn print<W: Write>(text: &[u8], out: &mut Device<W>) -> Result<u8, Fault>
    requires { out.old.failed ≡ false }
{
    write_text(out, text).map_err(|fault: WriteFault| Fault::Run(fault.into()))?;
    Ok(0)
}

// Writes what is asked of the files of a question, and answers the exit status. A person is told of a feed whose last line has no end, where
// a check doesn't tell it, and how many records a plan has refused.
fn run_question<R: AllocGlobal + Files + io::Input + Threads + Sync, W: Write, E: Write>(
    rt: &R,
    question: &Question<'_>,
    out: &mut Device<W>,
    console: &mut Console<'_, E>,
) -> Result<u8, Fault>
    requires { out.old.failed ≡ false }
    ensures silent { console.old.is_terminal ≡ false → console.new ≡ console.old }
{
    let Answer { feed, ended, .. } = answer_of(rt, question, out)?;
    tell_unended_feed(&question.asked, feed.lacks_end(), console);
    let Ended { counted, status } = ended?;
    tell_refused(question.files, &question.asked, &counted, console);
    tell_wrong_feed(rt, question.files, &counted, console);
    Ok(status)
}

// Tells a person of a day whose feed is another file, of which no record is accepted.
fn tell_wrong_feed<R: AllocGlobal + Files + io::Input + Threads + Sync, E: Write>(
    rt: &R,
    files: DayFiles<'_>,
    counted: &Counted,
    console: &mut Console<'_, E>,
)
    ensures silent { console.old.is_terminal ≡ false → console.new ≡ console.old }
{
    let counts = counted.of_day();
    if !console.is_terminal || counts.refused == 0 || counts.accepted > 0 {
        return;
    }
    if let Ok(Some(line)) = wrong_feed(rt, files) {
        console.tell(&line);
    }
}

// Tells a person that the last line of the feed has no end, if it lacks one. A check tells it itself.
fn tell_unended_feed<E: Write>(asked: &Asked<'_>, lacks_end: bool, console: &mut Console<'_, E>)
    ensures silent { console.old.is_terminal ≡ false → console.new ≡ console.old }
{
    match asked {
        Asked::Day(_) | Asked::Carry(_) => tell_unended(lacks_end, Input::Feed, console),
        Asked::Check(..) => {}
    }
}

// Tells a person that the last line of a feed has no end, where that is so: it may be the first part of another record.
fn tell_unended<E: Write>(lacks_end: bool, input: Input, console: &mut Console<'_, E>)
    ensures silent { console.old.is_terminal ≡ false → console.new ≡ console.old }
{
    if lacks_end {
        console.tell(&Unended(input));
    }
}

// Serves the day of an airport: records come from standard input, and replies go to `out`. Answers
// the exit status. The airport file is found good before anything is made beside the journal.
fn serve_day<R, W: Write, E: Write>(
    rt: &R,
    paths: [&str; 2],
    form: ReplyForm,
    out: &mut Device<W>,
    console: &mut Console<'_, E>,
) -> Result<u8, Fault>
where
    R: AllocGlobal + Files<File = File> + io::Input + Threads + Sync,
{
    let alloc = rt.alloc();
    let [airport, journal] = paths;
    let airport = airport_read(alloc, open(rt, airport, Input::Airport)?.into_device())?;
    let Ok(input) = BufReader::new(alloc, rt.reader()) else {
        return Err(Fault::NoMemory);
    };
    let journal = open_journal(rt, journal)?;
    let mut streams = Streams::new(input, &mut *out, &mut console.errors, journal);
    let status = served(rt, alloc, airport, form, &mut streams);
    let mut journal = streams.into_journal();
    if status.is_err() {
        journal.give_up();
    }
    status
}

// The airport of a file, which is read to its end.
fn airport_read<A: Read + Drop>(alloc: Global, mut file: Device<A>) -> Result<Airport, ServeError>
    requires { file.failed ≡ false }
{
    let bytes = read_whole(alloc, Input::Airport, &mut file)?;
    let airport = airport_of(alloc, &bytes)?;
    Ok(airport)
}

// Opens the journal at a path, for this process alone.
fn open_journal<'a, R>(rt: &'a R, path: &str) -> Result<OpenJournal<'a, R>, Fault>
where
    R: AllocGlobal + Files<File = File>,
{
    let alloc = rt.alloc();
    let fault = match OpenJournal::open(rt, alloc, path) {
        Ok(journal) => return Ok(journal),
        Err(fault) => fault,
    };
    Err(match fault {
        OpenFault::Journal(kind) => {
            Fault::CannotOpenJournal(unopened(alloc, path, OpenReason::Told(kind))?)
        }
        OpenFault::Lock(kind) => {
            let path = format!(in alloc; "{path}.lock")?;
            let reason = OpenReason::Told(kind);
            Fault::CannotOpenJournal(UnopenedFile { path, reason })
        }
        OpenFault::NoFile => Fault::JournalNoFile(shown(alloc, path)?),
        OpenFault::Missing => Fault::JournalMissing(shown(alloc, path)?),
        OpenFault::InUse => Fault::JournalInUse(shown(alloc, path)?),
        OpenFault::Memory => Fault::NoMemory,
    })
}

// Writes the day that two desks make, and answers the exit status.
fn live<R: AllocGlobal + Files + io::Input + Threads + Wait + Sync, W: Write, E: Write>(
    rt: &R,
    paths: [&str; 3],
    out: &mut Device<W>,
    console: &mut Console<'_, E>,
) -> Result<u8, Fault>
    requires { out.old.failed ≡ false }
    ensures silent { console.old.is_terminal ≡ false → console.new ≡ console.old }
{
    let [airport, feed1, feed2] = paths;
    let mut airport = open(rt, airport, Input::Airport)?.into_device();
    let mut feed1 = open(rt, feed1, Input::Feed1)?.into_device();
    let mut feed2 = open(rt, feed2, Input::Feed2)?.into_device();
    let done = run_live(
        rt,
        rt.alloc(),
        &mut airport,
        &mut feed1,
        &mut feed2,
        &OpenGate,
        out,
    );
    tell_unended(feed1.into_inner().lacks_end(), Input::Feed1, console);
    tell_unended(feed2.into_inner().lacks_end(), Input::Feed2, console);
    done?;
    Ok(0)
}
