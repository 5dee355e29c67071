//! What stops the program, with its message and its exit status.
ghost use Rattle.std.specs.Prelude.{◌≡◌};
ghost use Rattle.cdm_fault.specs.Statuses.{status_of_command_fault, status_of_common, status_of_fault, status_of_run};
ghost use Rattle.cdm_fault.specs.declared.fault.Fault.TheVariants as fault;

use crate::unopened::{ShownPath, UnopenedFile};
use cdm_command::CommandFault;
use cdm_feed::{CommonFault, Counted, Device, Input, RunError};
use cdm_live::LiveError;
use cdm_port::PortFault;
use cdm_serve::ServeError;
use std::alloc::AllocError;
use std::io::Write;
use thiserror::Error;

/// The status where the words name no command.
const USAGE_STATUS: u8 = 2;

/// The bytes of stack with which every command works (local profile).
pub const LEAST_STACK: u64 = 393_216;

/// What stops the program.
#[derive(PartialEq, Eq, Debug, Drop, Error)]
pub enum Fault {
    /// The file of this input can't be opened.
    #[error("cannot read {0} ({1})")]
    CannotOpen(Input, UnopenedFile),
    /// Want of memory before the run.
    #[error("out of memory")]
    NoMemory,
    /// The system gives the program so many bytes of stack, fewer than [`LEAST_STACK`].
    #[error("the stack has {0} bytes, and {LEAST_STACK} are needed")]
    ShortStack(u64),
    /// A time of the steps at which scenarios are tried isn't one of the airport's two days.
    #[error("--each names a time outside the airport's two days")]
    OtherSteps,
    /// The run has not written its whole text.
    #[error(transparent)]
    Run(#[from] RunError),
    /// The live run has not written its whole text.
    #[error(transparent)]
    Live(#[from] LiveError),
    /// The journal's file or its lock can't be opened.
    #[error("cannot open JOURNAL ({0})")]
    CannotOpenJournal(UnopenedFile),
    /// The journal is a FIFO, a device or a socket.
    #[error("cannot open JOURNAL ({0}: is no regular file)")]
    JournalNoFile(ShownPath),
    /// The journal was served before, and isn't there.
    #[error("JOURNAL is missing, and was served before ({0})")]
    JournalMissing(ShownPath),
    /// Another process has the journal.
    #[error("JOURNAL is in use ({0})")]
    JournalInUse(ShownPath),
    /// The day was not served to the end of its input.
    #[error(transparent)]
    Serve(#[from] ServeError),
}

impl From<AllocError> for Fault {
    ghost from_gives = { λ _ e. e ≡ fault.NoMemory };

    fn from(_error: AllocError) -> Fault {
        Fault::NoMemory
    }
}

impl Fault {
    /// The exit status: 2 if an argument names a time of another day; 3 if an input is refused, a journal that was served is missing, or
    /// what is asked about isn't known; 1 if a file can't be opened, a read or write fails, memory runs out, or the board and a desk
    /// differ.
    pub fn status(&self) -> u8
        ensures { result ≡ status_of_fault self.now }
    {
        match self {
            Fault::Run(RunError::Common(fault))
            | Fault::Live(LiveError::Common(fault))
            | Fault::Serve(ServeError::Common(fault)) => common_status(*fault),
            Fault::OtherSteps | Fault::Run(RunError::OtherDay) => USAGE_STATUS,
            Fault::Run(
                RunError::Scenario(..)
                | RunError::NoFlight(_)
                | RunError::NotPlanned(..)
                | RunError::NoRunway(_)
                | RunError::NoScenario(_)
                | RunError::Update(..)
                | RunError::NextAirport(..)
                | RunError::NextDay(_),
            )
            | Fault::Serve(ServeError::Journal(..) | ServeError::Port(PortFault::JournalTooLong))
            | Fault::JournalMissing(_)
            | Fault::Live(LiveError::HistoryFull) => 3,
            Fault::CannotOpen(..)
            | Fault::CannotOpenJournal(_)
            | Fault::JournalNoFile(_)
            | Fault::JournalInUse(_)
            | Fault::NoMemory
            | Fault::ShortStack(_)
            | Fault::Serve(ServeError::Port(_) | ServeError::TooMany)
            | Fault::Live(LiveError::Mismatch) => 1,
        }
    }
}

// The exit status of a fault that every run can have.
fn common_status(fault: CommonFault) -> u8
    ensures { result ≡ status_of_common fault }
{
    match fault {
        CommonFault::TooLong(_) | CommonFault::Airport(..) => 3,
        CommonFault::Read(_) | CommonFault::Memory | CommonFault::Write => 1,
    }
}

/// The exit status of a run that has written its text: 4 if a check found a refused record, if a person has to see to something before
/// the next day, or, if `is_strict`, if the day refuses a record of the feed or the feed has none; otherwise 0.
pub fn run_status(counted: &Counted, is_strict: bool) -> u8
    ensures { result ≡ status_of_run is_strict counted.now }
{
    match counted {
        Counted::Check(counts) if counts.refused > 0 => 4,
        Counted::Day(counts) if is_strict && (counts.refused > 0 || counts.accepted == 0) => 4,
        Counted::Carry { needs_care: true } => 4,
        Counted::Check(_) | Counted::Day(_) | Counted::Carry { .. } => 0,
    }
}

/// Writes the fault's line, and returns its exit status, even if the line can't be written.
pub fn report_fault<W: Write>(fault: &Fault, device: &mut Device<W>) -> u8
    ensures { result ≡ status_of_fault fault.now }
{
    let _ = writeln!(device, "cdmseq: {fault}");
    fault.status()
}

/// Writes the text of a usage error, or the line of want of memory, and returns the exit status, even if that can't be written.
pub fn report_command_fault<W: Write>(fault: &CommandFault, device: &mut Device<W>) -> u8
    ensures { result ≡ status_of_command_fault fault.now }
{
    match fault {
        CommandFault::Usage(text) => {
            let _ = device.write_all(text.as_bytes());
            USAGE_STATUS
        }
        CommandFault::Memory => report_fault(&Fault::NoMemory, device),
    }
}
