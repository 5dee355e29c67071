//! Faults of a served day, whose lines name the file.
ghost use Rattle.std.specs.Prelude.{◌≡◌};
ghost use Rattle.cdm_fault.specs.Statuses.{status_of_fault};

use crate::fault::Fault;
use crate::unopened::PathText;
use cdm_feed::{CommonFault, Device};
use cdm_port::{PortFault, Reason};
use cdm_serve::ServeError;
use std::fmt;
use std::fmt::{Display, Formatter};
use std::io::Write;

/// The paths of the files of a served day.
#[derive(Clone, Copy, Debug)]
pub struct ServedFiles<'a> {
    /// The airport file.
    pub airport: &'a str,
    /// The journal.
    pub journal: &'a str,
}

// A fault of a day that is served with these files.
#[derive(Clone, Copy)]
struct ServedFault<'f, 'p> {
    fault: &'f Fault,
    files: ServedFiles<'p>,
}

impl Display for ServedFault<'_, '_> {
    fn fmt<W: fmt::Write>(&self, f: &mut Formatter<W>) -> fmt::Result {
        let fault = self.fault;
        let (airport, journal) = (PathText(self.files.airport), PathText(self.files.journal));
        match fault {
            Fault::Serve(
                ServeError::Common(
                    CommonFault::Read(_) | CommonFault::TooLong(_) | CommonFault::Airport(..),
                ),
            ) => write!(f, "{fault} ({airport})"),
            Fault::Serve(
                ServeError::Journal(..)
                | ServeError::Port(PortFault::JournalTooLong | PortFault::JournalChanged),
            ) => write!(f, "{fault} ({journal})"),
            Fault::Serve(ServeError::Port(PortFault::CannotReadJournal(reason))) => {
                write!(f, "cannot read JOURNAL ({journal}")?;
                end_by(*reason, f)
            }
            Fault::Serve(ServeError::Port(PortFault::CannotWriteJournal(reason))) => {
                write!(f, "cannot write JOURNAL ({journal}")?;
                end_by(*reason, f)
            }
            fault => write!(f, "{fault}"),
        }
    }
}

// Writes why the system has not done a call, where it tells that, and the bracket behind it.
fn end_by<W: fmt::Write>(reason: Reason, f: &mut Formatter<W>) -> fmt::Result {
    match reason {
        Reason::Untold => f.write_str(")"),
        Reason::NoSpace => f.write_str(": no space left on device)"),
        Reason::Told(kind) => write!(f, ": {kind})"),
    }
}

/// Writes the line of a fault of a day that is served with these files, and answers its exit status, also where the line can't be
/// written.
pub fn report_served_fault<W: Write>(
    fault: &Fault,
    files: ServedFiles<'_>,
    device: &mut Device<W>,
) -> u8
    ensures { result ≡ status_of_fault fault.now }
{
    let line = ServedFault { fault, files };
    let _ = writeln!(device, "cdmseq: {line}");
    fault.status()
}
