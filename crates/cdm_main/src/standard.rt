//! The standard streams that were closed when the program began.

use cdm_command::Command;
use cdm_fault::Fault;
use cdm_feed::{CommonFault, RunError};
use cdm_port::{PortFault, Reason};
use cdm_serve::ServeError;
use std::fs::{File, OpenOptions};
use std::os::fd::{AsRawFd, RawFd};
use std::rt::Files;

/// The descriptor of standard input.
const INPUT: RawFd = 0;

/// The descriptor of standard output.
const OUTPUT: RawFd = 1;

/// The descriptor of standard error, the last of the standard streams.
const LAST_STANDARD: RawFd = 2;

/// The null device, in place of each standard stream that was closed, so that no file that is opened later takes its place. It stays open
/// as long as this is kept.
#[derive(Drop)]
pub(crate) struct Standard {
    opened: [Option<File>; 3],
}

/// Which of the standard streams were closed.
#[derive(Clone, Copy)]
pub(crate) struct Closed {
    pub(crate) input: bool,
    pub(crate) output: bool,
}

impl Standard {
    /// Opens the null device for each of the descriptors 0, 1 and 2 that is closed.
    pub(crate) fn fill<R: Files<File = File>>(rt: &R) -> Standard {
        let mut options = OpenOptions::new();
        options.read(true);
        options.write(true);
        let mut opened = [None, None, None];
        for place in &mut opened {
            match options.open(rt, "/dev/null") {
                Ok(file) if file.as_raw_fd() <= LAST_STANDARD => *place = Some(file),
                _ => break,
            }
        }
        Standard { opened }
    }

    /// Which of the streams were closed.
    pub(crate) fn closed(&self) -> Closed {
        Closed {
            input: self.is_null(INPUT),
            output: self.is_null(OUTPUT),
        }
    }

    // Whether the null device is in the place of this descriptor.
    fn is_null(&self, descriptor: RawFd) -> bool {
        self.opened
            .iter()
            .flatten()
            .any(|file| file.as_raw_fd() == descriptor)
    }
}

/// The fault of a command that reads standard input, where that is closed.
pub(crate) fn unread(command: &Command<'_>) -> Option<Fault> {
    if let Command::Serve { .. } = command {
        let fault = PortFault::CannotReadInput(Reason::Untold);
        return Some(Fault::Serve(ServeError::Port(fault)));
    }
    let input = command.standard_input()?;
    Some(Fault::Run(RunError::Common(CommonFault::Read(input))))
}
