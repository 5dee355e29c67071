//! Standard error, and the lines that are written there for people only.
ghost use Rattle.std.specs.Prelude.{◌≡◌, false};

use cdm_feed::Device;
use std::fmt::Display;
use std::io::Write;

/// Standard error, whether it is a terminal, and the name by which the program was called.
#[derive(Drop)]
pub(crate) struct Console<'a, E> {
    pub(crate) errors: Device<E>,
    pub(crate) is_terminal: bool,
    pub(crate) program: &'a str,
}

impl<E: Write> Console<'_, E> {
    /// Writes a line for a person, who reads it on a terminal. To a program nothing is written.
    pub(crate) fn tell<L: Display>(&mut self, line: &L)
        ensures silent { self.old.is_terminal ≡ false → self.new ≡ self.old }
    {
        if self.is_terminal {
            let _ = writeln!(self.errors, "{line}");
        }
    }
}
