//! The line for people about the refused records of a plan.
ghost use Rattle.std.specs.Prelude.{◌≡◌, false};

use crate::console::Console;
use cdm_command::{DayFiles, STANDARD_INPUT};
use cdm_fault::ShellWord;
use cdm_feed::{Asked, Counted, DayText};
use cdm_table::Table;
use std::fmt;
use std::fmt::{Display, Formatter};
use std::io::Write;

// How many records of the feed a plan has refused, and the command that says why, if it can read the files again.
#[derive(Clone, Copy)]
struct Refused<'a> {
    count: usize,
    program: &'a str,
    files: DayFiles<'a>,
}

impl Display for Refused<'_> {
    fn fmt<W: fmt::Write>(&self, f: &mut Formatter<W>) -> fmt::Result {
        let records = if self.count == 1 { "record" } else { "records" };
        write!(f, "cdmseq: {} {records} refused", self.count)?;
        let DayFiles { airport, feed, .. } = self.files;
        if airport == STANDARD_INPUT || feed == STANDARD_INPUT {
            return Ok(());
        }
        let program = ShellWord(self.program);
        let (airport, feed) = (ShellWord(airport), ShellWord(feed));
        write!(f, "; to see why: {program} check {airport} {feed}")
    }
}

// Whether a plan is asked for, in whatever format.
fn is_plan(asked: &Asked<'_>) -> bool {
    matches!(
        asked,
        Asked::Day(DayText::Plan(_) | DayText::Table(Table::Csv))
    )
}

/// Tells a person how many records of the feed a plan has refused, if there are some, and which command says why.
pub(crate) fn tell_refused<E: Write>(
    files: DayFiles<'_>,
    asked: &Asked<'_>,
    counted: &Counted,
    console: &mut Console<'_, E>,
)
    ensures silent { console.old.is_terminal ≡ false → console.new ≡ console.old }
{
    let count = counted.of_day().refused;
    if count == 0 || !is_plan(asked) {
        return;
    }
    let program = console.program;
    console.tell(&Refused {
        count,
        program,
        files,
    });
}
