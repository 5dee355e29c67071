//! A flight's line and its columns.
ghost use Rattle.std.specs.Prelude.{◌≡◌, Some, length};
ghost use Rattle.cdm_time.specs.declared.calendar.CalendarDate.{CalendarDate};
ghost use Rattle.cdm_report.specs.Columns.{delay_column, flight_line, mark_letter, time_column};

use cdm_sequence::{Mark, Slot};
use cdm_time::{Day, Minute};
use std::{fmt, str};

/// A minute as the day of the month, hour and minute, DDHHMM, or six dashes where there is none
/// (local profile).
#[derive(Clone, Copy)]
pub struct TimeColumn {
    /// The horizon's first day, from whose 00:00 on minutes are counted.
    pub day: Day,
    /// The minute.
    pub minute: Option<Minute>,
}

impl fmt::Display for TimeColumn {
    ghost output = { λ column. Some (time_column column.day column.minute) };

    #[tactic(auto, unfolding(crate::specs::Columns::time_column))]
    fn fmt<W: fmt::Write>(&self, f: &mut fmt::Formatter<W>) -> fmt::Result {
        match self.minute {
            None => f.write_str("------"),
            Some(minute) => {
                let stamp = self.day.print(minute);
                f.write_str(str::from_utf8(&stamp).unwrap())
            }
        }
    }
}

/// The letter of a mark.
#[derive(Clone, Copy)]
struct Letter(Mark);

impl fmt::Display for Letter {
    ghost output = { λ letter. Some (mark_letter letter.0) };

    #[tactic(auto, unfolding(crate::specs::Columns::mark_letter))]
    fn fmt<W: fmt::Write>(&self, f: &mut fmt::Formatter<W>) -> fmt::Result {
        f.write_str(match self.0 {
            Mark::Planned => "P",
            Mark::OffBlock => "O",
            Mark::Airborne => "A",
        })
    }
}

/// A delay on the right of 4, or dashes where there is none.
#[derive(Clone, Copy)]
struct DelayColumn(Option<u16>);

impl fmt::Display for DelayColumn {
    ghost output = { λ column. Some (delay_column column.0) };

    #[tactic(auto, unfolding(crate::specs::Columns::delay_column))]
    fn fmt<W: fmt::Write>(&self, f: &mut fmt::Formatter<W>) -> fmt::Result {
        match self.0 {
            None => f.write_str("----"),
            Some(delay) => write!(f, "{delay:>4}"),
        }
    }
}

/// A flight's line, without its end (local profile).
#[derive(Clone, Copy)]
pub struct FlightLine<'a> {
    /// The horizon's first day, from whose 00:00 on minutes are counted.
    pub day: Day,
    /// The flight's slot.
    pub slot: &'a Slot,
}

impl fmt::Display for FlightLine<'_> {
    ghost output = { λ line. Some (flight_line line.day line.slot.now) };

    fn fmt<W: fmt::Write>(&self, f: &mut fmt::Formatter<W>) -> fmt::Result {
        let FlightLine { day, slot } = *self;
        let name = slot.name.text();
        let tobt = TimeColumn {
            day,
            minute: slot.tobt,
        };
        let exot = slot.exot;
        let ctot = TimeColumn {
            day,
            minute: slot.ctot,
        };
        let tsat = TimeColumn {
            day,
            minute: Some(slot.tsat),
        };
        let ttot = TimeColumn {
            day,
            minute: Some(slot.ttot),
        };
        let letter = Letter(slot.mark);
        let delay = DelayColumn(slot.delay);
        write!(
            f,
            "{name:<7} {tobt} {exot:>4} {ctot} {tsat} {ttot} {letter} {delay}"
        )
    }
}

/// A flight's line has 47 bytes, its end not counted.
pub fn line_has_47_bytes(slot: &Slot)
    ensures { (day : CalendarDate) → length (flight_line day slot.now) ≡ 47 }
{
    let _name = slot.name.text();
}
