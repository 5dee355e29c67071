//! Two days, of which the second isn't the day after the first.
use cdm_time::{Day, Minute};
use std::{fmt, str};

/// The day of an airport, and that of the next one, which isn't the day after.
#[derive(Clone, Copy, PartialEq, Eq, Debug)]
pub struct DaysApart {
    /// The day of the airport.
    pub day: Day,
    /// The day of the next airport.
    pub next: Day,
}

impl fmt::Display for DaysApart {
    fn fmt<W: fmt::Write>(&self, f: &mut fmt::Formatter<W>) -> fmt::Result {
        f.write_str("its day is ")?;
        f.write_str(str::from_utf8(&self.next.date_text()).unwrap_or_default())?;
        f.write_str(", and the day after AIRPORT is ")?;
        let after = self.day.time_text(Minute::at(1440));
        f.write_str(str::from_utf8(&after[..10]).unwrap_or_default())
    }
}
