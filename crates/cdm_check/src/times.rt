//! Days and times as the files write them.

use cdm_time::{Day, Minute};
use std::fmt::Write;
use std::{fmt, str};

/// A date, as YYYY-MM-DD.
#[derive(Clone, Copy)]
pub(crate) struct DateText(pub Day);

impl fmt::Display for DateText {
    fn fmt<W: fmt::Write>(&self, f: &mut fmt::Formatter<W>) -> fmt::Result {
        let text = self.0.date_text();
        f.write_str(str::from_utf8(&text).unwrap_or_default())
    }
}

/// A time, as YYYY-MM-DDTHH:MMZ.
#[derive(Clone, Copy)]
pub(crate) struct TimeText {
    pub day: Day,
    pub minute: Minute,
}

impl fmt::Display for TimeText {
    fn fmt<W: fmt::Write>(&self, f: &mut fmt::Formatter<W>) -> fmt::Result {
        let text = self.day.time_text(self.minute);
        f.write_str(str::from_utf8(&text).unwrap_or_default())
    }
}

/// Hour and minute of a time, as HH:MM.
#[derive(Clone, Copy)]
pub(crate) struct ClockText(pub u16);

impl fmt::Display for ClockText {
    fn fmt<W: fmt::Write>(&self, f: &mut fmt::Formatter<W>) -> fmt::Result {
        let minutes = self.0 % 1440;
        let (hour, minute) = (minutes / 60, minutes % 60);
        write!(f, "{hour:02}:{minute:02}")
    }
}

/// A time as YYYY-MM-DDTHH:MMZ, which may be the end of the two days.
#[derive(Clone, Copy)]
pub(crate) struct WrittenTime(pub [u8; 17]);

impl WrittenTime {
    /// Its bytes.
    pub fn bytes(&self) -> &[u8] {
        &self.0
    }
}

impl fmt::Display for WrittenTime {
    fn fmt<W: fmt::Write>(&self, f: &mut fmt::Formatter<W>) -> fmt::Result {
        f.write_str(str::from_utf8(&self.0).unwrap_or_default())
    }
}

// The time at this minute of the two days.
fn time_at(day: Day, number: u16) -> Option<WrittenTime> {
    let minute = Minute::new(number)?;
    Some(WrittenTime(day.time_text(minute)))
}

/// The midnight that ends a day of the years 2000 to 2099.
pub(crate) fn after_midnight(date: &[u8]) -> Option<WrittenTime> {
    time_at(Day::of_text(date).ok()?, 1440)
}

/// The midnight between the two days.
pub(crate) fn second_midnight(day: Day) -> Option<WrittenTime> {
    time_at(day, 1440)
}

/// The time at a minute of the two days, or at their end.
pub(crate) fn bound_time(day: Day, number: u16) -> Option<WrittenTime> {
    if number < 2880 {
        return time_at(day, number);
    }
    let midnight = second_midnight(day)?;
    after_midnight(date_in(midnight.bytes()))
}

/// The date of a time.
pub(crate) fn date_in(time: &[u8]) -> &[u8] {
    time.get(..10).unwrap_or_default()
}
