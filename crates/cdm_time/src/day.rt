//! The airport's day, and what texts and minutes mean on it.
ghost use Rattle.std.specs.Prelude.{◌≡◌, ◌+◌, if◌then◌else◌, pos, ◌+ℤ◌, ◌-ℤ◌, ◌*ℤ◌};

use crate::bound::Bound;
use crate::calendar::CalendarDate;
use crate::digits::{digit_pair, number_of};
use crate::minute::Minute;
use std::marker::Model;

/// Why a text names no day, no minute or no bound.
#[derive(Clone, Copy, PartialEq, Eq, Debug)]
pub enum TimeFault {
    /// The text hasn't the form, or names a date or a time of the day that doesn't exist.
    Text,
    /// The text names a day or a time that is out of range.
    Range,
}

/// The airport's day, a date of the years 2000 to 2099. The horizon begins at its 00:00 UTC and ends
/// 48 hours later.
#[derive(Clone, Copy, PartialEq, Eq, Debug)]
pub struct Day {
    date: CalendarDate,
}

impl Model for Day {
    ghost use Rattle.cdm_time.specs.declared.calendar.CalendarDate.{CalendarDate};
    ghost use Rattle.std.specs.Prelude.{◌≡◌, true};
    ghost use Rattle.cdm_time.specs.Dates.{is_first_day};

    ghost Value = { CalendarDate };

    ghost view = { λ d. d.date };

    ghost inverse = { λ date. record { date = date } };

    ghost invariant = { λ d. is_first_day d.date ≡ true };
}

// The minutes from the start of the first day to a minute of another day, both by day number.
fn minutes_apart(first: i32, day: i32, minute: u16) -> i64
    ensures { result ≡ (pos 1440 *ℤ (day -ℤ first)) +ℤ pos minute }
{
    let days = i64::from(day) - i64::from(first);
    1440 * days + i64::from(minute)
}

impl Day {
    ghost use Rattle.std.specs.Prelude.{◌<◌, ◌≤◌, ◌/◌, Some, None, true};
    ghost use Rattle.std.specs.Str.{IsAscii};
    ghost use Rattle.cdm_time.specs.Dates.{day_number, is_date};
    ghost use Rattle.cdm_time.specs.Times.{date_at, date_text, day_of, is_time_text, minute_up_to, minutes_between, stamp, time_text};

    /// The day that a text of the form YYYY-MM-DD names.
    ///
    /// `Text` where the text has another form or the calendar has no such date, `Range` where its
    /// year isn't one of 2000 to 2099.
    #[tactic(auto, unfolding(crate::specs::Times::day_of))]
    pub fn of_text(text: &[u8]) -> Result<Day, TimeFault>
        ensures { result ≡ day_of text.now }
    {
        let date = CalendarDate::of_text(text).ok_or(TimeFault::Text)?;
        if date.year < 2000 || date.year > 2099 {
            return Err(TimeFault::Range);
        }
        Ok(Day { date })
    }

    // The minutes from the day's start to the time that a text of the form YYYY-MM-DDTHH:MMZ names.
    #[tactic(auto, unfolding(crate::specs::Times::is_time_text, crate::specs::Times::minutes_between))]
    fn minutes_to(self, text: &[u8]) -> Option<i64>
        ensures { result ≡ (if is_time_text text.now then Some (minutes_between self text.now) else None) }
    {
        if text.len() != 17 || text[10] != b'T' || text[13] != b':' || text[16] != b'Z' {
            return None;
        }
        let date = CalendarDate::of_text(&text[0..10])?;
        let hour = number_of(&text[11..13])?;
        let minute = number_of(&text[14..16])?;
        if hour >= 24 || minute >= 60 {
            return None;
        }
        Some(minutes_apart(self.date.number(), date.number(), 60 * hour + minute))
    }

    /// The minute that a text of the form YYYY-MM-DDTHH:MMZ, a time in UTC, names.
    ///
    /// `Text` where the text has another form, the calendar has no such date or the day no such time,
    /// `Range` where the time is before the horizon or after its last minute.
    #[tactic(auto, unfolding(crate::specs::Times::minute_up_to))]
    pub fn minute_of(self, text: &[u8]) -> Result<Minute, TimeFault>
        ensures { result ≡ minute_up_to 2879 self text.now }
    {
        let minutes = self.minutes_to(text).ok_or(TimeFault::Text)?;
        let number = u16::try_from(minutes).map_err(|_| TimeFault::Range)?;
        Minute::new(number).ok_or(TimeFault::Range)
    }

    /// The end of a window that a text of the form YYYY-MM-DDTHH:MMZ names: as [`Day::minute_of`],
    /// and the time at which the horizon ends is bound 2880.
    #[tactic(auto, unfolding(crate::specs::Times::minute_up_to))]
    pub fn bound_of(self, text: &[u8]) -> Result<Bound, TimeFault>
        ensures { result ≡ minute_up_to 2880 self text.now }
    {
        let minutes = self.minutes_to(text).ok_or(TimeFault::Text)?;
        let number = u16::try_from(minutes).map_err(|_| TimeFault::Range)?;
        Bound::new(number).ok_or(TimeFault::Range)
    }

    // The date of a minute.
    fn date_at(self, minute: Minute) -> CalendarDate
        ensures value { result ≡ date_at self minute }
        ensures date { is_date result ≡ true }
        ensures year { result.year ≤ 2100 }
        ensures day { day_number result ≡ day_number self +ℤ pos (minute / 1440) }
    {
        if minute.get() < 1440 {
            self.date
        } else {
            self.date.next()
        }
    }

    /// A minute as DDHHMM: the day of the month, the hour and the minute, two digits each.
    #[tactic(auto, unfolding(crate::specs::Times::stamp))]
    pub fn print(self, minute: Minute) -> [u8; 6]
        ensures text { result ≡ stamp self minute }
        ensures date { is_date (date_at self minute) ≡ true }
        ensures day { day_number (date_at self minute) ≡ day_number self +ℤ pos (minute / 1440) }
        ensures ascii { IsAscii result }
    {
        let date = self.date_at(minute);
        let minute = minute.get();
        let [day_tens, day_ones] = digit_pair(u16::from(date.day));
        let [hour_tens, hour_ones] = digit_pair(minute % 1440 / 60);
        let [minute_tens, minute_ones] = digit_pair(minute % 60);
        [
            day_tens,
            day_ones,
            hour_tens,
            hour_ones,
            minute_tens,
            minute_ones,
        ]
    }

    /// A minute as YYYY-MM-DDTHH:MMZ, the form in which files give times.
    #[tactic(auto, unfolding(crate::specs::Times::time_text))]
    pub fn time_text(self, minute: Minute) -> [u8; 17]
        ensures text { result ≡ time_text self minute }
        ensures ascii { IsAscii result }
    {
        let [y1, y2, y3, y4, d1, m1, m2, d2, d3, d4] = self.date_at(minute).text();
        let minute = minute.get();
        let [clock_tens, clock_ones] = digit_pair(minute % 1440 / 60);
        let [minute_tens, minute_ones] = digit_pair(minute % 60);
        [
            y1,
            y2,
            y3,
            y4,
            d1,
            m1,
            m2,
            d2,
            d3,
            d4,
            b'T',
            clock_tens,
            clock_ones,
            b':',
            minute_tens,
            minute_ones,
            b'Z',
        ]
    }

    /// The date as YYYY-MM-DD.
    pub fn date_text(self) -> [u8; 10]
        ensures text { result ≡ date_text self }
        ensures ascii { IsAscii result }
    {
        self.date.text()
    }
}
