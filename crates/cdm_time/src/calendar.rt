//! Dates of the calendar.
ghost use Rattle.std.specs.Prelude.{◌≡◌, ◌+◌, ◌≤◌, ◌<◌, true, length, Some, None, if◌then◌else◌, IfSome};

use crate::digits::{digit_pair, number_of};
use jiff::civil;

/// A year, a month and a day of the month, whether or not the calendar has that date.
#[derive(Clone, Copy, PartialEq, Eq, Debug)]
pub struct CalendarDate {
    pub year: u16,
    pub month: u8,
    pub day: u8,
}

impl CalendarDate {
    ghost use Rattle.std.specs.Prelude.{not, nat_lt, pos};
    ghost use Rattle.jiff.specs.Words.{IsEpochDay, days_in_month};
    ghost use Rattle.std.specs.Str.{IsAscii};
    ghost use Rattle.cdm_time.specs.Dates.{date_in, day_number, is_date, is_date_text};
    ghost use Rattle.cdm_time.specs.Times.{date_text, next_date};

    /// The date that a text of the form YYYY-MM-DD names, or `None` where the text has another form
    /// or the calendar has no such date.
    #[tactic(auto, unfolding(crate::specs::Dates::is_date_text))]
    pub(crate) fn of_text(text: &[u8]) -> Option<CalendarDate>
        ensures value { result ≡ (if is_date_text text.now then Some (date_in text.now) else None) }
        ensures year { IfSome result (λ d. d.year ≤ 9999) }
        ensures date { IfSome result (λ d. is_date d ≡ true) }
    {
        if text.len() != 10 || text[4] != b'-' || text[7] != b'-' {
            return None;
        }
        let year = number_of(&text[0..4])?;
        let month = number_of(&text[5..7])?;
        let day = number_of(&text[8..10])?;
        let date = CalendarDate {
            year,
            month: month as u8,
            day: day as u8,
        };
        if date.exists() { Some(date) } else { None }
    }

    /// Whether the Gregorian calendar, taken back without end, has this date.
    pub(crate) fn exists(self) -> bool
        requires year { self.year ≤ 9999 }
        requires month { self.month < 100 }
        requires day { self.day < 100 }
        ensures { result ≡ is_date self }
    {
        civil::Date::new(self.year as i16, self.month as i8, self.day as i8).is_ok()
    }

    /// The day number, 0 for 1 January 1970.
    pub(crate) fn number(self) -> i32
        requires year { self.year ≤ 9999 }
        requires date { is_date self ≡ true }
        ensures value { result ≡ day_number self }
        ensures bound { IsEpochDay result }
    {
        civil::date(self.year as i16, self.month as i8, self.day as i8)
            .to_plain()
            .to_unix_epoch_day()
    }

    /// Whether the date is its month's last.
    pub(crate) fn is_last_of_month(self) -> bool
        requires year { self.year ≤ 9999 }
        requires date { is_date self ≡ true }
        ensures { result ≡ not (nat_lt self.day (days_in_month (pos self.year) self.month)) }
    {
        let date = civil::date(self.year as i16, self.month as i8, self.day as i8);
        date.day() >= date.days_in_month()
    }

    /// The day after.
    pub(crate) fn next(self) -> CalendarDate
        requires year { self.year < 9999 }
        requires date { is_date self ≡ true }
        ensures value { result ≡ next_date self }
        ensures date { is_date result ≡ true }
        ensures year { result.year ≤ self.year + 1 }
    {
        let CalendarDate { year, month, day } = self;
        if !self.is_last_of_month() {
            CalendarDate {
                year,
                month,
                day: day + 1,
            }
        } else if month < 12 {
            CalendarDate {
                year,
                month: month + 1,
                day: 1,
            }
        } else {
            CalendarDate {
                year: year + 1,
                month: 1,
                day: 1,
            }
        }
    }

    /// The date as YYYY-MM-DD.
    #[tactic(auto, unfolding(crate::specs::Times::date_text))]
    pub(crate) fn text(self) -> [u8; 10]
        requires year { self.year ≤ 9999 }
        requires date { is_date self ≡ true }
        ensures text { result ≡ date_text self }
        ensures ascii { IsAscii result }
    {
        let CalendarDate { year, month, day } = self;
        let [century_tens, century_ones] = digit_pair(year / 100);
        let [year_tens, year_ones] = digit_pair(year % 100);
        let [month_tens, month_ones] = digit_pair(u16::from(month));
        let [day_tens, day_ones] = digit_pair(u16::from(day));
        [
            century_tens,
            century_ones,
            year_tens,
            year_ones,
            b'-',
            month_tens,
            month_ones,
            b'-',
            day_tens,
            day_ones,
        ]
    }
}
