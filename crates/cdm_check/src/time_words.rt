//! Which part of a day or a time is wrong, and the day or the time as it should be written.

use crate::times::{DateText, WrittenTime, after_midnight, bound_time, date_in, second_midnight};
use cdm_files::number_field;
use cdm_kinds::Field;
use cdm_time::{Day, TimeFault};
use std::alloc::{AllocError, Global};
use std::str;

/// How UTC is written behind a time.
const UTC_NAMES: &[&str] = &["", "Z", "z", "UTC", "utc", "GMT", "+00:00", "+0000", "+00"];

/// A date, and whether it is written as YYYY-MM-DD.
#[derive(Clone, Copy)]
struct DatePart {
    year: u16,
    month: u16,
    day: u16,
    is_plain: bool,
}

/// The hour and the minute of a time, and how they are written.
#[derive(Clone, Copy)]
struct ClockPart<'a> {
    hour: u16,
    minute: u16,
    // The digits of the hour.
    digits: usize,
    // What is between the hour and the minute.
    mark: &'a [u8],
    // Whether seconds follow.
    has_seconds: bool,
}

/// The parts of a text that looks like a time.
#[derive(Clone, Copy)]
struct Parts<'a> {
    date: Option<DatePart>,
    // What is between the date and the hour.
    joint: &'a [u8],
    clock: ClockPart<'a>,
    // What follows the minute or the seconds.
    zone: &'a [u8],
}

// A text in two: so many bytes, and the rest.
fn cut_at(text: &[u8], count: usize) -> (&[u8], &[u8]) {
    (
        text.get(..count).unwrap_or_default(),
        text.get(count..).unwrap_or_default(),
    )
}

// The digits at the beginning of a text, and the rest.
fn digits_of(text: &[u8]) -> (&[u8], &[u8]) {
    cut_where(text, false)
}

// A text in two: up to the first digit, or up to the first byte that is none, and the rest.
fn cut_where(text: &[u8], is_digit: bool) -> (&[u8], &[u8]) {
    for (place, byte) in text.iter().enumerate() {
        if byte.is_ascii_digit() == is_digit {
            return cut_at(text, place);
        }
    }
    (text, &[])
}

// The rest of a text that begins with one of two bytes.
fn behind(text: &[u8], one: u8, other: u8) -> Option<&[u8]> {
    let (first, rest) = text.split_first()?;
    if *first == one || *first == other {
        Some(rest)
    } else {
        None
    }
}

// The date of three numbers.
fn date_part(year: &[u8], month: &[u8], day: &[u8], is_plain: bool) -> Option<DatePart> {
    if year.len() != 4 || month.len() > 2 || day.len() > 2 {
        return None;
    }
    Some(DatePart {
        year: number_field(year).ok()?,
        month: number_field(month).ok()?,
        day: number_field(day).ok()?,
        is_plain,
    })
}

// The date of a year that is read, and what follows it.
fn date_behind<'a>(year: &[u8], rest: &'a [u8]) -> Option<(DatePart, &'a [u8])> {
    let (month, behind_month) = digits_of(behind(rest, b'-', b'/')?);
    let (day, end) = digits_of(behind(behind_month, b'-', b'/')?);
    let is_plain = rest.first() == Some(&b'-')
        && behind_month.first() == Some(&b'-')
        && month.len() == 2
        && day.len() == 2;
    Some((date_part(year, month, day, is_plain)?, end))
}

// The date of a day of the month that is read, and what follows it.
fn date_before<'a>(day: &[u8], rest: &'a [u8]) -> Option<(DatePart, &'a [u8])> {
    let (month, behind_month) = digits_of(behind(rest, b'.', b'.')?);
    let (year, end) = digits_of(behind(behind_month, b'.', b'.')?);
    Some((date_part(year, month, day, false)?, end))
}

// The date at the beginning of a text, and the rest. The year comes first or, with dots, last.
fn date_of(text: &[u8]) -> Option<(DatePart, &[u8])> {
    let (first, rest) = digits_of(text);
    match first.len() {
        8 => {
            let (year, others) = cut_at(first, 4);
            let (month, day) = cut_at(others, 2);
            Some((date_part(year, month, day, false)?, rest))
        }
        4 => date_behind(first, rest),
        _ => date_before(first, rest),
    }
}

// What follows seconds at the beginning of a text.
fn behind_seconds(text: &[u8]) -> Option<&[u8]> {
    let (seconds, rest) = digits_of(behind(text, b':', b'.')?);
    if seconds.len() != 2 {
        return None;
    }
    match behind(rest, b'.', b',') {
        Some(fraction) => Some(digits_of(fraction).1),
        None => Some(rest),
    }
}

// Whether a text may be between an hour and a minute.
fn is_mark(text: &[u8]) -> bool {
    match text.first() {
        Some(byte) => b":.hH".contains(byte),
        None => true,
    }
}

// The hour and the minute at the beginning of a text, and what follows them.
fn clock_of(text: &[u8]) -> Option<(ClockPart<'_>, &[u8])> {
    let (first, rest) = digits_of(text);
    let (hour, mark, minute, end) = if first.len() == 4 {
        let (hour, minute) = cut_at(first, 2);
        (hour, b"".as_slice(), minute, rest)
    } else {
        let (mark, others) = cut_at(rest, 1);
        let (minute, end) = digits_of(others);
        (first, mark, minute, end)
    };
    if !is_mark(mark) || hour.len() > 2 || minute.len() != 2 {
        return None;
    }
    let seconds = behind_seconds(end);
    let clock = ClockPart {
        hour: number_field(hour).ok()?,
        minute: number_field(minute).ok()?,
        digits: hour.len(),
        mark,
        has_seconds: seconds.is_some(),
    };
    Some((clock, seconds.unwrap_or(end)))
}

// Whether a text is empty or a time zone: letters, or a sign and hours.
fn is_zone(text: &[u8]) -> bool {
    let zone = text.trim_ascii();
    match behind(zone, b'+', b'-') {
        Some(hours) => are_hours(hours),
        None => are_letters(zone),
    }
}

// Whether a text has only digits and colons.
fn are_hours(text: &[u8]) -> bool {
    for byte in text {
        if !byte.is_ascii_digit() && *byte != b':' {
            return false;
        }
    }
    true
}

// Whether a text has only letters.
fn are_letters(text: &[u8]) -> bool {
    for byte in text {
        if !byte.is_ascii_alphabetic() {
            return false;
        }
    }
    true
}

// The parts of a text that looks like a time.
fn parts_of(text: &[u8]) -> Option<Parts<'_>> {
    let (date, rest) = match date_of(text) {
        Some((date, rest)) => (Some(date), rest),
        None => (None, text),
    };
    let (joint, rest) = cut_where(rest, true);
    let (clock, zone) = clock_of(rest)?;
    if joint.len() > 3 || !is_zone(zone) {
        return None;
    }
    Some(Parts {
        date,
        joint,
        clock,
        zone,
    })
}

// What is wrong between the date and the hour.
fn wrong_joint(joint: &[u8]) -> Option<&'static str> {
    if joint == b"T".as_slice() {
        None
    } else if joint.is_empty() {
        Some("T is missing before the hour")
    } else if joint.trim_ascii().is_empty() {
        Some("a blank is in the place of T")
    } else {
        Some("only T is between date and hour")
    }
}

// What is wrong behind the minute.
fn wrong_zone(zone: &[u8]) -> Option<&'static str> {
    match zone.trim_ascii() {
        b"" => Some("Z is missing"),
        b"Z" if zone.len() > 1 => Some("a blank is before Z"),
        b"Z" => None,
        _ => Some("a time is in UTC and ends in Z"),
    }
}

impl ClockPart<'_> {
    // What is wrong with the hour and the minute.
    fn wrong(self) -> Option<&'static str> {
        match self.mark {
            _ if self.digits < 2 => Some("the hour has one digit"),
            b"." => Some("a dot is in the place of the colon"),
            b"" => Some("the colon between hour and minute is missing"),
            b":" if self.has_seconds => Some("a time has no seconds"),
            b":" => None,
            _ => Some("only a colon is between hour and minute"),
        }
    }
}

impl Parts<'_> {
    // What is wrong first, from the left.
    fn wrong(&self) -> Option<&'static str> {
        match self.date {
            None => Some("the date is missing"),
            Some(date) if !date.is_plain => Some("a date is written YYYY-MM-DD"),
            Some(_) => wrong_joint(self.joint)
                .or(self.clock.wrong())
                .or(wrong_zone(self.zone)),
        }
    }

    // Whether the text says another time zone than UTC, which is no part that a sentence can mend.
    fn is_local(&self) -> bool {
        let zone = self.zone.trim_ascii();
        for name in UTC_NAMES {
            if name.as_bytes() == zone {
                return false;
            }
        }
        true
    }

    // The date as it should be written, which is that of the airport file if the text has none.
    fn date_text(&self, alloc: Global, day: Day) -> Result<String, AllocError> {
        match self.date {
            Some(date) => date.text(alloc),
            None => {
                let date = DateText(day);
                format!(in alloc; "{date}")
            }
        }
    }
}

impl DatePart {
    // The date as it should be written.
    fn text(self, alloc: Global) -> Result<String, AllocError> {
        let (year, month, day) = (self.year, self.month, self.day);
        format!(in alloc; "{year:04}-{month:02}-{day:02}")
    }
}

// Whether the calendar has a date, in the years of a day or not.
fn is_date(text: &str) -> bool {
    Day::of_text(text.as_bytes()) != Err(TimeFault::Text)
}

// Whether a text is a time that a field may hold.
fn is_time(day: Day, field: Field, text: &[u8]) -> bool {
    if field == Field::To {
        day.bound_of(text).is_ok()
    } else {
        day.minute_of(text).is_ok()
    }
}

// Why a day has no such hour. 24:00 is the midnight that ends it.
fn wrong_hour(
    alloc: Global,
    day: Day,
    field: Field,
    date: &str,
    clock: ClockPart<'_>,
) -> Result<String, AllocError> {
    if clock.hour == 24 && clock.minute == 0 {
        if let Some(next) = after_midnight(date.as_bytes()) {
            if is_time(day, field, next.bytes()) {
                return format!(in alloc; "24:00 is 00:00 of the next day: write {next}");
            }
        }
    }
    let hour = clock.hour;
    format!(in alloc; "the hour is {hour}, and 23 is the last of a day")
}

/// Which part of a text is wrong that should be a time, and the time as it should be written; nothing if the text
/// doesn't look like one.
pub(crate) fn wrong_time(
    alloc: Global,
    day: Day,
    field: Field,
    text: &[u8],
) -> Result<Option<String>, AllocError> {
    let text = text.trim_ascii();
    if let Some(words) = of_report(alloc, day, field, text)? {
        return Ok(Some(words));
    }
    let Some(parts) = parts_of(text) else {
        return without_clock(alloc, day, text);
    };
    let date = parts.date_text(alloc, day)?;
    wrong_parts(alloc, day, field, &parts, &date)
}

// Which of the parts of a time is wrong, and the time as it should be written, on this date.
fn wrong_parts(
    alloc: Global,
    day: Day,
    field: Field,
    parts: &Parts<'_>,
    date: &str,
) -> Result<Option<String>, AllocError> {
    let minute = parts.clock.minute;
    if !is_date(date) {
        return Ok(Some(format!(in alloc; "the calendar has no {date}")?));
    }
    if parts.clock.hour > 23 {
        return Ok(Some(wrong_hour(alloc, day, field, date, parts.clock)?));
    }
    if minute > 59 {
        return Ok(Some(format!(in alloc;
            "the minute is {minute}, and 59 is the last of an hour"
        )?));
    }
    match parts.wrong() {
        Some(wrong) => Ok(Some(mended(alloc, day, field, parts, date, wrong)?)),
        None => Ok(None),
    }
}

// What is wrong with a time, and the time as it should be written, on this date.
fn mended(
    alloc: Global,
    day: Day,
    field: Field,
    parts: &Parts<'_>,
    date: &str,
    wrong: &str,
) -> Result<String, AllocError> {
    let (hour, minute) = (parts.clock.hour, parts.clock.minute);
    let mended = format!(in alloc; "{date}T{hour:02}:{minute:02}Z")?;
    if parts.is_local() {
        return match in_utc(day, parts.zone, mended.as_bytes()) {
            Some(time) => format!(in alloc; "{wrong}: write {time}"),
            None => format!(in alloc; "{wrong}: convert it to UTC"),
        };
    }
    if is_time(day, field, mended.as_bytes()) {
        return format!(in alloc; "{wrong}: write {mended}");
    }
    let example = DateText(day);
    format!(in alloc; "{wrong}: a time is written {example}T06:00Z")
}

// The minutes by which a time zone differs from UTC, and whether it is ahead, if it is a sign and hours: +1, -0530 or +01:00.
fn offset_of(zone: &[u8]) -> Option<(u16, bool)> {
    let (digits, rest) = digits_of(behind(zone, b'+', b'-')?);
    let (hours, minutes) = match (digits.len(), rest.is_empty()) {
        (4, true) => cut_at(digits, 2),
        (_, true) => (digits, b"00".as_slice()),
        (_, false) => (digits, behind(rest, b':', b':')?),
    };
    let (hours, minutes) = (number_field(hours).ok()?, number_field(minutes).ok()?);
    if hours > 14 || minutes > 59 {
        return None;
    }
    Some((hours * 60 + minutes, zone.starts_with(b"+")))
}

// The time in UTC of one that is written as if it were UTC, if its time zone says by how much it differs and both are on the two days.
fn in_utc(day: Day, zone: &[u8], written: &[u8]) -> Option<WrittenTime> {
    let (offset, is_ahead) = offset_of(zone.trim_ascii())?;
    let minute = day.minute_of(written).ok()?.get();
    let minute = if is_ahead {
        minute.checked_sub(offset)?
    } else {
        minute.checked_add(offset)?
    };
    if minute < 2880 {
        bound_time(day, minute)
    } else {
        None
    }
}

// What is wrong with a time as reports print it: day of the month, hour and minute. Nothing if the text isn't of six digits.
fn of_report(
    alloc: Global,
    day: Day,
    field: Field,
    text: &[u8],
) -> Result<Option<String>, AllocError> {
    let (digits, rest) = digits_of(text);
    if digits.len() != 6 || !rest.is_empty() {
        return Ok(None);
    }
    let wrong = "only reports write times so";
    for midnight in [bound_time(day, 0), second_midnight(day)] {
        if let Some(written) = on_date(alloc, midnight, digits)? {
            if is_time(day, field, written.as_bytes()) {
                return Ok(Some(format!(in alloc; "{wrong}: write {written}")?));
            }
        }
    }
    let example = DateText(day);
    Ok(Some(format!(in alloc; "{wrong}: a time is written {example}T06:00Z")?))
}

// The time of six digits on the date of a midnight, if it is that day of the month.
fn on_date(
    alloc: Global,
    midnight: Option<WrittenTime>,
    digits: &[u8],
) -> Result<Option<String>, AllocError> {
    let Some(midnight) = midnight else {
        return Ok(None);
    };
    let date = date_in(midnight.bytes());
    let (of_month, clock) = cut_at(digits, 2);
    if !date.ends_with(of_month) {
        return Ok(None);
    }
    let (hour, minute) = cut_at(clock, 2);
    let date = str::from_utf8(date).unwrap_or_default();
    let hour = str::from_utf8(hour).unwrap_or_default();
    let minute = str::from_utf8(minute).unwrap_or_default();
    Ok(Some(format!(in alloc; "{date}T{hour}:{minute}Z")?))
}

// What is wrong with a text that is a date alone.
fn without_clock(alloc: Global, day: Day, text: &[u8]) -> Result<Option<String>, AllocError> {
    match date_of(text) {
        Some((_, b"")) => {
            let example = DateText(day);
            Ok(Some(format!(in alloc;
                "the hour and the minute are missing: a time is written {example}T06:00Z"
            )?))
        }
        _ => Ok(None),
    }
}

/// What is wrong with a text that should be a day, and the day as it should be written; nothing if the text doesn't look
/// like one.
pub(crate) fn wrong_day(alloc: Global, text: &[u8]) -> Result<Option<String>, AllocError> {
    let Some((date, rest)) = date_of(text.trim_ascii()) else {
        return Ok(None);
    };
    let written = date.text(alloc)?;
    let wrong = if !is_date(&written) {
        "the calendar has no"
    } else if !rest.is_empty() {
        "a day has no hour and no minute: write"
    } else {
        "a day is written YYYY-MM-DD: write"
    };
    Ok(Some(format!(in alloc; "{wrong} {written}")?))
}

/// Why a time is out of its range, which is that of the two days.
pub(crate) fn other_day(
    alloc: Global,
    day: Day,
    field: Field,
    text: &[u8],
) -> Result<String, AllocError> {
    let date = date_in(text);
    if let Some(end) = bound_time(day, 2880) {
        if field == Field::To && date == date_in(end.bytes()) {
            return format!(in alloc; "a window ends at {end} at the latest");
        }
    }
    let date = str::from_utf8(date).unwrap_or_default();
    let first = DateText(day);
    let Some(midnight) = second_midnight(day) else {
        return format!(in alloc; "the date is {date}, and the airport file's day is {first}");
    };
    let second = str::from_utf8(date_in(midnight.bytes())).unwrap_or_default();
    format!(in alloc;
        "the date is {date}, and the two days of the airport file are {first} and {second}"
    )
}
