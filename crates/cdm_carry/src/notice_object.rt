//! Notices as JSON: an object on a line of its own for each.
ghost use Rattle.std.specs.Prelude.{◌≡◌, ◌<◌, ◌++◌, All, IfOk, OnOk, flat_map, map};
ghost use Rattle.std.specs.String.{string_bytes};
ghost use Rattle.cdm_row.specs.Columns.{value_of};
ghost use Rattle.cdm_row.specs.Json.{member_tokens};
ghost use Rattle.cdm_carry.specs.NoticeTexts.{aobt_value, ctot_value, flight_value, flights_value, kind_word, line_value, member_of, notice_end, notice_members, object_line, record_value, runway_value, tobt_value, ttot_value, word_value};
ghost use Rattle.cdm_time.specs.declared.calendar.CalendarDate.{CalendarDate};
ghost use Rattle.cdm_carry.specs.inner.NoticeLines.{own_line};

use crate::notice::Notice;
use crate::writing::push_record;
use cdm_json::{begin_line, end_line};
use cdm_row::{Value, push_member};
use cdm_time::Day;
use json::Writer;
use std::alloc::{AllocError, Global};

// A member: its name and its value.
type Member<'a> = (&'static str, Value<'a>);

// Writes members, one after another.
fn push_members(
    writer: &mut Writer<Global>,
    day: Day,
    members: &[Member<'_>],
) -> Result<(), AllocError>
    ensures tokens { OnOk result (writer.new.tokens
        ≡ writer.old.tokens ++ flat_map member_tokens (map (member_of day) (map (λ m. (m.0.now, value_of m.1)) members.now))) }
    ensures before { writer.new.before ≡ writer.old.before }
{
    for member in members {
        push_member(writer, day, member.0, &member.1)?;
    }
    Ok(())
}

// Puts the object of these members behind a text, on a line.
fn push_object(text: &mut Vec<u8>, day: Day, members: &[Member<'_>]) -> Result<(), AllocError>
    ensures { OnOk result (text.new.items ≡ text.old.items ++ object_line day (map (λ m. (m.0.now, value_of m.1)) members.now)) }
{
    let mut writer = begin_line(*text.allocator(), None, "")?;
    push_members(&mut writer, day, members)?;
    text.extend_from_slice(&end_line(writer)?)
}

// The kind of a notice.
fn kind_word(notice: &Notice) -> &'static str
    ensures { result.now ≡ kind_word notice.now }
{
    match notice {
        Notice::Left(..) => "LEFT",
        Notice::EarlierTobt(..) | Notice::EarlierCtot(..) => "EARLIER",
        Notice::Refused(..) => "REFUSED",
        Notice::Gone(_) => "GONE",
        Notice::Stay(_) => "STAY",
    }
}

// Its flight, if it is of one.
fn flight_value(notice: &Notice) -> Value<'_>
    ensures { value_of result ≡ flight_value notice.now }
{
    match notice {
        Notice::Left(flight, _, _, _)
        | Notice::EarlierTobt(flight, _)
        | Notice::EarlierCtot(flight, _) => Value::Text(flight.text()),
        _ => Value::Nothing,
    }
}

// The runway of a flight that is left.
fn runway_value(notice: &Notice) -> Value<'_>
    ensures { value_of result ≡ runway_value notice.now }
{
    match notice {
        Notice::Left(_, runway, _, _) => Value::Text(runway.text()),
        _ => Value::Nothing,
    }
}

// Its AOBT.
fn aobt_value(notice: &Notice) -> Value<'static>
    ensures { value_of result ≡ aobt_value notice.now }
{
    match *notice {
        Notice::Left(_, _, aobt, _) => Value::Minute(aobt),
        _ => Value::Nothing,
    }
}

// Its TTOT.
fn ttot_value(notice: &Notice) -> Value<'static>
    ensures { value_of result ≡ ttot_value notice.now }
{
    match *notice {
        Notice::Left(_, _, _, ttot) => Value::Minute(ttot),
        _ => Value::Nothing,
    }
}

// The TOBT that was early.
fn tobt_value(notice: &Notice) -> Value<'static>
    ensures { value_of result ≡ tobt_value notice.now }
{
    match *notice {
        Notice::EarlierTobt(_, tobt) => Value::Minute(tobt),
        _ => Value::Nothing,
    }
}

// The CTOT that was early.
fn ctot_value(notice: &Notice) -> Value<'static>
    ensures { value_of result ≡ ctot_value notice.now }
{
    match *notice {
        Notice::EarlierCtot(_, ctot) => Value::Minute(ctot),
        _ => Value::Nothing,
    }
}

// The number of a record that is refused.
fn record_value(notice: &Notice) -> Value<'static>
    ensures { value_of result ≡ record_value notice.now }
{
    match *notice {
        Notice::Refused(number, _, _, _) => Value::Number(number as u64),
        _ => Value::Nothing,
    }
}

// The word that refuses it.
fn word_value(notice: &Notice) -> Value<'static>
    ensures { value_of result ≡ word_value notice.now }
{
    match *notice {
        Notice::Refused(_, word, _, _) => Value::Text(word.text()),
        _ => Value::Nothing,
    }
}

// The record itself, which is this text, if it is of one.
fn line_value<'a>(notice: &Notice, line: &'a str) -> Value<'a>
    ensures { (next : CalendarDate) → line.now ≡ own_line next notice.now → value_of result ≡ line_value next notice.now }
{
    match *notice {
        Notice::Refused(..) => Value::Text(line),
        _ => Value::Nothing,
    }
}

// How many flights.
fn flights_value(notice: &Notice) -> Value<'static>
    ensures { value_of result ≡ flights_value notice.now }
{
    match *notice {
        Notice::Gone(count) | Notice::Stay(count) => Value::Number(count as u64),
        _ => Value::Nothing,
    }
}

// The record that a notice is of, as a text.
fn own_line(alloc: Global, next: Day, notice: &Notice) -> Result<String, AllocError>
    requires { notice_end notice.now < 2880 }
    ensures { IfOk result (λ line. string_bytes line ≡ own_line next notice.now) }
{
    let mut line = String::new(alloc);
    if let Notice::Refused(_, _, role, update) = *notice {
        push_record(&mut line, next, role, &update)?;
    }
    Ok(line)
}

// The members of a notice, of which this is the record's text.
#[tactic(auto, unfolding(crate::specs::NoticeTexts::notice_members))]
fn notice_members<'a>(notice: &'a Notice, line: &'a str) -> [Member<'a>; 11]
    ensures { (next : CalendarDate) → line.now ≡ own_line next notice.now → map (λ m. (m.0.now, value_of m.1)) result ≡ notice_members next notice.now }
{
    [
        ("kind", Value::Text(kind_word(notice))),
        ("flight", flight_value(notice)),
        ("runway", runway_value(notice)),
        ("aobt", aobt_value(notice)),
        ("ttot", ttot_value(notice)),
        ("tobt", tobt_value(notice)),
        ("ctot", ctot_value(notice)),
        ("record", record_value(notice)),
        ("word", word_value(notice)),
        ("line", line_value(notice, line)),
        ("flights", flights_value(notice)),
    ]
}

// Puts the object of a notice behind a text.
fn push_notice(text: &mut Vec<u8>, day: Day, next: Day, notice: &Notice) -> Result<(), AllocError>
    requires { notice_end notice.now < 2880 }
    ensures { OnOk result (text.new.items ≡ text.old.items ++ object_line day (notice_members next notice.now)) }
{
    let line = own_line(*text.allocator(), next, notice)?;
    push_object(text, day, &notice_members(notice, &line))
}

/// The objects of notices, one a line. Their times are those of the day that ends, and a record that is refused is one of the
/// next day.
pub(crate) fn notice_objects(
    alloc: Global,
    day: Day,
    next: Day,
    notices: &[Notice],
) -> Result<Vec<u8>, AllocError>
    requires { All (λ n. notice_end n < 2880) notices.now }
    ensures { IfOk result (λ text. text.items ≡ flat_map (λ n. object_line day (notice_members next n)) notices.now) }
{
    let mut text = Vec::new(alloc);
    for notice in notices {
        push_notice(&mut text, day, next, notice)?;
    }
    Ok(text)
}
