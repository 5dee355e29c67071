//! Records as a feed.
ghost use Rattle.std.specs.Prelude.{◌≡◌, ◌<◌, ◌++◌, ◌∷◌, [], All, codes, IfOk, OnOk, Some};
ghost use Rattle.std.specs.Fmt.{decimal};
ghost use Rattle.std.specs.List.{concat};
ghost use Rattle.std.specs.String.{string_bytes};
ghost use Rattle.cdm_time.specs.Times.{time_text};
ghost use Rattle.cdm_carry.specs.Texts.{ctot_text, feed_text, fields_text, group_text, ice_text, named, place_text, record_text, window_end, window_text};

use cdm_flight::{
    Cap, FlightName, Group, Ice, Place, Priority, Role, RunwayName, TaxiMinutes, Update,
};
use cdm_kinds::{Kind, role_name};
use cdm_time::{Bound, Day, Minute, Tolerance};
use std::alloc::{AllocError, Global};
use std::fmt::Write;
use std::{fmt, str};

// A minute as files give times.
#[derive(Clone, Copy)]
struct TimeText {
    day: Day,
    minute: Minute,
}

impl fmt::Display for TimeText {
    ghost output = { λ time. Some (time_text time.day time.minute) };

    fn fmt<W: fmt::Write>(&self, f: &mut fmt::Formatter<W>) -> fmt::Result {
        let text = self.day.time_text(self.minute);
        f.write_str(str::from_utf8(&text).unwrap())
    }
}

// A CTOT, or `-` for none any more.
#[derive(Clone, Copy)]
struct CtotText {
    day: Day,
    ctot: Option<Minute>,
}

impl fmt::Display for CtotText {
    ghost output = { λ text. Some (ctot_text text.day text.ctot) };

    fn fmt<W: fmt::Write>(&self, f: &mut fmt::Formatter<W>) -> fmt::Result {
        match self.ctot {
            None => f.write_str("-"),
            Some(minute) => {
                let day = self.day;
                let time = TimeText { day, minute };
                write!(f, "{time}")
            }
        }
    }
}

// A de-icing: its place and its minutes.
#[derive(Clone, Copy)]
struct IceText(Ice);

impl fmt::Display for IceText {
    ghost output = { λ text. Some (ice_text text.0) };

    fn fmt<W: fmt::Write>(&self, f: &mut fmt::Formatter<W>) -> fmt::Result {
        match self.0 {
            Ice::NoIce => f.write_str("NONE,0"),
            Ice::AtStand(minutes) => {
                let minutes = minutes.get();
                write!(f, "STAND,{minutes}")
            }
            Ice::Remote(minutes) => {
                let minutes = minutes.get();
                write!(f, "REMOTE,{minutes}")
            }
        }
    }
}

// The letter of a group.
fn group_text(group: Group) -> &'static str
    ensures { result.now ≡ group_text group }
{
    match group {
        Group::Light => "L",
        Group::Medium => "M",
        Group::Heavy => "H",
    }
}

// A stand, or `*` for the runway's default.
#[derive(Clone, Copy)]
struct PlaceText(Place);

impl fmt::Display for PlaceText {
    ghost output = { λ text. Some (place_text text.0) };

    fn fmt<W: fmt::Write>(&self, f: &mut fmt::Formatter<W>) -> fmt::Result {
        match self.0 {
            Place::Default => f.write_str("*"),
            Place::Stand(stand) => f.write_str(stand.text()),
        }
    }
}

// Puts a window of a runway behind a text.
fn push_window(
    text: &mut String,
    day: Day,
    runway: RunwayName,
    from: Minute,
    to: Bound,
) -> Result<(), AllocError>
    requires { to < 2880 }
    ensures { OnOk result (string_bytes text.new ≡ string_bytes text.old ++ window_text day runway from to) }
{
    let runway = runway.text();
    let from = TimeText { day, minute: from };
    let minute = Minute::at(to.get());
    let to = TimeText { day, minute };
    write!(text, "{runway},{from},{to}")
}

// Puts a flight and a time behind a text.
fn push_time(
    text: &mut String,
    day: Day,
    flight: FlightName,
    minute: Minute,
) -> Result<(), AllocError>
    ensures { OnOk result (string_bytes text.new ≡ string_bytes text.old ++ named flight (time_text day minute)) }
{
    let flight = flight.text();
    let time = TimeText { day, minute };
    write!(text, "{flight},{time}")
}

// Puts a flight and its priority behind a text.
fn push_priority(
    text: &mut String,
    flight: FlightName,
    priority: Priority,
) -> Result<(), AllocError>
    ensures { OnOk result (string_bytes text.new ≡ string_bytes text.old ++ named flight (decimal priority)) }
{
    let (flight, priority) = (flight.text(), priority.get());
    write!(text, "{flight},{priority}")
}

// Puts a flight and a word behind a text.
fn push_word(text: &mut String, flight: FlightName, word: &str) -> Result<(), AllocError>
    ensures { OnOk result (string_bytes text.new ≡ string_bytes text.old ++ named flight word.now) }
{
    let flight = flight.text();
    write!(text, "{flight},{word}")
}

// Puts a flight and its CTOT behind a text.
fn push_ctot(
    text: &mut String,
    day: Day,
    flight: FlightName,
    ctot: Option<Minute>,
) -> Result<(), AllocError>
    ensures { OnOk result (string_bytes text.new ≡ string_bytes text.old ++ named flight (ctot_text day ctot)) }
{
    let flight = flight.text();
    let ctot = CtotText { day, ctot };
    write!(text, "{flight},{ctot}")
}

// Puts a flight and its de-icing behind a text.
fn push_ice(text: &mut String, flight: FlightName, ice: Ice) -> Result<(), AllocError>
    ensures { OnOk result (string_bytes text.new ≡ string_bytes text.old ++ named flight (ice_text ice)) }
{
    let flight = flight.text();
    let ice = IceText(ice);
    write!(text, "{flight},{ice}")
}

// Puts a window of a runway and its capacity behind a text.
fn push_rate(
    text: &mut String,
    day: Day,
    runway: RunwayName,
    from: Minute,
    to: Bound,
    cap: Cap,
) -> Result<(), AllocError>
    requires { to < 2880 }
    ensures { OnOk result (string_bytes text.new ≡ string_bytes text.old ++ concat (window_text day runway from to ∷ codes "," ∷ decimal cap ∷ [])) }
{
    push_window(text, day, runway, from, to)?;
    let cap = cap.get();
    write!(text, ",{cap}")
}

// Puts a taxi time behind a text.
fn push_taxi(
    text: &mut String,
    place: Place,
    runway: RunwayName,
    minutes: TaxiMinutes,
) -> Result<(), AllocError>
    ensures { OnOk result (string_bytes text.new ≡ string_bytes text.old ++ concat (place_text place ∷ codes "," ∷ runway ∷ codes "," ∷ decimal minutes ∷ [])) }
{
    let place = PlaceText(place);
    let (runway, minutes) = (runway.text(), minutes.get());
    write!(text, "{place},{runway},{minutes}")
}

// Puts a time behind a text.
fn push_clock(text: &mut String, day: Day, minute: Minute) -> Result<(), AllocError>
    ensures { OnOk result (string_bytes text.new ≡ string_bytes text.old ++ time_text day minute) }
{
    let time = TimeText { day, minute };
    write!(text, "{time}")
}

// Puts the minutes of a tolerance behind a text.
fn push_tolerance(text: &mut String, tolerance: Tolerance) -> Result<(), AllocError>
    ensures { OnOk result (string_bytes text.new ≡ string_bytes text.old ++ concat (decimal tolerance.before ∷ codes "," ∷ decimal tolerance.after ∷ [])) }
{
    let (before, after) = (tolerance.before, tolerance.after);
    write!(text, "{before},{after}")
}

// Puts the fields of an update behind a text.
#[tactic(auto, unfolding(crate::specs::Texts::fields_text))]
fn push_fields(text: &mut String, day: Day, update: &Update) -> Result<(), AllocError>
    requires { window_end update.now < 2880 }
    ensures { OnOk result (string_bytes text.new ≡ string_bytes text.old ++ fields_text day update.now) }
{
    match *update {
        Update::Flt { flight, priority } | Update::Prio { flight, priority } => {
            push_priority(text, flight, priority)
        }
        Update::Tobt { flight, tobt } => push_time(text, day, flight, tobt),
        Update::Off { flight, aobt } => push_time(text, day, flight, aobt),
        Update::Air { flight, atot } => push_time(text, day, flight, atot),
        Update::Stand { flight, stand } => push_word(text, flight, stand.text()),
        Update::Rwy { flight, runway } => push_word(text, flight, runway.text()),
        Update::Ctot { flight, ctot } => push_ctot(text, day, flight, ctot),
        Update::Ice { flight, ice } => push_ice(text, flight, ice),
        Update::Group { flight, group } => push_word(text, flight, group_text(group)),
        Update::Cnl { flight } => text.push_str(flight.text()),
        Update::Rate {
            runway,
            from,
            to,
            cap,
        } => push_rate(text, day, runway, from, to, cap),
        Update::Close { runway, from, to } | Update::Reopen { runway, from, to } => {
            push_window(text, day, runway, from, to)
        }
        Update::Taxi {
            place,
            runway,
            minutes,
        } => push_taxi(text, place, runway, minutes),
        Update::Clock { now } => push_clock(text, day, now),
        Update::Tol { tolerance } => push_tolerance(text, tolerance),
    }
}

/// Puts a record behind a text.
#[tactic(auto, unfolding(crate::specs::Texts::record_text))]
pub(crate) fn push_record(
    text: &mut String,
    day: Day,
    role: Role,
    update: &Update,
) -> Result<(), AllocError>
    requires { window_end update.now < 2880 }
    ensures { OnOk result (string_bytes text.new ≡ string_bytes text.old ++ record_text day (role, update.now)) }
{
    let role = role_name(role);
    let kind = Kind::of(update).name();
    write!(text, "{role},{kind},")?;
    push_fields(text, day, update)
}

/// Records as a feed of this day, one a line. Each window ends before the horizon does. Only want of memory makes it fail.
#[tactic(auto, unfolding(crate::specs::Texts::feed_text))]
pub fn feed_text(alloc: Global, day: Day, records: &[(Role, Update)]) -> Result<String, AllocError>
    requires { All (λ p. window_end p.1 < 2880) records.now }
    ensures { IfOk result (λ text. string_bytes text ≡ feed_text day records.now) }
{
    let mut text = String::new(alloc);
    for item in records {
        let (role, update) = *item;
        push_record(&mut text, day, role, &update)?;
        text.push_str("\n")?;
    }
    Ok(text)
}
