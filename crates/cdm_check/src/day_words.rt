//! Why an update of the feed is refused that is right in itself: what is known before it says so.

ghost use Rattle.std.specs.Prelude.{◌<◌, IfSome};

use crate::kinds::kinds_by_word;
use crate::known::{Ending, Known, KnownFlight};
use crate::partners::{RoleList, RoleText};
use crate::times::{ClockText, TimeText, WrittenTime, bound_time};
use cdm_day::{Airport, MOST_DAY_UPDATES};
use cdm_flight::{FlightName, Place, Reach, RefusalWord, Role, RunwayName, RunwayRow, Update};
use cdm_kinds::Kind;
use cdm_time::{Bound, Day, Minute};
use std::alloc::{AllocError, Global};
use std::fmt;

/// What there is before a record of a feed.
#[derive(Clone, Copy)]
pub(crate) struct Before<'a> {
    /// The airport.
    pub airport: &'a Airport,
    /// What the accepted records say.
    pub known: &'a Known,
    /// The line of the FLT of the record's flight, if it comes later.
    pub later: Option<u64>,
}

/// The flight of an update, if it is one of a flight.
pub(crate) fn flight_of(update: &Update) -> Option<FlightName> {
    match update.reach() {
        Reach::Flight(flight) => Some(flight),
        _ => None,
    }
}

// The runway of an update, if it has one.
fn runway_of(update: &Update) -> Option<RunwayName> {
    match *update {
        Update::Rwy { runway, .. }
        | Update::Rate { runway, .. }
        | Update::Close { runway, .. }
        | Update::Reopen { runway, .. }
        | Update::Taxi { runway, .. } => Some(runway),
        _ => None,
    }
}

/// Why an update is refused by this word, which is one of Authority to Full. In a feed it has a role.
pub(crate) fn cause_of_day(
    alloc: Global,
    before: Before<'_>,
    role: Option<Role>,
    update: &Update,
    word: RefusalWord,
) -> Result<String, AllocError> {
    match word {
        RefusalWord::Authority => authority(alloc, role, update),
        RefusalWord::Unknown => unknown(alloc, before, update),
        RefusalWord::Exists => exists(alloc, before, update),
        RefusalWord::Ended => ended(alloc, before, update),
        RefusalWord::OffBlock => off_block(alloc, before, update),
        RefusalWord::Order => order(alloc, before, update),
        RefusalWord::NotReady => not_ready(alloc, before, update),
        _ => full(alloc, before, update),
    }
}

// `a` or `an`, as the word needs it.
fn article_of(word: &str) -> &'static str {
    match word.as_bytes().first() {
        Some(b'A' | b'E' | b'I' | b'O' | b'U') => "an",
        _ => "a",
    }
}

// A role may not make this kind of update: who may, and what it may do.
fn authority(alloc: Global, role: Option<Role>, update: &Update) -> Result<String, AllocError> {
    let kind = Kind::of(update);
    let word = kind.name();
    let article = article_of(word);
    let roles = RoleList(kind.roles());
    let Some(role) = role else {
        return format!(in alloc; "{article} {word} is set by {roles}");
    };
    let may = RoleText(role);
    let kinds = kinds_by_word(alloc)?;
    let made = KindsOf {
        kinds: &kinds,
        role,
    };
    format!(in alloc; "{article} {word} is set by {roles}; {may} may set {made}")
}

// Those of some kinds of updates that a role may make.
#[derive(Clone, Copy)]
struct KindsOf<'a> {
    kinds: &'a [Kind],
    role: Role,
}

impl fmt::Display for KindsOf<'_> {
    fn fmt<W: fmt::Write>(&self, f: &mut fmt::Formatter<W>) -> fmt::Result {
        let mut joint = "";
        for kind in self.kinds {
            if kind.roles().contains(&self.role) {
                let word = kind.name();
                write!(f, "{joint}{word}")?;
                joint = ", ";
            }
        }
        Ok(())
    }
}

// The names of runways, or `none`.
#[derive(Clone, Copy)]
struct RunwayNames<'a>(&'a [RunwayRow]);

impl fmt::Display for RunwayNames<'_> {
    fn fmt<W: fmt::Write>(&self, f: &mut fmt::Formatter<W>) -> fmt::Result {
        if self.0.is_empty() {
            return f.write_str("none");
        }
        let mut joint = "";
        for runway in self.0 {
            let name = runway.name.text();
            write!(f, "{joint}{name}")?;
            joint = ", ";
        }
        Ok(())
    }
}

// The flight or the runway isn't known.
fn unknown(alloc: Global, before: Before<'_>, update: &Update) -> Result<String, AllocError> {
    if let Some(flight) = flight_of(update) {
        if before.known.flight(flight).is_none() {
            return unknown_flight(alloc, before.later, flight);
        }
    }
    match runway_of(update) {
        Some(runway) => unknown_runway(alloc, before.airport, runway),
        None => {
            let names = RunwayNames(before.airport.runways());
            format!(in alloc; "{names}")
        }
    }
}

/// The airport has no such runway.
pub(crate) fn unknown_runway(
    alloc: Global,
    airport: &Airport,
    runway: RunwayName,
) -> Result<String, AllocError> {
    let (name, names) = (runway.text(), RunwayNames(airport.runways()));
    format!(in alloc; "no RUNWAY {name} in the airport file; there is {names}")
}

/// The flight isn't known: its FLT may come on a later line.
pub(crate) fn unknown_flight(
    alloc: Global,
    later: Option<u64>,
    flight: FlightName,
) -> Result<String, AllocError> {
    let name = flight.text();
    match later {
        Some(line) => format!(in alloc;
            "{name} has no FLT that was accepted before this record; its FLT is on line {line}: move it up"
        ),
        None => format!(in alloc; "{name} has no FLT that was accepted before this record"),
    }
}

// What is known of the update's flight.
fn known_flight<'a>(before: Before<'a>, update: &Update) -> Option<(FlightName, &'a KnownFlight)> {
    let name = flight_of(update)?;
    let flight = before.known.flight(name)?;
    Some((name, flight))
}

// The flight is known already.
fn exists(alloc: Global, before: Before<'_>, update: &Update) -> Result<String, AllocError> {
    let Some((name, flight)) = known_flight(before, update) else {
        return String::from_str(alloc, "the flight is known");
    };
    let (name, since) = (name.text(), flight.since);
    format!(in alloc; "{name} was created by {since}")
}

// The flight is airborne or cancelled.
fn ended(alloc: Global, before: Before<'_>, update: &Update) -> Result<String, AllocError> {
    let Some((name, flight)) = known_flight(before, update) else {
        return String::from_str(alloc, "the flight has left");
    };
    let name = name.text();
    match flight.ended {
        Some((since, Ending::Cancelled)) => { format!(in alloc; "{name} was cancelled by {since}") }
        Some((since, Ending::Airborne)) => {
            format!(in alloc; "{name} has been airborne since {since}")
        }
        None => format!(in alloc; "{name} has left"),
    }
}

// The flight is off-block.
fn off_block(alloc: Global, before: Before<'_>, update: &Update) -> Result<String, AllocError> {
    let Some((name, flight)) = known_flight(before, update) else {
        return String::from_str(alloc, "the flight is off-block; only AIR may follow");
    };
    let name = name.text();
    match flight.off {
        Some((since, _)) => {
            format!(in alloc; "{name} has been off-block since {since}; only AIR may follow")
        }
        None => format!(in alloc; "{name} is off-block; only AIR may follow"),
    }
}

// Times are out of order, or off the runway's cells.
fn order(alloc: Global, before: Before<'_>, update: &Update) -> Result<String, AllocError> {
    match *update {
        Update::Clock { .. } => clock_back(alloc, before),
        Update::Air { atot, .. } => air_order(alloc, before, update, atot),
        Update::Close { from, to, .. } | Update::Reopen { from, to, .. } => {
            empty_window(alloc, before, from, to)
        }
        Update::Rate { from, to, .. } if from.get() >= to.get() => {
            empty_window(alloc, before, from, to)
        }
        Update::Rate {
            runway,
            from,
            to,
            ..
        } => off_cells(alloc, before, runway, from, to),
        _ => String::from_str(alloc, "times are out of order"),
    }
}

// The clock goes back.
fn clock_back(alloc: Global, before: Before<'_>) -> Result<String, AllocError> {
    let Some((since, minute)) = before.known.clock else {
        return String::from_str(alloc, "the clock can't go back");
    };
    let day = *before.airport.day();
    let time = TimeText { day, minute };
    format!(in alloc; "the clock can't go back; it has been {time} since {since}")
}

// A window without a minute.
fn empty_window(
    alloc: Global,
    before: Before<'_>,
    from: Minute,
    to: Bound,
) -> Result<String, AllocError> {
    let day = *before.airport.day();
    let start = TimeText { day, minute: from };
    let Some(end) = bound_time(day, to.get()) else {
        return format!(in alloc; "the window is empty: its end isn't after its start {start}");
    };
    format!(in alloc; "the window is empty: its end {end} isn't after its start {start}")
}

// A rate with an end off the runway's cells, and the nearest ends that fit.
fn off_cells(
    alloc: Global,
    before: Before<'_>,
    runway: RunwayName,
    from: Minute,
    to: Bound,
) -> Result<String, AllocError> {
    let name = runway.text();
    let Some(cell) = cell_of(before.airport.runways(), runway) else {
        return format!(in alloc; "an end of the window is within a cell of {name}");
    };
    let minute = if from.get() % cell == 0 {
        to.get()
    } else {
        from.get()
    };
    let time = ClockText(minute);
    let ends = ends_near(*before.airport.day(), cell, from.get(), to.get());
    format!(in alloc; "{time} is no multiple of the {cell}-minute cells of {name}{ends}")
}

// The nearest ends that a window may have in place of one that is off the cells, by their times.
#[derive(Clone, Copy)]
struct NearEnds {
    lower: Option<WrittenTime>,
    upper: Option<WrittenTime>,
}

impl fmt::Display for NearEnds {
    fn fmt<W: fmt::Write>(&self, f: &mut fmt::Formatter<W>) -> fmt::Result {
        match (self.lower, self.upper) {
            (Some(lower), Some(upper)) => write!(f, ": write {lower} or {upper}"),
            (Some(one), None) | (None, Some(one)) => write!(f, ": write {one}"),
            (None, None) => Ok(()),
        }
    }
}

// The nearest ends in place of the start of a window, if that is off the cells, or else of its end.
fn ends_near(day: Day, cell: u16, from: u16, to: u16) -> NearEnds
    requires { 0 < cell }
{
    let is_start = from % cell != 0;
    let minute = if is_start { from } else { to };
    let earlier = minute.saturating_sub(minute % cell);
    let later = earlier.saturating_add(cell);
    let lower = if is_start || earlier > from {
        bound_time(day, earlier)
    } else {
        None
    };
    let upper = if !is_start || later < to {
        bound_time(day, later)
    } else {
        None
    };
    NearEnds { lower, upper }
}

// The length of the cells of a runway.
fn cell_of(runways: &[RunwayRow], name: RunwayName) -> Option<u16>
    ensures { IfSome result (λ cell. 0 < cell) }
{
    for row in runways {
        if row.name == name {
            return Some(row.cell.get());
        }
    }
    None
}

// An AIR before its OFF, or before the AOBT.
fn air_order(
    alloc: Global,
    before: Before<'_>,
    update: &Update,
    atot: Minute,
) -> Result<String, AllocError> {
    let Some((name, flight)) = known_flight(before, update) else {
        return String::from_str(alloc, "send OFF before AIR");
    };
    let name = name.text();
    let Some((since, minute)) = flight.off else {
        return format!(in alloc; "{name} isn't off-block: send OFF before AIR");
    };
    let day = *before.airport.day();
    let (atot, aobt) = (TimeText { day, minute: atot }, TimeText { day, minute });
    format!(in alloc; "{atot} is before {aobt}, the AOBT of {name} by {since}")
}

// The flight can't leave its stand.
fn not_ready(alloc: Global, before: Before<'_>, update: &Update) -> Result<String, AllocError> {
    let Some((name, flight)) = known_flight(before, update) else {
        return String::from_str(alloc, "the flight isn't ready");
    };
    let name = name.text();
    let Some(runway) = flight.runway else {
        return format!(in alloc; "{name} has no runway; send RWY before OFF");
    };
    let Some(exot) = exot_of(before, flight, runway) else {
        return no_taxi_time(alloc, name, flight, runway);
    };
    match *update {
        Update::Off { aobt, .. } => {
            let day = *before.airport.day();
            let time = TimeText { day, minute: aobt };
            format!(in alloc; "AOBT {time} + EXOT {exot} is past the end of the second day")
        }
        _ => String::from_str(alloc, "the flight isn't ready"),
    }
}

// No taxi time is known for a flight with this runway.
fn no_taxi_time(
    alloc: Global,
    name: &str,
    flight: &KnownFlight,
    runway: RunwayName,
) -> Result<String, AllocError> {
    let runway = runway.text();
    match flight.stand {
        Some(stand) => {
            let stand = stand.text();
            format!(in alloc;
                "no taxi time from {stand} to {runway} is known, and none from * for all stands"
            )
        }
        None => {
            format!(in alloc; "{name} has no stand, and no taxi time from * to {runway} is known")
        }
    }
}

// The taxi-out time of a flight on its runway, if one is known.
fn exot_of(before: Before<'_>, flight: &KnownFlight, runway: RunwayName) -> Option<u16> {
    let own = match flight.stand {
        Some(stand) => taxi_of(before, Place::Stand(stand), runway),
        None => None,
    };
    let taxi = own.or(taxi_of(before, Place::Default, runway))?;
    Some(taxi.saturating_add(flight.remote))
}

/// The taxi time from a place to a runway, of the feed or else of the airport file.
pub(crate) fn taxi_of(before: Before<'_>, place: Place, runway: RunwayName) -> Option<u16> {
    if let Some(minutes) = before.known.taxi(&place, &runway) {
        return Some(minutes.get());
    }
    let minutes = before.airport.taxi().minutes(place, runway)?;
    Some(minutes.get())
}

// There is no more room.
fn full(alloc: Global, before: Before<'_>, update: &Update) -> Result<String, AllocError> {
    if before.known.accepted >= MOST_DAY_UPDATES {
        return String::from_str(
            alloc,
            "20,000 updates were accepted before, which is the most of a day",
        );
    }
    match *update {
        Update::Taxi {
            place: Place::Stand(stand),
            ..
        } => {
            let stand = stand.text();
            format!(in alloc;
                "400 stands have taxi times, which is the most, and {stand} is none of them"
            )
        }
        _ => String::from_str(alloc, "2,000 flights are known, which is the most of a day"),
    }
}
