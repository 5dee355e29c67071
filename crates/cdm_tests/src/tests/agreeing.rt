//! Runways and taxi times against plain lists.
ghost use Rattle.std.specs.Prelude.{◌<◌};

use crate::tests::asserts::{assert_found, assert_holds};
use crate::tests::memory::runway::{set_window, two_in_ten, window_of};
use cdm_flight::{Ice, Place, RunwayName, StandName, TaxiMinutes};
use cdm_runway::Runway;
use cdm_taxi::TaxiTable;
use cdm_time::Minute;

/// How many changes are made.
const CHANGES: usize = 500;

/// Numbers without a pattern, always the same ones.
#[derive(Drop)]
struct Numbers {
    last: u32,
}

impl Numbers {
    // The next one, below a bound.
    fn below(&mut self, bound: u16) -> u16
        requires { 0 < bound }
        ensures { result < bound }
    {
        self.last = self
            .last
            .wrapping_mul(1_664_525)
            .wrapping_add(1_013_904_223);
        (self.last / 65_536 % 65_536) as u16 % bound
    }
}

/// What a runway allows, minute by minute.
#[derive(Drop)]
struct Minutes {
    caps: [u16; 2880],
    closed: [bool; 2880],
}

impl Minutes {
    // Sets the minutes from one up to another.
    fn set(&mut self, word: &str, from: u16, to: u16, cap: u16) {
        for minute in from..to {
            let minute = usize::from(minute);
            match word {
                "RATE" => {
                    if let Some(held) = self.caps.get_mut(minute) {
                        *held = cap;
                    }
                }
                _ => {
                    if let Some(held) = self.closed.get_mut(minute) {
                        *held = word == "CLOSE";
                    }
                }
            }
        }
    }
}

// A window that isn't empty, on the grid of the cells where it is that of a rate.
fn window(numbers: &mut Numbers, word: &str) -> (u16, u16) {
    let (from, length) = (numbers.below(2870), 1 + numbers.below(300));
    let to = from.saturating_add(length).min(2880);
    if word == "RATE" {
        let first = from / 10 * 10;
        (first, (to / 10 * 10).max(first + 10))
    } else {
        (from, to)
    }
}

/// A rate, a closure or an opening from a minute up to another, with a capacity.
type Changed = (&'static str, u16, u16, u16);

// The next one.
fn next_change(numbers: &mut Numbers) -> Changed {
    let word = match numbers.below(3) {
        0 => "RATE",
        1 => "CLOSE",
        _ => "OPEN",
    };
    let (from, to) = window(numbers, word);
    (word, from, to, numbers.below(5))
}

// Makes it on a runway.
fn change_runway(runway: &mut Runway, changed: Changed) -> Option<()> {
    let (word, from, to, number) = changed;
    let (first, end, cap) = window_of(from, to, number)?;
    set_window(runway, word, first, end, cap).ok()
}

// Whether a runway and a list allow the same at a minute.
fn agree_at(runway: &Runway, minutes: &Minutes, minute: Minute) -> bool {
    let place = usize::from(minute.get());
    minutes.caps.get(place) == Some(&runway.cap_at(minute).get())
        && minutes.closed.get(place) == Some(&runway.closed(minute))
}

// Whether they do so at each minute.
fn agree_always(runway: &Runway, minutes: &Minutes) -> bool {
    let mut all = (0..2880).filter_map(Minute::new);
    all.all(|minute| agree_at(runway, minutes, minute))
}

/// After each of 500 rates, closures and openings a runway allows at each minute what a list of minutes says.
#[test]
fn a_runway_agrees_with_a_list_of_minutes(rt: HostRuntime) {
    let mut runway = two_in_ten(rt.alloc()).expect(&rt, "no runway");
    let mut numbers = Numbers { last: 27 };
    let mut minutes = Minutes {
        caps: [2; 2880],
        closed: [false; 2880],
    };
    for number in 0..CHANGES {
        let changed = next_change(&mut numbers);
        minutes.set(changed.0, changed.1, changed.2, changed.3);
        change_runway(&mut runway, changed).expect(&rt, "not set");
        assert_holds(&rt, agree_always(&runway, &minutes), (number, changed));
    }
}

/// A taxi time from a place to a runway.
type Row = (Place, RunwayName, TaxiMinutes);

// One of 40 stands, or the default.
fn place(number: u16) -> Option<Place> {
    if number == 40 {
        return Some(Place::Default);
    }
    let digits = [
        b'S',
        b'0' + (number / 10 % 10) as u8,
        b'0' + (number % 10) as u8,
    ];
    Some(Place::Stand(StandName::new(&digits)?))
}

// The stand, if it is one.
fn stand_of(place: Place) -> Option<StandName> {
    match place {
        Place::Stand(stand) => Some(stand),
        Place::Default => None,
    }
}

// One of three runways.
fn runway(number: u16) -> Option<RunwayName> {
    RunwayName::new(&[b'0', b'1' + (number % 3) as u8])
}

// A taxi time from one of the places to one of the runways.
fn row(numbers: &mut Numbers) -> Option<Row> {
    let place = place(numbers.below(41))?;
    let runway = runway(numbers.below(3))?;
    Some((place, runway, TaxiMinutes::new(1 + numbers.below(120))?))
}

// Sets it.
fn set_row(table: &mut TaxiTable, row: &Row) -> Option<()> {
    table.set(row.0, row.1, row.2).ok()
}

// The last time that was set of a place and a runway.
fn last_of(rows: &[Row], place: &Place, runway: &RunwayName) -> Option<u16> {
    let mut last = None;
    for (other, name, minutes) in rows {
        if other == place && name == runway {
            last = Some(minutes.get());
        }
    }
    last
}

// Whether the table has the last time of the place, and EXOT is that of a stand, else that of the default.
fn agree_on(table: &TaxiTable, rows: &[Row], place: &Place, runway: &RunwayName) -> bool {
    let last = last_of(rows, place, runway);
    let found = table.minutes(*place, *runway).map(TaxiMinutes::get);
    let exot = table.exot(stand_of(*place), *runway, Ice::NoIce);
    found == last && exot == last.or(last_of(rows, &Place::Default, runway))
}

// Whether they agree on each place and a runway.
fn agree_to(table: &TaxiTable, rows: &[Row], runway: &RunwayName) -> Option<bool> {
    for number in 0..=40u16 {
        if !agree_on(table, rows, &place(number)?, runway) {
            return Some(false);
        }
    }
    Some(true)
}

// Whether they agree on each place and each runway.
fn agree(table: &TaxiTable, rows: &[Row]) -> Option<bool> {
    for number in 0..3u16 {
        if !agree_to(table, rows, &runway(number)?)? {
            return Some(false);
        }
    }
    Some(true)
}

/// After each of 500 taxi times a table has, for each place and runway, the last one that a list of rows has.
#[test]
fn a_taxi_table_agrees_with_a_list_of_rows(rt: HostRuntime) {
    let mut table = TaxiTable::empty(rt.alloc());
    let mut rows = Vec::new(rt.alloc());
    let mut numbers = Numbers { last: 9 };
    for change in 0..CHANGES {
        let row = row(&mut numbers).expect(&rt, "no row");
        set_row(&mut table, &row).expect(&rt, "not set");
        rows.push(row).expect(&rt, "no memory");
        assert_found(&rt, agree(&table, &rows), Some(true), change);
    }
}
