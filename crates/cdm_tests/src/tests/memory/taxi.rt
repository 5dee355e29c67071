//! Taxi times.
use crate::tests::asserts::{assert_found, assert_holds};
use cdm_flight::{Ice, IceMinutes, Place, RunwayName, StandName, TaxiMinutes};
use cdm_taxi::{TaxiFault, TaxiTable};
use std::alloc::{AllocError, Global};

// One of a thousand stands, and minutes of its own.
fn row(number: u16) -> Option<(Place, TaxiMinutes)> {
    let digit = |number: u16| b'0' + (number % 10) as u8;
    let name = [b'S', digit(number / 100), digit(number / 10), digit(number)];
    let stand = StandName::new(&name)?;
    Some((Place::Stand(stand), TaxiMinutes::new(1 + number % 100)?))
}

// The minutes from a place to a runway.
fn minutes_from(table: &TaxiTable, place: &Place, runway: RunwayName) -> Option<u16> {
    Some(table.minutes(*place, runway)?.get())
}

// The minutes from a stand to a runway.
fn minutes_of(table: &TaxiTable, runway: RunwayName, number: u16) -> Option<u16> {
    let (place, _) = row(number)?;
    minutes_from(table, &place, runway)
}

// Whether the table has the rows of so many stands.
fn has_rows(table: &TaxiTable, runway: RunwayName, stands: u16) -> bool {
    for number in 0..=stands {
        if minutes_of(table, runway, number) != (number < stands).then_some(1 + number % 100) {
            return false;
        }
    }
    true
}

// Sets the time of a place.
fn set_row(
    table: &mut TaxiTable,
    place: &Place,
    runway: RunwayName,
    minutes: TaxiMinutes,
) -> Result<(), TaxiFault> {
    table.set(*place, runway, minutes)
}

// The answer to the row of a stand, behind those of the stands before it.
fn answer(table: &mut TaxiTable, runway: RunwayName, number: u16) -> Option<Result<(), TaxiFault>> {
    let (place, minutes) = row(number)?;
    let first = set_row(table, &place, runway, minutes);
    if first == Err(TaxiFault::Memory) && has_rows(table, runway, number) {
        return Some(set_row(table, &place, runway, minutes));
    }
    Some(first)
}

// Sets the time of a place for another than it has.
fn set(table: &mut TaxiTable, place: &Place, runway: RunwayName, number: u16) -> Option<()> {
    let minutes = TaxiMinutes::new(number)?;
    let before = minutes_from(table, place, runway);
    again!(
        set_row(table, place, runway, minutes),
        TaxiFault::Memory,
        minutes_from(table, place, runway) == before
    )
}

// What the row of a stand is answered.
fn wanted(number: u16) -> Option<Result<(), TaxiFault>> {
    if number == 400 {
        Some(Err(TaxiFault::Full))
    } else {
        Some(Ok(()))
    }
}

// The table once more.
fn copied(table: &TaxiTable) -> Option<TaxiTable> {
    again!(table.copy(), AllocError, true)
}

/// With rows of 400 stands the table is full for another stand, but not for one of them, nor for the default.
#[test]
fn refused_memory_leaves_taxi_times(rt: HostRuntime) {
    let runway = RunwayName::new(b"27L").expect(&rt, "no runway");
    let mut table = TaxiTable::empty(rt.alloc());
    for number in 0..401u16 {
        let found = answer(&mut table, runway, number);
        assert_found(&rt, found, wanted(number), number);
    }
    let mut copied = copied(&table).expect(&rt, "not copied");
    assert_holds(&rt, copied.is_same(&table), "a copy");
    let (stand, _) = row(7).expect(&rt, "no row");
    for place in [stand, Place::Default] {
        let found = set(&mut copied, &place, runway, 120);
        assert_found(&rt, found, Some(()), "set");
        assert_found(
            &rt,
            minutes_from(&copied, &place, runway),
            Some(120),
            "minutes",
        );
    }
    assert_holds(&rt, !copied.is_same(&table), "a changed copy");
}

// EXOT from a stand to a runway, with minutes of remote de-icing or none.
fn exot(table: &TaxiTable, stand: &str, runway: &str, ice: u16) -> Option<u16> {
    let ice = match IceMinutes::new(ice) {
        Some(minutes) => Ice::Remote(minutes),
        None => Ice::NoIce,
    };
    let stand = StandName::new(stand.as_bytes())?;
    table.exot(Some(stand), RunwayName::new(runway.as_bytes())?, ice)
}

// The table of a stand and the default.
fn two_rows(alloc: Global) -> Option<TaxiTable> {
    let runway = RunwayName::new(b"27L")?;
    let stand = StandName::new(b"A1")?;
    let mut table = TaxiTable::empty(alloc);
    set(&mut table, &Place::Default, runway, 15)?;
    set(&mut table, &Place::Stand(stand), runway, 10)?;
    Some(table)
}

/// A stand, a runway and minutes of remote de-icing, each with its EXOT.
const EXOTS: [(&str, &str, u16, Option<u16>); 4] = [
    ("A1", "27L", 0, Some(10)),
    ("A1", "27L", 12, Some(22)),
    ("A2", "27L", 0, Some(15)),
    ("A1", "09", 0, None),
];

/// A stand's own time, that of the default, de-icing on top, and a runway without times.
#[test]
fn refused_memory_in_two_rows(rt: HostRuntime) {
    let table = two_rows(rt.alloc()).expect(&rt, "not set");
    for (stand, runway, ice, wanted) in &EXOTS {
        let found = exot(&table, stand, runway, *ice);
        assert_found(&rt, found, *wanted, (*stand, *ice));
    }
}
