//! What a person must know of a day and of the next airport.
ghost use Rattle.std.specs.Prelude.{◌≡◌, ◌<◌, ◌++◌, [], All, IfOk, OnOk, IsPermutation, IsSortedByKey, filter, flat_map, length};
ghost use Rattle.std.specs.List.{cons_option, filter_map};
ghost use Rattle.std.specs.Option.{option_copied, option_map};
ghost use Rattle.cdm_flight.specs.Names.{name_cmp};
ghost use Rattle.cdm_plan.specs.DayPlan.{records_in};
ghost use Rattle.cdm_carry.specs.Notices.{carried_numbered, counts, earlier, early, is_gone, left, refused, refused_of, stays_by};
ghost use Rattle.cdm_carry.specs.Texts.{window_end};
ghost use Rattle.cdm_carry.specs.declared.notice.Notice.TheVariants.{EarlierTobt, EarlierCtot};
ghost use Rattle.cdm_carry.specs.inner.Leaving.{LeaveOnce};

use crate::moving::{goes_on, moved};
use crate::notice::Notice;
use crate::staying::{NEXT_DAY, stays_by};
use crate::taking::{Numbered, take_record};
use cdm_day::Records;
use cdm_flight::{Flight, RefusalWord, Status, push_last};
use cdm_scenario::Overlay;
use cdm_time::Minute;
use std::alloc::{AllocError, Global};

// A flight behind the others, if it is known.
fn push_known(flights: &mut Vec<Flight>, flight: Option<&Flight>) -> Result<(), AllocError>
    ensures { OnOk result (flights.new.items ≡ flights.old.items ++ cons_option (option_copied flight.entry) []) }
{
    match flight {
        Some(flight) => push_last(flights, *flight),
        None => Ok(()),
    }
}

// What is known of the flights, in the order in which they were made known.
fn flights_of(alloc: Global, day: &Overlay<'_>) -> Result<Vec<Flight>, AllocError>
    ensures { IfOk result (λ flights. flights.items ≡ records_in day.now.airport day.now.journal) }
{
    let mut flights = Vec::new(alloc);
    for place in 0..day.flights() {
        push_known(&mut flights, day.flight_at(place))?;
    }
    Ok(flights)
}

/// What is known of the flights, by name.
pub(crate) fn flights_by_name(alloc: Global, day: &Overlay<'_>) -> Result<Vec<Flight>, AllocError>
    ensures all { IfOk result (λ flights. IsPermutation (records_in day.now.airport day.now.journal) flights.items) }
    ensures by_name { IfOk result (λ flights. IsSortedByKey (λ f. f.name) name_cmp flights.items) }
{
    let mut flights = flights_of(alloc, day)?;
    flights.sort_unstable_by_key(|flight| flight.name);
    Ok(flights)
}

// The flight has left its stand before the next day, and isn't airborne.
fn left(flight: &Flight) -> Option<Notice>
    ensures { result ≡ left flight.now }
{
    let (Some(runway), Status::OffBlock { aobt, exot }) = (flight.runway, flight.status) else {
        return None;
    };
    if aobt.get() < NEXT_DAY {
        let ttot = Minute::new(aobt.get() + exot).unwrap();
        Some(Notice::Left(flight.name, runway, aobt, ttot))
    } else {
        None
    }
}

// A minute of a planned flight that is before the next day.
fn early(status: Status, minute: Option<Minute>) -> Option<Minute>
    ensures { result ≡ early status minute }
{
    match (status, minute) {
        (Status::Planned, Some(minute)) if minute.get() < NEXT_DAY => Some(minute),
        _ => None,
    }
}

// The notice of an early TOBT.
fn early_tobt(flight: &Flight) -> Option<Notice>
    ensures { result ≡ option_map (EarlierTobt flight.now.name) (early flight.now.status flight.now.tobt) }
{
    match early(flight.status, flight.tobt) {
        Some(tobt) => Some(Notice::EarlierTobt(flight.name, tobt)),
        None => None,
    }
}

// The notice of an early CTOT.
fn early_ctot(flight: &Flight) -> Option<Notice>
    ensures { result ≡ option_map (EarlierCtot flight.now.name) (early flight.now.status flight.now.ctot) }
{
    match early(flight.status, flight.ctot) {
        Some(ctot) => Some(Notice::EarlierCtot(flight.name, ctot)),
        None => None,
    }
}

// A notice behind the others, if there is one.
fn push_if_any(notices: &mut Vec<Notice>, notice: Option<Notice>) -> Result<(), AllocError>
    ensures { OnOk result (notices.new.items ≡ notices.old.items ++ cons_option notice []) }
{
    match notice {
        Some(notice) => push_last(notices, notice),
        None => Ok(()),
    }
}

// The notices of an early TOBT and an early CTOT, behind the others.
#[tactic(auto, unfolding(crate::specs::Notices::earlier))]
fn push_earlier(notices: &mut Vec<Notice>, flight: &Flight) -> Result<(), AllocError>
    ensures { OnOk result (notices.new.items ≡ notices.old.items ++ earlier flight.now) }
{
    push_if_any(notices, early_tobt(flight))?;
    push_if_any(notices, early_ctot(flight))
}

// The flights that are left.
fn all_left(alloc: Global, flights: &[Flight]) -> Result<Vec<Notice>, AllocError>
    ensures { IfOk result (λ notices. notices.items ≡ filter_map left flights.now) }
{
    flights.iter().filter_map(left).collect(alloc)
}

/// The notices of flights, which are in this order.
pub(crate) fn flight_notices(alloc: Global, flights: &[Flight]) -> Result<Vec<Notice>, AllocError>
    ensures { IfOk result (λ notices. notices.items ≡ filter_map left flights.now ++ flat_map earlier flights.now) }
{
    let mut notices = all_left(alloc, flights)?;
    for flight in flights {
        push_earlier(&mut notices, flight)?;
    }
    Ok(notices)
}

/// Of the records that a day accepted, those that the next day has, with their numbers.
pub(crate) fn carried_numbered(
    alloc: Global,
    day: &Overlay<'_>,
    records: &[Numbered],
) -> Result<Vec<Numbered>, AllocError>
    requires { LeaveOnce day.now.journal }
    ensures value { IfOk result (λ carried. carried.items ≡ filter_map (carried_numbered day.now.journal) records.now) }
    ensures short { IfOk result (λ carried. All (λ n. window_end n.1.1 < 2880) carried.items) }
{
    let mut carried = Vec::new(alloc);
    for item in records {
        let (number, (role, update)) = *item;
        if goes_on(day, &update) {
            push_last(&mut carried, (number, (role, moved(&update))))?;
        }
    }
    Ok(carried)
}

// The notice of a record that a word refuses.
fn refused(item: Numbered, word: Option<RefusalWord>) -> Option<Notice>
    ensures { result ≡ option_map (refused item) word }
{
    let (number, (role, update)) = item;
    match word {
        Some(word) => Some(Notice::Refused(number, word, role, update)),
        None => None,
    }
}

/// The records that the next airport refuses, one after another, behind the other notices.
pub(crate) fn push_refused(
    notices: &mut Vec<Notice>,
    alloc: Global,
    next: &mut Overlay<'_>,
    records: &[Numbered],
) -> Result<(), AllocError>
    ensures { OnOk result (notices.new.items ≡ notices.old.items ++ refused_of next.old.airport next.old.journal records.now) }
{
    for item in records {
        let (_, (role, update)) = *item;
        let word = take_record(alloc, next, role, &update)?;
        push_if_any(notices, refused(*item, word))?;
    }
    Ok(())
}

// The flight stays behind, and isn't left.
fn is_gone(flight: &Flight) -> bool
    ensures { result ≡ is_gone flight.now.status }
{
    match flight.status {
        Status::Airborne { aobt, .. } => aobt.get() < NEXT_DAY,
        Status::Cancelled => true,
        Status::Planned | Status::OffBlock { .. } => false,
    }
}

// How many of the flights are gone.
fn count_gone(flights: &[Flight]) -> usize
    ensures { result ≡ length (filter (λ f. is_gone f.status) flights.now) }
{
    flights.iter().filter(|flight| is_gone(flight)).count()
}

// How many of the flights stay.
fn count_staying(flights: &[Flight]) -> usize
    ensures { result ≡ length (filter (λ f. stays_by f.status) flights.now) }
{
    flights
        .iter()
        .filter(|flight| stays_by(flight.status))
        .count()
}

/// How many of the flights are gone and how many stay, behind the other notices.
pub(crate) fn push_counts(notices: &mut Vec<Notice>, flights: &[Flight]) -> Result<(), AllocError>
    ensures { OnOk result (notices.new.items ≡ notices.old.items ++ counts flights.now) }
{
    push_last(notices, Notice::Gone(count_gone(flights)))?;
    push_last(notices, Notice::Stay(count_staying(flights)))
}
