//! The minutes that are taken on a runway.
ghost use Rattle.std.specs.Prelude.{◌≡◌, ℕ, ◌+◌, ◌-◌, ◌<◌, ◌≤◌, ◌/◌, ◌++◌, [], ◌∷◌, length, max, min, slice_index, Err, MatchOption};
ghost use Rattle.cdm_runway.specs.inner.Tally.{EndsBy, IsReach};

use crate::passed::{Passed, Stretch};
use crate::{PassedOver, Runway};
use cdm_flight::{CellLength, Group, Occupancy};
use cdm_history::History;
use cdm_time::{HORIZON_MINUTES, Minute, Window};
use std::marker::Model;

/// How many flights a day has at most (local profile).
pub const MOST_FLIGHTS: usize = 2000;

// A runway has at most this many cells: one for each minute of the horizon.
const MOST_CELLS: usize = HORIZON_MINUTES as usize;

/// Why a window has no minute for a flight.
#[derive(Clone, Copy, PartialEq, Eq, Debug)]
pub enum Blocked {
    /// The runway is closed at each of its minutes.
    Closure,
    /// At some of its open minutes the flight meets no other one, and each of those is in a full cell.
    Rate,
    /// The runway is open at some of its minutes, and at each of those the flight meets another one.
    Spacing,
}

/// A minute that a flight takes, and for how many minutes from it on it occupies the runway.
#[derive(Clone, Copy)]
pub struct Taken {
    pub minute: Minute,
    pub occupancy: Occupancy,
}

/// The minutes that flights have taken on one runway, at most 2,000, with their occupancies. It counts them by cell and keeps the
/// longest occupancy from each minute on; the list itself stands in contracts alone.
#[derive(Drop)]
pub struct RunwayLoad {
    cell: CellLength,
    taken: History<Taken>,
    counts: [u16; MOST_CELLS],
    longest: [Occupancy; HORIZON_MINUTES as usize],
}

impl Model for RunwayLoad {
    ghost use Rattle.cdm_runway.specs.Load.{Load};
    ghost use Rattle.cdm_runway.specs.inner.Tally.{AreCounted, noted};

    ghost Value = { Load };

    ghost view = { λ l. record { cell = l.cell; taken = noted l.taken.notes } };

    ghost invariant = { λ l. AreCounted l.cell (noted l.taken.notes) l.counts l.longest };
}

// The first minute after the minute's cell.
fn next_cell(minute: Minute, cell: CellLength) -> u16
    ensures after { minute < result }
    ensures same { (k : ℕ) → minute ≤ k → k < result → k / cell ≡ minute / cell }
{
    let minute = minute.get();
    let cell = cell.get();
    minute + cell - minute % cell
}

// The end of an occupancy that begins up to four minutes before the minute, or less than so many
// minutes after it, and reaches beyond it.
fn reach_beyond(longest: &[Occupancy], minute: Minute, minutes: Occupancy) -> Option<u16>
    requires { length longest.now ≡ 2880 }
    ensures { let end = min 2880 (minute + minutes) in MatchOption result (EndsBy longest.now minute (minute - 4) end) (IsReach longest.now minute end) }
{
    let minute = minute.get();
    let first = minute.saturating_sub(4);
    let last = HORIZON_MINUTES.min(minute + minutes.get());
    for start in first..last {
        let end = start + longest[start as usize].get();
        if start < end && minute < end {
            return Some(end);
        }
    }
    None
}

// The longer of the two.
fn longer(one: Occupancy, other: Occupancy) -> Occupancy
    ensures { result ≡ max one other }
{
    one.max(other)
}

// No occupancy from any minute on.
fn no_occupancies() -> [Occupancy; HORIZON_MINUTES as usize]
    ensures minutes { length result ≡ 2880 }
    ensures none { (k : ℕ) → k < 2880 → slice_index result k ≡ 0 }
{
    [Occupancy::NONE; HORIZON_MINUTES as usize]
}

// No flight in any cell.
fn no_counts() -> [u16; MOST_CELLS]
    ensures { (k : ℕ) → k < 2880 → slice_index result k ≡ 0 }
{
    [0; MOST_CELLS]
}

impl RunwayLoad {
    ghost use Rattle.cdm_runway.specs.Room.{held_in_cell, taken_by, Gives, IsSpaced};
    ghost use Rattle.cdm_runway.specs.Passed.{ArePassed, IsPassed, NoneFree, NoneSpaced};
    ghost use Rattle.cdm_runway.specs.inner.Search.{IsFirstFree, IsFirstSpaced};

    /// A load of the runway's cells with no minute taken.
    pub fn empty(runway: &Runway) -> RunwayLoad
        ensures { result ≡ record { cell = runway.now.cell; taken = [] } }
    {
        RunwayLoad {
            cell: runway.cell(),
            taken: History::new(),
            counts: no_counts(),
            longest: no_occupancies(),
        }
    }

    /// A flight of the group takes one more minute of the runway.
    pub fn take(&mut self, runway: &Runway, minute: Minute, group: Group)
        requires cell { self.old.cell ≡ runway.now.cell }
        requires room { length self.old.taken < 2000 }
        ensures { self.new ≡ record self.old { taken = self.old.taken ++ taken_by runway.now group minute ∷ [] } }
    {
        let occupancy = runway.occupancy(group);
        let cell = (minute.get() / runway.cell().get()) as usize;
        let place = minute.get() as usize;
        self.taken.note(&Taken { minute, occupancy }, &[]);
        self.counts[cell] += 1;
        self.longest[place] = longer(self.longest[place], occupancy);
    }

    // How many minutes of the minute's cell are taken.
    fn held(&self, minute: Minute) -> u16
        ensures { result ≡ held_in_cell self.now.cell self.now.taken minute }
    {
        self.counts[(minute.get() / self.cell.get()) as usize]
    }

    // The end of an occupancy that a flight of the group would meet at the minute, if it met one.
    fn met_until(&self, runway: &Runway, minute: Minute, group: Group) -> Option<u16>
        ensures { MatchOption result (IsSpaced runway.now self.now.taken group minute)
            (λ end. (minute < end) × ((k : ℕ) → minute ≤ k → k < end → IsSpaced runway.now self.now.taken group k → ⊥)) }
    {
        let occupancy = runway.occupancy(group);
        if occupancy == Occupancy::NONE {
            return None;
        }
        reach_beyond(&self.longest, minute, occupancy)
    }

    // The first minute from one up to another at which the runway is open and a flight of the group
    // meets no other one.
    fn first_spaced(
        &self,
        runway: &Runway,
        group: Group,
        from: u16,
        end: u16,
        met: Stretch,
    ) -> Option<Minute>
        requires within { end ≤ 2880 }
        requires met { NoneSpaced runway.now self.now.taken group met.from met.to }
        ensures { MatchOption result (NoneSpaced runway.now self.now.taken group from end)
            (IsFirstSpaced runway.now self.now.taken group from end) }
    {
        let mut number = met.past(from);
        while let Some(minute) = runway.first_open(number, end) {
            let Some(free) = self.met_until(runway, minute, group) else {
                return Some(minute);
            };
            number = met.past(free);
        }
        None
    }

    // The first of them whose cell has taken fewer flights than it may.
    fn first_free(
        &self,
        runway: &Runway,
        group: Group,
        from: u16,
        end: u16,
        passed: Passed,
    ) -> Option<Minute>
        requires cell { self.now.cell ≡ runway.now.cell }
        requires within { end ≤ 2880 }
        requires passed { IsPassed runway.now self.now.taken group passed }
        ensures { MatchOption result (NoneFree runway.now self.now.taken group from end)
            (IsFirstFree runway.now self.now.taken group from end) }
    {
        let mut number = passed.unfree.past(from);
        while let Some(minute) = self.first_spaced(runway, group, number, end, passed.met) {
            if self.held(minute) < runway.cap_at(minute).get() {
                return Some(minute);
            }
            number = passed.unfree.past(next_cell(minute, self.cell));
        }
        None
    }

    // Why a window has no minute for a flight of the group.
    fn reason(&self, runway: &Runway, window: Window, group: Group, met: &mut Stretch) -> Blocked
        requires none { NoneFree runway.now self.now.taken group window.start window.end }
        requires met { NoneSpaced runway.now self.now.taken group met.old.from met.old.to }
        ensures reason { Gives runway.now self.now.taken group window.start window.end (Err result) }
        ensures met { NoneSpaced runway.now self.now.taken group met.new.from met.new.to }
    {
        let (from, end) = (window.from().get(), window.to().get());
        let Some(minute) = self.first_spaced(runway, group, from, end, *met) else {
            *met = met.joined(from, end);
            return match runway.first_open(from, end) {
                Some(_) => Blocked::Spacing,
                None => Blocked::Closure,
            };
        };
        *met = met.joined(from, minute.get());
        Blocked::Rate
    }

    // The earliest minute of the window for a flight of the group, with what was passed over for it.
    fn earliest_of_group(
        &self,
        runway: &Runway,
        window: Window,
        group: Group,
        passed: &mut Passed,
    ) -> Result<Minute, Blocked>
        requires cell { self.now.cell ≡ runway.now.cell }
        requires passed { IsPassed runway.now self.now.taken group passed.old }
        ensures gives { Gives runway.now self.now.taken group window.start window.end result }
        ensures passed { IsPassed runway.now self.now.taken group passed.new }
    {
        let (from, end) = (window.from().get(), window.to().get());
        let Some(minute) = self.first_free(runway, group, from, end, *passed) else {
            passed.unfree = passed.unfree.joined(from, end);
            return Err(self.reason(runway, window, group, &mut passed.met));
        };
        passed.unfree = passed.unfree.joined(from, minute.get());
        Ok(minute)
    }

    /// The earliest minute of the window at which the runway is open, a flight of the group meets no
    /// other one, and the cell has taken fewer flights than it may; else the first of the three
    /// reasons for which there is none.
    pub fn earliest(&self, runway: &Runway, window: Window, group: Group) -> Result<Minute, Blocked>
        requires { self.now.cell ≡ runway.now.cell }
        ensures { Gives runway.now self.now.taken group window.start window.end result }
    {
        self.earliest_past(runway, window, group, &mut PassedOver::none())
    }

    /// The same where searches have passed over some minutes. It visits none of these, and adds those
    /// that it passes over itself. All of them stay so, whatever minutes are taken.
    pub fn earliest_past(
        &self,
        runway: &Runway,
        window: Window,
        group: Group,
        passed: &mut PassedOver,
    ) -> Result<Minute, Blocked>
        requires cell { self.now.cell ≡ runway.now.cell }
        requires passed { ArePassed runway.now self.now.taken passed.old }
        ensures gives { Gives runway.now self.now.taken group window.start window.end result }
        ensures passed { ArePassed runway.now self.now.taken passed.new }
    {
        let mut of_group = passed.of(group);
        let outcome = self.earliest_of_group(runway, window, group, &mut of_group);
        passed.set(group, of_group);
        outcome
    }
}
