//! Rates and closures of a runway.
ghost use Rattle.std.specs.Prelude.{◌≡◌, ℕ, ◌<◌, ◌≤◌, ◌↔◌, true, false, Err, IfOk, OnOk, OnErr, MatchOption, if◌then◌else◌};
ghost use Rattle.cdm_time.specs.Windows.{window_has};
ghost use Rattle.cdm_flight.specs.Spacing.{occupancy_of, with_occupancy};

use crate::intervals::Intervals;
use cdm_flight::{Cap, CellLength, Group, Occupancy, RunwayName, Spacing};
use cdm_time::{Bound, Minute};
use std::alloc::{AllocError, Global};
use std::marker::Model;

/// Why a rate or a closure was not taken.
#[derive(Clone, Copy, PartialEq, Eq, Debug)]
pub enum RunwayFault {
    /// The window has no minute, or cuts a cell.
    Order,
    /// There was no memory for the change.
    Memory,
}

impl From<AllocError> for RunwayFault {
    ghost use Rattle.cdm_runway.specs.declared.runway.RunwayFault.{RunwayFault};

    ghost from_gives = { λ _ fault. fault ≡ RunwayFault.Memory };

    fn from(_: AllocError) -> RunwayFault {
        RunwayFault::Memory
    }
}

/// A runway: its name, the length of its cells, how many flights each cell takes, the minutes at
/// which it is closed, and for how long a departure of each group occupies it.
#[derive(Debug)]
pub struct Runway {
    name: RunwayName,
    cell: CellLength,
    caps: Intervals<Cap>,
    closed: Intervals<bool>,
    spacing: Spacing,
}

// One call drops it, in place of its fields one by one at each exit of each function that owns it.
impl Drop for Runway {
    fn drop(self) {
        let Runway {
            name: _,
            cell: _,
            caps: _,
            closed: _,
            spacing: _,
        } = self;
    }
}

impl Model for Runway {
    ghost use Rattle.cdm_runway.specs.Rules.{RunwayRules, AreRules};

    ghost Value = { RunwayRules };

    ghost view = { λ r. record {
      name = r.name;
      cell = r.cell;
      caps = r.caps;
      closed = r.closed;
      spacing = r.spacing;
    } };

    ghost invariant = { λ r. AreRules r.cell r.caps r.closed };
}

impl Runway {
    ghost use Rattle.cdm_runway.specs.Rules.{plain_rules, is_rate_window, with_rate, with_closed};
    ghost use Rattle.cdm_runway.specs.Room.{cap_at, is_closed, AllClosed};
    ghost use Rattle.cdm_runway.specs.inner.Search.{IsFirstOpen};

    /// A runway with one capacity everywhere, no closure, and no minute of occupancy for any group.
    pub fn new(
        alloc: Global,
        name: RunwayName,
        cell: CellLength,
        cap: Cap,
    ) -> Result<Runway, AllocError>
        ensures { IfOk result (λ r. r ≡ plain_rules name cell cap) }
    {
        let minutes = Bound::END.get();
        Ok(Runway {
            name,
            cell,
            caps: Intervals::new(alloc, minutes / cell.get(), cap),
            closed: Intervals::new(alloc, minutes, false),
            spacing: Spacing::none(),
        })
    }

    /// The runway's name.
    pub fn name(&self) -> RunwayName
        ensures { result ≡ self.now.name }
    {
        self.name
    }

    /// The length of the runway's cells.
    pub fn cell(&self) -> CellLength
        ensures { result ≡ self.now.cell }
    {
        self.cell
    }

    /// For how many minutes from its take-off on a departure of the group occupies the runway.
    pub fn occupancy(&self, group: Group) -> Occupancy
        ensures value { result ≡ occupancy_of self.now.spacing group }
        ensures range { result ≤ 5 }
    {
        self.spacing.occupancy(group)
    }

    /// Sets for how long departures of the group occupy the runway.
    pub fn space(&mut self, group: Group, occupancy: Occupancy)
        ensures { self.new ≡ record self.old { spacing = with_occupancy self.old.spacing group occupancy } }
    {
        self.spacing = self.spacing.with(group, occupancy);
    }

    /// How many flights the minute's cell takes.
    #[tactic(auto, using(crate::proofs::CellLemmas::cell_below))]
    pub fn cap_at(&self, minute: Minute) -> Cap
        ensures { result ≡ cap_at self.now minute }
    {
        self.caps.at(minute.get() / self.cell.get()).value
    }

    /// Whether the runway is closed at the minute.
    pub fn closed(&self, minute: Minute) -> bool
        ensures { result ≡ is_closed self.now minute }
    {
        self.closed.at(minute.get()).value
    }

    // The end of the closure that the minute is in, if the runway is closed at it.
    pub(crate) fn closed_until(&self, minute: Minute) -> Option<u16>
        ensures { MatchOption result (is_closed self.now minute ≡ false) (λ end. (minute < end) × AllClosed self.now minute end) }
    {
        let closure = self.closed.at(minute.get());
        if closure.value {
            Some(closure.to)
        } else {
            None
        }
    }

    // The first minute from one up to another at which the runway is open.
    pub(crate) fn first_open(&self, from: u16, end: u16) -> Option<Minute>
        requires { end ≤ 2880 }
        ensures { MatchOption result (AllClosed self.now from end) (IsFirstOpen self.now from end) }
    {
        let mut number = from;
        while number < end {
            let minute = Minute::at(number);
            let Some(opening) = self.closed_until(minute) else {
                return Some(minute);
            };
            number = opening;
        }
        None
    }

    /// Whether the window has a minute and cuts no cell, so that a rate may be set for it.
    pub fn ordered_rate(&self, from: Minute, to: Bound) -> bool
        ensures { result ≡ is_rate_window self.now.cell from to }
    {
        let cell = self.cell.get();
        from.get() < to.get() && from.get() % cell == 0 && to.get() % cell == 0
    }

    /// Sets how many flights each cell of the window takes, from a minute up to a bound.
    ///
    /// `Order` where the window has no minute or cuts a cell. After an error nothing has changed.
    pub fn rate(&mut self, from: Minute, to: Bound, cap: Cap) -> Result<(), RunwayFault>
        ensures order { (result ≡ Err RunwayFault.Order) ↔ (is_rate_window self.old.cell from to ≡ false) }
        ensures ok { OnOk result (self.new ≡ with_rate self.old from to cap) }
        ensures err { OnErr result (self.new ≡ self.old) }
        ensures minutes { OnOk result ((m : ℕ) →
            cap_at self.new m ≡ (if window_has from to m then cap else cap_at self.old m)) }
    {
        if !self.ordered_rate(from, to) {
            return Err(RunwayFault::Order);
        }
        let cell = self.cell.get();
        self.caps.set(from.get() / cell, to.get() / cell, cap)?;
        Ok(())
    }

    // Closes or opens the window.
    fn set_closed(&mut self, from: Minute, to: Bound, closed: bool) -> Result<(), RunwayFault>
        ensures order { (result ≡ Err RunwayFault.Order) ↔ (to ≤ from) }
        ensures ok { OnOk result (self.new ≡ with_closed self.old from to closed) }
        ensures err { OnErr result (self.new ≡ self.old) }
        ensures minutes { OnOk result ((m : ℕ) →
            is_closed self.new m ≡ (if window_has from to m then closed else is_closed self.old m)) }
    {
        if from.get() >= to.get() {
            return Err(RunwayFault::Order);
        }
        self.closed.set(from.get(), to.get(), closed)?;
        Ok(())
    }

    /// Closes the runway at the minutes of the window, from a minute up to a bound.
    ///
    /// `Order` where the window has no minute. After an error nothing has changed.
    pub fn close(&mut self, from: Minute, to: Bound) -> Result<(), RunwayFault>
        ensures order { (result ≡ Err RunwayFault.Order) ↔ (to ≤ from) }
        ensures ok { OnOk result (self.new ≡ with_closed self.old from to true) }
        ensures err { OnErr result (self.new ≡ self.old) }
        ensures minutes { OnOk result ((m : ℕ) →
            is_closed self.new m ≡ (if window_has from to m then true else is_closed self.old m)) }
    {
        self.set_closed(from, to, true)
    }

    /// Opens the runway again at the minutes of the window, from a minute up to a bound.
    ///
    /// `Order` where the window has no minute. After an error nothing has changed.
    pub fn reopen(&mut self, from: Minute, to: Bound) -> Result<(), RunwayFault>
        ensures order { (result ≡ Err RunwayFault.Order) ↔ (to ≤ from) }
        ensures ok { OnOk result (self.new ≡ with_closed self.old from to false) }
        ensures err { OnErr result (self.new ≡ self.old) }
        ensures minutes { OnOk result ((m : ℕ) →
            is_closed self.new m ≡ (if window_has from to m then false else is_closed self.old m)) }
    {
        self.set_closed(from, to, false)
    }

    /// A copy of the runway.
    pub fn copy(&self, alloc: Global) -> Result<Runway, AllocError>
        ensures { IfOk result (λ r. r ≡ self.now) }
    {
        let caps = self.caps.copy(alloc)?;
        let closed = self.closed.copy(alloc)?;
        Ok(Runway {
            name: self.name,
            cell: self.cell,
            caps,
            closed,
            spacing: self.spacing,
        })
    }
}
