//! What is asked of a day.
ghost use Rattle.std.specs.Prelude.{◌≡◌, ◌≤◌, ◌&&◌, nat_le, Some, None, if◌then◌else◌};

use cdm_flight::RunwayName;
use cdm_kinds::Format;
use cdm_time::HORIZON_MINUTES;
use cdm_view::Question;
use std::marker::Model;

/// How many minutes ahead start-ups are told: 1 to 2880.
#[derive(Clone, Copy, PartialEq, Eq, Debug)]
pub struct Ahead {
    minutes: u16,
}

impl Model for Ahead {
    ghost use Rattle.std.specs.Prelude.{ℕ, ◌≤◌};

    ghost Value = { ℕ };

    ghost view = { λ ahead. ahead.minutes };

    ghost invariant = { λ ahead. ahead.minutes ≤ 2880 };

    ghost inverse = { λ minutes. record { minutes = minutes } };
}

impl Ahead {
    /// So many minutes ahead, or None where they aren't 1 to 2880.
    pub fn new(minutes: u16) -> Option<Ahead>
        ensures { result ≡ (if nat_le 1 minutes && nat_le minutes 2880 then Some minutes else None) }
    {
        if 1 <= minutes && minutes <= HORIZON_MINUTES {
            Some(Ahead { minutes })
        } else {
            None
        }
    }

    /// The usual 60 minutes.
    pub fn usual() -> Ahead
        ensures { result ≡ 60 }
    {
        Ahead { minutes: 60 }
    }

    /// The number of minutes.
    pub fn get(self) -> u16
        ensures value { result ≡ self }
        ensures short { result ≤ 2880 }
    {
        self.minutes
    }
}

/// How flights are told together.
#[derive(Clone, Copy, PartialEq, Eq, Debug)]
pub enum GroupBy {
    /// All in one.
    All,
    /// By their runway.
    Runway,
    /// By their operator: the first three letters of a name, where a digit follows (the ICAO designator).
    Operator,
}

/// What a shift asks of all flights (local profile).
#[derive(Clone, Copy, PartialEq, Eq, Debug)]
pub enum ShiftQuestion {
    /// Which flights start up in the next minutes.
    Next(Ahead),
    /// What is wrong, or about to be.
    Warnings,
    /// Where the minutes of delay come from.
    Causes(GroupBy),
}

/// What is told in rows of CSV.
#[derive(Clone, Copy, PartialEq, Eq, Debug)]
pub enum SheetQuestion {
    /// How full the runways are: this one, or all.
    Load(Option<RunwayName>),
    /// What a shift asks of all flights.
    Shift(ShiftQuestion),
}

/// What is asked of a day and its plan.
#[derive(Clone, Copy, PartialEq, Eq, Debug)]
pub enum DayQuestion {
    /// What holds a flight, or how full the runways are.
    View(Question),
    /// What a shift asks of all flights.
    Shift(ShiftQuestion),
    /// The same in rows of CSV, whatever the format.
    Sheet(SheetQuestion),
}

/// A question of a day, and how its answer is written.
#[derive(Clone, Copy, PartialEq, Eq, Debug)]
pub struct Asking {
    pub question: DayQuestion,
    pub format: Format,
}
