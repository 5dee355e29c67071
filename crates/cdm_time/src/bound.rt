//! The end of a window.
ghost use Rattle.std.specs.Prelude.{◌≡◌, ℕ, ◌≤◌, nat_le, Some, None, if◌then◌else◌};

use crate::minute::Minute;
use std::marker::Model;

/// How many minutes the horizon has: two UTC days (local profile).
pub const HORIZON_MINUTES: u16 = 2880;

/// The minute at which a window ends, itself not in the window: 0 to 2880, the horizon's end.
#[derive(Clone, Copy, PartialEq, Eq, PartialOrd, Ord, Debug)]
pub struct Bound {
    pub(crate) number: u16,
}

impl Model for Bound {
    ghost Value = { ℕ };

    ghost view = { λ b. b.number };

    ghost inverse = { λ n. record { number = n } };

    ghost invariant = { λ b. b.number ≤ 2880 };
}

impl Bound {
    /// The horizon's end, 24:00 UTC of the day after the airport's day.
    pub const END: Bound = Bound {
        number: HORIZON_MINUTES,
    };

    /// The bound of a number, or `None` where it lies past the horizon's end.
    pub fn new(number: u16) -> Option<Bound>
        ensures { result ≡ (if nat_le number 2880 then Some number else None) }
    {
        if number <= HORIZON_MINUTES {
            Some(Bound { number })
        } else {
            None
        }
    }

    /// The bound's number.
    pub fn get(self) -> u16
        ensures value { result ≡ self }
        ensures in_horizon { result ≤ 2880 }
    {
        self.number
    }
}

impl From<Minute> for Bound {
    ghost from_gives = { λ minute bound. bound ≡ minute };

    fn from(minute: Minute) -> Bound {
        Bound {
            number: minute.get(),
        }
    }
}
