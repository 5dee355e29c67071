//! A minute of the horizon.
ghost use Rattle.std.specs.Prelude.{◌≡◌, ℕ, ◌<◌, nat_lt, Some, None, if◌then◌else◌};

use crate::bound::HORIZON_MINUTES;
use std::marker::Model;

/// A minute of the horizon: whole minutes after 00:00 UTC of the airport's day, 0 to 2879.
#[derive(Clone, Copy, PartialEq, Eq, PartialOrd, Ord, Debug)]
pub struct Minute {
    pub(crate) number: u16,
}

impl Model for Minute {
    ghost Value = { ℕ };

    ghost view = { λ m. m.number };

    ghost inverse = { λ n. record { number = n } };

    ghost invariant = { λ m. m.number < 2880 };
}

impl Minute {
    /// The horizon's first minute, 00:00 UTC of the airport's day.
    pub const FIRST: Minute = Minute { number: 0 };

    /// The horizon's last minute, 23:59 UTC of the next day.
    pub const LAST: Minute = Minute {
        number: HORIZON_MINUTES - 1,
    };

    /// The minute of a number, or `None` where the horizon has no such minute.
    pub fn new(number: u16) -> Option<Minute>
        ensures { result ≡ (if nat_lt number 2880 then Some number else None) }
    {
        if number <= Minute::LAST.number {
            Some(Minute { number })
        } else {
            None
        }
    }

    /// The minute of a number that is below 2,880.
    pub fn at(number: u16) -> Minute
        requires { number < 2880 }
        ensures { result ≡ number }
    {
        Minute { number }
    }

    /// The minute's number.
    pub fn get(self) -> u16
        ensures value { result ≡ self }
        ensures in_horizon { result < 2880 }
    {
        self.number
    }
}
