//! Small numbers with their ranges.
ghost use Rattle.std.specs.Prelude.{◌≡◌, ℕ, ◌<◌, ◌≤◌, ◌&&◌, nat_le, Some, None, if◌then◌else◌};

use std::marker::Model;

/// The priority of a flight, 0 to 9: the smaller number comes first in the sequence (local profile).
#[derive(Clone, Copy, Debug, PartialEq, Eq, PartialOrd, Ord)]
pub struct Priority {
    number: u16,
}

impl Model for Priority {
    ghost Value = { ℕ };

    ghost view = { λ n. n.number };

    ghost invariant = { λ n. n.number ≤ 9 };

    ghost inverse = { λ n. record { number = n } };
}

impl Priority {
    /// The priority of this number, or None above 9.
    pub fn new(number: u16) -> Option<Priority>
        ensures { result ≡ (if nat_le number 9 then Some number else None) }
    {
        if number <= 9 {
            Some(Priority { number })
        } else {
            None
        }
    }

    /// The number.
    pub fn get(self) -> u16
        ensures value { result ≡ self }
        ensures range { result ≤ 9 }
    {
        self.number
    }
}

/// How many flights a cell of a runway takes, 0 to 60 (local profile).
#[derive(Clone, Copy, Debug, PartialEq, Eq, PartialOrd, Ord)]
pub struct Cap {
    number: u16,
}

impl Model for Cap {
    ghost Value = { ℕ };

    ghost view = { λ n. n.number };

    ghost invariant = { λ n. n.number ≤ 60 };

    ghost inverse = { λ n. record { number = n } };
}

impl Cap {
    /// The capacity of this number, or None above 60.
    pub fn new(number: u16) -> Option<Cap>
        ensures { result ≡ (if nat_le number 60 then Some number else None) }
    {
        if number <= 60 {
            Some(Cap { number })
        } else {
            None
        }
    }

    /// The number.
    pub fn get(self) -> u16
        ensures value { result ≡ self }
        ensures range { result ≤ 60 }
    {
        self.number
    }
}

/// A taxi-out time from a stand to a runway, 1 to 120 minutes
/// (the manual's variable taxi time).
#[derive(Clone, Copy, Debug, PartialEq, Eq, PartialOrd, Ord)]
pub struct TaxiMinutes {
    number: u16,
}

impl Model for TaxiMinutes {
    ghost Value = { ℕ };

    ghost view = { λ n. n.number };

    ghost invariant = { λ n. (1 ≤ n.number) × (n.number ≤ 120) };

    ghost inverse = { λ n. record { number = n } };
}

impl TaxiMinutes {
    /// The taxi time of so many minutes, or None outside 1 to 120.
    pub fn new(number: u16) -> Option<TaxiMinutes>
        ensures { result ≡ (if nat_le 1 number && nat_le number 120 then Some number else None) }
    {
        if (1..=120).contains(&number) {
            Some(TaxiMinutes { number })
        } else {
            None
        }
    }

    /// The number.
    pub fn get(self) -> u16
        ensures value { result ≡ self }
        ensures range { (1 ≤ result) × (result ≤ 120) }
    {
        self.number
    }
}

/// How long de-icing takes, 1 to 60 minutes (the manual's estimated de-icing time).
#[derive(Clone, Copy, Debug, PartialEq, Eq, PartialOrd, Ord)]
pub struct IceMinutes {
    number: u16,
}

impl Model for IceMinutes {
    ghost Value = { ℕ };

    ghost view = { λ n. n.number };

    ghost invariant = { λ n. (1 ≤ n.number) × (n.number ≤ 60) };

    ghost inverse = { λ n. record { number = n } };
}

impl IceMinutes {
    /// The de-icing time of so many minutes, or None outside 1 to 60.
    pub fn new(number: u16) -> Option<IceMinutes>
        ensures { result ≡ (if nat_le 1 number && nat_le number 60 then Some number else None) }
    {
        if (1..=60).contains(&number) {
            Some(IceMinutes { number })
        } else {
            None
        }
    }

    /// The number.
    pub fn get(self) -> u16
        ensures value { result ≡ self }
        ensures range { (1 ≤ result) × (result ≤ 60) }
    {
        self.number
    }
}

/// For how many minutes from its take-off on a departure occupies its runway, 0 to 5
/// (local profile).
#[derive(Clone, Copy, Debug, PartialEq, Eq, PartialOrd, Ord)]
pub struct Occupancy {
    number: u16,
}

impl Model for Occupancy {
    ghost Value = { ℕ };

    ghost view = { λ n. n.number };

    ghost invariant = { λ n. n.number ≤ 5 };

    ghost inverse = { λ n. record { number = n } };
}

impl Occupancy {
    /// No minute.
    pub const NONE: Occupancy = Occupancy { number: 0 };

    /// The occupancy of so many minutes, or None above 5.
    pub fn new(number: u16) -> Option<Occupancy>
        ensures { result ≡ (if nat_le number 5 then Some number else None) }
    {
        if number <= 5 {
            Some(Occupancy { number })
        } else {
            None
        }
    }

    /// The number.
    pub fn get(self) -> u16
        ensures value { result ≡ self }
        ensures range { result ≤ 5 }
    {
        self.number
    }
}

/// The length of a runway's cells, a divisor of the hour: 1, 2, 3, 4, 5, 6, 10, 12, 15, 20, 30
/// or 60 minutes (local profile).
#[derive(Clone, Copy, Debug, PartialEq, Eq, PartialOrd, Ord)]
pub struct CellLength {
    number: u16,
}

impl Model for CellLength {
    ghost use Rattle.std.specs.Prelude.{ℕ, IsTrue};
    ghost use Rattle.cdm_flight.specs.Cells.{is_cell_length};

    ghost Value = { ℕ };

    ghost view = { λ n. n.number };

    ghost invariant = { λ n. IsTrue (is_cell_length n.number) };

    ghost inverse = { λ n. record { number = n } };
}

impl CellLength {
    ghost use Rattle.std.specs.Prelude.{IsTrue};
    ghost use Rattle.cdm_flight.specs.Cells.{is_cell_length};

    /// The cell length of so many minutes, or None where cells of that length don't fill an hour.
    pub fn new(number: u16) -> Option<CellLength>
        ensures { result ≡ (if is_cell_length number then Some number else None) }
    {
        if (1..=60).contains(&number) && 60 % number == 0 {
            Some(CellLength { number })
        } else {
            None
        }
    }

    /// The number of minutes.
    pub fn get(self) -> u16
        ensures value { result ≡ self }
        ensures length { IsTrue (is_cell_length result) }
        ensures range { (1 ≤ result) × (result ≤ 60) }
    {
        self.number
    }
}
