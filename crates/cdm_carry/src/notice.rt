//! What a person must know before the next day begins.
ghost use Rattle.std.specs.Prelude.{◌≡◌};
ghost use Rattle.cdm_carry.specs.Notices.{needs_care};

use cdm_flight::{FlightName, RefusalWord, Role, RunwayName, Update};
use cdm_time::Minute;

/// What a person must know before the next day begins (local profile). Minutes are those of the day that ends.
#[derive(Clone, Copy, PartialEq, Eq, Debug)]
pub enum Notice {
    /// A flight has left its stand before the next day, which doesn't know it, and isn't airborne: flight, runway, AOBT and TTOT.
    Left(FlightName, RunwayName, Minute, Minute),
    /// The TOBT of a planned flight was before the next day, whose first minute takes its place.
    EarlierTobt(FlightName, Minute),
    /// The same of its CTOT.
    EarlierCtot(FlightName, Minute),
    /// The next airport refuses a record: its number in the feed, the word, and the record as the next day has it.
    Refused(usize, RefusalWord, Role, Update),
    /// So many flights stay behind, and aren't left.
    Gone(usize),
    /// So many flights stay.
    Stay(usize),
}

impl Notice {
    /// Whether a person has to see to it.
    pub fn needs_care(&self) -> bool
        ensures { result ≡ needs_care self.now }
    {
        match self {
            Notice::Left(..)
            | Notice::EarlierTobt(..)
            | Notice::EarlierCtot(..)
            | Notice::Refused(..) => true,
            Notice::Gone(_) | Notice::Stay(_) => false,
        }
    }
}
