//! Why an update is refused.
ghost use Rattle.std.specs.Prelude.{◌≡◌, Some};
ghost use Rattle.cdm_flight.specs.Words.{number_of, text_of};

use std::fmt;

/// Why a record of the feed is refused, in the order in which the reasons are tested
/// (local profile).
#[derive(Clone, Copy, Debug, PartialEq, Eq)]
pub enum RefusalWord {
    /// A wrong number of fields.
    Fields,
    /// The first field is no role.
    Role,
    /// The second field is no kind of update.
    Kind,
    /// A field hasn't its form.
    Text,
    /// A field is out of its range.
    Range,
    /// The role may not make this kind of update.
    Authority,
    /// The flight isn't known, or the airport has no such runway.
    Unknown,
    /// The flight is known already.
    Exists,
    /// The flight is airborne or cancelled.
    Ended,
    /// The flight is off-block.
    OffBlock,
    /// The times are out of order, or off the runway's cells.
    Order,
    /// The flight can't leave its stand: it has no runway or no taxi time, or would take off past
    /// the horizon.
    NotReady,
    /// The journal, the flights or the taxi rows are at their limit.
    Full,
}

impl RefusalWord {
    /// The word's number, 1 to 13.
    pub fn number(self) -> u8
        ensures { result ≡ number_of self }
    {
        self as u8 + 1
    }

    /// The word as the report prints it.
    pub fn text(self) -> &'static str
        ensures { result.now ≡ text_of self }
    {
        match self {
            RefusalWord::Fields => "FIELDS",
            RefusalWord::Role => "ROLE",
            RefusalWord::Kind => "KIND",
            RefusalWord::Text => "TEXT",
            RefusalWord::Range => "RANGE",
            RefusalWord::Authority => "AUTHORITY",
            RefusalWord::Unknown => "UNKNOWN",
            RefusalWord::Exists => "EXISTS",
            RefusalWord::Ended => "ENDED",
            RefusalWord::OffBlock => "OFFBLOCK",
            RefusalWord::Order => "ORDER",
            RefusalWord::NotReady => "NOTREADY",
            RefusalWord::Full => "FULL",
        }
    }
}

impl fmt::Display for RefusalWord {
    ghost output = { λ word. Some (text_of word) };

    fn fmt<W: fmt::Write>(&self, f: &mut fmt::Formatter<W>) -> fmt::Result {
        f.write_str(self.text())
    }
}
