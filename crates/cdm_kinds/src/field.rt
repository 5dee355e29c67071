//! Fields of records.
ghost use Rattle.std.specs.Prelude.{◌≡◌};
ghost use Rattle.cdm_kinds.specs.Words.{field_form, field_name, field_range};

/// A field of a record that makes an update.
#[derive(Clone, Copy, Debug, PartialEq, Eq)]
pub enum Field {
    /// A flight.
    Flight,
    /// A priority number.
    Priority,
    /// A time.
    Time,
    /// A CTOT.
    Ctot,
    /// A stand.
    Stand,
    /// A runway.
    Runway,
    /// Where a flight is de-iced.
    IceKind,
    /// The minutes of a de-icing.
    IceMinutes,
    /// A group of flights.
    Group,
    /// The first minute of a window.
    From,
    /// The minute that ends a window.
    To,
    /// The capacity of a cell.
    Cap,
    /// A stand, or all that have no row.
    Place,
    /// Taxi minutes.
    TaxiMinutes,
    /// The minutes of a tolerance before a CTOT.
    Before,
    /// The minutes of a tolerance after a CTOT.
    After,
}

impl Field {
    /// Its name.
    pub fn name(self) -> &'static str
        ensures { result.now ≡ field_name self }
    {
        match self {
            Field::Flight => "flight",
            Field::Priority => "priority",
            Field::Time | Field::Ctot => "time",
            Field::Stand | Field::Place => "stand",
            Field::Runway => "runway",
            Field::IceKind => "kind",
            Field::IceMinutes | Field::TaxiMinutes => "minutes",
            Field::Group => "group",
            Field::From => "from",
            Field::To => "to",
            Field::Cap => "cap",
            Field::Before => "before",
            Field::After => "after",
        }
    }

    /// The form that it has, or Text refuses it.
    pub fn form(self) -> &'static str
        ensures { result.now ≡ field_form self }
    {
        match self {
            Field::Flight => "1 to 7 of A-Z and 0-9",
            Field::Priority
            | Field::IceMinutes
            | Field::Cap
            | Field::TaxiMinutes
            | Field::Before
            | Field::After => "1 to 4 digits",
            Field::Time | Field::From | Field::To => "YYYY-MM-DDTHH:MMZ",
            Field::Ctot => "YYYY-MM-DDTHH:MMZ, or - for none",
            Field::Stand => "1 to 5 of A-Z and 0-9",
            Field::Runway => "1 to 3 of A-Z and 0-9",
            Field::IceKind => "NONE, STAND or REMOTE",
            Field::Group => "L, M or H",
            Field::Place => "1 to 5 of A-Z and 0-9, or * for all others",
        }
    }

    /// The range that it is in, or Range refuses it; empty where its form is all.
    pub fn range(self) -> &'static str
        ensures { result.now ≡ field_range self }
    {
        match self {
            Field::Flight
            | Field::Stand
            | Field::Runway
            | Field::IceKind
            | Field::Group
            | Field::Place => "",
            Field::Priority => "0 to 9",
            Field::Time | Field::Ctot | Field::From => "a minute of the two days",
            Field::IceMinutes => "0 with NONE, else 1 to 60",
            Field::To => "a minute of the two days, or their end",
            Field::Cap => "0 to 60",
            Field::TaxiMinutes => "1 to 120",
            Field::Before => "0 to 15",
            Field::After => "0 to 30",
        }
    }
}
