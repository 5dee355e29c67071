//! What updates are of.
ghost use Rattle.std.specs.Prelude.{◌≡◌};
ghost use Rattle.cdm_kinds.specs.Words.{subject_name};

/// What an update is of.
#[derive(Clone, Copy, Debug, PartialEq, Eq)]
pub enum Subject {
    /// A flight.
    Flight,
    /// A runway.
    Runway,
    /// The taxi times.
    Taxi,
    /// The whole day.
    Day,
}

impl Subject {
    /// The word of the table.
    pub fn name(self) -> &'static str
        ensures { result.now ≡ subject_name self }
    {
        match self {
            Subject::Flight => "flight",
            Subject::Runway => "runway",
            Subject::Taxi => "taxi",
            Subject::Day => "day",
        }
    }
}
