//! What a run counts, or tells beside its text.
ghost use Rattle.std.specs.Prelude.{◌≡◌};
ghost use Rattle.cdm_feed.specs.Counts.{day_counts};

use crate::runs::RunCounts;
use cdm_check::CheckCounts;

/// What a run counts, or tells beside the text that it writes.
#[derive(Clone, Copy, PartialEq, Eq, Debug)]
pub enum Counted {
    /// Of a day.
    Day(RunCounts),
    /// Of a check.
    Check(CheckCounts),
    /// For a day that is carried over: whether the text says something that a person has to see to.
    Carry { needs_care: bool },
}

impl Counted {
    /// The counts of a day; zeros for any other text.
    pub fn of_day(self) -> RunCounts
        ensures { result ≡ day_counts self }
    {
        match self {
            Counted::Day(counts) => counts,
            Counted::Check(_) | Counted::Carry { .. } => RunCounts::default(),
        }
    }
}
