//! Why a flight gets no minute.
ghost use Rattle.std.specs.Prelude.{◌≡◌, Some};
ghost use Rattle.cdm_sequence.specs.Words.{all_rules, rule_for, rule_text};

use cdm_runway::Blocked;
use std::fmt;

/// Why a planned flight gets no take-off minute, in the order in which the reasons are tested
/// (local profile).
#[derive(Clone, Copy, Debug, PartialEq, Eq)]
pub enum Rule {
    /// It has no TOBT.
    Tobt,
    /// It has no runway.
    Runway,
    /// There is no taxi-out time from its stand to its runway.
    Exot,
    /// It can't reach its runway within the horizon.
    Horizon,
    /// No minute at which it can reach its runway is within the CTOT tolerance.
    Ctot,
    /// All of those minutes are closed.
    Closure,
    /// At each of those minutes that is open it meets another flight.
    Spacing,
    /// All of those open minutes at which it meets no other one lie in full cells.
    Rate,
}

impl Rule {
    /// The rules in the order in which they are tested.
    pub fn all() -> [Rule; 8]
        ensures { result ≡ all_rules }
    {
        [
            Rule::Tobt,
            Rule::Runway,
            Rule::Exot,
            Rule::Horizon,
            Rule::Ctot,
            Rule::Closure,
            Rule::Spacing,
            Rule::Rate,
        ]
    }

    /// The rule as the report prints it.
    pub fn text(self) -> &'static str
        ensures { result.now ≡ rule_text self }
    {
        match self {
            Rule::Tobt => "TOBT",
            Rule::Runway => "RUNWAY",
            Rule::Exot => "EXOT",
            Rule::Horizon => "HORIZON",
            Rule::Ctot => "CTOT",
            Rule::Closure => "CLOSURE",
            Rule::Spacing => "SPACING",
            Rule::Rate => "RATE",
        }
    }
}

impl From<Blocked> for Rule {
    ghost from_gives = { λ reason rule. rule ≡ rule_for reason };

    fn from(reason: Blocked) -> Rule {
        match reason {
            Blocked::Closure => Rule::Closure,
            Blocked::Spacing => Rule::Spacing,
            Blocked::Rate => Rule::Rate,
        }
    }
}

impl fmt::Display for Rule {
    ghost output = { λ rule. Some (rule_text rule) };

    fn fmt<W: fmt::Write>(&self, f: &mut fmt::Formatter<W>) -> fmt::Result {
        f.write_str(self.text())
    }
}
