//! A line of a comparison, and the order of lines.
ghost use Rattle.std.specs.Prelude.{◌≡◌, IsPermutation, IsSorted};
ghost use Rattle.cdm_table.specs.Comparison.{blocked_in, delay_in, is_refused, line_cmp};

use cdm_flight::RefusalWord;
use cdm_report::Counts;
use cdm_scenario::ScenarioName;
use cdm_time::Minute;

/// What comes of a day by a scenario, in numbers.
#[derive(Clone, Copy, PartialEq, Eq, Debug)]
pub enum Summary {
    /// The indicators of the plan, and how many flights stand otherwise than in the day.
    Planned(Counts, usize),
    /// The number of the first update that is refused, from 1, and the word that refuses it.
    Refused(usize, RefusalWord),
}

/// The line of a try, or of the day itself.
#[derive(Clone, Copy, PartialEq, Eq, Debug)]
pub struct Line {
    /// The place among the tries, from 1, and 0 for the day itself.
    pub place: usize,
    /// The scenario's name, if it isn't the day itself.
    pub name: Option<ScenarioName>,
    /// The minute to which it is moved, if it is.
    pub at: Option<Minute>,
    /// What comes of it.
    pub summary: Summary,
}

impl Summary {
    fn is_refused(&self) -> bool
        ensures { result ≡ is_refused self.now }
    {
        matches!(self, Summary::Refused(..))
    }

    fn blocked(&self) -> u32
        ensures { result ≡ blocked_in self.now }
    {
        match self {
            Summary::Planned(counts, _) => counts.blocked,
            Summary::Refused(..) => 0,
        }
    }

    fn delay(&self) -> u32
        ensures { result ≡ delay_in self.now }
    {
        match self {
            Summary::Planned(counts, _) => counts.delay,
            Summary::Refused(..) => 0,
        }
    }
}

/// The lines with the best first: fewer blocked flights, then less delay, then the place; and behind them
/// those that are refused.
pub(crate) fn ranked(lines: Vec<Line>) -> Vec<Line>
    ensures all { IsPermutation lines.items result.items }
    ensures best_first { IsSorted line_cmp result.items }
{
    let mut ranked = lines;
    ranked.sort_unstable_by_key(|line| {
        let summary = line.summary;
        (
            summary.is_refused(),
            summary.blocked(),
            summary.delay(),
            line.place,
        )
    });
    ranked
}
