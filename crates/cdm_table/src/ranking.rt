//! The lines of a day and of tries over it, the best first.
ghost use Rattle.std.specs.Prelude.{IfOk};
ghost use Rattle.cdm_table.specs.Comparison.{AreRanked};

use crate::comparing::{lines_of, summaries};
use crate::line::{Line, ranked};
use crate::tries::Try;
use cdm_day::DayState;
use cdm_phase::Gate;
use cdm_plan::Runner;
use cdm_report::indicators;
use cdm_view::Standings;
use std::alloc::{AllocError, Global};
use std::thread::Threads;

/// Where the flights of a day stand, and the lines of the day and of tries over it, the best first.
#[derive(Debug, Drop)]
pub(crate) struct Ranking {
    pub(crate) before: Standings,
    pub(crate) lines: Vec<Line>,
}

/// The lines of a day and of tries over it, the best first. Each try is answered over the base by one of the workers in
/// phase `Scenarios`, and every try is one piece.
pub(crate) fn ranked_lines<R: Threads + Sync, G: Gate>(
    alloc: Global,
    base: &DayState,
    tries: &[Try<'_>],
    runner: &Runner<'_, R, G>,
) -> Result<Ranking, AllocError>
    ensures { IfOk result (λ ranking. AreRanked base.now tries.now ranking.before ranking.lines.items) }
{
    let before = Standings::of(alloc, base, base.plan())?;
    let summaries = summaries(alloc, base, tries, runner)?;
    let lines = lines_of(alloc, indicators(base.plan()), tries, &summaries)?;
    Ok(Ranking {
        before,
        lines: ranked(lines),
    })
}
