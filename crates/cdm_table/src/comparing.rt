//! The lines of a day and of tries over it.
ghost use Rattle.std.specs.Prelude.{◌≡◌, ◌+◌, ◌<◌, ◌^◌, IfOk, Some, length};
ghost use Rattle.std.specs.List.{AllZip};
ghost use Rattle.cdm_phase.specs.declared.job.PhaseName.TheVariants.{Scenarios};
ghost use Rattle.cdm_plan.specs.Sound.{IsSound};
ghost use Rattle.cdm_table.specs.Comparison.{IsSummary, IsTried, all_lines, summary_of};
ghost use Rattle.cdm_table.specs.inner.OneTable.{one_tried};

use crate::changing::{Changed, changed_by};
use crate::line::{Line, Summary};
use crate::moved::moved_updates;
use crate::tries::Try;
use cdm_day::{DayState, Records};
use cdm_flight::{RefusalWord, Update, push_last};
use cdm_phase::{Gate, Job, PhaseName, run_phase};
use cdm_plan::Runner;
use cdm_report::Counts;
use std::alloc::{AllocError, Global};
use std::thread::Threads;

// What comes of updates, in numbers.
fn summary_of(changed: &Changed) -> Summary
    ensures { result ≡ summary_of changed.now }
{
    match changed {
        Ok((counts, changed)) => Summary::Planned(*counts, changed.as_slice().len()),
        Err((number, word)) => Summary::Refused(*number, *word),
    }
}

// What comes of updates over the base, in numbers.
fn summary_by(alloc: Global, base: &DayState, updates: &[Update]) -> Result<Summary, AllocError>
    ensures { IfOk result (IsSummary base.now updates.now) }
{
    let changed = changed_by(alloc, base, updates)?;
    Ok(summary_of(&changed))
}

// What comes of a try over the base, in numbers.
fn tried(alloc: Global, base: &DayState, one: &Try<'_>) -> Result<Summary, AllocError>
    ensures { IfOk result (IsTried base.now one.now) }
{
    let updates = one.scenario.updates();
    let Some(at) = one.at else {
        return summary_by(alloc, base, updates);
    };
    match moved_updates(alloc, updates, at)? {
        Ok(moved) => summary_by(alloc, base, moved.as_slice()),
        Err(number) => Ok(Summary::Refused(number, RefusalWord::Range)),
    }
}

// What comes of each try over the base that they share.
#[derive(Clone, Copy)]
struct TryJob<'a> {
    base: &'a DayState,
}

impl<'a> Job for TryJob<'a> {
    type Item = Try<'a>;

    type Out = Summary;

    ghost can_run = { λ job _. IsSound job.base.now };

    ghost gives = { λ job one is. IsTried job.base.now one is };

    ghost phase_name = { Scenarios };

    fn run(&self, alloc: Global, one: &Try<'a>) -> Result<Summary, AllocError> {
        tried(alloc, self.base, one)
    }

    fn phase(&self) -> PhaseName {
        PhaseName::Scenarios
    }

    ghost one_value = { λ job one x y sound a b. one_tried job.base.now sound.airport.names sound.names one x y a b };
}

/// What comes of each try over the base, in numbers. Each is answered by one of the workers in phase `Scenarios`, and every try is
/// one piece.
pub(crate) fn summaries<R: Threads + Sync, G: Gate>(
    alloc: Global,
    base: &DayState,
    tries: &[Try<'_>],
    runner: &Runner<'_, R, G>,
) -> Result<Vec<Summary>, AllocError>
    ensures { IfOk result (λ summaries. AllZip (IsTried base.now) tries.now summaries.items) }
{
    // What the base's records tell is sound, which makes each answer the only one.
    let _values = base.values();
    let job = TryJob { base };
    let (rt, workers, gate) = (runner.rt, runner.workers, runner.gate);
    run_phase(rt, alloc, workers, 1, &job, tries, gate)
}

// The line of the try at a place, which is counted from 0.
fn summary_line(place: usize, one: &Try<'_>, summary: &Summary) -> Line
    requires { place + 1 < 2 ^ 64 }
    ensures { result ≡ record { place = place + 1; name = Some one.now.scenario.name; at = one.now.at; summary = summary.now } }
{
    Line {
        place: place + 1,
        name: Some(*one.scenario.name()),
        at: one.at,
        summary: *summary,
    }
}

/// The line of the day, which counts so, and those of the tries.
pub(crate) fn lines_of(
    alloc: Global,
    counts: Counts,
    tries: &[Try<'_>],
    summaries: &[Summary],
) -> Result<Vec<Line>, AllocError>
    requires { length summaries.now ≡ length tries.now }
    ensures { IfOk result (λ lines. lines.items ≡ all_lines counts tries.now summaries.now) }
{
    let mut lines = Vec::new(alloc);
    let day = Line {
        place: 0,
        name: None,
        at: None,
        summary: Summary::Planned(counts, 0),
    };
    push_last(&mut lines, day)?;
    for place in 0..tries.len() {
        let line = summary_line(place, &tries[place], &summaries[place]);
        push_last(&mut lines, line)?;
    }
    Ok(lines)
}
