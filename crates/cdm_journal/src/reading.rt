//! The day that a journal makes.
ghost use Rattle.std.specs.Prelude.{◌≡◌, ◌≤◌, ◌∷◌, ℕ, [], IfErr, IfOk, List, length};
ghost use Rattle.cdm_files.specs.Input.{input_limit};
ghost use Rattle.cdm_files.specs.FeedDay.{accepted_in, refusals_in};
ghost use Rattle.cdm_journal.specs.Reading.{TellsFirst};

use cdm_day::{Airport, DayState};
use cdm_files::{FileFault, Judged, judge};
use cdm_phase::{Gate, Workers};
use std::alloc::Global;
use std::thread::Threads;

/// The day of an airport after a journal, a feed of which no record is refused. Else the first refused record is
/// told, or want of memory.
pub fn read_journal<R: Threads + Sync, G: Gate>(
    rt: &R,
    alloc: Global,
    airport: Airport,
    journal: &[u8],
    workers: Workers,
    gate: &G,
) -> Result<DayState, FileFault>
    requires { length journal.now ≤ input_limit }
    ensures state { IfOk result (λ state. state ≡ record { airport = airport; journal = accepted_in airport journal.now }) }
    ensures none_refused { IfOk result (λ _. refusals_in airport journal.now ≡ []) }
    ensures fault { IfErr result (TellsFirst (refusals_in airport journal.now)) }
{
    let Judged { state, refused, .. } = judge(rt, alloc, airport, journal, workers, gate)?;
    match refused.first() {
        Some((number, word)) => Err(FileFault::Refused(*number as usize, *word)),
        None => Ok(state),
    }
}
