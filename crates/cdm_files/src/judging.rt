//! A feed, judged at an airport.
ghost use Rattle.std.specs.Prelude.{◌≡◌, ◌≤◌, ◌<◌, ◌+◌, ◌^◌, ◌++◌, [], length, IfOk, OnOk};
ghost use Rattle.cdm_flight.specs.Accepted.{accepted};
ghost use Rattle.cdm_files.specs.Input.{input_limit};
ghost use Rattle.cdm_files.specs.FeedDay.{accepted_in, refusals_in};
ghost use Rattle.cdm_files.specs.Refused.{refused_in, updates_in};

use crate::feed::read_stretch;
use crate::record_reader::RecordReader;
use crate::refused::{refusals_of, updates_of, words_of};
use cdm_day::{Airport, DayState};
use cdm_flight::{RefusalWord, Role, Update};
use cdm_phase::{Gate, Workers};
use std::alloc::{AllocError, Global};
use std::thread::Threads;

/// How many records of a feed are read and judged at once: more than a day accepts updates, so a feed
/// with few refused records is one stretch and is planned once.
const STRETCH: usize = 32_768;

/// A day after the first records of a feed, and those of them that were refused.
#[derive(Drop)]
pub struct Judged {
    /// The day.
    pub state: DayState,
    /// The refused records by their numbers, from 1, each with its word.
    pub refused: Vec<(u32, RefusalWord)>,
    // How many records were judged.
    records: u32,
}

/// The day of an airport before its first update.
pub fn day_of(alloc: Global, airport: Airport) -> Result<DayState, AllocError>
    ensures { IfOk result (λ s. s ≡ record { airport = airport; journal = [] }) }
{
    match DayState::new(alloc, airport) {
        Ok(state) => Ok(state),
        Err(_) => Err(AllocError),
    }
}

// Judges the next records of a feed. What they spell isn't kept while the day is planned.
#[tactic(auto, using(crate::proofs::RefusedLemmas::refused_by_day))]
fn judge_next<R: Threads + Sync, G: Gate>(
    rt: &R,
    alloc: Global,
    judged: &mut Judged,
    parsed: Vec<Result<(Role, Update), RefusalWord>>,
    workers: Workers,
    gate: &G,
) -> Result<(), AllocError>
    requires { judged.old.records + length parsed.items < 2 ^ 32 }
    ensures state { OnOk result (judged.new.state ≡ record judged.old.state {
      journal = accepted judged.old.state.airport judged.old.state.journal (updates_in parsed.items);
    }) }
    ensures refused { OnOk result (judged.new.refused.items ≡ judged.old.refused.items
        ++ refused_in judged.old.state.airport judged.old.state.journal (judged.old.records + 1) parsed.items) }
    ensures records { OnOk result (judged.new.records ≡ judged.old.records + length parsed.items) }
{
    let updates = updates_of(alloc, &parsed)?;
    let words = words_of(alloc, &parsed)?;
    drop(parsed);
    let replies = judged.state.apply_all(rt, alloc, &updates, workers, gate)?;
    let refused = refusals_of(alloc, judged.records, &words, &replies)?;
    judged.refused.extend_from_slice(&refused)?;
    judged.records += words.len() as u32;
    Ok(())
}

/// The day of an airport after a feed, and the feed's refused records. The feed is read and judged
/// stretch by stretch, so its records are never all in memory.
pub fn judge<R: Threads + Sync, G: Gate>(
    rt: &R,
    alloc: Global,
    airport: Airport,
    feed: &[u8],
    workers: Workers,
    gate: &G,
) -> Result<Judged, AllocError>
    requires { length feed.now ≤ input_limit }
    ensures state { IfOk result (λ judged. judged.state ≡ record { airport = airport; journal = accepted_in airport feed.now }) }
    ensures refused { IfOk result (λ judged. judged.refused.items ≡ refusals_in airport feed.now) }
{
    let day = *airport.day();
    let mut reader = RecordReader::new(alloc, feed);
    let state = day_of(alloc, airport)?;
    let mut judged = Judged {
        state,
        refused: Vec::new(alloc),
        records: 0,
    };
    'stretches: loop {
        let parsed = read_stretch(alloc, day, &mut reader, STRETCH)?;
        if parsed.is_empty() {
            return Ok(judged);
        }
        judge_next(rt, alloc, &mut judged, parsed, workers, gate)?;
    }
}
