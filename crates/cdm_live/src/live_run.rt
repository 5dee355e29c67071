//! A live run, from the bytes of its inputs to the bytes of its text.
ghost use Rattle.std.specs.Prelude.{◌≡◌, ◌≤◌, ◌↔◌, ℕ, List, length, take, false, IfOk, IfErr, OnOk, OnErr, IsErrOf, IsTrue, vec_len};
ghost use Rattle.std.specs.Io.KnownBytes.{Appends};
ghost use Rattle.cdm_files.specs.Input.{input_limit};
ghost use Rattle.cdm_files.specs.Refused.{updates_in};
ghost use Rattle.cdm_files.specs.Device.{Passes};
ghost use Rattle.cdm_files.specs.Readings.{AreRead, IfTold, Passed, reading};
ghost use Rattle.cdm_live.specs.Live.{IsCounted, IsCountedText, IsLive, batch_count};
ghost use Rattle.cdm_live.specs.LiveFaults.{FitsBoard, IsFirstFault, calls_needed, is_write_fault};
ghost use Rattle.cdm_live.specs.inner.LiveSteps.{HasMerged, IsBoardFault, IsMergedText, IsRecordFault, merged_counts};

use crate::desk_text::desk_text;
use crate::desks::{Merged, run_desks};
use crate::live_error::LiveError;
use cdm_board::{MOST_BATCH_UPDATES, MOST_CALLS};
use cdm_day::{Airport, DayState};
use cdm_files::{
    CommonFault, Device, Input, Inputs, airport_of, read_feed, read_inputs, refusals_of,
    updates_of, words_of, write_text,
};
use cdm_flight::{RefusalWord, Role, Update};
use cdm_phase::Gate;
use cdm_report::report_text;
use std::alloc::{AllocError, Global};
use std::io::{Read, Write};
use std::sync::Wait;
use std::thread::Threads;

/// What a live run counts.
#[derive(Clone, Copy, PartialEq, Eq, Debug, Default)]
pub struct LiveCounts {
    /// The accepted updates of both feeds.
    pub accepted: usize,
    /// The refused records of both feeds.
    pub refused: usize,
    /// The calls of both desks.
    pub calls: usize,
}

// The text of a live run and what it counts.
#[derive(Drop)]
struct LiveReport {
    text: Vec<u8>,
    counts: LiveCounts,
}

// How many batches so many updates make.
fn batches_of(updates: usize) -> usize
    ensures { result ≡ batch_count updates }
{
    updates.div_ceil(MOST_BATCH_UPDATES)
}

// Whether a board takes the calls that so many updates of two feeds need: a post of each batch, and a
// look of each desk.
fn fits_board(updates1: usize, updates2: usize) -> bool
    ensures { IsTrue result ↔ (calls_needed updates1 updates2 ≤ 4096) }
{
    let posts1 = batches_of(updates1);
    let posts2 = batches_of(updates2);
    posts1 < MOST_CALLS && posts2 < MOST_CALLS && posts1 + 1 + (posts2 + 1) <= MOST_CALLS
}

// The desks run on the day of an airport, if a board takes their calls.
fn run_desks_at<R: Threads + Wait + Sync, G: Gate>(
    rt: &R,
    alloc: Global,
    airport: Airport,
    updates1: &[(Role, Update)],
    updates2: &[(Role, Update)],
    gate: &G,
) -> Result<Merged, LiveError>
    ensures merged { IfOk result (λ m.
        HasMerged airport updates1.now updates2.now m.history m.state m.replies1.items m.replies2.items) }
    ensures fits { OnOk result (calls_needed (length updates1.now) (length updates2.now) ≤ 4096) }
    ensures fault { IfErr result (IsBoardFault (length updates1.now) (length updates2.now)) }
{
    if !fits_board(updates1.len(), updates2.len()) {
        return Err(LiveError::HistoryFull);
    }
    let Ok(day) = DayState::new(alloc, airport) else {
        return Err(LiveError::Common(CommonFault::Memory));
    };
    let merged = run_desks(rt, alloc, day, updates1, updates2, gate)?;
    Ok(merged)
}

// The report of two feeds at an airport, by what their records spell.
fn report_of<R: Threads + Wait + Sync, G: Gate>(
    rt: &R,
    alloc: Global,
    airport: Airport,
    feed1: &[Result<(Role, Update), RefusalWord>],
    feed2: &[Result<(Role, Update), RefusalWord>],
    gate: &G,
) -> Result<LiveReport, LiveError>
    requires few1 { length feed1.now ≤ input_limit }
    requires few2 { length feed2.now ≤ input_limit }
    ensures counted { IfOk result (λ report. IsCountedText airport feed1.now feed2.now report.text.items report.counts) }
    ensures fits { OnOk result (calls_needed (length (updates_in feed1.now)) (length (updates_in feed2.now)) ≤ 4096) }
    ensures fault { IfErr result (IsBoardFault (length (updates_in feed1.now)) (length (updates_in feed2.now))) }
{
    let updates1 = updates_of(alloc, feed1)?;
    let updates2 = updates_of(alloc, feed2)?;
    let merged = run_desks_at(rt, alloc, airport, &updates1, &updates2, gate)?;
    let posts1 = batches_of(updates1.len());
    let posts2 = batches_of(updates2.len());
    let report = report_merged(alloc, feed1, feed2, &merged, posts1, posts2)?;
    Ok(report)
}

// The report of two desks that have worked.
fn report_merged(
    alloc: Global,
    feed1: &[Result<(Role, Update), RefusalWord>],
    feed2: &[Result<(Role, Update), RefusalWord>],
    merged: &Merged,
    posts1: usize,
    posts2: usize,
) -> Result<LiveReport, AllocError>
    requires few1 { length feed1.now ≤ input_limit }
    requires few2 { length feed2.now ≤ input_limit }
    ensures text { IfOk result (λ report.
        IsMergedText feed1.now feed2.now merged.now.state merged.now.replies1.items merged.now.replies2.items posts1 posts2 report.text.items) }
    ensures counts { IfOk result (λ report. report.counts
        ≡ merged_counts feed1.now feed2.now merged.now.state merged.now.history merged.now.replies1.items merged.now.replies2.items) }
{
    let state = &merged.state;
    let refused1 = refusals_of(alloc, 0, &words_of(alloc, feed1)?, &merged.replies1)?;
    let refused2 = refusals_of(alloc, 0, &words_of(alloc, feed2)?, &merged.replies2)?;
    let mut text = report_text(alloc, state.day(), state.plan(), &[])?;
    text.append(&mut desk_text(alloc, 1, posts1, &refused1)?)?;
    text.append(&mut desk_text(alloc, 2, posts2, &refused2)?)?;
    let counts = LiveCounts {
        accepted: state.journal().len(),
        refused: refused1.len() + refused2.len(),
        calls: merged.history.len(),
    };
    Ok(LiveReport { text, counts })
}

// The text that the inputs make, and its counts.
fn report_of_inputs<R: Threads + Wait + Sync, G: Gate>(
    rt: &R,
    alloc: Global,
    inputs: &Inputs,
    gate: &G,
) -> Result<LiveReport, LiveError>
    requires limit1 { vec_len inputs.now.second ≤ input_limit }
    requires limit2 { vec_len inputs.now.third ≤ input_limit }
    ensures counted { IfOk result (λ report.
        IsCounted inputs.now.airport.items inputs.now.second.items inputs.now.third.items report.text.items report.counts) }
    ensures fits { OnOk result (FitsBoard inputs.now.airport.items inputs.now.second.items inputs.now.third.items) }
    ensures fault { IfErr result (IsRecordFault inputs.now.airport.items inputs.now.second.items inputs.now.third.items) }
{
    let airport = airport_of(alloc, &inputs.airport)?;
    let feed1 = read_feed(alloc, airport.day(), &inputs.second)?;
    let feed2 = read_feed(alloc, airport.day(), &inputs.third)?;
    let report = report_of(rt, alloc, airport, &feed1, &feed2, gate)?;
    Ok(report)
}

/// Runs a day with two desks: reads the airport file and the two feeds, and lets two desks, each on a
/// thread of its own, post the updates of its feed to one board, in batches of 256, and look once after
/// the last. Writes the report of the day that they made together, and for each desk how many batches it
/// posted, and the refused records of its feed. Where the feeds touch the same flights, runways or clock,
/// the text depends on which batches came first; it is always that of one order of the calls that keeps
/// each desk's order.
///
/// Each desk passes the gate before its first call, in the phase of desks, desk 1 as piece 0 and desk 2
/// as piece 1. Where a thread can't be started, the caller does its work.
///
/// `Ok` has read the three inputs to their ends, counts the accepted updates, the refused records and the
/// calls, and has written the whole text and flushed it. Faults in their order: `Read` and `TooLong` of
/// the airport file, of the first feed and of the second; `Airport`, the first faulty record of that file
/// and its word; `HistoryFull`, where the feeds need more than 4,096 calls; `Memory`, wherever memory was
/// first refused; `Mismatch`, where the board gave an answer that the feeds can't cause; `Write`. Before
/// `Write` nothing was written, and at `Write` a prefix of the text was.
pub fn run_live<R: Threads + Wait + Sync, A: Read, F: Read, S: Read, G: Gate, W: Write>(
    rt: &R,
    alloc: Global,
    airport: &mut Device<A>,
    feed1: &mut Device<F>,
    feed2: &mut Device<S>,
    gate: &G,
    out: &mut Device<W>,
) -> Result<LiveCounts, LiveError>
    requires airport { airport.old.failed ≡ false }
    requires feed1 { feed1.old.failed ≡ false }
    requires feed2 { feed2.old.failed ≡ false }
    requires out { out.old.failed ≡ false }

    // A text of the three inputs was written, and its counts are the answer.
    ensures written { OnOk result
        (IfTold (A.remaining airport.old.inner) (F.remaining feed1.old.inner) (S.remaining feed2.old.inner) (λ airport_file first second.
        (text : List ℕ) × IsLive airport_file first second text × Appends (W.contents out.old.inner) (W.contents out.new.inner) text)) }
    ensures counts { IfOk result (λ counts.
        IfTold (A.remaining airport.old.inner) (F.remaining feed1.old.inner) (S.remaining feed2.old.inner) (λ airport_file first second.
        (text : List ℕ) × IsCounted airport_file first second text counts × Appends (W.contents out.old.inner) (W.contents out.new.inner) text)) }

    // Whatever the readers and the writer are: the readers gave the bytes of three files, and the writer took exactly a text that may
    // be written for these bytes, or the first part of one where a write failed.
    ensures passed { IfOk result (λ counts. Passed
        (Passes airport.old airport.new) (Passes feed1.old feed1.new) (Passes feed2.old feed2.new) (Passes out.old out.new)
        (λ airport_file first second text. IsCounted airport_file first second text counts × FitsBoard airport_file first second)) }
    ensures passed_in_part { IsErrOf result (LiveError.Common CommonFault.Write) → Passed
        (Passes airport.old airport.new) (Passes feed1.old feed1.new) (Passes feed2.old feed2.new) (Passes out.old out.new)
        (λ airport_file first second written. (text : List ℕ) × IsLive airport_file first second text × (n : ℕ) × (written ≡ take n text)) }

    // The first fault is the answer, and Ok where there was none.
    ensures read { OnOk result (AreRead
        (reading Input.Airport A.remaining airport.old airport.new)
        (reading Input.Feed1 F.remaining feed1.old feed1.new)
        (reading Input.Feed2 S.remaining feed2.old feed2.new)) }
    ensures fits { OnOk result
        (IfTold (A.remaining airport.old.inner) (F.remaining feed1.old.inner) (S.remaining feed2.old.inner) FitsBoard) }
    ensures fault { IfErr result (IsFirstFault
        (reading Input.Airport A.remaining airport.old airport.new)
        (reading Input.Feed1 F.remaining feed1.old feed1.new)
        (reading Input.Feed2 S.remaining feed2.old feed2.new)) }
    ensures nothing { OnErr result (is_write_fault result ≡ false → out.new ≡ out.old) }
    ensures failed { out.new.failed ≡ is_write_fault result }
    ensures prefix { IsErrOf result (LiveError.Common CommonFault.Write) →
        IfTold (A.remaining airport.old.inner) (F.remaining feed1.old.inner) (S.remaining feed2.old.inner) (λ airport_file first second.
        (text : List ℕ) × IsLive airport_file first second text
        × (n : ℕ) × Appends (W.contents out.old.inner) (W.contents out.new.inner) (take n text)) }
{
    let names = (Input::Feed1, Input::Feed2);
    let inputs = read_inputs(alloc, names, airport, feed1, feed2)?;
    let report = report_of_inputs(rt, alloc, &inputs, gate)?;
    write_text(out, &report.text)?;
    Ok(report.counts)
}
