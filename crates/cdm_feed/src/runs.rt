//! A whole run, from the bytes of its inputs to the bytes of its text.
ghost use Rattle.std.specs.Prelude.{◌≡◌, ℕ, List, take, false, IfOk, IfErr, OnOk, OnErr, IsErrOf};
ghost use Rattle.std.specs.Io.KnownBytes.{Appends};
ghost use Rattle.cdm_files.specs.Device.{Passes};
ghost use Rattle.cdm_files.specs.Readings.{AreRead, IfTold, OfBytes, Passed, reading};
ghost use Rattle.cdm_files.specs.RunFaults.{IsFirstFault, is_write_fault};
ghost use Rattle.cdm_feed.specs.Inputs.{third_input};
ghost use Rattle.cdm_feed.specs.Made.{HaveOne, IsFirstOf, IsMade};
ghost use Rattle.cdm_feed.specs.Output.{HaveOneText, IsOutput};
ghost use Rattle.cdm_feed.specs.declared.counted.Counted.{Counted};
ghost use Rattle.cdm_feed.specs.declared.runs.RunCounts.{RunCounts};

use crate::asked::{Asked, DayText};
use crate::counted::Counted;
use crate::making::made_of_inputs;
use cdm_files::{CommonFault, Device, Input, Lent, RunError, read_inputs, write_text};
use cdm_kinds::Format;
use cdm_phase::{Gate, Workers};
use std::alloc::Global;
use std::io::{Read, Write};
use std::thread::Threads;

/// What a run counts.
#[derive(Clone, Copy, PartialEq, Eq, Debug, Default)]
pub struct RunCounts {
    /// The accepted updates of the feed.
    pub accepted: usize,
    /// The refused records of the feed.
    pub refused: usize,
    /// The scenarios of the scenario file.
    pub scenarios: usize,
}

/// Makes what is asked for: reads the airport file, the feed and the third file, makes the one text of their bytes, and writes it. The
/// third file is the scenario file or, if a day is carried over, the next airport file. If no scenario file is asked for, its reader is
/// empty. The text depends on what is asked for and on the bytes of the inputs alone, whatever the workers and the gate do.
///
/// At `Ok` the three inputs were read to their ends, and the whole text was written and flushed. It returns the counts. Faults in their
/// order: `Read` and `TooLong` of the airport file, of the feed and of the third file; `Airport`, and `Scenario` or `NextAirport`, the
/// first faulty record of that file and its word, unless a check is asked for, to which these are findings; `NextDay`, where the next
/// airport's day isn't the day after; `OtherDay`, where it is asked from a time of another day on, or at steps of another day; `NoScenario`,
/// where the scenario that is asked for isn't known; `Scenario`, where a scenario of a comparison has the day's name; `Update`, the first
/// refused update of the scenario that is asked for; `NoFlight` and `NoRunway`, where what is asked for isn't known;
/// `NotPlanned`, where the flight that is to be helped has left its stand or won't depart; `Memory`, wherever memory was first refused;
/// `Write`. Before `Write` nothing was written, and at `Write` a prefix of the text was.
pub fn run_asked<R: Threads + Sync, A: Read, F: Read, T: Read, G: Gate, W: Write>(
    lent: &Lent<'_, R, G>,
    asked: &Asked<'_>,
    airport: &mut Device<A>,
    feed: &mut Device<F>,
    third: &mut Device<T>,
    out: &mut Device<W>,
) -> Result<Counted, RunError>
    requires airport { airport.old.failed ≡ false }
    requires feed { feed.old.failed ≡ false }
    requires third { third.old.failed ≡ false }
    requires out { out.old.failed ≡ false }

    // The text that is asked for was written, and what it counts is the answer.
    ensures written { IfOk result (λ counted.
        OfBytes (A.remaining airport.old.inner) (F.remaining feed.old.inner) (T.remaining third.old.inner) (λ airport_file feed_file third_file.
        (text : List ℕ) × IsMade asked.now airport_file feed_file third_file text counted
        × Appends (W.contents out.old.inner) (W.contents out.new.inner) text)) }
    ensures one { OnOk result
        (IfTold (A.remaining airport.old.inner) (F.remaining feed.old.inner) (T.remaining third.old.inner) (HaveOne asked.now)) }

    // Whatever the readers and the writer are: the readers gave the bytes of three files, and the writer took exactly the one text
    // that is asked for of these bytes, or the first part of it where a write failed.
    ensures passed { IfOk result (λ counted. Passed
        (Passes airport.old airport.new) (Passes feed.old feed.new) (Passes third.old third.new) (Passes out.old out.new)
        (λ airport_file feed_file third_file text.
        IsMade asked.now airport_file feed_file third_file text counted × HaveOne asked.now airport_file feed_file third_file)) }
    ensures passed_in_part { IsErrOf result (RunError.Common CommonFault.Write) → Passed
        (Passes airport.old airport.new) (Passes feed.old feed.new) (Passes third.old third.new) (Passes out.old out.new)
        (λ airport_file feed_file third_file written.
        (text : List ℕ) × (counted : Counted) × IsMade asked.now airport_file feed_file third_file text counted
        × (n : ℕ) × (written ≡ take n text)) }

    // The first fault is the answer, and Ok where there was none.
    ensures read { OnOk result (AreRead
        (reading Input.Airport A.remaining airport.old airport.new)
        (reading Input.Feed F.remaining feed.old feed.new)
        (reading (third_input asked.now) T.remaining third.old third.new)) }
    ensures fault { IfErr result (IsFirstOf asked.now
        (reading Input.Airport A.remaining airport.old airport.new)
        (reading Input.Feed F.remaining feed.old feed.new)
        (reading (third_input asked.now) T.remaining third.old third.new)) }
    ensures nothing { OnErr result (is_write_fault result ≡ false → out.new ≡ out.old) }
    ensures failed { out.new.failed ≡ is_write_fault result }
    ensures prefix { IsErrOf result (RunError.Common CommonFault.Write) →
        OfBytes (A.remaining airport.old.inner) (F.remaining feed.old.inner) (T.remaining third.old.inner) (λ airport_file feed_file third_file.
        (text : List ℕ) × (counted : Counted) × IsMade asked.now airport_file feed_file third_file text counted
        × (n : ℕ) × Appends (W.contents out.old.inner) (W.contents out.new.inner) (take n text)) }
{
    let names = (Input::Feed, asked.third_input());
    let inputs = read_inputs(lent.alloc, names, airport, feed, third)?;
    let made = made_of_inputs(lent, asked, inputs)?;
    write_text(out, &made.text)?;
    Ok(made.counted)
}

/// Runs a day: reads the airport file, the feed and the scenario file, judges the feed's updates in
/// order, plans the day and answers each scenario with so many workers, and writes the day's report,
/// with the feed's refused records, and then the answers. The text depends on the bytes of the inputs
/// alone, whatever the workers and the gate do.
///
/// `Ok` has read the three inputs to their ends, counts the accepted updates, the refused records and
/// the scenarios, and has written the whole text and flushed it. Faults in their order: `Read` and
/// `TooLong` of the airport file, of the feed and of the scenario file; `Airport` and `Scenario`, the
/// first faulty record of that file and its word; `Memory`, wherever memory was first refused; `Write`.
/// Before `Write` nothing was written, and at `Write` a prefix of the text was.
pub fn run<R: Threads + Sync, A: Read, F: Read, S: Read, G: Gate, W: Write>(
    rt: &R,
    alloc: Global,
    airport: &mut Device<A>,
    feed: &mut Device<F>,
    scenarios: &mut Device<S>,
    workers: Workers,
    gate: &G,
    out: &mut Device<W>,
) -> Result<RunCounts, RunError>
    requires airport { airport.old.failed ≡ false }
    requires feed { feed.old.failed ≡ false }
    requires scenarios { scenarios.old.failed ≡ false }
    requires out { out.old.failed ≡ false }

    // The one text of the three inputs was written, and its counts are the answer.
    ensures written { IfOk result (λ counts.
        IfTold (A.remaining airport.old.inner) (F.remaining feed.old.inner) (S.remaining scenarios.old.inner) (λ airport_file feed_file scenario_file.
        (text : List ℕ) × IsOutput airport_file feed_file scenario_file text counts
        × Appends (W.contents out.old.inner) (W.contents out.new.inner) text)) }
    ensures one { OnOk result
        (IfTold (A.remaining airport.old.inner) (F.remaining feed.old.inner) (S.remaining scenarios.old.inner) HaveOneText) }

    // Whatever the readers and the writer are: the readers gave the bytes of three files, and the writer took exactly the one
    // output of these bytes, or the first part of it where a write failed.
    ensures passed { IfOk result (λ counts. Passed
        (Passes airport.old airport.new) (Passes feed.old feed.new) (Passes scenarios.old scenarios.new) (Passes out.old out.new)
        (λ airport_file feed_file scenario_file text.
        IsOutput airport_file feed_file scenario_file text counts × HaveOneText airport_file feed_file scenario_file)) }
    ensures passed_in_part { IsErrOf result (RunError.Common CommonFault.Write) → Passed
        (Passes airport.old airport.new) (Passes feed.old feed.new) (Passes scenarios.old scenarios.new) (Passes out.old out.new)
        (λ airport_file feed_file scenario_file written.
        (text : List ℕ) × (counts : RunCounts) × IsOutput airport_file feed_file scenario_file text counts
        × (n : ℕ) × (written ≡ take n text)) }

    // The first fault is the answer, and Ok where there was none.
    ensures read { OnOk result (AreRead
        (reading Input.Airport A.remaining airport.old airport.new)
        (reading Input.Feed F.remaining feed.old feed.new)
        (reading Input.Scenarios S.remaining scenarios.old scenarios.new)) }
    ensures fault { IfErr result (IsFirstFault
        (reading Input.Airport A.remaining airport.old airport.new)
        (reading Input.Feed F.remaining feed.old feed.new)
        (reading Input.Scenarios S.remaining scenarios.old scenarios.new)) }
    ensures nothing { OnErr result (is_write_fault result ≡ false → out.new ≡ out.old) }
    ensures failed { out.new.failed ≡ is_write_fault result }
    ensures prefix { IsErrOf result (RunError.Common CommonFault.Write) →
        IfTold (A.remaining airport.old.inner) (F.remaining feed.old.inner) (S.remaining scenarios.old.inner) (λ airport_file feed_file scenario_file.
        (text : List ℕ) × (counts : RunCounts) × IsOutput airport_file feed_file scenario_file text counts
        × (n : ℕ) × Appends (W.contents out.old.inner) (W.contents out.new.inner) (take n text)) }
{
    let lent = Lent {
        rt,
        alloc,
        workers,
        gate,
    };
    let asked = Asked::Day(DayText::Plan(Format::Text));
    let counted = run_asked(&lent, &asked, airport, feed, scenarios, out)?;
    Ok(counted.of_day())
}
