//! A whole check, from the bytes of its inputs to its text.
ghost use Rattle.std.specs.Prelude.{◌≡◌, ◌≤◌, ◌+◌, ◌∷◌, [], map, length, take, is_some, unwrap_or, vec_len, false, Ok, IfOk, if◌then◌else◌};
ghost use Rattle.std.specs.List.{concat};
ghost use Rattle.std.specs.Option.{option_copied};
ghost use Rattle.cdm_files.specs.Input.{input_limit};
ghost use Rattle.cdm_files.specs.FeedDay.{refusals_in};
ghost use Rattle.cdm_files.specs.Records.{records_of};
ghost use Rattle.cdm_files.specs.ScenarioFile.{scenarios_in};
ghost use Rattle.cdm_kinds.specs.declared.format.Format.{Format as AFormat};
ghost use Rattle.cdm_check.specs.Check.{AreHintsOf, AreLinesOf, IsLineOf, most_told};
ghost use Rattle.cdm_check.specs.Findings.{fault_at, finding, findings_at, findings_in, is_no_feed, is_stood_for, listed, told_at, told_in};
ghost use Rattle.cdm_check.specs.Paths.{IsCheckAt, airport_file, counts_at, feed_file, scenario_file};

use crate::airport_words::airport_fault;
use crate::counts::CheckCounts;
use crate::hints::{feed_hints, hints_of, standing_hint};
use crate::kinds::FileKind;
use crate::lines::{MOST_TOLD, last_line, line_of, record_count};
use crate::paths::FilePaths;
use crate::place::Cause;
use crate::scenario_updates::refused_updates;
use crate::scenario_words::scenario_fault;
use crate::stands::stand_hints;
use crate::walk::FeedWalk;
use cdm_day::Airport;
use cdm_files::{FileFault, Inputs, Judged, Lent, judge, read_airport, read_scenarios};
use cdm_flight::RefusalWord;
use cdm_kinds::Format;
use cdm_phase::Gate;
use cdm_time::Day;
use std::alloc::{AllocError, Global};
use std::thread::Threads;

// What is found.
struct Told {
    // The lines of the first findings that are told one by one.
    lines: Vec<u8>,
    // How many findings there are.
    refused: usize,
    // How many of them are told one by one, those beyond the limit too.
    told: usize,
    // The hint that stands for all records of the feed, if one does.
    standing: Option<String>,
    // The refused updates of scenarios.
    updates: Vec<String>,
    // The flights whose stands have no taxi time.
    stands: Vec<String>,
}

// One call drops it, in place of its fields one by one at each exit of each function that owns it.
impl Drop for Told {
    fn drop(self) {
        let Told {
            lines: _,
            refused: _,
            told: _,
            standing: _,
            updates: _,
            stands: _,
        } = self;
    }
}

/// The text of a check and what it counts.
#[derive(Drop)]
pub struct Checked {
    /// The text.
    pub text: Vec<u8>,
    /// What its last line tells.
    pub counts: CheckCounts,
}

// The lines of refused records of a feed.
fn feed_lines(
    alloc: Global,
    format: Format,
    path: &str,
    airport: &Airport,
    feed: &[u8],
    refused: &[(u32, RefusalWord)],
) -> Result<Vec<u8>, AllocError>
    ensures { IfOk result (λ text. AreLinesOf format (map (finding path.now) refused.now) text.items) }
{
    let mut walk = FeedWalk::new(alloc, airport, feed);
    refused_lines(alloc, format, path, &mut walk, refused)
}

// The lines of refused records, of which none was taken before.
fn refused_lines(
    alloc: Global,
    format: Format,
    path: &str,
    walk: &mut FeedWalk<'_>,
    refused: &[(u32, RefusalWord)],
) -> Result<Vec<u8>, AllocError>
    ensures { IfOk result (λ text. AreLinesOf format (map (finding path.now) refused.now) text.items) }
{
    let mut text = Vec::new(alloc);
    for refusal in refused {
        let (number, word) = *refusal;
        let line = refused_line(alloc, format, path, walk, number, word)?;
        text.extend_from_slice(&line)?;
    }
    Ok(text)
}

// The line of the record of this number, which is refused by this word.
fn refused_line(
    alloc: Global,
    format: Format,
    path: &str,
    walk: &mut FeedWalk<'_>,
    number: u32,
    word: RefusalWord,
) -> Result<Vec<u8>, AllocError>
    ensures { IfOk result (λ text. IsLineOf format (finding path.now (number, word)) text.items) }
{
    let cause = walk.cause_of(number, word)?;
    line_of(alloc, format, path, number as usize, word, &cause)
}

// The first refused records, as many as are told.
fn first_of(refused: &[(u32, RefusalWord)]) -> &[(u32, RefusalWord)]
    ensures { result.now ≡ take most_told refused.now }
{
    if refused.len() > MOST_TOLD {
        &refused[..MOST_TOLD]
    } else {
        refused
    }
}

// The refused records of a feed that are told one by one: none, if a hint stands for them.
fn listed(refused: &[(u32, RefusalWord)], is_stood_for: bool) -> &[(u32, RefusalWord)]
    ensures { result.now ≡ (if is_stood_for then [] else refused.now) }
{
    if is_stood_for { &[] } else { refused }
}

// The line of one faulty record.
fn one_line(
    alloc: Global,
    format: Format,
    path: &str,
    number: usize,
    word: RefusalWord,
    cause: &Cause,
) -> Result<Told, AllocError>
    ensures lines { IfOk result (λ told. AreLinesOf format (finding path.now (number, word) ∷ []) told.lines.items) }
    ensures refused { IfOk result (λ told. told.refused ≡ 1) }
    ensures told { IfOk result (λ told. told.told ≡ 1) }
    ensures standing { IfOk result (λ told. is_some told.standing ≡ false) }
{
    let lines = line_of(alloc, format, path, number, word, cause)?;
    Ok(Told {
        lines,
        refused: 1,
        told: 1,
        standing: None,
        updates: Vec::new(alloc),
        stands: Vec::new(alloc),
    })
}

// No line.
fn no_lines(alloc: Global) -> Told
    ensures lines { (format : AFormat) → AreLinesOf format [] result.lines.items }
    ensures refused { result.refused ≡ 0 }
{
    Told {
        lines: Vec::new(alloc),
        refused: 0,
        told: 0,
        standing: None,
        updates: Vec::new(alloc),
        stands: Vec::new(alloc),
    }
}

// The line of the first faulty record of an airport file.
fn airport_line(
    alloc: Global,
    format: Format,
    path: &str,
    text: &[u8],
    number: usize,
    word: RefusalWord,
) -> Result<Told, AllocError>
    ensures lines { IfOk result (λ told. AreLinesOf format (finding path.now (number, word) ∷ []) told.lines.items) }
    ensures refused { IfOk result (λ told. told.refused ≡ 1) }
    ensures told { IfOk result (λ told. told.told ≡ 1) }
    ensures standing { IfOk result (λ told. is_some told.standing ≡ false) }
{
    let cause = airport_fault(alloc, text, number, word)?;
    one_line(alloc, format, path, number, word, &cause)
}

// The line of the first faulty record of a scenario file, if there is one.
fn scenario_lines(
    alloc: Global,
    format: Format,
    path: &str,
    airport: &Airport,
    text: &[u8],
) -> Result<Told, AllocError>
    ensures lines { IfOk result (λ told.
        AreLinesOf format (fault_at path.now (scenarios_in airport.now.day text.now)) told.lines.items) }
    ensures refused { IfOk result (λ told.
        told.refused ≡ length (fault_at path.now (scenarios_in airport.now.day text.now))) }
    ensures one { IfOk result (λ told. told.refused ≤ 1) }
{
    let day = *airport.day();
    match read_scenarios(alloc, &day, text) {
        Ok(_) => Ok(no_lines(alloc)),
        Err(FileFault::Refused(number, word)) => {
            let cause = scenario_fault(alloc, day, text, number, word)?;
            one_line(alloc, format, path, number, word, &cause)
        }
        Err(FileFault::Memory) => Err(AllocError),
    }
}

// The path of the scenario file, which is empty where there is none.
fn scenario_path(paths: FilePaths<'_>) -> &str
    ensures { result.now ≡ unwrap_or (option_copied paths.entry.scenarios) [] }
{
    match paths.scenarios {
        Some(path) => path,
        None => "",
    }
}

// What is found in the feed and in the scenario file of an airport.
fn told_of_day<R: Threads + Sync, G: Gate>(
    lent: &Lent<'_, R, G>,
    format: Format,
    paths: FilePaths<'_>,
    airport: Airport,
    inputs: &Inputs,
) -> Result<Told, AllocError>
    requires { vec_len inputs.now.second ≤ input_limit }
    ensures lines { IfOk result (λ told. AreLinesOf format (take most_told (told_at (Ok airport) (airport_file paths.entry [])
        (feed_file paths.entry inputs.now.second.items) (scenario_file paths.entry inputs.now.third.items))) told.lines.items) }
    ensures refused { IfOk result (λ told. told.refused ≡ length (findings_at (Ok airport) (airport_file paths.entry [])
        (feed_file paths.entry inputs.now.second.items) (scenario_file paths.entry inputs.now.third.items))) }
    ensures told { IfOk result (λ told. told.told ≡ length (told_at (Ok airport) (airport_file paths.entry [])
        (feed_file paths.entry inputs.now.second.items) (scenario_file paths.entry inputs.now.third.items))) }
    ensures standing { IfOk result (λ told. is_some told.standing ≡ is_no_feed inputs.now.second.items) }
{
    let judged = judge(
        lent.rt,
        lent.alloc,
        airport,
        &inputs.second,
        lent.workers,
        lent.gate,
    )?;
    told_of_judged(lent.alloc, format, paths, &judged, inputs)
}

// What is found in the feed, which was judged, and in the scenario file of its airport.
fn told_of_judged(
    alloc: Global,
    format: Format,
    paths: FilePaths<'_>,
    judged: &Judged,
    inputs: &Inputs,
) -> Result<Told, AllocError>
    requires { judged.now.refused.items ≡ refusals_in judged.now.state.airport inputs.now.second.items }
    ensures lines { IfOk result (λ told. AreLinesOf format (take most_told (told_at (Ok judged.now.state.airport) (airport_file paths.entry [])
        (feed_file paths.entry inputs.now.second.items) (scenario_file paths.entry inputs.now.third.items))) told.lines.items) }
    ensures refused { IfOk result (λ told. told.refused ≡ length (findings_at (Ok judged.now.state.airport) (airport_file paths.entry [])
        (feed_file paths.entry inputs.now.second.items) (scenario_file paths.entry inputs.now.third.items))) }
    ensures told { IfOk result (λ told. told.told ≡ length (told_at (Ok judged.now.state.airport) (airport_file paths.entry [])
        (feed_file paths.entry inputs.now.second.items) (scenario_file paths.entry inputs.now.third.items))) }
    ensures standing { IfOk result (λ told. is_some told.standing ≡ is_no_feed inputs.now.second.items) }
{
    let feed: &[u8] = &inputs.second;
    let airport = judged.state.airport();
    let standing = standing_hint(alloc, *airport.day(), feed)?;
    let listed = listed(&judged.refused, standing.is_some());
    let mut lines = feed_lines(alloc, format, paths.feed, airport, feed, first_of(listed))?;
    let scenario = scenario_lines(alloc, format, scenario_path(paths), airport, &inputs.third)?;
    if listed.len() < MOST_TOLD {
        lines.extend_from_slice(&scenario.lines)?;
    }
    let told = listed.len() + scenario.refused;
    let updates = refused_updates(alloc, judged, feed, &inputs.third)?;
    let stands = stand_hints(alloc, judged, feed)?;
    Ok(Told {
        lines,
        refused: judged.refused.len() + scenario.refused,
        told,
        standing,
        updates,
        stands,
    })
}

// What is found in all files.
#[tactic(auto, unfolding(crate::specs::Findings::findings_in, crate::specs::Findings::told_in))]
fn told_of<R: Threads + Sync, G: Gate>(
    lent: &Lent<'_, R, G>,
    format: Format,
    paths: FilePaths<'_>,
    inputs: &Inputs,
) -> Result<Told, AllocError>
    requires { vec_len inputs.now.second ≤ input_limit }
    ensures lines { IfOk result (λ told. AreLinesOf format (take most_told (told_in (airport_file paths.entry inputs.now.airport.items)
        (feed_file paths.entry inputs.now.second.items) (scenario_file paths.entry inputs.now.third.items))) told.lines.items) }
    ensures refused { IfOk result (λ told. told.refused ≡ length (findings_in (airport_file paths.entry inputs.now.airport.items)
        (feed_file paths.entry inputs.now.second.items) (scenario_file paths.entry inputs.now.third.items))) }
    ensures told { IfOk result (λ told. told.told ≡ length (told_in (airport_file paths.entry inputs.now.airport.items)
        (feed_file paths.entry inputs.now.second.items) (scenario_file paths.entry inputs.now.third.items))) }
    ensures standing { IfOk result (λ told. is_some told.standing ≡ is_stood_for
        (airport_file paths.entry inputs.now.airport.items) (feed_file paths.entry inputs.now.second.items)) }
{
    let alloc = lent.alloc;
    match read_airport(alloc, &inputs.airport) {
        Ok(airport) => told_of_day(lent, format, paths, airport, inputs),
        Err(FileFault::Refused(number, word)) => {
            airport_line(alloc, format, paths.airport, &inputs.airport, number, word)
        }
        Err(FileFault::Memory) => Err(AllocError),
    }
}

// How many records all files have.
fn record_counts(alloc: Global, inputs: &Inputs) -> Result<usize, AllocError>
    requires second { vec_len inputs.now.second ≤ input_limit }
    requires third { vec_len inputs.now.third ≤ input_limit }
    ensures { IfOk result (λ count. count ≡ length (records_of inputs.now.airport.items)
        + length (records_of inputs.now.second.items) + length (records_of inputs.now.third.items)) }
{
    let airport = record_count(alloc, &inputs.airport)?;
    let feed = record_count(alloc, &inputs.second)?;
    let scenarios = record_count(alloc, &inputs.third)?;
    Ok(airport + feed + scenarios)
}

// The hints on a scenario file, if there is one, and its refused updates.
fn scenario_hints(
    alloc: Global,
    format: Format,
    path: Option<&str>,
    text: &[u8],
    updates: &[String],
) -> Result<Vec<u8>, AllocError>
    ensures { IfOk result (λ hints. AreHintsOf format (unwrap_or (option_copied path.entry) []) hints.items) }
{
    match path {
        Some(path) => hints_of(alloc, format, path, FileKind::Scenarios, text, updates),
        None => Ok(Vec::new(alloc)),
    }
}

// Five texts, one behind another.
#[tactic(auto, using(crate::proofs::LineLemmas::parts))]
fn joined(
    first: Vec<u8>,
    second: &[u8],
    third: &[u8],
    fourth: &[u8],
    fifth: &[u8],
) -> Result<Vec<u8>, AllocError>
    ensures { IfOk result (λ text. text.items ≡ concat (first.items ∷ second.now ∷ third.now ∷ fourth.now ∷ fifth.now ∷ [])) }
{
    let mut text = first;
    text.extend_from_slice(second)?;
    text.extend_from_slice(third)?;
    text.extend_from_slice(fourth)?;
    text.extend_from_slice(fifth)?;
    Ok(text)
}

/// The text of a check of files, which are these inputs, and what it counts: hints on whole files; then a line for the first
/// faulty record of the airport file, or else for each refused record of the feed, unless one hint stands for all of them,
/// and for the first faulty record of the scenario file, 1,000 lines at most; and then how many records there are, and how
/// many of them are refused. The records that are told, and their words, are those that a run of these files tells as
/// refused or as its fault.
pub fn check_of<R: Threads + Sync, G: Gate>(
    lent: &Lent<'_, R, G>,
    paths: FilePaths<'_>,
    inputs: &Inputs,
    format: Format,
) -> Result<Checked, AllocError>
    requires second { vec_len inputs.now.second ≤ input_limit }
    requires third { vec_len inputs.now.third ≤ input_limit }
    ensures text { IfOk result (λ check.
        IsCheckAt format paths.entry inputs.now.airport.items inputs.now.second.items inputs.now.third.items check.text.items) }
    ensures counts { IfOk result (λ check.
        check.counts ≡ counts_at paths.entry inputs.now.airport.items inputs.now.second.items inputs.now.third.items) }
{
    let alloc = lent.alloc;
    let found = told_of(lent, format, paths, inputs)?;
    let records = record_counts(alloc, inputs)?;
    let airport = hints_of(
        alloc,
        format,
        paths.airport,
        FileKind::Airport,
        &inputs.airport,
        &[],
    )?;
    let standing = found.standing.as_deref();
    let feed = feed_hints(
        alloc,
        format,
        paths.feed,
        &inputs.second,
        standing,
        &found.stands,
    )?;
    let scenarios = scenario_hints(
        alloc,
        format,
        paths.scenarios,
        &inputs.third,
        &found.updates,
    )?;
    let refused = found.refused;
    let last = last_line(alloc, format, records, refused, found.told)?;
    let text = joined(airport, &feed, &scenarios, &found.lines, &last)?;
    let counts = CheckCounts { records, refused };
    Ok(Checked { text, counts })
}
