//! The names that exist, for a command that names an unknown one.

use cdm_ask::{are_regular, is_regular, text_of};
use cdm_command::DayFiles;
use cdm_fault::Fault;
use cdm_feed::{Asked, DayText};
use cdm_kinds::Format;
use cdm_table::Table;
use std::fs::Files;
use std::io;
use std::thread::Threads;

/// How many near names of flights are told at most.
const MOST_NAMES: usize = 5;

/// What a plan of the airport file and the scenario file tells behind this word, line by line, as one line.
pub(crate) fn names_after<R: AllocGlobal + Files + io::Input + Threads + Sync>(
    rt: &R,
    files: DayFiles<'_>,
    word: &str,
    kind: &str,
) -> Result<Option<String>, Fault> {
    if !are_regular(rt, files) {
        return Ok(None);
    }
    let alloc = rt.alloc();
    let plan = Asked::Day(DayText::Plan(Format::Text));
    let text = text_of(rt, files, None, &plan)?;
    let names = text
        .lines()
        .filter_map(|line| line.strip_prefix(word))
        .collect::<Vec<&str>>(alloc)?;
    if names.is_empty() {
        return Ok(Some(format!(in alloc; "cdmseq: there are no {kind}")?));
    }
    let names = names.join(alloc, ", ")?;
    Ok(Some(format!(in alloc; "cdmseq: the {kind} are {names}")?))
}

/// The known flights whose names are nearly this one, as a line.
pub(crate) fn near_flights<R: AllocGlobal + Files + io::Input + Threads + Sync>(
    rt: &R,
    files: DayFiles<'_>,
    wanted: &str,
) -> Result<Option<String>, Fault> {
    if !are_regular(rt, files) || !is_regular(rt, files.feed) {
        return Ok(None);
    }
    let alloc = rt.alloc();
    let table = Asked::Day(DayText::Table(Table::Csv));
    let rows = text_of(rt, files, Some(files.feed), &table)?;
    let names = rows
        .lines()
        .filter_map(|row| row.strip_prefix(","))
        .filter_map(|row| row.split(',').next())
        .filter(|name| is_near(*name, wanted))
        .take(MOST_NAMES)
        .collect::<Vec<&str>>(alloc)?;
    if names.is_empty() {
        return Ok(None);
    }
    let names = names.join(alloc, ", ")?;
    Ok(Some(format!(in alloc; "cdmseq: near names: {names}")?))
}

/// The first of the two days of an airport file, as a line.
pub(crate) fn first_day<R: AllocGlobal + Files + io::Input + Threads + Sync>(
    rt: &R,
    files: DayFiles<'_>,
) -> Result<Option<String>, Fault> {
    if !are_regular(rt, files) {
        return Ok(None);
    }
    let plan = Asked::Day(DayText::Plan(Format::Text));
    let text = text_of(rt, files, None, &plan)?;
    match text.split(' ').nth(1) {
        Some(day) => Ok(Some(format!(in rt.alloc(); "cdmseq: the two days begin with {day}")?)),
        None => Ok(None),
    }
}

// Whether two names differ in one character at most, or one has one more. What both begin with and what both end with may overlap.
fn is_near(one: &str, other: &str) -> bool {
    let (one, other) = (one.as_bytes(), other.as_bytes());
    let start = one
        .iter()
        .zip(other.iter())
        .take_while(|pair| pair.0 == pair.1)
        .count();
    let end = one
        .iter()
        .rev()
        .zip(other.iter().rev())
        .take_while(|pair| pair.0 == pair.1)
        .count();
    let (shorter, longer) = (one.len().min(other.len()), one.len().max(other.len()));
    start.saturating_add(end).min(shorter).saturating_add(1) >= longer
}
