//! The words of a picture. They are made of names, numbers, times and fixed words alone, none of which has
//! a `<` or an `&`, and only here.
ghost use Rattle.std.specs.Prelude.{◌≡◌, IfOk};
ghost use Rattle.cdm_report.specs.Report.{day_line};
ghost use Rattle.cdm_picture.specs.Sections.{refused_heading, scenario_heading};

use cdm_flight::{RefusalWord, RunwayName};
use cdm_report::{Counts, push_day};
use cdm_scenario::ScenarioName;
use cdm_time::{Day, Minute};
use cdm_view::{Run, push_runs};
use std::alloc::{AllocError, Global};
use std::fmt::Write;
use std::marker::Model;
use std::str;

/// How many runs of waiting are told of a flight at most.
const MOST_RUNS: usize = 12;

/// The first minute of the second day.
const SECOND_DAY: u16 = 1440;

/// Words of a picture.
#[derive(Debug, Drop)]
pub struct Words {
    text: String,
}

impl Model for Words {
    ghost use Rattle.std.specs.Prelude.{ℕ, List};
    ghost use Rattle.std.specs.String.{string_bytes};

    ghost Value = { List ℕ };

    ghost view = { λ w. string_bytes w.text };
}

impl Words {
    /// The words as text.
    pub(crate) fn text(&self) -> &str
        ensures { result.now ≡ self.now }
    {
        self.text.as_str()
    }

    /// Words that are the same in each picture.
    pub(crate) fn fixed(alloc: Global, words: &'static str) -> Result<Words, AllocError> {
        Ok(Words {
            text: String::from_str(alloc, words)?,
        })
    }

    /// The name of a runway.
    pub(crate) fn runway(alloc: Global, name: RunwayName) -> Result<Words, AllocError> {
        Ok(Words {
            text: String::from_str(alloc, name.text())?,
        })
    }

    /// How long the cells of a runway are, in minutes.
    pub(crate) fn cells(alloc: Global, minutes: u16) -> Result<Words, AllocError> {
        Ok(Words {
            text: format!(in alloc; "cells of {minutes} min")?,
        })
    }

    /// How many flights there are, and how many a cell takes, with a mark where it takes fewer.
    pub(crate) fn load(alloc: Global, count: u32, cap: u32) -> Result<Words, AllocError> {
        let note = if count > cap { " !" } else { "" };
        Ok(Words {
            text: format!(in alloc; "{count}/{cap}{note}")?,
        })
    }

    /// A time of the clock, HH:MM, and where the second day begins the day of the month behind it.
    pub(crate) fn clock(alloc: Global, day: Day, minute: Minute) -> Result<Words, AllocError> {
        let stamp = day.print(minute);
        let stamp = str::from_utf8(&stamp).unwrap();
        Ok(Words {
            text: clock_text(alloc, stamp, minute.get() == SECOND_DAY)?,
        })
    }

    /// The indicators of a plan.
    pub(crate) fn counts(alloc: Global, counts: &Counts) -> Result<Words, AllocError> {
        let Counts {
            placed,
            delay,
            greatest,
            late,
            blocked,
            ..
        } = *counts;
        Ok(Words {
            text: format!(in alloc;
                "PLACED {placed}  DELAY {delay}  MAX {greatest}  LATE {late}  BLOCKED {blocked}"
            )?,
        })
    }

    /// The day, and the minute that it is now.
    pub(crate) fn day(alloc: Global, day: Day, now: Minute) -> Result<Words, AllocError>
        ensures { IfOk result (λ words. words ≡ day_line day now) }
    {
        let mut text = String::new(alloc);
        push_day(&mut text, day, now)?;
        Ok(Words { text })
    }

    /// The name of a scenario.
    #[tactic(auto, unfolding(crate::specs::Sections::scenario_heading))]
    pub(crate) fn scenario(alloc: Global, name: &ScenarioName) -> Result<Words, AllocError>
        ensures { IfOk result (λ words. words ≡ scenario_heading name.now) }
    {
        let name = name.text();
        let mut text = String::new(alloc);
        write!(text, "SCENARIO {name}")?;
        Ok(Words { text })
    }

    /// The name of a scenario that is refused, the number of the update that is, and the word.
    #[tactic(auto, unfolding(crate::specs::Sections::refused_heading))]
    pub(crate) fn refused(
        alloc: Global,
        name: &ScenarioName,
        number: usize,
        word: RefusalWord,
    ) -> Result<Words, AllocError>
        ensures { IfOk result (λ words. words ≡ refused_heading name.now number word) }
    {
        let name = name.text();
        let word = word.text();
        let mut text = String::new(alloc);
        write!(text, "SCENARIO {name} REFUSED {number} {word}")?;
        Ok(Words { text })
    }

    /// What a flight waits for, of which so many runs are told at most.
    pub(crate) fn waits(alloc: Global, day: Day, runs: &[Run]) -> Result<Words, AllocError> {
        let mut text = String::new(alloc);
        let told = runs.len().min(MOST_RUNS);
        push_runs(&mut text, day, &runs[..told])?;
        let more = runs.len() - told;
        if more > 0 {
            writeln!(text, "and {more} more: cdmseq why")?;
        }
        Ok(Words { text })
    }
}

// The hour and the minute of a stamp, DDHHMM, and its day if that is asked for.
fn clock_text(alloc: Global, stamp: &str, with_day: bool) -> Result<String, AllocError> {
    let day = stamp.get(..2).unwrap_or_default();
    let hour = stamp.get(2..4).unwrap_or_default();
    let minute = stamp.get(4..6).unwrap_or_default();
    if with_day {
        format!(in alloc; "{hour}:{minute} ({day})")
    } else {
        format!(in alloc; "{hour}:{minute}")
    }
}
