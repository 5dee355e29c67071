//! The updates of scenarios that the day refuses.

use crate::day_words::{Before, cause_of_day};
use crate::fields::field_at;
use crate::known::{Known, Source};
use crate::rows::Rows;
use crate::walk::FeedWalk;
use cdm_day::Airport;
use cdm_files::{FileFault, Judged, read_scenarios};
use cdm_flight::RefusalWord;
use cdm_scenario::{Overlay, Scenario};
use std::alloc::{AllocError, Global};

/// The first refused update of a scenario.
#[derive(Clone, Copy)]
struct RefusedUpdate<'a> {
    // How many scenarios come before its own.
    before: usize,
    // Its scenario.
    scenario: &'a Scenario,
    // Its number in it, from 1.
    number: usize,
    // The word that refuses it.
    word: RefusalWord,
}

/// A hint on each scenario with a refused update: the line of the first one, its number, the word and why.
pub(crate) fn refused_updates(
    alloc: Global,
    judged: &Judged,
    feed: &[u8],
    text: &[u8],
) -> Result<Vec<String>, AllocError> {
    match read_scenarios(alloc, judged.state.airport().day(), text) {
        Ok(scenarios) => {
            let refused = refused_in(alloc, judged, &scenarios)?;
            hints_on(alloc, judged, feed, text, &refused)
        }
        Err(FileFault::Refused(_, _)) => Ok(Vec::new(alloc)),
        Err(FileFault::Memory) => Err(AllocError),
    }
}

// The first refused update of each scenario that has one.
fn refused_in<'a>(
    alloc: Global,
    judged: &Judged,
    scenarios: &'a [Scenario],
) -> Result<Vec<RefusedUpdate<'a>>, AllocError> {
    let mut refused = Vec::new(alloc);
    for (before, scenario) in scenarios.iter().enumerate() {
        if let Some((number, word)) = first_refused(alloc, judged, scenario)? {
            refused.push(RefusedUpdate {
                before,
                scenario,
                number,
                word,
            })?;
        }
    }
    Ok(refused)
}

// The number of the first refused update of a scenario, and the word that refuses it, if there is one.
fn first_refused(
    alloc: Global,
    judged: &Judged,
    scenario: &Scenario,
) -> Result<Option<(usize, RefusalWord)>, AllocError> {
    match Overlay::after(alloc, &judged.state, scenario.updates())? {
        Ok(_) => Ok(None),
        Err(refused) => Ok(Some(refused)),
    }
}

// The hints on refused updates.
fn hints_on(
    alloc: Global,
    judged: &Judged,
    feed: &[u8],
    text: &[u8],
    refused: &[RefusedUpdate<'_>],
) -> Result<Vec<String>, AllocError> {
    let mut hints = Vec::new(alloc);
    if refused.is_empty() {
        return Ok(hints);
    }
    let airport = judged.state.airport();
    let mut walk = FeedWalk::new(alloc, airport, feed);
    walk.take_all(&judged.refused)?;
    for update in refused {
        hints.push(update.hint(alloc, airport, walk.known(), text)?)?;
    }
    Ok(hints)
}

impl RefusedUpdate<'_> {
    // The hint on it, at an airport with a feed after which this is known.
    fn hint(
        &self,
        alloc: Global,
        airport: &Airport,
        feed_known: &Known,
        text: &[u8],
    ) -> Result<String, AllocError> {
        let line = self.line(alloc, text)?;
        let sentence = self.sentence(alloc, airport, feed_known)?;
        let (number, name, word) = (self.number, self.scenario.name().text(), self.word);
        format!(in alloc; "line {line}: update {number} of {name} is refused: {word}: {sentence}")
    }

    // Why it is refused. The updates before it were accepted.
    fn sentence(
        &self,
        alloc: Global,
        airport: &Airport,
        feed_known: &Known,
    ) -> Result<String, AllocError> {
        let mut known = feed_known.copy(alloc)?;
        let place = self.number.saturating_sub(1);
        for update in self.scenario.updates().iter().take(place) {
            known.take(Source::Scenario, update)?;
        }
        match self.scenario.updates().get(place) {
            Some(update) => {
                let before = Before {
                    airport,
                    known: &known,
                    later: None,
                };
                cause_of_day(alloc, before, None, update, self.word)
            }
            None => String::from_str(alloc, "the update is refused"),
        }
    }

    // The line on which it begins.
    fn line(&self, alloc: Global, text: &[u8]) -> Result<u64, AllocError> {
        let mut rows = Rows::new(alloc, text);
        self.find(&mut rows, text)?;
        Ok(rows.line())
    }

    // Reads the records of a text up to it.
    fn find(&self, rows: &mut Rows<'_>, text: &[u8]) -> Result<(), AllocError> {
        let mut begun: usize = 0;
        let mut updates: usize = 0;
        for _ in text {
            if !rows.read()? {
                break;
            }
            if field_at(rows.row(), 0) == b"SCENARIO".as_slice() {
                begun = begun.saturating_add(1);
                updates = 0;
            } else {
                updates = updates.saturating_add(1);
            }
            if begun > self.before && updates == self.number {
                break;
            }
        }
        Ok(())
    }
}
