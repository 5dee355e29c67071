//! Records of the scenario file.
ghost use Rattle.std.specs.Prelude.{◌≡◌};
ghost use Rattle.csv.specs.Records.{fields_of};
ghost use Rattle.cdm_files.specs.ScenarioRecords.{scenario_line_of};

use crate::feed_record::update_of;
use crate::field::field_at;
use cdm_flight::{RefusalWord, Update};
use cdm_scenario::ScenarioName;
use cdm_time::Day;
use csv::ByteRecord;

/// What a record of the scenario file says (local profile).
#[derive(Clone, Copy, PartialEq, Eq)]
pub(crate) enum ScenarioLine {
    /// SCENARIO: a scenario of this name begins.
    Begin(ScenarioName),
    /// An update of the scenario that began last.
    Next(Update),
}

/// What a record of the scenario file spells, or the first word that refuses it: Fields where it is
/// SCENARIO or a known kind with another number of fields, Kind, Text or Range. Times are minutes of
/// the horizon that begins on `day`.
#[tactic(auto, unfolding(crate::specs::ScenarioRecords::scenario_line_of, crate::specs::Fields::name_field))]
pub(crate) fn scenario_line(day: Day, row: &ByteRecord) -> Result<ScenarioLine, RefusalWord>
    ensures { result ≡ scenario_line_of day (fields_of row.now) }
{
    let word = field_at(row, 0);
    if word == b"SCENARIO".as_slice() {
        if row.len() != 2 {
            return Err(RefusalWord::Fields);
        }
        let name = ScenarioName::new(field_at(row, 1)).ok_or(RefusalWord::Text)?;
        return Ok(ScenarioLine::Begin(name));
    }
    Ok(ScenarioLine::Next(update_of(day, word, row, 1)?))
}
