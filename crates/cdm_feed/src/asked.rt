//! What a run is asked for.
ghost use Rattle.std.specs.Prelude.{◌≡◌};
ghost use Rattle.cdm_feed.specs.Inputs.{third_input};

use cdm_carry::CarryText;
use cdm_check::FilePaths;
use cdm_files::Input;
use cdm_flight::{FlightName, Role};
use cdm_kinds::Format;
use cdm_scenario::ScenarioName;
use cdm_shift::DayQuestion;
use cdm_table::Table;
use cdm_trace::Since;

/// A text about the day that an airport file and a feed make, and about the scenarios of a scenario file over this day.
#[derive(Clone, Copy, PartialEq, Eq, Debug)]
pub enum DayText {
    /// The plan of the day with the feed's refused records, and then the answer to each scenario: a report, or a line of JSON each.
    Plan(Format),
    /// A table of the day and the scenarios.
    Table(Table),
    /// The picture of the day, and of each scenario beneath it.
    Picture,
    /// The answer to a question of the day, or of the day with all updates of the scenario of this name.
    Answer(DayQuestion, Option<ScenarioName>, Format),
    /// Which records of the feed changed which flights, or this one flight. The list begins with the first record after which the clock
    /// is at this time or later.
    Trace(Option<FlightName>, Option<Since>, Format),
    /// What could help this flight: each record that is tried alone, of those that this role may send, if one is named.
    Options(FlightName, Option<Role>, Format),
}

/// What a run is asked for.
#[derive(Clone, Copy, Debug)]
pub enum Asked<'a> {
    /// A text about the day.
    Day(DayText),
    /// What is wrong with the files, which have these paths.
    Check(FilePaths<'a>, Format),
    /// The feed with which the next day begins, or what a person must know before.
    Carry(CarryText),
}

impl Asked<'_> {
    /// The input that is read after the airport file and the feed.
    pub fn third_input(&self) -> Input
        ensures { result ≡ third_input self.now }
    {
        match self {
            Asked::Day(_) | Asked::Check(..) => Input::Scenarios,
            Asked::Carry(_) => Input::NextAirport,
        }
    }
}
