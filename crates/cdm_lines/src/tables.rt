//! Laws of tables over a day and its scenarios.
ghost use Rattle.std.specs.Prelude.{◌++◌, ◌∷◌, ℕ, List, Option, codes};
ghost use Rattle.json.specs.Json.{string as a_string};
ghost use Rattle.cdm_time.specs.declared.calendar.CalendarDate.{CalendarDate};
ghost use Rattle.cdm_flight.specs.declared.word.RefusalWord.{RefusalWord};
ghost use Rattle.cdm_plan.specs.Day.{DayRecord};
ghost use Rattle.cdm_row.specs.Json.{object_of};
ghost use Rattle.cdm_row.specs.declared.row.Row.{Row};
ghost use Rattle.cdm_scenario.specs.Scenarios.{ScenarioRecord};
ghost use Rattle.cdm_table.specs.ComparisonJson.{IsComparisonJson, change_members, name_members, summary_members};
ghost use Rattle.cdm_table.specs.Plans.{IsPlans, refusal_members};
ghost use Rattle.cdm_table.specs.Sweep.{IsSweepJson, at_members};
ghost use Rattle.cdm_table.specs.declared.line.Summary.{Summary};
ghost use Rattle.cdm_lines.specs.Lines.{AreLines, FitsLine};

/// A scenario that is refused.
pub fn refusal_fits_line()
    ensures { (name : List ℕ) (number : ℕ) (word : RefusalWord) →
        FitsLine (object_of ((codes "scenario", a_string name) ∷ refusal_members number word)) }
{}

/// A line of a comparison.
pub fn summary_fits_line()
    ensures { (name : Option (List ℕ)) (s : Summary) → FitsLine (object_of (name_members name ++ summary_members s)) }
{}

/// A line of a comparison at steps.
pub fn step_fits_line()
    ensures { (day : CalendarDate) (name : Option (List ℕ)) (at : Option ℕ) (s : Summary) →
        FitsLine (object_of (name_members name ++ (at_members day at ++ summary_members s))) }
{}

/// A flight that a scenario changes.
pub fn change_fits_line()
    ensures { (day : CalendarDate) (name : List ℕ) (before after : Option Row) →
        FitsLine (object_of (change_members day name before after)) }
{}

/// The plans of a day and its scenarios.
pub fn plans_are_lines()
    ensures { (d : DayRecord) (refused : List (ℕ × RefusalWord)) (scenarios : List ScenarioRecord) (text : List ℕ) →
        IsPlans d refused scenarios text → AreLines text }
{}

/// A comparison.
pub fn comparisons_are_lines()
    ensures { (d : DayRecord) (scenarios : List ScenarioRecord) (asked : Option DayRecord) (text : List ℕ) →
        IsComparisonJson d scenarios asked text → AreLines text }
{}

/// A comparison at steps.
pub fn sweeps_are_lines()
    ensures { (d : DayRecord) (scenarios : List ScenarioRecord) (minutes : List ℕ) (text : List ℕ) →
        IsSweepJson d scenarios minutes text → AreLines text }
{}
