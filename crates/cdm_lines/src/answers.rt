//! Laws of plans, answers and replies.
ghost use Rattle.std.specs.Prelude.{◌++◌, ℕ, List, Option, Some, codes, map};
ghost use Rattle.cdm_time.specs.declared.calendar.CalendarDate.{CalendarDate};
ghost use Rattle.cdm_flight.specs.Journal.{AirportRows};
ghost use Rattle.cdm_flight.specs.declared.flight.Flight.{Flight};
ghost use Rattle.cdm_flight.specs.declared.word.RefusalWord.{RefusalWord};
ghost use Rattle.cdm_runway.specs.Rules.{RunwayRules};
ghost use Rattle.cdm_sequence.specs.declared.plan.Plan.{Plan};
ghost use Rattle.cdm_plan.specs.Day.{DayRecord};
ghost use Rattle.cdm_view.specs.declared.question.Question.{Question};
ghost use Rattle.cdm_view.specs.declared.runs.Run.{Run};
ghost use Rattle.cdm_row.specs.Columns.{Value};
ghost use Rattle.cdm_row.specs.Json.{json_value, object_of};
ghost use Rattle.cdm_row.specs.declared.row.Row.{Row};
ghost use Rattle.cdm_json.specs.Answers.{IsJsonAnswer};
ghost use Rattle.cdm_json.specs.Lines.{head_members};
ghost use Rattle.cdm_json.specs.Loads.{load_members};
ghost use Rattle.cdm_json.specs.Plans.{number_of, plan_members, scenario_of};
ghost use Rattle.cdm_json.specs.Records.{accepted_members, refused_members};
ghost use Rattle.cdm_json.specs.Whys.{why_members};
ghost use Rattle.cdm_json.specs.declared.plan.PlanOf.{PlanOf};
ghost use Rattle.cdm_lines.specs.Lines.{AreLines, FitsLine};

/// A line whose members are values of columns.
pub fn values_fit_line()
    ensures { (day : CalendarDate) (members : List (List ℕ × Value)) →
        FitsLine (object_of (map (λ m. (m.0, json_value day m.1)) members)) }
{}

/// A plan.
pub fn plan_fits_line()
    ensures { (day : CalendarDate) (of : PlanOf) (plan : Plan) (rows : List Row) (refused : List (ℕ × RefusalWord)) →
        FitsLine (object_of (head_members (number_of of) (codes "PLAN") ++ plan_members day (scenario_of of) plan rows refused)) }
{}

/// What holds a flight.
pub fn why_fits_line()
    ensures { (day : CalendarDate) (number : Option ℕ) (plan : Plan) (f : Flight) (row : Option Row) (runs : List Run) →
        FitsLine (object_of (head_members number (codes "WHY") ++ why_members day plan f row runs)) }
{}

/// How full a runway is.
pub fn load_fits_line()
    ensures { (g : AirportRows) (number : Option ℕ) (plan : Plan) (rules : RunwayRules) →
        FitsLine (object_of (head_members number (codes "LOAD") ++ load_members g plan rules)) }
{}

/// The reply to a record that is accepted.
pub fn accepted_fits_line()
    ensures { (day : CalendarDate) (number count : ℕ) (rows : List Row) →
        FitsLine (object_of (head_members (Some number) (codes "ACCEPTED") ++ accepted_members day count rows)) }
{}

/// The reply to a record or a question that is refused.
pub fn refused_fits_line()
    ensures { (number : ℕ) (word : RefusalWord) →
        FitsLine (object_of (head_members (Some number) (codes "REFUSED") ++ refused_members word)) }
{}

/// An answer to a question of a day.
pub fn answers_are_lines()
    ensures { (question : Question) (d : DayRecord) (number : Option ℕ) (plan : Plan) (text : List ℕ) →
        IsJsonAnswer question d number plan text → AreLines text }
{}
