//! A law of answers.
ghost use Rattle.std.specs.Prelude.{◌≡◌, ℕ, List, Option};
ghost use Rattle.std.specs.List.{IsDistinct};
ghost use Rattle.cdm_flight.specs.Names.{same_name};
ghost use Rattle.cdm_sequence.specs.declared.plan.Plan.{Plan};
ghost use Rattle.cdm_plan.specs.Airport.{IsAirport};
ghost use Rattle.cdm_plan.specs.Day.{DayRecord, flights_in};
ghost use Rattle.cdm_plan.specs.DayPlan.{IsDayPlan};
ghost use Rattle.cdm_view.specs.declared.question.Question.{Question as Asked};
ghost use Rattle.cdm_json.specs.Answers.{IsJsonAnswer};

/// A question of a day and its plan has one answer at most.
#[tactic(auto, using(crate::proofs::OneAnswer::answer_one))]
pub fn one_json_answer()
    ensures { (question : Asked) (d : DayRecord) (number : Option ℕ) (plan : Plan) (x y : List ℕ) → IsAirport d.airport →
        IsDistinct same_name (flights_in d.journal) → IsDayPlan d plan → IsJsonAnswer question d number plan x →
        IsJsonAnswer question d number plan y → x ≡ y }
{}
