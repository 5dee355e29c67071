//! Laws of the views of a day.
ghost use Rattle.std.specs.Prelude.{◌≡◌, ℕ, ◌<◌, List, All, Contains, IsTrue, length, sum_by};
ghost use Rattle.cdm_flight.specs.Cells.{is_cell_length};
ghost use Rattle.cdm_runway.specs.Rules.{RunwayRules};
ghost use Rattle.cdm_sequence.specs.declared.plan.Plan.{Plan};
ghost use Rattle.cdm_sequence.specs.declared.slot.Slot.{Slot};
ghost use Rattle.cdm_plan.specs.Airport.{IsAirport};
ghost use Rattle.cdm_plan.specs.Day.{DayRecord};
ghost use Rattle.cdm_view.specs.declared.question.Question.{Question as Asked};
ghost use Rattle.cdm_view.specs.Load.{IsInOneLine, flights_in_cell, told_cells};
ghost use Rattle.cdm_view.specs.Questions.{IsAnswer};

/// Each flight of a runway's slots is told in one line of the runway's load, that of the cell of its
/// take-off.
pub fn each_flight_in_one_line()
    ensures { (rules : RunwayRules) (usual : ℕ) (slots : List Slot) (flight : Slot) →
        IsTrue (is_cell_length rules.cell) → Contains slots flight → flight.ttot < 2880 → IsInOneLine rules usual slots flight }
{}

/// The counts of the lines of a runway's load add up to its slots: no flight is left out, and none is counted
/// twice.
#[tactic(auto, using(crate::proofs::LoadLemmas::counts_add))]
pub fn counts_add_up()
    ensures { (rules : RunwayRules) (usual : ℕ) (slots : List Slot) →
        IsTrue (is_cell_length rules.cell) → All (λ s. s.ttot < 2880) slots →
        sum_by (λ k. length (flights_in_cell rules slots k)) (told_cells rules usual slots) ≡ length slots }
{}

/// A question of a day and its plan has one answer at most.
#[tactic(auto, using(crate::proofs::AnswerLemmas::answer_one))]
pub fn one_answer()
    ensures { (question : Asked) (d : DayRecord) (plan : Plan) (x y : List ℕ) → IsAirport d.airport →
        IsAnswer question d plan x → IsAnswer question d plan y → x ≡ y }
{}
