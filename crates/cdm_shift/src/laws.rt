//! Laws of what a shift is told.
ghost use Rattle.std.specs.Prelude.{◌≡◌, ℕ, ◌+◌, List, Option, Some, length, map};
ghost use Rattle.std.specs.List.{IsDistinct};
ghost use Rattle.std.specs.Option.{IsSomeAnd};
ghost use Rattle.cdm_flight.specs.Names.{same_name};
ghost use Rattle.cdm_flight.specs.declared.flight.Flight.{Flight};
ghost use Rattle.cdm_kinds.specs.declared.format.Format.{Format as AFormat};
ghost use Rattle.cdm_sequence.specs.declared.plan.Plan.{Plan};
ghost use Rattle.cdm_sequence.specs.declared.slot.Slot.{Slot};
ghost use Rattle.cdm_plan.specs.Airport.{IsAirport};
ghost use Rattle.cdm_plan.specs.Day.{DayRecord, flights_in};
ghost use Rattle.cdm_plan.specs.DayPlan.{IsDayPlan};
ghost use Rattle.cdm_plan.specs.Sound.{IsSound};
ghost use Rattle.cdm_report.specs.Counts.{counts_of};
ghost use Rattle.cdm_row.specs.Rows.{AreRows};
ghost use Rattle.cdm_row.specs.declared.row.Row.{Row as ARow};
ghost use Rattle.cdm_view.specs.Reasons.{Waiting};
ghost use Rattle.cdm_view.specs.Waits.{Waits};
ghost use Rattle.cdm_view.specs.Why.{own_slot};
ghost use Rattle.cdm_shift.specs.Answers.{IsDayAnswer};
ghost use Rattle.cdm_shift.specs.Costs.{AreGroups, costs_of, groups_of, on_stand};
ghost use Rattle.cdm_shift.specs.Held.{causes_of};
ghost use Rattle.cdm_shift.specs.Objects.{costs_members, start_up_members, warning_members};
ghost use Rattle.cdm_shift.specs.Sheets.{costs_columns, start_up_columns, warning_columns};
ghost use Rattle.cdm_shift.specs.StartUps.{AreStarting, starting};
ghost use Rattle.cdm_shift.specs.declared.costs.Costs.{Costs as TheCosts};
ghost use Rattle.cdm_shift.specs.declared.start_ups.StartUp.{StartUp as AStartUp};
ghost use Rattle.cdm_shift.specs.declared.warning.Warning.{Warning as AWarning};
ghost use Rattle.cdm_shift.specs.declared.question.DayQuestion.{DayQuestion as AQuestion};
ghost use Rattle.cdm_shift.specs.declared.question.GroupBy.{GroupBy as Grouping};

use cdm_view::{
    a_placed_flight_waits_its_delay, a_reason_has_a_cause, a_waiting_flight_is_placed_or_blocked,
};

/// A question of a day and its plan has one answer at most.
#[tactic(auto, using(crate::proofs::OneAnswer::answer_one))]
pub fn one_day_answer()
    ensures { (format : AFormat) (question : AQuestion) (d : DayRecord) (plan : Plan) (x y : List ℕ) → IsAirport d.airport →
        IsDistinct same_name (flights_in d.journal) → IsDayPlan d plan → IsDayAnswer format question d plan x →
        IsDayAnswer format question d plan y → x ≡ y }
{}

/// A flight on its stand that has a TOBT, a runway, a taxi-out time and a slot is held for the minutes of its delay, each by one
/// cause.
pub fn a_slot_is_held_its_delay()
    ensures { (d : DayRecord) (plan : Plan) (f : Flight) (w : Waiting) (s : Slot) → Waits d plan f w → own_slot plan f ≡ Some s →
        IsSomeAnd s.delay (λ delay. length (causes_of d plan f) ≡ delay) }
{
    a_placed_flight_waits_its_delay();
    a_waiting_flight_is_placed_or_blocked();
    a_reason_has_a_cause();
}

/// The minutes of the six causes add up to the delay.
#[tactic(auto, using(crate::proofs::CostLemmas::add_up))]
pub fn the_causes_add_up()
    ensures { (d : DayRecord) (plan : Plan) (rows : List ARow) → let c = costs_of d plan rows in
        c.ice + c.ctot + c.closure + c.spacing + c.rate + c.clock ≡ c.delay }
{}

/// The delay of all flights on their stands, which `causes` tells as TOTAL, is that of the report.
pub fn the_total_is_the_reports()
    ensures { (d : DayRecord) (plan : Plan) (rows : List ARow) → IsSound d → IsDayPlan d plan → AreRows d plan rows →
        (costs_of d plan (on_stand rows)).delay ≡ (counts_of plan).delay }
{
    a_slot_is_held_its_delay();
}

/// The groups of Rows are in their order, each once, and exactly those that a Row has. No other list is so.
pub fn groups_are_those_of_rows()
    ensures are { (by : Grouping) (rows : List ARow) → AreGroups by rows (groups_of by rows) }
    ensures only { (by : Grouping) (rows : List ARow) (xs ys : List (Option (List ℕ))) → AreGroups by rows xs → AreGroups by rows ys → xs ≡ ys }
{}

/// Of the Rows of a day, the start-ups before a minute are those of exactly the flights that start up before it, by TSAT and then by
/// name. No other list is so.
pub fn start_ups_are_those_ahead()
    ensures are { (d : DayRecord) (plan : Plan) (rows : List ARow) (minute : ℕ) → IsDistinct same_name (flights_in d.journal) →
        AreRows d plan rows → AreStarting rows minute (starting rows minute) }
    ensures only { (d : DayRecord) (plan : Plan) (rows : List ARow) (minute : ℕ) (xs ys : List ARow) →
        IsDistinct same_name (flights_in d.journal) → AreRows d plan rows →
        AreStarting rows minute xs → AreStarting rows minute ys → xs ≡ ys }
{}

/// The columns of CSV are the members of JSON, in their order.
#[tactic(auto, unfolding(crate::specs::Objects::start_up_members, crate::specs::Objects::warning_members, crate::specs::Objects::costs_members, crate::specs::Sheets::start_up_columns, crate::specs::Sheets::warning_columns, crate::specs::Sheets::costs_columns))]
pub fn columns_are_members()
    ensures start_ups { (s : AStartUp) → map (λ m. m.0) (start_up_members s) ≡ start_up_columns }
    ensures warnings { (w : AWarning) → map (λ m. m.0) (warning_members w) ≡ warning_columns }
    ensures costs { (name : List ℕ) (c : TheCosts) → map (λ m. m.0) (costs_members name c) ≡ costs_columns }
{}
