//! Laws of Rows.
ghost use Rattle.std.specs.Prelude.{◌≡◌, ℕ, ◌++◌, List, IsPermutation, true, map};
ghost use Rattle.std.specs.Bool.{Decides};
ghost use Rattle.cdm_flight.specs.declared.update.Update.{Update};
ghost use Rattle.cdm_sequence.specs.declared.plan.Plan.{Plan};
ghost use Rattle.cdm_plan.specs.Day.{DayRecord, flights_in};
ghost use Rattle.cdm_plan.specs.Sound.{IsSound};
ghost use Rattle.cdm_row.specs.declared.row.Row.{Row as ARow};
ghost use Rattle.cdm_row.specs.Changed.{Suffice, changed_rows, same_row};
ghost use Rattle.cdm_row.specs.Rows.{AreRows};

/// Each known flight of a day has one Row, and no other flight has one.
pub fn each_flight_has_one_row()
    ensures { (d : DayRecord) (plan : Plan) (rows : List ARow) → AreRows d plan rows →
        IsPermutation (flights_in d.journal) (map (λ row. row.flight) rows) }
{}

/// Two Rows are found to be one only where they are equal.
#[tactic(auto, using(crate::proofs::EqualRows::rows_decide))]
pub fn same_rows_are_equal()
    ensures { (a b : ARow) → Decides (same_row a b) (a ≡ b) }
{}

/// Who puts the changed Rows of a day over the Rows that he had before further updates has the Rows of the day: a
/// known flight stays known. A Row by its flight's name is all that he needs.
pub fn changed_rows_suffice()
    ensures { (d next : DayRecord) (plan next_plan : Plan) (more : List Update) (had after : List ARow) →
        IsSound next → next.journal ≡ d.journal ++ more → AreRows d plan had → AreRows next next_plan after →
        Suffice had (changed_rows had after) after }
{}
