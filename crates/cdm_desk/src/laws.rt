//! A law of replies.
ghost use Rattle.std.specs.Prelude.{List};
ghost use Rattle.cdm_flight.specs.declared.role.Role.{Role as ARole};
ghost use Rattle.cdm_flight.specs.declared.update.Update.{Update as AnUpdate};
ghost use Rattle.cdm_flight.specs.Accepted.{after_one};
ghost use Rattle.cdm_plan.specs.Day.{DayRecord};
ghost use Rattle.cdm_plan.specs.Sound.{IsSound};
ghost use Rattle.cdm_row.specs.Changed.{Suffice};
ghost use Rattle.cdm_row.specs.declared.row.Row.{Row as ARow};
ghost use Rattle.cdm_desk.specs.Replies.{AreChangedRows, with_one};

/// Who puts the changed Rows of a reply over the Rows that he had before the update has the Rows of the day.
#[tactic(auto, using(crate::proofs::RowReplyLemmas::reply_suffices))]
pub fn replies_suffice()
    ensures { (d : DayRecord) (update : ARole × AnUpdate) (changed : List ARow) → IsSound (with_one d update) →
        (are : AreChangedRows d (with_one d update) changed) → Suffice are.had changed are.has }
{}
