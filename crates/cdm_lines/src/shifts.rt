//! Laws of what a shift is told.
ghost use Rattle.std.specs.Prelude.{ℕ, List};
ghost use Rattle.cdm_sequence.specs.declared.plan.Plan.{Plan};
ghost use Rattle.cdm_plan.specs.Day.{DayRecord};
ghost use Rattle.cdm_kinds.specs.declared.format.Format.TheVariants as format;
ghost use Rattle.cdm_shift.specs.Answers.{IsShiftText};
ghost use Rattle.cdm_shift.specs.declared.question.ShiftQuestion.{ShiftQuestion};
ghost use Rattle.cdm_lines.specs.Lines.{AreLines};

/// The start-ups, the warnings or the causes of a day.
pub fn shift_answers_are_lines()
    ensures { (question : ShiftQuestion) (d : DayRecord) (plan : Plan) (text : List ℕ) →
        IsShiftText format.Json question d plan text → AreLines text }
{}
