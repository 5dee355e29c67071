//! Laws of a trace.
ghost use Rattle.std.specs.Prelude.{◌++◌, ◌∷◌, [], ℕ, List, Option, codes};
ghost use Rattle.cdm_time.specs.declared.calendar.CalendarDate.{CalendarDate};
ghost use Rattle.cdm_flight.specs.Journal.{AirportRows};
ghost use Rattle.cdm_kinds.specs.declared.format.Format.TheVariants as format;
ghost use Rattle.cdm_plan.specs.Day.{DayRecord};
ghost use Rattle.cdm_row.specs.Json.{object_of, row_json};
ghost use Rattle.cdm_row.specs.declared.row.Row.{Row};
ghost use Rattle.cdm_trace.specs.Traces.{IsPiece, IsTrace, record_members};
ghost use Rattle.cdm_lines.specs.Lines.{AreLines, FitsLine};

/// A record that changes a flight.
pub fn moved_fits_line()
    ensures { (day : CalendarDate) (number : ℕ) (fields : List (List ℕ)) (row : Row) →
        FitsLine (object_of (record_members number fields ++ (codes "row", row_json day row) ∷ [])) }
{}

/// What a trace tells of a record of this number, which comes after this day: a line or none.
pub fn told_records_are_lines()
    ensures { (asked : Option (List ℕ)) (d : DayRecord) (number : ℕ) (fields : List (List ℕ)) (piece : List ℕ) →
        IsPiece format.Json asked d number fields piece → AreLines piece }
{}

/// A trace from a minute on.
pub fn traces_are_lines()
    ensures { (asked : Option (List ℕ)) (from : ℕ) (g : AirportRows) (feed text : List ℕ) →
        IsTrace format.Json asked from g feed text → AreLines text }
{}
