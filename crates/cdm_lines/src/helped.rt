//! Laws of what could help a flight.
ghost use Rattle.std.specs.Prelude.{◌++◌, ℕ, List, Option, Some, codes, map};
ghost use Rattle.cdm_time.specs.declared.calendar.CalendarDate.{CalendarDate};
ghost use Rattle.cdm_flight.specs.declared.flight.Flight.{Flight};
ghost use Rattle.cdm_flight.specs.declared.role.Role.{Role as ARole};
ghost use Rattle.cdm_json.specs.Lines.{head_members};
ghost use Rattle.cdm_kinds.specs.declared.format.Format.TheVariants as format;
ghost use Rattle.cdm_options.specs.declared.options.Options.{Options};
ghost use Rattle.cdm_options_text.specs.Objects.{flight_members, helping_member, member_of};
ghost use Rattle.cdm_options_text.specs.Texts.{IsOptionsText};
ghost use Rattle.cdm_plan.specs.Day.{DayRecord};
ghost use Rattle.cdm_row.specs.Json.{object_of};
ghost use Rattle.cdm_lines.specs.Lines.{AreLines, FitsLine};

/// The reply to a question.
pub fn options_reply_fits_line()
    ensures { (number : ℕ) (day : CalendarDate) (o : Options) →
        FitsLine (object_of (head_members (Some number) (codes "OPTIONS") ++ (map (member_of day) (flight_members o) ++ helping_member day o))) }
{}

/// What could help a flight, line by line.
pub fn options_are_lines()
    ensures { (d : DayRecord) (known : Option Flight) (role : Option ARole) (text : List ℕ) →
        IsOptionsText format.Json d known role text → AreLines text }
{}
