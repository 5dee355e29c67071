//! Laws of a served day.
ghost use Rattle.std.specs.Prelude.{◌∷◌, ◌++◌, [], ℕ, Bool, List, Result, Some, codes};
ghost use Rattle.std.specs.List.{AllByRecursion};
ghost use Rattle.cdm_check.specs.Check.{cause_members};
ghost use Rattle.cdm_desk.specs.declared.reply.RowReply.{RowReply as AReply};
ghost use Rattle.cdm_flight.specs.Journal.{AirportRows};
ghost use Rattle.cdm_flight.specs.declared.role.Role.{Role as ARole};
ghost use Rattle.cdm_flight.specs.declared.update.Update.{Update as AnUpdate};
ghost use Rattle.cdm_flight.specs.declared.word.RefusalWord.{RefusalWord as AWord};
ghost use Rattle.cdm_journal.specs.Lines.{LineRecord};
ghost use Rattle.cdm_json.specs.Lines.{head_members};
ghost use Rattle.cdm_plan.specs.Airport.{IsAirport};
ghost use Rattle.cdm_plan.specs.Day.{DayRecord};
ghost use Rattle.cdm_plan.specs.Sound.{IsSound};
ghost use Rattle.cdm_port.specs.Event.{Event};
ghost use Rattle.cdm_row.specs.Json.{count_json, object_of};
ghost use Rattle.cdm_serve.specs.Requests.{request_of};
ghost use Rattle.cdm_serve.specs.Served.{IsHeard, IsReplyTo, IsServed, IsStopped, answered};
ghost use Rattle.cdm_lines.specs.Lines.{FitsLine};
ghost use Rattle.cdm_lines.specs.Readers.{AreRowReplies, HasRows, Reader, day_after_all, with_replies};
ghost use Rattle.cdm_lines.specs.Replies.{AreReplyLines, RepliesLine, json_form};

/// How many updates the day has at the start.
pub fn ready_fits_line()
    ensures { (count : ℕ) → FitsLine (object_of ((codes "ready", count_json count) ∷ [])) }
{}

/// The reply to a record or a question that is refused, with its sentence.
pub fn explained_fits_line()
    ensures { (number : ℕ) (word : AWord) (sentence : List ℕ) →
        FitsLine (object_of (head_members (Some number) (codes "REFUSED") ++ cause_members word sentence)) }
{}

/// A line of the input has one line as its reply, whatever it says or asks; a blank one has none.
pub fn replies_are_lines()
    ensures { (sentences : Bool) (d : DayRecord) (line : LineRecord) (number : ℕ) (reply : List ℕ) → IsAirport d.airport →
        IsReplyTo (json_form sentences) d number (request_of d.airport.day line) reply → AllByRecursion RepliesLine (answered d line reply) }
{}

/// Whatever happens while a day is served, each reply is one line.
pub fn served_replies_are_lines()
    ensures { (sentences : Bool) (g : AirportRows) (marked : Bool) (bytes : List ℕ) (next : Event) (whole : List Event) → IsAirport g → IsHeard next →
        IsServed (json_form sentences) g marked bytes next whole → AllByRecursion RepliesLine whole }
{}

/// Wherever a served day stops, each reply is one line, of which the last may be incomplete.
pub fn stopped_replies_are_lines()
    ensures { (sentences : Bool) (g : AirportRows) (marked : Bool) (done : List Event) → IsAirport g →
        IsStopped (json_form sentences) g marked done → AreReplyLines done }
{}

/// Who has the Rows of a day, and puts the Rows of each reply in the place of his own, has the Rows of the day after any number
/// of records, also refused ones.
pub fn readers_keep_up()
    ensures { (d : DayRecord) (records : List (Result (ARole × AnUpdate) AWord)) (replies : List AReply) (has : Reader) →
        IsSound d → HasRows d has → AreRowReplies d records replies → HasRows (day_after_all d records) (with_replies has replies) }
{}
