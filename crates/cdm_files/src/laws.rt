//! Laws of the records that are read.
ghost use Rattle.std.specs.Prelude.{◌≡◌, ◌≢◌, ◌+◌, ℕ, List, Ok, Err, Some, length};
ghost use Rattle.cdm_time.specs.declared.calendar.CalendarDate.{CalendarDate};
ghost use Rattle.cdm_flight.specs.declared.role.Role.{Role};
ghost use Rattle.cdm_flight.specs.declared.update.Update.{Update};
ghost use Rattle.cdm_flight.specs.declared.word.RefusalWord.TheVariants as word;
ghost use Rattle.cdm_kinds.specs.Kinds.{fields_of, kind_named, kind_of};
ghost use Rattle.cdm_kinds.specs.declared.kind.Kind.{Kind};
ghost use Rattle.cdm_files.specs.Fields.{field};
ghost use Rattle.cdm_files.specs.Parsing.{parse_of};
ghost use Rattle.cdm_files.specs.Records.{records_of};
ghost use Rattle.cdm_files.specs.Written.{AreWritten, Field, Line, records_in, text_of};

/// Records are read back as they were written: a field without a comma, quote or line end as it stands, any
/// other in quotes with its own quotes doubled; commas between the fields; LF or CR LF at the end of each
/// line, which the last needn't have. A line without fields is blank and no record. By this law a reader
/// can check the grammar of records, which is that of `csv`.
#[tactic(auto, using(crate::proofs::WrittenLemmas::read_back))]
pub fn records_are_read_back()
    ensures { (lines : List Line) (last : List Field) → AreWritten lines last → records_of (text_of lines last) ≡ records_in lines last }
{}

/// A record that names a kind and has another number of fields than the table of kinds says, behind its role and its kind, is
/// refused by Fields, whoever sends it.
#[tactic(auto, using(crate::proofs::KindLemmas::wrong_count))]
pub fn wrong_counts_are_refused()
    ensures { (day : CalendarDate) (fields : List (List ℕ)) (kind : Kind) → kind_named (field fields 1) ≡ Some kind
        → length fields ≢ length (fields_of kind) + 2 → parse_of day fields ≡ Err word.Fields }
{}

/// A record that spells an update names its kind. So who may send it is as the table of kinds says (`kinds_have_their_roles`
/// of `cdm_kinds`).
#[tactic(auto, using(crate::proofs::KindLemmas::named_kind))]
pub fn records_name_their_kind()
    ensures { (day : CalendarDate) (fields : List (List ℕ)) (role : Role) (u : Update) → parse_of day fields ≡ Ok (role, u)
        → kind_named (field fields 1) ≡ Some (kind_of u) }
{}
