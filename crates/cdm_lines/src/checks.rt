//! Laws of a check.
ghost use Rattle.std.specs.Prelude.{◌++◌, ℕ, List};
ghost use Rattle.cdm_flight.specs.declared.word.RefusalWord.{RefusalWord};
ghost use Rattle.cdm_kinds.specs.declared.format.Format.TheVariants as format;
ghost use Rattle.cdm_row.specs.Json.{object_of};
ghost use Rattle.cdm_check.specs.Check.{IsCheck, cause_members, hint_members, last_members, place_members};
ghost use Rattle.cdm_check.specs.Findings.{File};
ghost use Rattle.cdm_lines.specs.Lines.{AreLines, FitsLine};

/// A refused record.
pub fn finding_fits_line()
    ensures { (path : List ℕ) (line number : ℕ) (word : RefusalWord) (sentence : List ℕ) →
        FitsLine (object_of (place_members path line number ++ cause_members word sentence)) }
{}

/// A hint on a file.
pub fn hint_fits_line()
    ensures { (path hint : List ℕ) → FitsLine (object_of (hint_members path hint)) }
{}

/// The last line.
pub fn last_fits_line()
    ensures { (records refused : ℕ) → FitsLine (object_of (last_members records refused)) }
{}

/// A check.
pub fn checks_are_lines()
    ensures { (a f s : File) (text : List ℕ) → IsCheck format.Json a f s text → AreLines text }
{}
