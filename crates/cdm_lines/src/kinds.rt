//! Laws of the table of kinds.
ghost use Rattle.cdm_json.specs.Lines.{IsReadBack};
ghost use Rattle.cdm_kinds.specs.Table.{kind_json, kinds_text};
ghost use Rattle.cdm_kinds.specs.declared.format.Format.TheVariants as format;
ghost use Rattle.cdm_kinds.specs.declared.kind.Kind.{Kind};
ghost use Rattle.cdm_lines.specs.Lines.{AreLines, FitsLine};

/// A kind.
pub fn kind_fits_line()
    ensures { (kind : Kind) → FitsLine (kind_json kind) }
{}

/// A kind has no number, so its line is read back whatever it is.
pub fn kinds_are_read_back()
    ensures { (kind : Kind) → IsReadBack (kind_json kind) }
{}

/// The table.
pub fn kinds_are_lines()
    ensures { AreLines (kinds_text format.Json) }
{}
