//! The table of kinds.
ghost use Rattle.std.specs.Prelude.{◌≡◌, ◌++◌, IfOk, OnOk, flat_map};
ghost use Rattle.std.specs.String.{string_bytes};
ghost use Rattle.cdm_report.specs.Columns.{left_in};
ghost use Rattle.cdm_kinds.specs.Table.{field_line, heading, kind_columns, kind_lines, kinds_text, range_text, role_text};

use crate::field::Field;
use crate::format::Format;
use crate::kind::Kind;
use crate::objects::json_lines;
use crate::role::role_name;
use cdm_flight::Role;
use std::alloc::{AllocError, Global};

// A word on the left of a column, and blanks behind it.
#[tactic(auto, unfolding(cdm_report::specs::Columns::left_in))]
fn push_left(text: &mut String, width: usize, word: &str) -> Result<(), AllocError>
    ensures { OnOk result (string_bytes text.new ≡ string_bytes text.old ++ left_in width word.now) }
{
    text.push_str(word)?;
    let blanks = width.saturating_sub(word.len());
    for _ in 0..blanks {
        text.push_str(" ")?;
    }
    Ok(())
}

// The roles, with a blank behind each.
fn roles_text(alloc: Global, roles: &[Role]) -> Result<String, AllocError>
    ensures { IfOk result (λ text. string_bytes text ≡ flat_map role_text roles.now) }
{
    let mut text = String::new(alloc);
    for role in roles {
        text.push_str(role_name(*role))?;
        text.push_str(" ")?;
    }
    Ok(text)
}

// What a line says of its kind.
fn push_kind(alloc: Global, text: &mut String, kind: Kind) -> Result<(), AllocError>
    ensures { OnOk result (string_bytes text.new ≡ string_bytes text.old ++ kind_columns kind) }
{
    let roles = roles_text(alloc, kind.roles())?;
    push_left(text, 7, kind.name())?;
    push_left(text, 8, kind.subject().name())?;
    push_left(text, 7, &roles)
}

// A range behind a form, if there is one.
fn push_range(text: &mut String, range: &str) -> Result<(), AllocError>
    ensures { OnOk result (string_bytes text.new ≡ string_bytes text.old ++ range_text range.now) }
{
    if range.is_empty() {
        return Ok(());
    }
    text.push_str(", ")?;
    text.push_str(range)
}

// The line of a field of a kind.
#[tactic(auto, unfolding(crate::specs::Table::field_line))]
fn push_field(alloc: Global, text: &mut String, kind: Kind, field: Field) -> Result<(), AllocError>
    ensures { OnOk result (string_bytes text.new ≡ string_bytes text.old ++ field_line kind field) }
{
    push_kind(alloc, text, kind)?;
    push_left(text, 10, field.name())?;
    text.push_str(field.form())?;
    push_range(text, field.range())?;
    text.push_str("\n")
}

// A line for each field of a kind.
fn push_lines(alloc: Global, text: &mut String, kind: Kind) -> Result<(), AllocError>
    ensures { OnOk result (string_bytes text.new ≡ string_bytes text.old ++ kind_lines kind) }
{
    let fields = kind.fields();
    for field in fields {
        push_field(alloc, text, kind, *field)?;
    }
    Ok(())
}

// The table as lines.
fn text_lines(alloc: Global) -> Result<Vec<u8>, AllocError>
    ensures { IfOk result (λ text. text.items ≡ kinds_text Format.Text) }
{
    let mut text = String::new(alloc);
    text.push_str("KIND   OF      ROLES  FIELD     FORM\n")?;
    let kinds = Kind::all();
    for kind in kinds {
        push_lines(alloc, &mut text, *kind)?;
    }
    Ok(text.into_bytes())
}

/// The table of kinds: as a text a heading and a line for each field of each kind, with the kind's word, what it is of, the
/// roles that may send it, and the field's name, form and range; as JSON an object for each kind, one a line.
pub fn kinds_text(alloc: Global, format: Format) -> Result<Vec<u8>, AllocError>
    ensures { IfOk result (λ text. text.items ≡ kinds_text format) }
{
    match format {
        Format::Text => text_lines(alloc),
        Format::Json => json_lines(alloc),
    }
}
