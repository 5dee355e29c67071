//! The table of kinds as JSON.
ghost use Rattle.std.specs.Prelude.{◌≡◌, ◌∷◌, ◌++◌, [], IfOk, OnOk, codes, flat_map, map};
ghost use Rattle.json.specs.Json.{array};
ghost use Rattle.json.specs.Token.{key, string};
ghost use Rattle.json.specs.Tree.{json_tokens};
ghost use Rattle.cdm_kinds.specs.Table.{field_items, field_json, json_line, kind_json, kinds_text, range_json, string_items};
ghost use Rattle.cdm_kinds.specs.Words.{role_name};

use crate::field::Field;
use crate::format::Format;
use crate::kind::Kind;
use crate::role::role_name;
use cdm_flight::Role;
use json::Writer;
use std::alloc::{AllocError, Global};

// A member that is a text.
fn push_text(writer: &mut Writer<Global>, name: &str, text: &str) -> Result<(), AllocError>
    ensures tokens { OnOk result (writer.new.tokens ≡ writer.old.tokens ++ key name.now ∷ string text.now ∷ []) }
    ensures before { writer.new.before ≡ writer.old.before }
{
    writer.key(name)?;
    writer.string(text)
}

// The words of roles, one after another.
fn push_words(writer: &mut Writer<Global>, roles: &[Role]) -> Result<(), AllocError>
    ensures tokens { OnOk result (writer.new.tokens ≡ writer.old.tokens ++ map (λ role. string (role_name role)) roles.now) }
    ensures before { writer.new.before ≡ writer.old.before }
{
    for role in roles {
        writer.string(role_name(*role))?;
    }
    Ok(())
}

// The member of the roles.
fn push_roles(writer: &mut Writer<Global>, roles: &[Role]) -> Result<(), AllocError>
    ensures tokens { OnOk result (writer.new.tokens ≡ writer.old.tokens ++ key (codes "roles") ∷ json_tokens (array (string_items (map role_name roles.now)))) }
    ensures before { writer.new.before ≡ writer.old.before }
{
    writer.key("roles")?;
    writer.begin_array()?;
    push_words(writer, roles)?;
    writer.end_array()
}

// The member of a range, or null where there is none.
fn push_range(writer: &mut Writer<Global>, range: &str) -> Result<(), AllocError>
    ensures tokens { OnOk result (writer.new.tokens ≡ writer.old.tokens ++ key (codes "range") ∷ json_tokens (range_json range.now)) }
    ensures before { writer.new.before ≡ writer.old.before }
{
    writer.key("range")?;
    if range.is_empty() {
        writer.null()
    } else {
        writer.string(range)
    }
}

// A field: its name, form and range.
#[tactic(auto, using(crate::proofs::TokenLemmas::field_tokens))]
fn push_field(writer: &mut Writer<Global>, field: Field) -> Result<(), AllocError>
    ensures tokens { OnOk result (writer.new.tokens ≡ writer.old.tokens ++ json_tokens (field_json field)) }
    ensures before { writer.new.before ≡ writer.old.before }
{
    writer.begin_object()?;
    push_text(writer, "name", field.name())?;
    push_text(writer, "form", field.form())?;
    push_range(writer, field.range())?;
    writer.end_object()
}

// Fields, one after another.
fn push_each(writer: &mut Writer<Global>, fields: &[Field]) -> Result<(), AllocError>
    ensures tokens { OnOk result (writer.new.tokens ≡ writer.old.tokens ++ flat_map (λ field. json_tokens (field_json field)) fields.now) }
    ensures before { writer.new.before ≡ writer.old.before }
{
    for field in fields {
        push_field(writer, *field)?;
    }
    Ok(())
}

// The member of the fields.
fn push_fields(writer: &mut Writer<Global>, fields: &[Field]) -> Result<(), AllocError>
    ensures tokens { OnOk result (writer.new.tokens ≡ writer.old.tokens ++ key (codes "fields") ∷ json_tokens (array (field_items fields.now))) }
    ensures before { writer.new.before ≡ writer.old.before }
{
    writer.key("fields")?;
    writer.begin_array()?;
    push_each(writer, fields)?;
    writer.end_array()
}

// A kind: its word, what it is of, who may send it, and its fields.
#[tactic(auto, using(crate::proofs::TokenLemmas::kind_tokens))]
fn push_kind(writer: &mut Writer<Global>, kind: Kind) -> Result<(), AllocError>
    ensures tokens { OnOk result (writer.new.tokens ≡ writer.old.tokens ++ json_tokens (kind_json kind)) }
    ensures before { writer.new.before ≡ writer.old.before }
{
    writer.begin_object()?;
    push_text(writer, "kind", kind.name())?;
    push_text(writer, "of", kind.subject().name())?;
    push_roles(writer, kind.roles())?;
    push_fields(writer, kind.fields())?;
    writer.end_object()
}

// A text, and the line of a kind behind it.
#[tactic(auto, unfolding(crate::specs::Table::json_line))]
fn with_line(text: Vec<u8>, kind: Kind) -> Result<Vec<u8>, AllocError>
    ensures { IfOk result (λ longer. longer.items ≡ text.items ++ json_line kind) }
{
    let mut writer = Writer::new(text);
    push_kind(&mut writer, kind)?;
    let mut longer = writer.into_inner();
    longer.push(b'\n')?;
    Ok(longer)
}

/// The table as JSON: an object for each kind, one a line.
pub(crate) fn json_lines(alloc: Global) -> Result<Vec<u8>, AllocError>
    ensures { IfOk result (λ text. text.items ≡ kinds_text Format.Json) }
{
    let mut text = Vec::new(alloc);
    let kinds = Kind::all();
    for kind in kinds {
        text = with_line(text, *kind)?;
    }
    Ok(text)
}
