//! Why a record is refused that is wrong in itself: by Fields, Role, Kind, Text or Range.

use crate::fields::{FieldOf, faulty_field, field_at, kind_of};
use crate::forms::Form;
use crate::hints::is_wide;
use crate::kinds::{FileKind, RecordKind, kinds_by_word};
use crate::partners::{RoleList, partner_of, role_meant};
use crate::shown::{Shown, where_spaces_are};
use cdm_files::role_of;
use cdm_flight::RefusalWord;
use cdm_kinds::{Kind, role_name};
use cdm_time::Day;
use csv::ByteRecord;
use std::alloc::{AllocError, Global};
use std::{fmt, str};

/// Why a record of the file is refused by this word, which is one of Fields, Role, Kind, Text and Range.
pub(crate) fn cause_in_record(
    alloc: Global,
    file: FileKind,
    day: Day,
    row: &ByteRecord,
    word: RefusalWord,
) -> Result<String, AllocError> {
    if !matches!(word, RefusalWord::Text | RefusalWord::Range) {
        if let Some(cause) = no_record(row) {
            return String::from_str(alloc, cause);
        }
    }
    let kind = kind_of(file, row);
    match (word, kind) {
        (RefusalWord::Fields, Some(kind)) => wrong_count(alloc, file, kind, row),
        (RefusalWord::Fields, None) => too_few(alloc, row),
        (RefusalWord::Role, _) => wrong_role(alloc, day, row),
        (RefusalWord::Text | RefusalWord::Range, Some(kind)) => {
            match faulty_field(file, kind, day, row, word) {
                Some(field) if word == RefusalWord::Text => wrong_text(alloc, day, field),
                Some(field) => wrong_range(alloc, day, field),
                None => String::from_str(alloc, "a field is wrong"),
            }
        }
        _ => wrong_kind(alloc, file, day, row),
    }
}

// Why a row is no record of a file, whatever the file: other programs put it there.
fn no_record(row: &ByteRecord) -> Option<&'static str> {
    let first = field_at(row, 0);
    let is_marked = first.starts_with(b"\xFF\xFE") || first.starts_with(b"\xFE\xFF");
    if is_marked || (first.contains(&0) && is_wide(first)) {
        return Some("these bytes are UTF-16: save the file as UTF-8");
    }
    if first.contains(&0) {
        return Some("NUL bytes are in field 1: the file is damaged");
    }
    if row.len() > 1 && is_blank(row) {
        return Some("all fields are empty: remove this line");
    }
    let begins = first.get(..4).unwrap_or_default();
    if begins.eq_ignore_ascii_case(b"sep=") {
        return Some("this line is for Excel alone: remove it");
    }
    None
}

// Whether nothing is in the fields of a record.
fn is_blank(row: &ByteRecord) -> bool {
    for field in row.iter() {
        if !field.trim_ascii().is_empty() {
            return false;
        }
    }
    true
}

// A record of the feed that ends before its kind.
fn too_few(alloc: Global, row: &ByteRecord) -> Result<String, AllocError> {
    let field = Shown(field_at(row, 0));
    format!(in alloc;
        "1 field, {field}: a record has a role, a kind and its fields, with commas between them"
    )
}

// A record of a known kind that has another number of fields.
fn wrong_count(
    alloc: Global,
    file: FileKind,
    kind: RecordKind,
    row: &ByteRecord,
) -> Result<String, AllocError> {
    let word = kind.word();
    let role = if file == FileKind::Feed { "role, " } else { "" };
    let here = row.len();
    let wanted = kind
        .count()
        .saturating_add(file.kind_place())
        .saturating_add(1);
    let noun = if wanted == 1 { "field" } else { "fields" };
    let names = FieldNames(kind);
    let last = here.saturating_sub(1);
    let advice = if here > wanted && field_at(row, last).is_empty() {
        ", the last one empty: remove the comma at the end"
    } else {
        ""
    };
    format!(in alloc;
        "{word} takes {wanted} {noun} ({role}{word}{names}); this record has {here}{advice}"
    )
}

// The names of a kind's fields, a comma before each.
#[derive(Clone, Copy)]
struct FieldNames(RecordKind);

impl fmt::Display for FieldNames {
    fn fmt<W: fmt::Write>(&self, f: &mut fmt::Formatter<W>) -> fmt::Result {
        for place in 0..self.0.count() {
            if let Some((name, _)) = self.0.field(place) {
                write!(f, ", {name}")?;
            }
        }
        Ok(())
    }
}

// How a field that has another form should be written, if spaces or small letters are what is wrong with it.
fn mended(alloc: Global, day: Day, field: FieldOf<'_>) -> Result<Option<String>, AllocError> {
    let bare = field.text.trim_ascii();
    if bare.len() < field.text.len() && has_form(day, field.form, bare) {
        let (spaces, bare) = (where_spaces_are(field.text), Shown(bare));
        return Ok(Some(format!(in alloc; "remove {spaces} {bare}")?));
    }
    let capitals = bare.to_ascii_uppercase(alloc)?;
    if !has_form(day, field.form, &capitals) {
        return Ok(None);
    }
    Ok(Some(in_capitals(alloc, field, &capitals)?))
}

// How a field should be written that has small letters, in these capitals.
fn in_capitals(alloc: Global, field: FieldOf<'_>, capitals: &[u8]) -> Result<String, AllocError> {
    let written = str::from_utf8(capitals).unwrap_or_default();
    let spaces = where_spaces_are(field.text);
    if capitals.len() < field.text.len() {
        format!(in alloc; "write {written} in capitals, and remove {spaces} it")
    } else {
        format!(in alloc; "write {written} in capitals")
    }
}

// Whether a text has the form, in its range or not.
fn has_form(day: Day, form: Form, text: &[u8]) -> bool {
    form.fault(day, text) != Some(RefusalWord::Text)
}

// What is told of a field.
fn told_of(alloc: Global, field: FieldOf<'_>, cause: &str) -> Result<String, AllocError> {
    let number = field.number;
    let here = Shown(field.text);
    format!(in alloc; "field {number} {here}: {cause}")
}

// A field that hasn't its form.
fn wrong_text(alloc: Global, day: Day, field: FieldOf<'_>) -> Result<String, AllocError> {
    let cause = cause_in_text(alloc, day, field)?;
    told_of(alloc, field, &cause)
}

// Why a field hasn't its form.
fn cause_in_text(alloc: Global, day: Day, field: FieldOf<'_>) -> Result<String, AllocError> {
    if let Some(mended) = mended(alloc, day, field)? {
        return Ok(mended);
    }
    match field.form.wrong_part(alloc, day, field.text)? {
        Some(part) => Ok(part),
        None => field.form.wanted(alloc, day),
    }
}

// A field that is out of its range.
fn wrong_range(alloc: Global, day: Day, field: FieldOf<'_>) -> Result<String, AllocError> {
    let range = field.form.range(alloc, day, field.text)?;
    told_of(alloc, field, &range)
}

// A first field of a feed's record that is no role.
fn wrong_role(alloc: Global, day: Day, row: &ByteRecord) -> Result<String, AllocError> {
    let text = field_at(row, 0);
    let here = Shown(text);
    if let Some(kind) = FileKind::Feed.kind_of(text) {
        let roles = RoleList(kind.roles());
        return format!(in alloc; "field 1 {here} is a kind; put its role before it: {roles}");
    }
    if let Some(role) = role_meant(text.trim_ascii()) {
        let (role, partner) = (role_name(role), partner_of(role));
        return format!(in alloc; "field 1 {here}: write {role}, the role of the {partner}");
    }
    let form = Form::Role;
    wrong_text(
        alloc,
        day,
        FieldOf {
            number: 1,
            form,
            text,
        },
    )
}

// A record whose kind isn't one of its file's.
fn wrong_kind(
    alloc: Global,
    file: FileKind,
    day: Day,
    row: &ByteRecord,
) -> Result<String, AllocError> {
    let place = file.kind_place();
    let text = field_at(row, place);
    let number = place + 1;
    let form = Form::Kind(file);
    let field = FieldOf { number, form, text };
    if file == FileKind::Airport {
        return wrong_text(alloc, day, field);
    }
    match mended(alloc, day, field)? {
        Some(mended) => told_of(alloc, field, &mended),
        None => no_kind(alloc, file, field),
    }
}

// A field in the place of a kind of updates that is none.
fn no_kind(alloc: Global, file: FileKind, field: FieldOf<'_>) -> Result<String, AllocError> {
    let (number, here) = (field.number, Shown(field.text));
    let is_scenario = file == FileKind::Scenarios;
    if is_scenario && role_of(field.text).is_some() {
        return format!(in alloc;
            "field 1 {here} is a role: remove it, since an update of a scenario begins with its kind"
        );
    }
    let first = if is_scenario { " SCENARIO" } else { "" };
    let kinds = kinds_by_word(alloc)?;
    let words = KindWords(&kinds);
    format!(in alloc; "field {number} {here} is none of{first}{words}")
}

// The words of kinds, a space before each.
#[derive(Clone, Copy)]
struct KindWords<'a>(&'a [Kind]);

impl fmt::Display for KindWords<'_> {
    fn fmt<W: fmt::Write>(&self, f: &mut fmt::Formatter<W>) -> fmt::Result {
        for kind in self.0 {
            let word = kind.name();
            write!(f, " {word}")?;
        }
        Ok(())
    }
}
