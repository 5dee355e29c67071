//! The fields of a record, and what each of them should hold.

use crate::forms::Form;
use crate::kinds::{FileKind, RecordKind};
pub(crate) use cdm_files::field_at;
use cdm_flight::RefusalWord;
use cdm_kinds::Field;
use cdm_time::Day;
use csv::ByteRecord;

/// A field of a record.
#[derive(Clone, Copy)]
pub(crate) struct FieldOf<'a> {
    /// Its number in the record, from 1.
    pub number: usize,
    /// What it should hold.
    pub form: Form,
    /// What it holds.
    pub text: &'a [u8],
}

/// The kind of a record of the file, if it has one.
pub(crate) fn kind_of(file: FileKind, row: &ByteRecord) -> Option<RecordKind> {
    file.kind_of(field_at(row, file.kind_place()))
}

// What the field behind this one should hold, where a kind asks for this form. NONE has no minutes.
fn form_behind(form: Form, before: &[u8]) -> Form {
    if matches!(form, Form::Of(Field::IceMinutes)) && before == b"NONE".as_slice() {
        Form::NoMinutes
    } else {
        form
    }
}

/// The first field of a record of this kind that is refused by the word, Text or Range.
pub(crate) fn faulty_field(
    file: FileKind,
    kind: RecordKind,
    day: Day,
    row: &ByteRecord,
    word: RefusalWord,
) -> Option<FieldOf<'_>> {
    let mut place = file.kind_place();
    for behind in 0..kind.count() {
        let Some((_, form)) = kind.field(behind) else {
            return None;
        };
        let before = field_at(row, place);
        place = place.saturating_add(1);
        let text = field_at(row, place);
        let form = form_behind(form, before);
        if form.fault(day, text) == Some(word) {
            let number = place.saturating_add(1);
            return Some(FieldOf { number, form, text });
        }
    }
    None
}
