//! What the fields of records hold: their forms, their ranges, and how sentences tell them.

use crate::kinds::FileKind;
use crate::time_words::{other_day, wrong_day, wrong_time};
use crate::times::DateText;
use cdm_files::{
    cap_field, cell_field, ctot_field, ice_field, occupancy_field, place_field, priority_field,
    role_of, taxi_field, tolerance_fields,
};
use cdm_flight::{FlightName, Group, RefusalWord, RunwayName, StandName};
use cdm_kinds::Field;
use cdm_scenario::ScenarioName;
use cdm_time::{Day, TimeFault};
use std::alloc::{AllocError, Global};

/// What a field holds.
#[derive(Clone, Copy)]
pub(crate) enum Form {
    /// The role of a feed's record.
    Role,
    /// The kind of a record of this file.
    Kind(FileKind),
    /// A field of an update, or one that is read as such.
    Of(Field),
    /// The minutes of no de-icing.
    NoMinutes,
    /// The length of a runway's cells.
    Cell,
    /// For how long a flight occupies a runway.
    Occupancy,
    Day,
    ScenarioName,
}

// The fault of a field that has a form and no range.
fn unless_text(has_form: bool) -> Option<RefusalWord> {
    if has_form {
        None
    } else {
        Some(RefusalWord::Text)
    }
}

// The word for a text that names no day or time.
fn word_of(fault: TimeFault) -> RefusalWord {
    match fault {
        TimeFault::Text => RefusalWord::Text,
        TimeFault::Range => RefusalWord::Range,
    }
}

// The fault of the kind of a de-icing, which has some minutes.
fn ice_kind_fault(text: &[u8]) -> Option<RefusalWord> {
    match ice_field(text, b"1") {
        Err(RefusalWord::Text) => Some(RefusalWord::Text),
        _ => None,
    }
}

// The word that refuses a field of an update, if one does, by the readers of fields.
fn field_fault(field: Field, day: Day, text: &[u8]) -> Option<RefusalWord> {
    match field {
        Field::Flight => unless_text(FlightName::new(text).is_some()),
        Field::Runway => unless_text(RunwayName::new(text).is_some()),
        Field::Stand => unless_text(StandName::new(text).is_some()),
        Field::Place => place_field(text).err(),
        Field::Group => unless_text(Group::new(text).is_some()),
        Field::Priority => priority_field(text).err(),
        Field::Cap => cap_field(text).err(),
        Field::TaxiMinutes => taxi_field(text).err(),
        Field::Time | Field::From => day.minute_of(text).err().map(word_of),
        Field::To => day.bound_of(text).err().map(word_of),
        Field::Ctot => ctot_field(day, text).err(),
        Field::IceKind => ice_kind_fault(text),
        Field::IceMinutes => ice_field(b"STAND", text).err(),
        Field::Before => tolerance_fields(text, b"0").err(),
        Field::After => tolerance_fields(b"0", text).err(),
    }
}

// How a field of an update is written that is no time.
fn field_words(alloc: Global, field: Field) -> Result<String, AllocError> {
    let (begin, form, end) = (begin_of(field), part_of(field), end_of(field));
    format!(in alloc; "{begin} {form}{end}")
}

// How such a sentence begins.
fn begin_of(field: Field) -> &'static str {
    match field {
        Field::Flight => "a flight name is",
        Field::Runway => "a runway has",
        Field::Stand | Field::Place => "a stand has",
        Field::Group => "a group is",
        Field::Priority => "a priority is a number from",
        Field::Cap => "a cap is a number from",
        Field::TaxiMinutes => "taxi minutes are a number from",
        Field::IceKind => "a de-icing is",
        Field::IceMinutes => "minutes of de-icing are a number from",
        Field::Before | Field::After => "a tolerance has",
        Field::Time | Field::From | Field::To | Field::Ctot => "there is no",
    }
}

// The form or the range in such a sentence.
fn part_of(field: Field) -> &'static str {
    match field {
        Field::Flight | Field::Runway | Field::Stand | Field::Group | Field::IceKind => {
            field.form()
        }
        Field::Place => Field::Stand.form(),
        Field::Priority | Field::Cap | Field::TaxiMinutes | Field::Before | Field::After =>
            field.range(),
        Field::IceMinutes => "1 to 60",
        Field::Time | Field::From | Field::To | Field::Ctot => "such time",
    }
}

// How such a sentence ends.
fn end_of(field: Field) -> &'static str {
    match field {
        Field::Place => ", or is * for all others",
        Field::Before => " minutes before a CTOT",
        Field::After => " minutes after a CTOT",
        _ => "",
    }
}

impl Form {
    /// The word that refuses a field of this form, if one does: Text or Range.
    pub fn fault(self, day: Day, text: &[u8]) -> Option<RefusalWord> {
        match self {
            Form::Role => unless_text(role_of(text).is_some()),
            Form::Kind(file) => unless_text(file.kind_of(text).is_some()),
            Form::Of(field) => field_fault(field, day, text),
            Form::NoMinutes => ice_field(b"NONE", text).err(),
            Form::Cell => cell_field(text).err(),
            Form::Occupancy => occupancy_field(text).err(),
            Form::Day => Day::of_text(text).err().map(word_of),
            Form::ScenarioName => unless_text(ScenarioName::new(text).is_some()),
        }
    }

    /// Which part of a day or a time is wrong, and how it should be written, if the text looks like one.
    pub fn wrong_part(
        self,
        alloc: Global,
        day: Day,
        text: &[u8],
    ) -> Result<Option<String>, AllocError> {
        match self {
            Form::Day => wrong_day(alloc, text),
            Form::Of(field @ (Field::Time | Field::From | Field::To | Field::Ctot)) => {
                wrong_time(alloc, day, field, text)
            }
            _ => Ok(None),
        }
    }

    /// How a field of this form is written.
    pub fn wanted(self, alloc: Global, day: Day) -> Result<String, AllocError> {
        let date = DateText(day);
        match self {
            Form::Of(Field::Time | Field::From | Field::To) => {
                format!(in alloc; "a time is written {date}T06:00Z")
            }
            Form::Of(Field::Ctot) => {
                format!(in alloc; "a time is written {date}T06:00Z, or - to cancel the CTOT")
            }
            Form::Of(field) => field_words(alloc, field),
            Form::Day => format!(in alloc; "a day is written {date}"),
            _ => String::from_str(alloc, self.words()),
        }
    }

    // How a field is written that is no day and no field of an update.
    fn words(self) -> &'static str {
        match self {
            Form::Role => {
                "a role is AO (operator), GH (handler), AP (airport), ATC (tower) or NM (Network Manager)"
            }
            Form::Kind(file) => file.beginning(),
            Form::NoMinutes => "NONE has 0 minutes",
            Form::Cell => "a cell has 1, 2, 3, 4, 5, 6, 10, 12, 15, 20, 30 or 60 minutes",
            Form::Occupancy => "a flight occupies a runway for 0 to 5 minutes",
            Form::ScenarioName => "a scenario has 1 to 16 of A-Z, 0-9 and -",
            Form::Of(_) | Form::Day => "there is no such time",
        }
    }

    /// Why a field of this form is out of its range.
    pub fn range(self, alloc: Global, day: Day, text: &[u8]) -> Result<String, AllocError> {
        match self {
            Form::Day => String::from_str(alloc, "a day is one of the years 2000 to 2099"),
            Form::Of(field @ (Field::Time | Field::From | Field::To | Field::Ctot)) => {
                other_day(alloc, day, field, text)
            }
            Form::Of(field) => field_words(alloc, field),
            _ => String::from_str(alloc, self.words()),
        }
    }
}
