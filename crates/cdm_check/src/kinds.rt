//! The kinds of records of each file.
ghost use Rattle.std.specs.Prelude.{◌≤◌};

use crate::forms::Form;
use cdm_flight::Role;
use cdm_kinds::{Field, Kind};
use std::alloc::{AllocError, Global};

/// What records are read from: the files of a check, and the questions to a served day.
#[derive(Clone, Copy, PartialEq, Eq)]
pub(crate) enum FileKind {
    /// An airport file.
    Airport,
    /// A feed.
    Feed,
    /// A scenario file.
    Scenarios,
    /// The questions to a served day.
    Questions,
}

/// A kind of records.
#[derive(Clone, Copy)]
pub(crate) enum RecordKind {
    /// An update, in a feed and in a scenario.
    Update(Kind),
    /// A kind of an airport file, the one that begins a scenario, or a question.
    Other(&'static OtherKind),
}

/// A kind of records that make no update.
#[derive(Clone, Copy)]
pub(crate) struct OtherKind {
    // The word of the kind.
    word: &'static str,
    // The names of the fields that follow it, and what they hold.
    fields: &'static [(&'static str, Form)],
}

/// The kinds of an airport file.
const AIRPORT_KINDS: &[OtherKind] = &[
    OtherKind {
        word: "DAY",
        fields: &[("day", Form::Day)],
    },
    OtherKind {
        word: "RUNWAY",
        fields: &[
            ("runway", Form::Of(Field::Runway)),
            ("cell", Form::Cell),
            ("cap", Form::Of(Field::Cap)),
        ],
    },
    OtherKind {
        word: "SPACE",
        fields: &[
            ("runway", Form::Of(Field::Runway)),
            ("group", Form::Of(Field::Group)),
            ("minutes", Form::Occupancy),
        ],
    },
    OtherKind {
        word: "TAXI",
        fields: &[
            ("stand", Form::Of(Field::Place)),
            ("runway", Form::Of(Field::Runway)),
            ("minutes", Form::Of(Field::TaxiMinutes)),
        ],
    },
];

/// The kind of a scenario file that begins a scenario.
const SCENARIO_KINDS: &[OtherKind] = &[OtherKind {
    word: "SCENARIO",
    fields: &[("name", Form::ScenarioName)],
}];

/// The kinds of questions.
const QUESTION_KINDS: &[OtherKind] = &[
    OtherKind {
        word: "PLAN",
        fields: &[],
    },
    OtherKind {
        word: "WHY",
        fields: &[("flight", Form::Of(Field::Flight))],
    },
    OtherKind {
        word: "LOAD",
        fields: &[("runway", Form::Of(Field::Runway))],
    },
    OtherKind {
        word: "OPTIONS",
        fields: &[("flight", Form::Of(Field::Flight))],
    },
];

impl FileKind {
    /// The place of the kind in a record, counted from 0: behind the role, where there is one.
    pub fn kind_place(self) -> usize
        ensures { result ≤ 1 }
    {
        match self {
            FileKind::Feed => 1,
            FileKind::Airport | FileKind::Scenarios | FileKind::Questions => 0,
        }
    }

    /// How a record of the file begins.
    pub fn beginning(self) -> &'static str {
        match self {
            FileKind::Airport => "a record begins with DAY, RUNWAY, TAXI or SPACE",
            FileKind::Feed | FileKind::Scenarios | FileKind::Questions => "there is no such kind",
        }
    }

    /// The kind of records of the file that a field names.
    pub fn kind_of(self, text: &[u8]) -> Option<RecordKind> {
        let others: &'static [OtherKind] = match self {
            FileKind::Airport => AIRPORT_KINDS,
            FileKind::Scenarios => SCENARIO_KINDS,
            FileKind::Questions => QUESTION_KINDS,
            FileKind::Feed => &[],
        };
        for kind in others {
            if kind.word.as_bytes() == text {
                return Some(RecordKind::Other(kind));
            }
        }
        if matches!(self, FileKind::Airport | FileKind::Questions) {
            return None;
        }
        Some(RecordKind::Update(Kind::named(text)?))
    }
}

impl RecordKind {
    /// The word of the kind.
    pub fn word(self) -> &'static str {
        match self {
            RecordKind::Update(kind) => kind.name(),
            RecordKind::Other(kind) => kind.word,
        }
    }

    /// How many fields follow it.
    pub fn count(self) -> usize {
        match self {
            RecordKind::Update(kind) => kind.fields().len(),
            RecordKind::Other(kind) => kind.fields.len(),
        }
    }

    /// The name of the field at a place behind the word, counted from 0, and what it holds, if there is one.
    pub fn field(self, place: usize) -> Option<(&'static str, Form)> {
        match self {
            RecordKind::Update(kind) => {
                let field = *kind.fields().get(place)?;
                Some((field.name(), Form::Of(field)))
            }
            RecordKind::Other(kind) => kind.fields.get(place).copied(),
        }
    }

    /// The roles that may make it; there are none in an airport file, and none of a question.
    pub fn roles(self) -> &'static [Role] {
        match self {
            RecordKind::Update(kind) => kind.roles(),
            RecordKind::Other(_) => &[],
        }
    }
}

/// All kinds of updates, by their words.
pub(crate) fn kinds_by_word(alloc: Global) -> Result<Vec<Kind>, AllocError> {
    let mut kinds = Vec::from_slice(alloc, Kind::all())?;
    kinds.sort_by_key(|kind| kind.name())?;
    Ok(kinds)
}
