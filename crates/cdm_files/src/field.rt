//! The fields of a record. Each has a form, else it is refused by Text, and may have a range, else it
//! is refused by Range. One that a single kind of records has is read where that kind is.
ghost use Rattle.std.specs.Prelude.{◌≤◌, ◌≡◌, ◌&&◌, not, length, Ok, Err, if◌then◌else◌};
ghost use Rattle.csv.specs.Records.{fields_of};
ghost use Rattle.cdm_time.specs.Digits.{are_digits, number_in};
ghost use Rattle.cdm_time.specs.Times.{day_of};
ghost use Rattle.cdm_flight.specs.Names.{is_name};
ghost use Rattle.cdm_flight.specs.declared.word.RefusalWord.TheVariants as word;
ghost use Rattle.cdm_files.specs.Fields.{both, bound_field, field, from_to, group_field, name_field, number_field, place_field, refused_by_word, time_field, word_of};
ghost use Rattle.cdm_files.specs.inner.Several.{all_four, all_three};

use cdm_flight::{Cap, Group, Name, Place, Priority, RefusalWord, TaxiMinutes};
use cdm_time::{Bound, Day, Minute, TimeFault, number_of};
use csv::ByteRecord;

/// The field at a place, counted from 0. A field that the record hasn't is empty.
pub fn field_at(row: &ByteRecord, place: usize) -> &[u8]
    ensures { result.now ≡ field (fields_of row.now) place }
{
    row.get(place).unwrap_or(b"")
}

/// The name of a flight, a runway or a stand: 1 to `MOST` bytes of `A-Z0-9`.
#[tactic(auto, unfolding(crate::specs::Fields::name_field))]
pub(crate) fn name_field<const MOST: usize>(text: &[u8]) -> Result<Name<MOST>, RefusalWord>
    requires { MOST ≤ 8 }
    ensures { result ≡ name_field (is_name MOST) text.now }
{
    Name::new(text).ok_or(RefusalWord::Text)
}

/// The place of a taxi time: the name of a stand, or `*` for the runway's default.
#[tactic(auto, unfolding(crate::specs::Fields::place_field))]
pub fn place_field(text: &[u8]) -> Result<Place, RefusalWord>
    ensures { result ≡ place_field text.now }
{
    if text == b"*".as_slice() {
        return Ok(Place::Default);
    }
    Ok(Place::Stand(name_field(text)?))
}

/// A group: L, M or H.
pub(crate) fn group_field(text: &[u8]) -> Result<Group, RefusalWord>
    ensures { result ≡ group_field text.now }
{
    Group::new(text).ok_or(RefusalWord::Text)
}

/// A number of 1 to 4 digits, with leading zeros or without.
pub fn number_field(text: &[u8]) -> Result<u16, RefusalWord>
    ensures { result ≡ (if not (from_to 1 4 (length text.now) && are_digits text.now) then Err word.Text else Ok (number_in text.now)) }
{
    if text.is_empty() || text.len() > 4 {
        return Err(RefusalWord::Text);
    }
    number_of(text).ok_or(RefusalWord::Text)
}

/// A priority, 0 to 9.
#[tactic(auto, unfolding(crate::specs::Fields::number_field))]
pub fn priority_field(text: &[u8]) -> Result<Priority, RefusalWord>
    ensures { result ≡ number_field (from_to 0 9) text.now }
{
    Priority::new(number_field(text)?).ok_or(RefusalWord::Range)
}

/// A capacity, 0 to 60.
#[tactic(auto, unfolding(crate::specs::Fields::number_field))]
pub fn cap_field(text: &[u8]) -> Result<Cap, RefusalWord>
    ensures { result ≡ number_field (from_to 0 60) text.now }
{
    Cap::new(number_field(text)?).ok_or(RefusalWord::Range)
}

/// A taxi time, 1 to 120 minutes.
#[tactic(auto, unfolding(crate::specs::Fields::number_field))]
pub fn taxi_field(text: &[u8]) -> Result<TaxiMinutes, RefusalWord>
    ensures { result ≡ number_field (from_to 1 120) text.now }
{
    TaxiMinutes::new(number_field(text)?).ok_or(RefusalWord::Range)
}

// The word that refuses a field whose time or date has this fault.
fn word_of(fault: TimeFault) -> RefusalWord
    ensures { result ≡ word_of fault }
{
    match fault {
        TimeFault::Text => RefusalWord::Text,
        TimeFault::Range => RefusalWord::Range,
    }
}

/// A date of the form YYYY-MM-DD, of the years 2000 to 2099.
pub(crate) fn day_field(text: &[u8]) -> Result<Day, RefusalWord>
    ensures { result ≡ refused_by_word (day_of text.now) }
{
    Day::of_text(text).map_err(word_of)
}

/// A time of the form YYYY-MM-DDTHH:MMZ, a minute of the horizon.
pub(crate) fn time_field(day: Day, text: &[u8]) -> Result<Minute, RefusalWord>
    ensures { result ≡ time_field day text.now }
{
    day.minute_of(text).map_err(word_of)
}

/// The end of a window: as a time, and the end of the horizon too.
pub(crate) fn bound_field(day: Day, text: &[u8]) -> Result<Bound, RefusalWord>
    ensures { result ≡ bound_field day text.now }
{
    day.bound_of(text).map_err(word_of)
}

/// Two values, or the word that refuses them: Text where one hasn't its form, else the word of the first
/// that is faulty.
#[tactic(auto, unfolding(crate::specs::Fields::both))]
pub(crate) fn both<A: Drop, B: Drop>(
    one: Result<A, RefusalWord>,
    other: Result<B, RefusalWord>,
) -> Result<(A, B), RefusalWord>
    ensures { result ≡ both one other }
{
    match (one, other) {
        (Ok(one), Ok(other)) => Ok((one, other)),
        (Err(RefusalWord::Text), _) | (_, Err(RefusalWord::Text)) => Err(RefusalWord::Text),
        (Err(word), _) | (_, Err(word)) => Err(word),
    }
}

/// Three values, or the word that refuses them.
#[tactic(auto, unfolding(crate::specs::inner::Several::all_three))]
pub(crate) fn all_three<A: Drop, B: Drop, C: Drop>(
    one: Result<A, RefusalWord>,
    two: Result<B, RefusalWord>,
    three: Result<C, RefusalWord>,
) -> Result<(A, B, C), RefusalWord>
    ensures { result ≡ all_three one two three }
{
    let (one, (two, three)) = both(one, both(two, three))?;
    Ok((one, two, three))
}

/// Four values, or the word that refuses them.
#[tactic(auto, unfolding(crate::specs::inner::Several::all_four))]
pub(crate) fn all_four<A: Drop, B: Drop, C: Drop, D: Drop>(
    one: Result<A, RefusalWord>,
    two: Result<B, RefusalWord>,
    three: Result<C, RefusalWord>,
    four: Result<D, RefusalWord>,
) -> Result<(A, B, C, D), RefusalWord>
    ensures { result ≡ all_four one two three four }
{
    let (one, (two, (three, four))) = both(one, both(two, both(three, four)))?;
    Ok((one, two, three, four))
}
