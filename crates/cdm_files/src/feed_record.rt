//! Records of the feed.
ghost use Rattle.std.specs.Prelude.{◌≡◌, ◌≤◌, [], ◌∷◌, drop, length, take};
ghost use Rattle.csv.specs.Records.{fields_of};
ghost use Rattle.cdm_kinds.specs.Kinds.{fields_of as fields_of_kind};
ghost use Rattle.cdm_files.specs.Fields.{both, ctot_field, from_to, ice_field, number_field, tolerance_fields};
ghost use Rattle.cdm_files.specs.Kinds.{update_by, update_of};
ghost use Rattle.cdm_files.specs.Parsing.{parse_of};

use crate::field::{
    all_four, all_three, both, bound_field, cap_field, field_at, group_field, name_field,
    number_field, place_field, priority_field, taxi_field, time_field,
};
use crate::role::role_of;
use cdm_flight::{Ice, IceMinutes, RefusalWord, Role, Update};
use cdm_kinds::Kind;
use cdm_time::{Day, Minute, Tolerance};
use csv::ByteRecord;

/// A CTOT: a time, or `-` for none any more.
#[tactic(auto, unfolding(crate::specs::Fields::ctot_field))]
pub fn ctot_field(day: Day, text: &[u8]) -> Result<Option<Minute>, RefusalWord>
    ensures { result ≡ ctot_field day text.now }
{
    if text == b"-".as_slice() {
        return Ok(None);
    }
    Ok(Some(time_field(day, text)?))
}

// How long de-icing takes, 1 to 60 minutes.
#[tactic(auto, unfolding(crate::specs::Fields::number_field))]
fn ice_minutes(text: &[u8]) -> Result<IceMinutes, RefusalWord>
    ensures { result ≡ number_field (from_to 1 60) text.now }
{
    IceMinutes::new(number_field(text)?).ok_or(RefusalWord::Range)
}

/// A de-icing: NONE with 0 minutes, STAND or REMOTE with 1 to 60.
#[tactic(auto, unfolding(crate::specs::Fields::number_field, crate::specs::Fields::ice_field))]
pub fn ice_field(kind: &[u8], minutes: &[u8]) -> Result<Ice, RefusalWord>
    ensures { result ≡ ice_field kind.now minutes.now }
{
    if kind == b"NONE".as_slice() {
        if number_field(minutes)? == 0 {
            Ok(Ice::NoIce)
        } else {
            Err(RefusalWord::Range)
        }
    } else if kind == b"STAND".as_slice() {
        Ok(Ice::AtStand(ice_minutes(minutes)?))
    } else if kind == b"REMOTE".as_slice() {
        Ok(Ice::Remote(ice_minutes(minutes)?))
    } else {
        Err(RefusalWord::Text)
    }
}

/// A tolerance: 0 to 15 minutes before a CTOT, and 0 to 30 after it.
#[tactic(auto, unfolding(crate::specs::Fields::both, crate::specs::Fields::number_field, crate::specs::Fields::tolerance_fields))]
pub fn tolerance_fields(before: &[u8], after: &[u8]) -> Result<Tolerance, RefusalWord>
    ensures { result ≡ tolerance_fields before.now after.now }
{
    let (before, after) = both(number_field(before), number_field(after))?;
    Tolerance::new(before, after).ok_or(RefusalWord::Range)
}

// The update that fields make, or the first word that refuses one of them.
macro_rules! update {
    ($kind:ident, $one:ident: $first:expr) => {
        $first.map(|$one| Update::$kind { $one })
    };
    ($kind:ident, $one:ident: $first:expr, $two:ident: $second:expr) => {
        both($first, $second).map(|($one, $two)| Update::$kind { $one, $two })
    };
    ($kind:ident, $one:ident: $first:expr, $two:ident: $second:expr, $three:ident: $third:expr) => {
        all_three($first, $second, $third)
            .map(|($one, $two, $three)| Update::$kind { $one, $two, $three })
    };
    ($kind:ident, $one:ident: $first:expr, $two:ident: $second:expr, $three:ident: $third:expr,
        $four:ident: $fourth:expr) => {
        all_four($first, $second, $third, $fourth)
            .map(|($one, $two, $three, $four)| Update::$kind { $one, $two, $three, $four })
    };
}

// The update of a kind that these fields make, as many of them as it has.
#[tactic(auto, using(crate::proofs::SeveralLemmas::of_all_three, crate::proofs::SeveralLemmas::of_all_four))]
fn update_by(
    day: Day,
    kind: Kind,
    first: &[u8],
    second: &[u8],
    third: &[u8],
    fourth: &[u8],
) -> Result<Update, RefusalWord>
    ensures { result ≡ update_by day kind (take (length (fields_of_kind kind)) (first.now ∷ second.now ∷ third.now ∷ fourth.now ∷ [])) }
{
    match kind {
        Kind::Flt => update!(Flt, flight: name_field(first), priority: priority_field(second)),
        Kind::Tobt => update!(Tobt, flight: name_field(first), tobt: time_field(day, second)),
        Kind::Stand => update!(Stand, flight: name_field(first), stand: name_field(second)),
        Kind::Rwy => update!(Rwy, flight: name_field(first), runway: name_field(second)),
        Kind::Ctot => update!(Ctot, flight: name_field(first), ctot: ctot_field(day, second)),
        Kind::Ice => update!(Ice, flight: name_field(first), ice: ice_field(second, third)),
        Kind::Prio => update!(Prio, flight: name_field(first), priority: priority_field(second)),
        Kind::Group => update!(Group, flight: name_field(first), group: group_field(second)),
        Kind::Off => update!(Off, flight: name_field(first), aobt: time_field(day, second)),
        Kind::Air => update!(Air, flight: name_field(first), atot: time_field(day, second)),
        Kind::Cnl => update!(Cnl, flight: name_field(first)),
        Kind::Rate => update!(Rate, runway: name_field(first), from: time_field(day, second),
            to: bound_field(day, third), cap: cap_field(fourth)),
        Kind::Close => update!(Close, runway: name_field(first), from: time_field(day, second),
            to: bound_field(day, third)),
        Kind::Reopen => update!(Reopen, runway: name_field(first), from: time_field(day, second),
            to: bound_field(day, third)),
        Kind::Taxi => update!(Taxi, place: place_field(first), runway: name_field(second),
            minutes: taxi_field(third)),
        Kind::Clock => update!(Clock, now: time_field(day, first)),
        Kind::Tol => update!(Tol, tolerance: tolerance_fields(first, second)),
    }
}

/// The update of the kind that a field names. The record's fields from the first on follow the kind.
#[tactic(auto, using(crate::proofs::KindLemmas::other_number, crate::proofs::KindLemmas::own_number), unfolding(crate::specs::Kinds::update_of))]
pub(crate) fn update_of(
    day: Day,
    kind: &[u8],
    row: &ByteRecord,
    first: usize,
) -> Result<Update, RefusalWord>
    requires { first ≤ 2 }
    ensures { result ≡ update_of day kind.now (drop first (fields_of row.now)) }
{
    let Some(kind) = Kind::named(kind) else {
        return Err(RefusalWord::Kind);
    };
    if row.len().saturating_sub(first) != kind.fields().len() {
        return Err(RefusalWord::Fields);
    }
    let (one, two) = (field_at(row, first), field_at(row, first + 1));
    let (three, four) = (field_at(row, first + 2), field_at(row, first + 3));
    update_by(day, kind, one, two, three, four)
}

/// What a record of the feed spells, the role and the update, or the first word that refuses it: the
/// words Fields to Range, which are seen in the record alone (local profile).
#[tactic(auto, using(crate::proofs::KindLemmas::few_fields, crate::proofs::KindLemmas::more_fields))]
pub fn parse_record(day: Day, row: &ByteRecord) -> Result<(Role, Update), RefusalWord>
    ensures { result ≡ parse_of day (fields_of row.now) }
{
    if row.len() < 2 {
        return Err(RefusalWord::Fields);
    }
    let update = update_of(day, field_at(row, 1), row, 2);
    match (role_of(field_at(row, 0)), update) {
        (Some(role), Ok(update)) => Ok((role, update)),
        (Some(_), Err(word)) => Err(word),
        (None, Err(RefusalWord::Fields)) => Err(RefusalWord::Fields),
        (None, _) => Err(RefusalWord::Role),
    }
}
