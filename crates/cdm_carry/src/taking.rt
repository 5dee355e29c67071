//! The records that an airport accepts.
ghost use Rattle.std.specs.Prelude.{◌≡◌, ◌++◌, [], ◌∷◌, IfOk, OnOk, is_none, if◌then◌else◌};
ghost use Rattle.cdm_flight.specs.Accepted.{accepted, after_one, refusal};
ghost use Rattle.cdm_files.specs.Refused.{updates_in};
ghost use Rattle.cdm_carry.specs.Carry.{taken};
ghost use Rattle.cdm_carry.specs.Notices.{after_spelled, if_taken, numbered};

use cdm_day::{Airport, DayState, Reply};
use cdm_flight::{RefusalWord, Role, Update, allows, push_last};
use cdm_scenario::Overlay;
use std::alloc::{AllocError, Global};

/// A record with its number in the feed.
pub(crate) type Numbered = (usize, (Role, Update));

/// The day of an airport before its first update.
pub(crate) fn day_of(alloc: Global, airport: Airport) -> Result<DayState, AllocError>
    ensures { IfOk result (λ s. s ≡ record { airport = airport; journal = [] }) }
{
    match DayState::new(alloc, airport) {
        Ok(state) => Ok(state),
        Err(_) => Err(AllocError),
    }
}

/// Takes a record, unless a word refuses it, which is the answer.
#[tactic(auto, unfolding(cdm_flight::specs::Accepted::refusal))]
pub(crate) fn take_record(
    alloc: Global,
    day: &mut Overlay<'_>,
    role: Role,
    update: &Update,
) -> Result<Option<RefusalWord>, AllocError>
    ensures word { IfOk result (λ word. word ≡ refusal day.old.airport day.old.journal role update.now) }
    ensures day { OnOk result (day.new ≡ record day.old { journal = after_one day.old.airport day.old.journal (role, update.now) }) }
{
    if !allows(role, update) {
        return Ok(Some(RefusalWord::Authority));
    }
    match day.apply(alloc, update)? {
        Reply::Accepted => Ok(None),
        Reply::Refused(word) => Ok(Some(word)),
    }
}

// A record behind the others, unless a word refuses it.
fn push_unless(
    records: &mut Vec<(Role, Update)>,
    word: Option<RefusalWord>,
    item: (Role, Update),
) -> Result<(), AllocError>
    ensures { OnOk result (records.new.items ≡ (if is_none word then records.old.items ++ item ∷ [] else records.old.items)) }
{
    match word {
        None => push_last(records, item),
        Some(_) => Ok(()),
    }
}

/// Takes records, and answers those that no word refuses.
pub(crate) fn take_records(
    alloc: Global,
    day: &mut Overlay<'_>,
    records: &[(Role, Update)],
) -> Result<Vec<(Role, Update)>, AllocError>
    ensures taken { IfOk result (λ t. t.items ≡ taken day.old.airport day.old.journal records.now) }
    ensures day { OnOk result (day.new ≡ record day.old { journal = accepted day.old.airport day.old.journal records.now }) }
{
    let mut taken = Vec::new(alloc);
    for record in records {
        let (role, update) = *record;
        let word = take_record(alloc, day, role, &update)?;
        push_unless(&mut taken, word, *record)?;
    }
    Ok(taken)
}

// Takes what a record of the feed spells, if it spells an update, and puts it behind the others, if no word refuses it.
fn take_spelled(
    taken: &mut Vec<Numbered>,
    alloc: Global,
    day: &mut Overlay<'_>,
    number: usize,
    spelled: &Result<(Role, Update), RefusalWord>,
) -> Result<(), AllocError>
    ensures taken { OnOk result (taken.new.items ≡ taken.old.items ++ if_taken day.old.airport day.old.journal number spelled.now) }
    ensures day { OnOk result (day.new ≡ record day.old { journal = after_spelled day.old.airport day.old.journal spelled.now }) }
{
    let Ok((role, update)) = spelled else {
        return Ok(());
    };
    match take_record(alloc, day, *role, update)? {
        None => push_last(taken, (number, (*role, *update))),
        Some(_) => Ok(()),
    }
}

/// Takes what the records of a feed spell, and answers what no word refuses, with the numbers of the records.
pub(crate) fn take_feed(
    alloc: Global,
    day: &mut Overlay<'_>,
    records: &[Result<(Role, Update), RefusalWord>],
) -> Result<Vec<Numbered>, AllocError>
    ensures taken { IfOk result (λ t. t.items ≡ numbered day.old.airport day.old.journal 1 records.now) }
    ensures day { OnOk result (day.new ≡ record day.old { journal = accepted day.old.airport day.old.journal (updates_in records.now) }) }
{
    let mut taken = Vec::new(alloc);
    for (place, spelled) in records.iter().enumerate() {
        take_spelled(&mut taken, alloc, day, place + 1, spelled)?;
    }
    Ok(taken)
}
