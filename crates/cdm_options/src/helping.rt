//! The records that help a flight, the best first.
ghost use Rattle.std.specs.Prelude.{◌≡◌, ◌++◌, IfOk, OnOk, IsPermutation, IsSorted, count_by, slice_get};
ghost use Rattle.std.specs.List.{list_any};
ghost use Rattle.cdm_options.specs.Helping.{IsRanking, all_helping, help_cmp, helping_at, helping_if, helping_of, is_outdone, is_refused, is_sooner, outdoes, priority_of, says_same, told};

use crate::effect::Effect;
use cdm_flight::{Priority, Update, push_last};
use cdm_report::Counts;
use cdm_time::Minute;
use std::alloc::{AllocError, Global};

/// A record that helps a flight: what it is, and what it would do.
#[derive(Clone, Copy, PartialEq, Eq, Debug)]
pub struct Helping {
    /// Its place among those that are tried, from 0.
    pub place: usize,
    /// What it is.
    pub update: Update,
    /// The flight's take-off with it.
    pub ttot: Minute,
    /// The indicators with it.
    pub counts: Counts,
    /// How many flights stand otherwise than before.
    pub moved: usize,
}

// Whether a take-off is sooner than the one before, or the first.
fn is_sooner(before: &Option<Minute>, ttot: Minute) -> bool
    ensures { result ≡ is_sooner before.now ttot }
{
    match before {
        Some(before) => ttot.get() < before.get(),
        None => true,
    }
}

// A record behind the others, if it helps.
fn push_helping(
    found: &mut Vec<Helping>,
    before: &Option<Minute>,
    place: usize,
    update: Update,
    effect: &Effect,
) -> Result<(), AllocError>
    ensures { OnOk result (found.new.items ≡ found.old.items ++ helping_of before.now place update effect.now) }
{
    let Effect::Planned(Some(ttot), counts, moved) = *effect else {
        return Ok(());
    };
    if !is_sooner(before, ttot) {
        return Ok(());
    }
    push_last(
        found,
        Helping {
            place,
            update,
            ttot,
            counts,
            moved,
        },
    )
}

// The item at a place of a list, if there is one.
fn item_at<T: Copy>(items: &[T], place: usize) -> Option<T>
    ensures { result ≡ slice_get items.now place }
{
    items.get(place).copied()
}

// A record behind the others, if there is one and it helps.
#[tactic(auto, unfolding(crate::specs::Helping::helping_if))]
fn push_if(
    found: &mut Vec<Helping>,
    before: &Option<Minute>,
    place: usize,
    update: &Option<Update>,
    effect: &Option<Effect>,
) -> Result<(), AllocError>
    ensures { OnOk result (found.new.items ≡ found.old.items ++ helping_if before.now place update.now effect.now) }
{
    let Some(update) = update else {
        return Ok(());
    };
    match effect {
        Some(effect) => push_helping(found, before, place, *update, effect),
        None => Ok(()),
    }
}

// The record at a place behind the others, if it helps.
fn push_at(
    found: &mut Vec<Helping>,
    before: &Option<Minute>,
    updates: &[Update],
    effects: &[Effect],
    place: usize,
) -> Result<(), AllocError>
    ensures { OnOk result (found.new.items ≡ found.old.items ++ helping_at before.now updates.now effects.now place) }
{
    let update = item_at(updates, place);
    let effect = item_at(effects, place);
    push_if(found, before, place, &update, &effect)
}

// Those of the updates that help, each of which would do so much.
fn all_helping(
    alloc: Global,
    before: &Option<Minute>,
    updates: &[Update],
    effects: &[Effect],
) -> Result<Vec<Helping>, AllocError>
    ensures { IfOk result (λ found. found.items ≡ all_helping before.now updates.now effects.now) }
{
    let mut found = Vec::new(alloc);
    for place in 0..updates.len() {
        push_at(&mut found, before, updates, effects, place)?;
    }
    Ok(found)
}

// Whether a record is refused.
fn is_refused(effect: &Effect) -> bool
    ensures { result ≡ is_refused effect.now }
{
    matches!(effect, Effect::Refused(_))
}

/// How many of the records are refused.
pub(crate) fn count_refused(effects: &[Effect]) -> usize
    ensures { result ≡ count_by is_refused effects.now }
{
    effects.iter().filter(|effect| is_refused(effect)).count()
}

// Whether two records would do the same, as far as a line says it.
fn says_same(one: &Helping, other: &Helping) -> bool
    ensures { result ≡ says_same one.now other.now }
{
    one.ttot.get() == other.ttot.get()
        && one.counts.delay == other.counts.delay
        && one.counts.greatest == other.counts.greatest
        && one.counts.late == other.counts.late
        && one.counts.blocked == other.counts.blocked
        && one.moved == other.moved
}

// The priority that a record gives, if it is a PRIO.
fn priority_of(update: &Update) -> Option<Priority>
    ensures { result ≡ priority_of update.now }
{
    match *update {
        Update::Prio { priority, .. } => Some(priority),
        _ => None,
    }
}

// Whether one PRIO says the same as another with a smaller number.
fn outdoes(other: &Helping, priority: Priority, helping: &Helping) -> bool
    ensures { result ≡ outdoes priority helping.now other.now }
{
    match priority_of(&other.update) {
        Some(larger) => priority.get() < larger.get() && says_same(other, helping),
        None => false,
    }
}

// Whether one of the PRIO records with a larger number says the same as one with this number.
fn has_larger(all: &[Helping], priority: Priority, helping: &Helping) -> bool
    ensures { result ≡ list_any (outdoes priority helping.now) all.now }
{
    all.iter().any(|other| outdoes(other, priority, helping))
}

// Whether a PRIO with a larger number says the same.
fn is_outdone(all: &[Helping], helping: &Helping) -> bool
    ensures { result ≡ is_outdone all.now helping.now }
{
    match priority_of(&helping.update) {
        Some(priority) => has_larger(all, priority, helping),
        None => false,
    }
}

// The records that are told: of PRIO records that say the same, the one with the largest number alone.
fn told(alloc: Global, all: &[Helping]) -> Result<Vec<Helping>, AllocError>
    ensures { IfOk result (λ told_ones. told_ones.items ≡ told all.now) }
{
    let mut told_ones = Vec::new(alloc);
    for helping in all {
        if !is_outdone(all, helping) {
            push_last(&mut told_ones, *helping)?;
        }
    }
    Ok(told_ones)
}

// The records with the best first: the flight's sooner take-off, then fewer blocked flights, then less delay, then as they were
// tried.
fn ranked(helping: Vec<Helping>) -> Vec<Helping>
    ensures all { IsPermutation helping.items result.items }
    ensures best_first { IsSorted help_cmp result.items }
{
    let mut ranked = helping;
    ranked.sort_unstable_by_key(|helping| {
        let counts = helping.counts;
        (
            helping.ttot.get(),
            counts.blocked,
            counts.delay,
            helping.place,
        )
    });
    ranked
}

/// Those of the updates that help and are told, the best first.
pub(crate) fn best_first(
    alloc: Global,
    before: &Option<Minute>,
    updates: &[Update],
    effects: &[Effect],
) -> Result<Vec<Helping>, AllocError>
    ensures { IfOk result (λ helping. IsRanking (told (all_helping before.now updates.now effects.now)) helping.items) }
{
    let all = all_helping(alloc, before, updates, effects)?;
    let told_ones = told(alloc, &all)?;
    Ok(ranked(told_ones))
}
