//! Updates that are moved together, so that the earliest of their times stands at a minute.
ghost use Rattle.std.specs.Prelude.{◌≡◌, ◌+◌, ◌-◌, ◌≤◌, IfOk, Some};
ghost use Rattle.cdm_table.specs.Moved.{first_in, first_of, moved, moved_bound, moved_minute, moved_updates};

use cdm_flight::{Listed, Update, push_last};
use cdm_time::{Bound, HORIZON_MINUTES, Minute};
use std::alloc::{AllocError, Global};

// The earliest of the times at which an update plans something, and the horizon's end where it has none.
fn first_in(update: &Update) -> u16
    ensures { result ≡ first_in update.now }
{
    match *update {
        Update::Tobt { tobt, .. } => tobt.get(),
        Update::Ctot {
            ctot: Some(ctot),
            ..
        } => ctot.get(),
        Update::Rate { from, to, .. }
        | Update::Close { from, to, .. }
        | Update::Reopen { from, to, .. } => from.get().min(to.get()),
        _ => HORIZON_MINUTES,
    }
}

/// The earliest of these times of the updates, and the horizon's end where they have none.
pub(crate) fn first_of(updates: &[Update]) -> u16
    ensures { result ≡ first_of updates.now }
{
    updates.iter().fold(
        HORIZON_MINUTES,
        |first: u16, update| first.min(first_in(update)),
    )
}

// What a number of minutes becomes.
fn moved_number(first: u16, at: Minute, minutes: u16) -> u16
    requires { minutes ≤ 2880 }
    ensures { result ≡ at + (minutes - first) }
{
    at.get() + minutes.saturating_sub(first)
}

// What a time becomes, if it stays in the horizon.
fn moved_minute(first: u16, at: Minute, minute: Minute) -> Option<Minute>
    ensures { result ≡ moved_minute first at minute }
{
    Minute::new(moved_number(first, at, minute.get()))
}

// What the end of a window becomes, if it stays in the horizon.
fn moved_bound(first: u16, at: Minute, bound: Bound) -> Option<Bound>
    ensures { result ≡ moved_bound first at bound }
{
    Bound::new(moved_number(first, at, bound.get()))
}

// What an update becomes, if its times stay in the horizon.
fn moved(first: u16, at: Minute, update: &Update) -> Option<Update>
    ensures { result ≡ moved first at update.now }
{
    match *update {
        Update::Tobt { flight, tobt } => {
            let tobt = moved_minute(first, at, tobt)?;
            Some(Update::Tobt { flight, tobt })
        }
        Update::Ctot {
            flight,
            ctot: Some(ctot),
        } => {
            let ctot = Some(moved_minute(first, at, ctot)?);
            Some(Update::Ctot { flight, ctot })
        }
        Update::Rate {
            runway,
            from,
            to,
            cap,
        } => {
            let from = moved_minute(first, at, from)?;
            let to = moved_bound(first, at, to)?;
            Some(Update::Rate {
                runway,
                from,
                to,
                cap,
            })
        }
        Update::Close { runway, from, to } => {
            let from = moved_minute(first, at, from)?;
            let to = moved_bound(first, at, to)?;
            Some(Update::Close { runway, from, to })
        }
        Update::Reopen { runway, from, to } => {
            let from = moved_minute(first, at, from)?;
            let to = moved_bound(first, at, to)?;
            Some(Update::Reopen { runway, from, to })
        }
        other => Some(other),
    }
}

/// The updates, moved to a minute; or the number, from 1, of the first of which a time leaves the horizon.
pub(crate) fn moved_updates(
    alloc: Global,
    updates: &[Update],
    at: Minute,
) -> Result<Result<Listed<Update>, usize>, AllocError>
    ensures { IfOk result (λ by. by ≡ moved_updates at updates.now) }
{
    let first = first_of(updates);
    let mut done = Vec::new(alloc);
    for update in updates {
        match moved(first, at, update) {
            Some(own) => push_last(&mut done, own)?,
            None => return Ok(Err(done.len() + 1)),
        }
    }
    Ok(Ok(Listed::new(done)))
}
