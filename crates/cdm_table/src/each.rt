//! The steps at which scenarios are tried.
ghost use Rattle.std.specs.Prelude.{◌≡◌, ◌≤◌, ◌&&◌, ◌++◌, nat_le, IfOk, OnOk, Some, None, if◌then◌else◌};
ghost use Rattle.cdm_table.specs.Steps.{ends_of, minutes_by, step_at, steps_of};

use cdm_flight::{Listed, push_last};
use cdm_time::{Day, HORIZON_MINUTES, Minute};
use std::alloc::{AllocError, Global};
use std::marker::Model;

/// How many minutes lie between a step and the next, 1 to 2880.
#[derive(Clone, Copy, PartialEq, Eq, Debug)]
pub struct StepMinutes {
    number: u16,
}

impl Model for StepMinutes {
    ghost use Rattle.std.specs.Prelude.{ℕ, ◌≤◌};

    ghost Value = { ℕ };

    ghost view = { λ n. n.number };

    ghost invariant = { λ n. (1 ≤ n.number) × (n.number ≤ 2880) };

    ghost inverse = { λ n. record { number = n } };
}

impl StepMinutes {
    /// So many minutes, or None where they aren't 1 to 2880.
    pub fn new(number: u16) -> Option<StepMinutes>
        ensures { result ≡ (if nat_le 1 number && nat_le number 2880 then Some number else None) }
    {
        if 1 <= number && number <= HORIZON_MINUTES {
            Some(StepMinutes { number })
        } else {
            None
        }
    }

    /// The number.
    pub fn get(self) -> u16
        ensures value { result ≡ self }
        ensures range { 1 ≤ result }
    {
        self.number
    }
}

/// The steps at which scenarios are tried: FROM, FROM + STEP, .. up to TO. Times are as files write them, of whatever day.
#[derive(Clone, Copy, PartialEq, Eq, Debug)]
pub struct Each {
    /// The first step.
    pub from: [u8; 17],
    /// The time after which there is none.
    pub to: [u8; 17],
    /// From a step to the next.
    pub step: StepMinutes,
}

// FROM and TO as minutes, if both are times of an airport's two days.
fn ends_of(day: Day, each: &Each) -> Option<(Minute, Minute)>
    ensures { result ≡ ends_of day each.now }
{
    let from = day.minute_of(&each.from).ok()?;
    let to = day.minute_of(&each.to).ok()?;
    Some((from, to))
}

// The minute, if whole steps lie between FROM and it.
fn push_step(
    minutes: &mut Vec<Minute>,
    step: StepMinutes,
    from: Minute,
    minute: Minute,
) -> Result<(), AllocError>
    requires { from ≤ minute }
    ensures { OnOk result (minutes.new.items ≡ minutes.old.items ++ step_at step from minute) }
{
    if (minute.get() - from.get()) % step.get() != 0 {
        return Ok(());
    }
    push_last(minutes, minute)
}

// FROM, FROM + STEP, .. up to TO, which may be before FROM.
fn minutes_by(
    alloc: Global,
    step: StepMinutes,
    from: Minute,
    to: Minute,
) -> Result<Listed<Minute>, AllocError>
    ensures { IfOk result (λ minutes. minutes ≡ minutes_by step from to) }
{
    let first = from.get();
    let last = to.get();
    let end = (last + 1).max(first);
    let mut minutes = Vec::new(alloc);
    for minute in first..end {
        push_step(&mut minutes, step, from, Minute::at(minute))?;
    }
    Ok(Listed::new(minutes))
}

/// The steps as minutes of an airport's two days; `None` where FROM or TO isn't a time of these.
pub(crate) fn steps_of(
    alloc: Global,
    day: Day,
    each: &Each,
) -> Result<Option<Listed<Minute>>, AllocError>
    ensures { IfOk result (λ steps. steps ≡ steps_of day each.now) }
{
    match ends_of(day, each) {
        Some((from, to)) => Ok(Some(minutes_by(alloc, each.step, from, to)?)),
        None => Ok(None),
    }
}
