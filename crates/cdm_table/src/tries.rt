//! What is tried: scenarios as they are, and moved to minutes.
ghost use Rattle.std.specs.Prelude.{◌≡◌, ◌++◌, IfOk, OnOk, flat_map, map, nat_lt};
ghost use Rattle.cdm_table.specs.Moved.{as_it_is, first_of, fixed_try, moved_try, tries_at, tries_of};

use crate::moved::first_of;
use cdm_scenario::Scenario;
use cdm_time::{HORIZON_MINUTES, Minute};
use std::alloc::{AllocError, Global};
use std::marker::Model;

/// A scenario, and the minute to which it is moved, if it is.
#[derive(Drop)]
pub(crate) struct Try<'a> {
    pub(crate) scenario: &'a Scenario,
    pub(crate) at: Option<Minute>,
}

impl<'a> Model for Try<'a> {
    ghost use Rattle.cdm_table.specs.Moved.{TryRecord};

    ghost Value = { TryRecord };

    ghost view = { λ t. record { scenario = t.scenario.now; at = t.at } };
}

// Whether a time of a scenario can be moved.
fn can_move(scenario: &Scenario) -> bool
    ensures { result ≡ nat_lt (first_of scenario.now.updates) 2880 }
{
    first_of(scenario.updates()) < HORIZON_MINUTES
}

/// Each scenario as it is.
pub(crate) fn as_they_are(alloc: Global, scenarios: &[Scenario]) -> Result<Vec<Try<'_>>, AllocError>
    ensures { IfOk result (λ tries. tries.items ≡ map as_it_is scenarios.now) }
{
    let mut tries = Vec::new(alloc);
    for scenario in scenarios {
        tries.push(Try { scenario, at: None })?;
    }
    Ok(tries)
}

// The scenario as it is, if no time of it can be moved.
fn push_fixed<'a>(tries: &mut Vec<Try<'a>>, scenario: &'a Scenario) -> Result<(), AllocError>
    ensures { OnOk result (tries.new.items ≡ tries.old.items ++ fixed_try scenario.now) }
{
    if can_move(scenario) {
        return Ok(());
    }
    tries.push(Try { scenario, at: None })?;
    Ok(())
}

// The scenario at a minute, if a time of it can be moved.
fn push_moved<'a>(
    tries: &mut Vec<Try<'a>>,
    scenario: &'a Scenario,
    at: Minute,
) -> Result<(), AllocError>
    ensures { OnOk result (tries.new.items ≡ tries.old.items ++ moved_try at scenario.now) }
{
    if !can_move(scenario) {
        return Ok(());
    }
    tries.push(Try {
        scenario,
        at: Some(at),
    })?;
    Ok(())
}

// Each of them that can be moved at a minute.
fn push_at<'a>(
    tries: &mut Vec<Try<'a>>,
    scenarios: &'a [Scenario],
    at: Minute,
) -> Result<(), AllocError>
    ensures { OnOk result (tries.new.items ≡ tries.old.items ++ tries_at scenarios.now at) }
{
    for scenario in scenarios {
        push_moved(tries, scenario, at)?;
    }
    Ok(())
}

// Each of them that can't be moved.
fn push_each_fixed<'a>(
    tries: &mut Vec<Try<'a>>,
    scenarios: &'a [Scenario],
) -> Result<(), AllocError>
    ensures { OnOk result (tries.new.items ≡ tries.old.items ++ flat_map fixed_try scenarios.now) }
{
    for scenario in scenarios {
        push_fixed(tries, scenario)?;
    }
    Ok(())
}

/// The scenarios of which no time can be moved once, and the others at each of the minutes.
pub(crate) fn tries_of<'a>(
    alloc: Global,
    scenarios: &'a [Scenario],
    minutes: &[Minute],
) -> Result<Vec<Try<'a>>, AllocError>
    ensures { IfOk result (λ tries. tries.items ≡ tries_of scenarios.now minutes.now) }
{
    let mut tries = Vec::new(alloc);
    push_each_fixed(&mut tries, scenarios)?;
    for at in minutes {
        push_at(&mut tries, scenarios, *at)?;
    }
    Ok(tries)
}
