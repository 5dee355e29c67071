//! What a record that is tried would do.
ghost use Rattle.std.specs.Prelude.{◌≡◌, IfOk};
ghost use Rattle.std.specs.List.{AllZip};
ghost use Rattle.cdm_phase.specs.declared.job.PhaseName.TheVariants.{Scenarios};
ghost use Rattle.cdm_plan.specs.Sound.{IsSound};
ghost use Rattle.cdm_options.specs.Effects.{IsEffect, minute_in};
ghost use Rattle.cdm_options.specs.inner.OneEffect.{one_effect};

use cdm_day::{DayState, Records};
use cdm_flight::{FlightName, RefusalWord, Update};
use cdm_phase::{Gate, Job, PhaseName, run_phase};
use cdm_plan::Runner;
use cdm_report::{Counts, indicators};
use cdm_scenario::Overlay;
use cdm_sequence::Plan;
use cdm_time::Minute;
use cdm_view::{changes_to, own_slot};
use std::alloc::{AllocError, Global};
use std::thread::Threads;

/// What one more record would do to a day.
#[derive(Clone, Copy, PartialEq, Eq, Debug)]
pub enum Effect {
    /// The flight's take-off, if it has one then, the indicators, and how many flights stand otherwise than before.
    Planned(Option<Minute>, Counts, usize),
    /// The word that refuses the record.
    Refused(RefusalWord),
}

/// The take-off of a flight by a day's plan, if it is known and has a slot.
pub fn minute_in<R: Records>(records: &R, plan: &Plan, name: FlightName) -> Option<Minute>
    ensures { result ≡ minute_in (R.day records.now) plan.entry.now name }
{
    let flight = records.flight(name)?;
    let slot = own_slot(plan, flight)?;
    Some(slot.ttot)
}

// What an update would do to a flight and to the day.
fn effect_of(
    alloc: Global,
    base: &DayState,
    name: FlightName,
    update: Update,
) -> Result<Effect, AllocError>
    ensures { IfOk result (IsEffect base.now name update) }
{
    match Overlay::after(alloc, base, &[update])? {
        Ok(day) => {
            let plan = day.plan(alloc)?;
            let changed = changes_to(alloc, base, &day, &plan)?;
            let ttot = minute_in(&day, &plan, name);
            Ok(Effect::Planned(ttot, indicators(&plan), changed.len()))
        }
        Err((_, word)) => Ok(Effect::Refused(word)),
    }
}

// What each update would do to a flight and to the day that they share.
#[derive(Clone, Copy)]
struct EffectJob<'a> {
    base: &'a DayState,
    name: FlightName,
}

impl Job for EffectJob<'_> {
    type Item = Update;

    type Out = Effect;

    ghost can_run = { λ job _. IsSound job.base.now };

    ghost gives = { λ job update effect. IsEffect job.base.now job.name update effect };

    ghost phase_name = { Scenarios };

    fn run(&self, alloc: Global, update: &Update) -> Result<Effect, AllocError> {
        effect_of(alloc, self.base, self.name, *update)
    }

    fn phase(&self) -> PhaseName {
        PhaseName::Scenarios
    }

    ghost one_value = { λ job update x y sound a b. one_effect job.base.now sound.airport.names sound.names job.name update x y a b };
}

/// What each update alone would do to a flight and to the day. Each is answered by one of the workers in phase
/// `Scenarios`, and every update is one piece.
pub(crate) fn effects_of<R: Threads + Sync, G: Gate>(
    alloc: Global,
    base: &DayState,
    name: FlightName,
    updates: &[Update],
    runner: &Runner<'_, R, G>,
) -> Result<Vec<Effect>, AllocError>
    ensures { IfOk result (λ effects. AllZip (IsEffect base.now name) updates.now effects.items) }
{
    // What the base's records tell is sound, which makes each answer the only one.
    let _values = base.values();
    let job = EffectJob { base, name };
    let (rt, workers, gate) = (runner.rt, runner.workers, runner.gate);
    run_phase(rt, alloc, workers, 1, &job, updates, gate)
}
