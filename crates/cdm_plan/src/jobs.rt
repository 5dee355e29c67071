//! The work that makes the plan of a day, item by item.
ghost use Rattle.std.specs.Prelude.{◌≡◌, true, filter, map, IfOk};
ghost use Rattle.std.proofs.Common.{sym, ◌∙◌};
ghost use Rattle.std.specs.List.{filter_map};
ghost use Rattle.std.proofs.lemmas.List.Sorted.{IsPermutation-refl};
ghost use Rattle.cdm_flight.specs.Record.{is_planned};
ghost use Rattle.cdm_phase.specs.declared.job.PhaseName.TheVariants.{Runways, Targets};
ghost use Rattle.cdm_sequence.specs.Fixed.{fixed_slot};
ghost use Rattle.cdm_sequence.specs.Sequence.{IsSequence};
ghost use Rattle.cdm_sequence.proofs.AimLemmas.{aim_one};
ghost use Rattle.cdm_sequence.proofs.OneLemmas.{sequence_one};
ghost use Rattle.cdm_sequence.specs.Aims.{TaxiTimes};
ghost use Rattle.cdm_plan.specs.inner.Aimed.{CanSequence, IsAimedBy, is_on, target_for};
ghost use Rattle.cdm_plan.specs.inner.Work.{HasExot};
ghost use Rattle.cdm_plan.specs.Planning.{fixed_on};

use crate::aimed::{Aimed, Asked, aimed_of, targets_on_runway};
use cdm_flight::{DayValues, Flight, RunwayName};
use cdm_phase::{Job, PhaseName};
use cdm_runway::Runway;
use cdm_sequence::{RunwayPlan, Slot, fixed_of, sequence};
use std::alloc::{AllocError, Global};

/// What each planned flight could have, by the values of the day.
#[derive(Clone, Copy)]
pub(crate) struct TargetJob<'a> {
    pub(crate) values: &'a DayValues,
}

impl<'a> Job for TargetJob<'a> {
    type Item = Asked<'a>;

    type Out = Aimed;

    ghost can_run = { λ _ asked. (is_planned asked.flight.now.status ≡ true) × ((times : TaxiTimes) × HasExot times asked) };

    ghost gives = { λ job asked out. IsAimedBy job.values.now asked.flight.now asked.exot out };

    ghost phase_name = { Targets };

    fn run(&self, _alloc: Global, asked: &Asked<'a>) -> Result<Aimed, AllocError> {
        Ok(aimed_of(asked, *self.values))
    }

    fn phase(&self) -> PhaseName {
        PhaseName::Targets
    }

    ghost one_value = { λ job asked x y can a b.
        let name = a.name ∙ sym b.name in
        let times = can.1.0 in
        let has = can.1.1 in
        let aim = aim_one asked.flight.now times job.values.now x.aim y.aim (a.aim times has) (b.aim times has) in
        λ i. record { name = name i; aim = aim i } };
}

// Whether the flight has this runway.
fn is_on_runway(flight: &Flight, runway: RunwayName) -> bool
    ensures { result ≡ is_on runway flight.now }
{
    match flight.runway {
        Some(name) => name == runway,
        None => false,
    }
}

// The flights that have left their stands for a runway, in order.
fn fixed_on_runway(
    alloc: Global,
    runway: RunwayName,
    flights: &[&Flight],
) -> Result<Vec<Slot>, AllocError>
    ensures { IfOk result (λ v. v.items ≡ filter_map (λ f. fixed_slot f.now) (filter (λ f. is_on runway f.now) flights.now)) }
{
    flights
        .iter()
        .filter(|flight| is_on_runway(flight, runway))
        .filter_map(|flight| fixed_of(flight))
        .collect(alloc)
}

// The plan of one runway, which chooses its own flights.
fn runway_plan(
    alloc: Global,
    runway: &Runway,
    flights: &[&Flight],
    aims: &[Aimed],
) -> Result<RunwayPlan, AllocError>
    requires { CanSequence (fixed_on runway.now.name (map (λ f. f.now) flights.now)) (filter_map (target_for runway.now.name) aims.now) }
    ensures { IfOk result (λ p. IsSequence runway.now (fixed_on runway.now.name (map (λ f. f.now) flights.now))
        (filter_map (target_for runway.now.name) aims.now) p) }
{
    let fixed = fixed_on_runway(alloc, runway.name(), flights)?;
    let targets = targets_on_runway(alloc, runway.name(), aims)?;
    let plan = sequence(alloc, runway, &fixed, &targets)?;
    Ok(plan)
}

/// The plan of each runway, which chooses its own flights from all of them.
#[derive(Clone, Copy)]
pub(crate) struct RunwayJob<'a> {
    pub(crate) flights: &'a [&'a Flight],
    pub(crate) aims: &'a [Aimed],
}

impl<'a> Job for RunwayJob<'a> {
    type Item = &'a Runway;

    type Out = RunwayPlan;

    ghost can_run = { λ job runway. let r = runway.now.name in
        CanSequence (fixed_on r (map (λ f. f.now) job.flights.now)) (filter_map (target_for r) job.aims.now) };

    ghost gives = { λ job runway plan. let r = runway.now.name in
        IsSequence runway.now (fixed_on r (map (λ f. f.now) job.flights.now)) (filter_map (target_for r) job.aims.now) plan };

    ghost phase_name = { Runways };

    fn run(&self, alloc: Global, runway: &&'a Runway) -> Result<RunwayPlan, AllocError> {
        runway_plan(alloc, runway, self.flights, self.aims)
    }

    fn phase(&self) -> PhaseName {
        PhaseName::Runways
    }

    ghost one_value = { λ job runway x y can a b.
        let r = runway.now.name in
        let fixed = fixed_on r (map (λ f. f.now) job.flights.now) in
        let targets = filter_map (target_for r) job.aims.now in
        sequence_one runway.now fixed fixed targets targets x y can.names (IsPermutation-refl fixed) (IsPermutation-refl targets) a b };
}
