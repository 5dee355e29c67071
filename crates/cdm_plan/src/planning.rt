//! The plan of a day.
ghost use Rattle.std.specs.Prelude.{◌≡◌, ◌+◌, ◌≤◌, ◌++◌, length, IfOk, IsPermutation, IsSortedByKey, sum_by};
ghost use Rattle.std.specs.List.{filter_map, flat_map};
ghost use Rattle.cdm_flight.specs.Names.{name_cmp};
ghost use Rattle.cdm_sequence.specs.declared.plan.Plan.{Plan as APlan};
ghost use Rattle.cdm_plan.specs.Planning.{HasParts};
ghost use Rattle.cdm_plan.specs.DayPlan.{IsDayPlan};
ghost use Rattle.cdm_plan.specs.inner.Aimed.{early_among};
ghost use Rattle.cdm_plan.specs.Kept.{AreKept, IsMade, kept_blocked, kept_plan};
ghost use Rattle.cdm_plan.specs.inner.Together.{Together};

use crate::aimed::{Aimed, blocked};
use crate::jobs::{RunwayJob, TargetJob};
use crate::kept::Kept;
use crate::records::Records;
use crate::touched::Touched;
use crate::work::work_of;
use cdm_flight::{DayValues, Listed};
use cdm_phase::run_here;
use cdm_runway::Runway;
use cdm_sequence::{BlockedFlight, Plan, RunwayPlan};
use std::alloc::{AllocError, Global};

// All blocked flights by name: those that were blocked early, and those of the runways.
fn all_blocked(
    early: Vec<BlockedFlight>,
    plans: &[RunwayPlan],
) -> Result<Vec<BlockedFlight>, AllocError>
    ensures same { IfOk result (λ v. IsPermutation (early.items ++ flat_map (λ p. p.blocked) plans.now) v.items) }
    ensures sorted { IfOk result (λ v. IsSortedByKey (λ b. b.name) name_cmp v.items) }
{
    let mut all = early;
    for plan in plans {
        all.extend_from_slice(plan.blocked.as_slice())?;
    }
    all.sort_unstable_by_key(|flight| flight.name);
    Ok(all)
}

// The plans of the runways by name.
fn by_name(plans: Vec<RunwayPlan>) -> Vec<RunwayPlan>
    ensures same { IsPermutation plans.items result.items }
    ensures sorted { IsSortedByKey (λ r. r.runway) name_cmp result.items }
{
    let mut ordered = plans;
    ordered.sort_unstable_by_key(|plan| plan.runway);
    ordered
}

// The plan of a day, from the flights that are blocked early, and from plans of runways that stand and
// others that were made.
fn joined(
    early: Vec<BlockedFlight>,
    kept: Vec<RunwayPlan>,
    made: Vec<RunwayPlan>,
    values: DayValues,
) -> Result<Plan, AllocError>
    requires { sum_by (λ p. length p.slots + length p.blocked) (kept.items ++ made.items) + length early.items ≤ 2000 }
    ensures clock { IfOk result (λ plan. plan.clock ≡ values.clock) }
    ensures parts { IfOk result (λ plan. HasParts early.items (kept.items ++ made.items) plan) }
{
    let (mut plans, mut others) = (kept, made);
    plans.append(&mut others)?;
    let plans = by_name(plans);
    let blocked = all_blocked(early, &plans)?;
    Ok(Plan {
        clock: values.clock,
        runways: Listed::new(plans),
        blocked: Listed::new(blocked),
    })
}

/// The plan of the day, from what the asked flights could have, from what stands of a former plan, and from
/// the plans that were made.
pub(crate) fn plan_together<D: Records>(
    alloc: Global,
    records: &D,
    kept: &Kept,
    runways: &[&Runway],
    aims: &[Aimed],
    made: Vec<RunwayPlan>,
) -> Result<Plan, AllocError>
    requires { Together (D.day records.now) (early_among aims.now ++ kept_blocked (D.day records.now) kept.now.touched.now kept.now.blocked.now)
        (filter_map (λ r. kept_plan kept.now.touched.now kept.now.plans.now r.now.name) runways.now ++ made.items) }
    ensures { IfOk result (λ plan. IsMade (D.day records.now) plan) }
{
    let copies = kept.copied_plans(alloc, runways)?;
    let mut early = blocked(alloc, aims)?;
    kept.push_blocked(records, &mut early)?;
    let plan = joined(early, copies, made, records.values())?;
    Ok(plan)
}

/// The plan of the day that the records tell. No other plan is the day's.
#[tactic(auto, using(crate::proofs::KeptLemmas::none_kept))]
pub fn plan_of<D: Records>(alloc: Global, records: &D) -> Result<Plan, AllocError>
    ensures of_day { IfOk result (λ plan. IsDayPlan (D.day records.now) plan) }
    ensures only { IfOk result (λ plan. (other : APlan) → IsDayPlan (D.day records.now) other → other ≡ plan) }
{
    let touched = Touched::All;
    let kept = Kept {
        plans: &[],
        blocked: &[],
        touched: &touched,
    };
    let plan = plan_keeping(alloc, records, &kept)?;
    Ok(plan)
}

/// The plan of the day that the records tell, in which some of a former plan stands.
pub fn plan_keeping<D: Records>(alloc: Global, records: &D, kept: &Kept) -> Result<Plan, AllocError>
    requires { AreKept (D.day records.now) kept.now.touched.now kept.now.plans.now kept.now.blocked.now }
    ensures { IfOk result (λ plan. IsMade (D.day records.now) plan) }
{
    let work = work_of(alloc, records, kept.touched)?;
    let values = records.values();
    let job = TargetJob { values: &values };
    let aims = run_here(alloc, &job, &work.asked)?;
    let job = RunwayJob {
        flights: &work.gone,
        aims: &aims,
    };
    let made = run_here(alloc, &job, &work.left)?;
    let plan = plan_together(alloc, records, kept, &work.runways, &aims, made)?;
    Ok(plan)
}
