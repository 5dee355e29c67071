//! What stands of a former plan.
ghost use Rattle.std.specs.Prelude.{◌≡◌, ◌++◌, [], IfOk, OnOk};
ghost use Rattle.std.specs.List.{cons_option, filter_map, find};
ghost use Rattle.std.specs.Option.{option_copied};
ghost use Rattle.cdm_flight.specs.Names.{same_name};
ghost use Rattle.cdm_plan.specs.Kept.{is_early, is_kept_blocked, kept_blocked, kept_plan};

use crate::brief::counted_on;
use crate::records::Records;
use crate::touched::Touched;
use cdm_flight::RunwayName;
use cdm_runway::Runway;
use cdm_sequence::{BlockedFlight, Rule, RunwayPlan};
use std::alloc::{AllocError, Global};

/// The plans of runways and the blocked flights of a former plan, of which those stand whose runway was not
/// touched since.
#[derive(Clone, Copy)]
pub struct Kept<'a> {
    pub plans: &'a [RunwayPlan],
    pub blocked: &'a [BlockedFlight],
    pub touched: &'a Touched,
}

// The plan of the runway of this name.
fn plan_named(plans: &[RunwayPlan], name: RunwayName) -> Option<&RunwayPlan>
    ensures { option_copied result ≡ find (λ p. same_name p.runway name) plans.now }
{
    plans.iter().find(|plan| plan.runway == name)
}

// Puts a copy of the plan behind the others, if there is one.
fn push_copy(
    alloc: Global,
    copies: &mut Vec<RunwayPlan>,
    plan: Option<&RunwayPlan>,
) -> Result<(), AllocError>
    ensures { OnOk result (copies.new.items ≡ copies.old.items ++ cons_option (option_copied plan.entry) []) }
{
    if let Some(plan) = plan {
        let copied = plan.copy(alloc)?;
        copies.push(copied)?;
    }
    Ok(())
}

// Whether the rule blocks a flight before the traffic of its runway is asked.
fn is_early(rule: Rule) -> bool
    ensures { result ≡ is_early rule }
{
    !matches!(rule, Rule::Closure | Rule::Spacing | Rule::Rate)
}

impl Kept<'_> {
    // The plan of the runway, if it stands.
    fn plan_on(&self, runway: RunwayName) -> Option<&RunwayPlan>
        ensures { option_copied result ≡ kept_plan self.now.touched.now self.now.plans.now runway }
    {
        if self.touched.has(runway) {
            return None;
        }
        plan_named(self.plans, runway)
    }

    /// The plans that stand, in the order of the runways.
    pub(crate) fn copied_plans(
        &self,
        alloc: Global,
        runways: &[&Runway],
    ) -> Result<Vec<RunwayPlan>, AllocError>
        ensures { IfOk result (λ v. v.items ≡ filter_map (λ r. kept_plan self.now.touched.now self.now.plans.now r.now.name) runways.now) }
    {
        let mut copies = Vec::with_capacity(alloc, runways.len())?;
        for runway in runways {
            push_copy(alloc, &mut copies, self.plan_on(runway.name()))?;
        }
        Ok(copies)
    }

    // Whether the blocked flight stands so still.
    fn has_blocked<D: Records>(&self, records: &D, flight: &BlockedFlight) -> bool
        ensures { result ≡ is_kept_blocked (D.day records.now) self.now.touched.now flight.now }
    {
        if !is_early(flight.rule) {
            return false;
        }
        match records.flight(flight.name) {
            Some(record) => self.touched.keeps(counted_on(record)),
            None => false,
        }
    }

    /// Puts the blocked flights that stand behind others.
    pub(crate) fn push_blocked<D: Records>(
        &self,
        records: &D,
        others: &mut Vec<BlockedFlight>,
    ) -> Result<(), AllocError>
        ensures { OnOk result (others.new.items ≡ others.old.items ++ kept_blocked (D.day records.now) self.now.touched.now self.now.blocked.now) }
    {
        let blocked = self.blocked;
        for flight in blocked {
            if self.has_blocked(records, flight) {
                others.push(*flight)?;
            }
        }
        Ok(())
    }
}
