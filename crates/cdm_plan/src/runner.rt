//! The plan of a day, made by many workers.
ghost use Rattle.std.specs.Prelude.{IfOk};
ghost use Rattle.cdm_plan.specs.Kept.{AreKept, IsMade};

use crate::jobs::{RunwayJob, TargetJob};
use crate::kept::Kept;
use crate::planning::plan_together;
use crate::records::Records;
use crate::work::work_of;
use cdm_phase::{Gate, Workers, run_phase};
use cdm_sequence::Plan;
use std::alloc::{AllocError, Global};
use std::thread::Threads;

// How many flights a worker takes at a time.
const FLIGHTS_AT_A_TIME: usize = 64;

/// Workers that share the making of a plan, and the gate that they pass.
#[derive(Drop)]
pub struct Runner<'a, R: Threads + Sync, G: Gate> {
    pub rt: &'a R,
    pub workers: Workers,
    pub gate: &'a G,
}

impl<R: Threads + Sync, G: Gate> Runner<'_, R, G> {
    /// As one thread makes it: first the workers find what each asked flight could have, and then
    /// they make the plan of each touched runway. A worker has all flights of a runway.
    pub fn plan_keeping<D: Records>(
        &self,
        alloc: Global,
        records: &D,
        kept: &Kept,
    ) -> Result<Plan, AllocError>
        requires { AreKept (D.day records.now) kept.now.touched.now kept.now.plans.now kept.now.blocked.now }
        ensures { IfOk result (λ plan. IsMade (D.day records.now) plan) }
    {
        let (rt, workers, gate) = (self.rt, self.workers, self.gate);
        let work = work_of(alloc, records, kept.touched)?;
        let values = records.values();
        let job = TargetJob { values: &values };
        let aims = run_phase(
            rt,
            alloc,
            workers,
            FLIGHTS_AT_A_TIME,
            &job,
            &work.asked,
            gate,
        )?;
        let job = RunwayJob {
            flights: &work.gone,
            aims: &aims,
        };
        let made = run_phase(rt, alloc, workers, 1, &job, &work.left, gate)?;
        let plan = plan_together(alloc, records, kept, &work.runways, &aims, made)?;
        Ok(plan)
    }
}
