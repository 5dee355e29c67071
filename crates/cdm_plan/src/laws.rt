//! Laws of the day's plan: there is one, runway plans make it, and it is first in order.
ghost use Rattle.std.specs.Prelude.{◌≡◌, List, Contains};
ghost use Rattle.std.specs.List.{AllZip, IsDistinct};
ghost use Rattle.cdm_flight.specs.Journal.{taxi_of, values_of};
ghost use Rattle.cdm_flight.specs.Names.{same_name};
ghost use Rattle.cdm_sequence.specs.Plan.{Placing};
ghost use Rattle.cdm_sequence.specs.Sequence.{IsSequence};
ghost use Rattle.cdm_sequence.specs.declared.plan.Plan.{Plan};
ghost use Rattle.cdm_sequence.specs.declared.plan.RunwayPlan.{RunwayPlan};
ghost use Rattle.cdm_sequence.specs.declared.target.Target.{Target};
ghost use Rattle.cdm_sequence.specs.declared.aims.AimResult.{AimResult};
ghost use Rattle.cdm_plan.specs.Airport.{runway_names};
ghost use Rattle.cdm_plan.specs.Day.{DayRecord, flights_in};
ghost use Rattle.cdm_plan.specs.DayPlan.{IsDayFirst, IsDayPlan, IsDayPlanBy, day_rules, records_in};
ghost use Rattle.cdm_plan.specs.Planning.{AreAims, HasParts, early_in, fixed_on, targets_in, targets_on};
ghost use Rattle.cdm_plan.specs.Sound.{IsSound};

/// A day whose runways have names of their own, and whose flights become known once each, has one
/// plan.
#[tactic(auto, using(crate::proofs::OnePlanLemmas::one_day_plan))]
pub fn one_plan_of_a_day()
    ensures { (d : DayRecord) (p q : Plan) →
        IsDistinct same_name (runway_names d.airport) → IsDistinct same_name (flights_in d.journal) →
        IsDayPlan d p → IsDayPlan d q → p ≡ q }
{}

/// Plans of the runways, each made of its own flights, make the day's plan, where the runways have
/// names of their own.
#[tactic(auto, using(crate::proofs::OnePlanLemmas::day_made))]
pub fn runways_make_the_day()
    ensures { (d : DayRecord) (aims : List AimResult) (made : List RunwayPlan) (plan : Plan) →
        IsDistinct same_name (runway_names d.airport) →
        AreAims (records_in d.airport d.journal) (taxi_of d.airport d.journal) (values_of d.journal) aims →
        AllZip (λ r p. IsSequence r (fixed_on r.name (records_in d.airport d.journal)) (targets_on r.name (targets_in aims)) p) (day_rules d) made →
        plan.clock ≡ (values_of d.journal).clock → HasParts (early_in (records_in d.airport d.journal) aims) made plan → IsDayPlan d plan }
{}

/// The plan of a day is first in order: it is allowed, and no allowed placing is earlier at the first
/// flight, in the order of sequence, at which the two differ.
#[tactic(auto, using(crate::proofs::FirstLemmas::day_first))]
pub fn plans_of_a_day_are_first()
    ensures { (d : DayRecord) (aims : List AimResult) (placing : Placing) (plan : Plan) →
        IsSound d → IsDayPlanBy placing aims d plan → IsDayFirst aims d placing }
{}

/// No two placings of a day that differ are first in order.
pub fn one_is_first_in_a_day()
    ensures { (d : DayRecord) (aims : List AimResult) (p q : Placing) → IsDayFirst aims d p → IsDayFirst aims d q →
        (f : Target) → Contains (targets_in aims) f → p f ≡ q f }
{}
