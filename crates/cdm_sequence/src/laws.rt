//! Laws of the sequence: there is one, and it is first in order.
ghost use Rattle.std.specs.Prelude.{◌≡◌, ◌⊎◌, ℕ, List, map, Contains, IsPermutation};
ghost use Rattle.std.specs.List.{IsDistinct};
ghost use Rattle.cdm_flight.specs.declared.values.DayValues.{DayValues};
ghost use Rattle.cdm_flight.specs.Names.{same_name};
ghost use Rattle.cdm_flight.specs.declared.flight.Flight.{Flight};
ghost use Rattle.cdm_runway.specs.Rules.{RunwayRules};
ghost use Rattle.cdm_runway.specs.declared.load.Taken.{Taken};
ghost use Rattle.cdm_sequence.specs.Aims.{TaxiTimes, IsAim};
ghost use Rattle.cdm_sequence.specs.Plan.{Placing, IsPlan, IsEarlier, IsFirst, IsSpacedInOrder, IsSpacedInPairs};
ghost use Rattle.cdm_sequence.specs.Sequence.{IsSequence, flight_names};
ghost use Rattle.cdm_sequence.specs.declared.plan.RunwayPlan.{RunwayPlan};
ghost use Rattle.cdm_sequence.specs.declared.slot.Slot.{Slot};
ghost use Rattle.cdm_sequence.specs.declared.target.Target.{Target};
ghost use Rattle.cdm_sequence.specs.declared.aims.AimResult.{AimResult};

/// A planned flight could have something: its target, or the first rule that leaves it none.
#[tactic(auto, using(crate::proofs::AimLemmas::aim_some))]
pub fn some_aim()
    ensures { (f : Flight) (times : TaxiTimes) (values : DayValues) → (aim : AimResult) × IsAim f times values aim }
{}

/// And there is only one such answer.
#[tactic(auto, using(crate::proofs::AimLemmas::aim_one))]
pub fn one_aim()
    ensures { (f : Flight) (times : TaxiTimes) (values : DayValues) (a b : AimResult) →
        IsAim f times values a → IsAim f times values b → a ≡ b }
{}

/// Two plans of the same flights give each flight the same.
pub fn one_plan()
    ensures { (r : RunwayRules) (fixed : List Taken) (targets : List Target) (p q : Placing) →
        IsPlan r fixed targets p → IsPlan r fixed targets q →
        (f : Target) → Contains targets f → p f ≡ q f }
{}

/// A plan of flights with names of their own is first in order: it is allowed, and no allowed placing is
/// earlier.
pub fn plans_are_first()
    ensures { (r : RunwayRules) (fixed : List Taken) (targets : List Target) (p : Placing) →
        IsDistinct same_name (map (λ f. f.key.name) targets) →
        IsPlan r fixed targets p → IsFirst r fixed targets p }
{}

/// No two placings that differ are first in order.
pub fn one_is_first()
    ensures { (r : RunwayRules) (fixed : List Taken) (targets : List Target) (p q : Placing) →
        IsFirst r fixed targets p → IsFirst r fixed targets q →
        (f : Target) → Contains targets f → p f ≡ q f }
{}

/// Of two placings that differ one is earlier.
#[tactic(auto, using(crate::proofs::DifferenceLemmas::compared))]
pub fn one_is_earlier()
    ensures { (targets : List Target) (p q : Placing) →
        ((f : Target) → Contains targets f → p f ≡ q f) ⊎ (IsEarlier targets p q ⊎ IsEarlier targets q p) }
{}

/// Where each flight is asked against those before it alone, all pairs of flights have been asked; names are their own.
#[tactic(auto, using(crate::proofs::SpacingLemmas::in_pairs, crate::proofs::SpacingLemmas::in_order))]
pub fn spaced_in_order_is_spaced()
    ensures in_pairs { (r : RunwayRules) (fixed : List Taken) (targets : List Target) (p : Placing) →
        IsSpacedInOrder r fixed targets p → IsSpacedInPairs r fixed targets p }
    ensures in_order { (r : RunwayRules) (fixed : List Taken) (targets : List Target) (p : Placing) →
        IsDistinct same_name (map (λ f. f.key.name) targets) →
        IsSpacedInPairs r fixed targets p → IsSpacedInOrder r fixed targets p }
{}

/// A runway has one sequence, in whatever order its flights are given.
pub fn one_sequence()
    ensures { (r : RunwayRules) (fixed others : List Slot) (targets reordered : List Target) (x y : RunwayPlan) →
        IsDistinct same_name (flight_names fixed targets) →
        IsPermutation fixed others → IsPermutation targets reordered →
        IsSequence r fixed targets x → IsSequence r others reordered y → x ≡ y }
{}

/// The sequence of flights is that of the same flights in another order.
pub fn any_order()
    ensures { (r : RunwayRules) (fixed others : List Slot) (targets reordered : List Target) (plan : RunwayPlan) →
        IsPermutation fixed others → IsPermutation targets reordered →
        IsSequence r fixed targets plan → IsSequence r others reordered plan }
{}
