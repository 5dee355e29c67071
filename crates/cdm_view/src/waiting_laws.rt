//! Laws of waiting: by the plan of the day a flight waits exactly while there is a reason.
ghost use Rattle.std.specs.Prelude.{◌≡◌, ◌⊎◌, ◌↔◌, ℕ, ◌+◌, ◌<◌, ◌≤◌, None, Some, IfSome, IsSome, Contains};
ghost use Rattle.std.specs.Option.{IsSomeAnd};
ghost use Rattle.cdm_flight.specs.declared.flight.Flight.{Flight};
ghost use Rattle.cdm_sequence.specs.declared.plan.Plan.{Plan};
ghost use Rattle.cdm_sequence.specs.declared.slot.Slot.{Slot};
ghost use Rattle.cdm_sequence.specs.declared.slot.BlockedFlight.{BlockedFlight};
ghost use Rattle.cdm_plan.specs.Day.{DayRecord};
ghost use Rattle.cdm_view.specs.Causes.{cause_at};
ghost use Rattle.cdm_view.specs.Reasons.{Waiting, reason_at, slots_on};
ghost use Rattle.cdm_view.specs.Waits.{Waits, place_of, rule_of};

/// A planned flight that has a slot takes off within the horizon, its delay after its TOBT and taxi-out time.
/// Each minute before has a reason, and its take-off has none.
pub fn a_placed_flight_waits_its_delay()
    ensures within { (d : DayRecord) (plan : Plan) (f : Flight) (w : Waiting) (s : Slot) →
        Waits d plan f w → Contains (slots_on plan w.rules.name) s → s.name ≡ f.name → s.ttot < 2880 }
    ensures delayed { (d : DayRecord) (plan : Plan) (f : Flight) (w : Waiting) (s : Slot) →
        Waits d plan f w → Contains (slots_on plan w.rules.name) s → s.name ≡ f.name →
        IsSomeAnd s.delay (λ delay. s.ttot ≡ w.tobt + w.exot + delay) }
    ensures held { (d : DayRecord) (plan : Plan) (f : Flight) (w : Waiting) (s : Slot) →
        Waits d plan f w → Contains (slots_on plan w.rules.name) s → s.name ≡ f.name →
        (m : ℕ) → m < s.ttot → IsSome (reason_at w m) }
    ensures free { (d : DayRecord) (plan : Plan) (f : Flight) (w : Waiting) (s : Slot) →
        Waits d plan f w → Contains (slots_on plan w.rules.name) s → s.name ≡ f.name →
        reason_at w s.ttot ≡ None }
{}

/// A planned flight that is blocked has a reason at each minute of the horizon, and the rule that blocks it
/// is the last of the rules of its reasons, in the order in which rules are tested.
pub fn a_blocked_flight_waits_always()
    ensures held { (d : DayRecord) (plan : Plan) (f : Flight) (w : Waiting) (b : BlockedFlight) →
        Waits d plan f w → Contains plan.blocked b → b.name ≡ f.name →
        (m : ℕ) → m < 2880 → IsSome (reason_at w m) }
    ensures last { (d : DayRecord) (plan : Plan) (f : Flight) (w : Waiting) (b : BlockedFlight) →
        Waits d plan f w → Contains plan.blocked b → b.name ≡ f.name →
        (m : ℕ) → m < 2880 → IfSome (reason_at w m) (λ reason. place_of (rule_of reason) ≤ place_of b.rule) }
    ensures among { (d : DayRecord) (plan : Plan) (f : Flight) (w : Waiting) (b : BlockedFlight) →
        Waits d plan f w → Contains plan.blocked b → b.name ≡ f.name →
        (m : ℕ) × (m < 2880) × IsSomeAnd (reason_at w m) (λ reason. rule_of reason ≡ b.rule) }
{}

/// A planned flight that waits waits for its own runway: it has a slot on it or is blocked, and not both.
#[tactic(auto, using(crate::proofs::OutcomeLemmas::on_runway, crate::proofs::OutcomeLemmas::either, crate::proofs::OutcomeLemmas::not_both))]
pub fn a_waiting_flight_is_placed_or_blocked()
    ensures runway { (d : DayRecord) (plan : Plan) (f : Flight) (w : Waiting) → Waits d plan f w →
        f.runway ≡ Some w.rules.name }
    ensures either { (d : DayRecord) (plan : Plan) (f : Flight) (w : Waiting) → Waits d plan f w →
        ((s : Slot) × Contains (slots_on plan w.rules.name) s × (s.name ≡ f.name)) ⊎
        ((b : BlockedFlight) × Contains plan.blocked b × (b.name ≡ f.name)) }
    ensures not_both { (d : DayRecord) (plan : Plan) (f : Flight) (w : Waiting) →
        (s : Slot) (b : BlockedFlight) → Waits d plan f w → Contains (slots_on plan w.rules.name) s → s.name ≡ f.name →
        Contains plan.blocked b → b.name ≡ f.name → ⊥ }
{}

/// A minute has a cause exactly where it has a reason.
#[tactic(auto, using(crate::proofs::CauseLemmas::both))]
pub fn a_reason_has_a_cause()
    ensures { (w : Waiting) (m : ℕ) → IsSome (reason_at w m) ↔ IsSome (cause_at w m) }
{}
