//! The indicators of a plan.
ghost use Rattle.std.specs.Prelude.{◌≡◌, ◌+◌, ◌*◌, ◌^◌, ◌<◌, ◌≤◌, length, fold};
ghost use Rattle.cdm_report.specs.Counts.{blocked_by, counts_of};
ghost use Rattle.cdm_report.specs.inner.Counting.{delays_in, only_blocked, with_delay};

use cdm_sequence::{BlockedFlight, Plan, Rule, Slot};

/// A planned flight is late where its delay is above so many minutes (local profile).
const LATE_ABOVE: u32 = 15;

/// The indicators of a plan (local profile): how many planned flights get a take-off minute and how
/// long they are delayed, and how many get none. Delays are whole minutes.
#[derive(Clone, Copy, Debug, PartialEq, Eq)]
pub struct Counts {
    /// The planned flights that get a take-off minute.
    pub placed: u32,
    /// The sum of their delays.
    pub delay: u32,
    /// The greatest of their delays, 0 where there is none.
    pub greatest: u32,
    /// Those that are late, by more than 15 minutes.
    pub late: u32,
    /// The planned flights that get no take-off minute.
    pub blocked: u32,
    /// How many of those each rule blocks, in the order of [`Rule::all`](cdm_sequence::Rule::all).
    pub by_rule: [u32; 8],
}

impl Counts {
    // Counts in a planned flight that gets a minute.
    fn add_delay(&mut self, delay: u16)
        requires placed { self.old.placed + 1 < 2 ^ 32 }
        requires sum { self.old.delay + delay < 2 ^ 32 }
        requires late { self.old.late + 1 < 2 ^ 32 }
        ensures counted { self.new ≡ with_delay self.old delay }
        ensures placed { self.new.placed ≡ self.old.placed + 1 }
        ensures sum { self.new.delay ≤ self.old.delay + 65535 }
        ensures late { self.new.late ≤ self.old.late + 1 }
    {
        let delay = u32::from(delay);
        self.placed += 1;
        self.delay += delay;
        self.greatest = self.greatest.max(delay);
        if delay > LATE_ABOVE {
            self.late += 1;
        }
    }

    // Counts in a runway's planned flights.
    fn add_slots(&mut self, slots: &[Slot])
        requires placed { self.old.placed + length slots.now < 2 ^ 32 }
        requires late { self.old.late + length slots.now < 2 ^ 32 }
        requires sum { self.old.delay + 65535 * length slots.now < 2 ^ 32 }
        ensures counted { self.new ≡ fold with_delay self.old (delays_in slots.now) }
        ensures placed { self.new.placed ≤ self.old.placed + length slots.now }
        ensures late { self.new.late ≤ self.old.late + length slots.now }
        ensures sum { self.new.delay ≤ self.old.delay + 65535 * length slots.now }
    {
        for slot in slots {
            if let Some(delay) = slot.delay {
                self.add_delay(delay);
            }
        }
    }
}

// How many of the flights the rule blocks.
fn count_blocked(rule: Rule, flights: &[BlockedFlight]) -> u32
    requires { length flights.now ≤ 2000 }
    ensures { result ≡ blocked_by rule flights.now }
{
    flights.iter().filter(|flight| flight.rule == rule).count() as u32
}

// The indicators where these flights are blocked and no other is planned.
fn blocked_counts(flights: &[BlockedFlight]) -> Counts
    requires { length flights.now ≤ 2000 }
    ensures { result ≡ only_blocked flights.now }
{
    Counts {
        placed: 0,
        delay: 0,
        greatest: 0,
        late: 0,
        blocked: flights.len() as u32,
        by_rule: [
            count_blocked(Rule::Tobt, flights),
            count_blocked(Rule::Runway, flights),
            count_blocked(Rule::Exot, flights),
            count_blocked(Rule::Horizon, flights),
            count_blocked(Rule::Ctot, flights),
            count_blocked(Rule::Closure, flights),
            count_blocked(Rule::Spacing, flights),
            count_blocked(Rule::Rate, flights),
        ],
    }
}

/// The indicators of a plan: its planned flights that get a minute with their delays, and its blocked
/// flights with the rules that block them.
pub fn indicators(plan: &Plan) -> Counts
    ensures { result ≡ counts_of plan.entry.now }
{
    let mut counts = blocked_counts(plan.blocked.as_slice());
    for runway in plan.runways.as_slice() {
        counts.add_slots(runway.slots.as_slice());
    }
    counts
}
