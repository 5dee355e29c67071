//! The minutes that searches for a free minute passed over, so that the next search need not
//! visit them again.
ghost use Rattle.std.specs.Prelude.{◌≡◌, ◌⊎◌, ℕ, ◌≤◌, ◌<◌};

use cdm_flight::Group;

// The minutes from one up to another; none where the second isn't after the first.
#[derive(Clone, Copy, Debug)]
pub(crate) struct Stretch {
    pub(crate) from: u16,
    pub(crate) to: u16,
}

impl Stretch {
    ghost use Rattle.cdm_runway.specs.Passed.{IsIn};

    // No minute.
    pub(crate) const NONE: Stretch = Stretch { from: 0, to: 0 };

    // The first minute from this one on that isn't of the stretch.
    pub(crate) fn past(self, minute: u16) -> u16
        ensures after { minute ≤ result }
        ensures passed { (k : ℕ) → minute ≤ k → k < result → IsIn self k }
    {
        if self.from <= minute && minute < self.to {
            self.to
        } else {
            minute
        }
    }

    // Its minutes and those from one up to another, where they leave no minute out between them; else
    // the longer of the two.
    pub(crate) fn joined(self, from: u16, to: u16) -> Stretch
        ensures { (k : ℕ) → IsIn result k → IsIn self k ⊎ (from ≤ k) × (k < to) }
    {
        if self.from <= to && from <= self.to {
            return Stretch {
                from: self.from.min(from),
                to: self.to.max(to),
            };
        }
        if self.to.saturating_sub(self.from) < to.saturating_sub(from) {
            return Stretch { from, to };
        }
        self
    }
}

// What searches for flights of one group passed over.
#[derive(Clone, Copy, Debug)]
pub(crate) struct Passed {
    // No flight of the group may take one of these.
    pub(crate) unfree: Stretch,
    // At each of these that is open a flight of the group meets another one.
    pub(crate) met: Stretch,
}

impl Passed {
    const NONE: Passed = Passed {
        unfree: Stretch::NONE,
        met: Stretch::NONE,
    };
}

/// Minutes of a runway of which it is known, group by group, that no flight may take them any more.
#[derive(Clone, Copy, Debug)]
pub struct PassedOver {
    pub(crate) light: Passed,
    pub(crate) medium: Passed,
    pub(crate) heavy: Passed,
}

impl PassedOver {
    ghost use Rattle.std.specs.Prelude.{List};
    ghost use Rattle.cdm_runway.specs.Rules.{RunwayRules};
    ghost use Rattle.cdm_runway.specs.Passed.{ArePassed, passed_of, with_passed};
    ghost use Rattle.cdm_runway.specs.declared.load.Taken.{Taken as ATaken};

    /// No minute for any group.
    pub fn none() -> PassedOver
        ensures { (r : RunwayRules) (taken : List ATaken) → ArePassed r taken result }
    {
        PassedOver {
            light: Passed::NONE,
            medium: Passed::NONE,
            heavy: Passed::NONE,
        }
    }

    // Those of a group.
    pub(crate) fn of(&self, group: Group) -> Passed
        ensures { result ≡ passed_of self.now group }
    {
        match group {
            Group::Light => self.light,
            Group::Medium => self.medium,
            Group::Heavy => self.heavy,
        }
    }

    // Others for one group.
    pub(crate) fn set(&mut self, group: Group, passed: Passed)
        ensures { self.new ≡ with_passed self.old group passed }
    {
        match group {
            Group::Light => self.light = passed,
            Group::Medium => self.medium = passed,
            Group::Heavy => self.heavy = passed,
        }
    }
}
