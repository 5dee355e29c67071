//! What holds a flight apart from the clock.
ghost use Rattle.std.specs.Prelude.{◌≡◌, length};
ghost use Rattle.cdm_view.specs.Causes.{cause_at};
ghost use Rattle.cdm_view.specs.inner.Earlier.{met_among};
ghost use Rattle.cdm_view.specs.Reasons.{met_at};

use crate::waiting::Waiting;
use cdm_sequence::Slot;
use cdm_time::Minute;

/// What holds a planned flight at a minute, in the order in which it is asked (local profile): as a
/// [`Reason`](crate::Reason), but whether the flight would have had to leave before now is asked last.
#[derive(Clone, Copy, PartialEq, Eq, Debug)]
pub enum Cause {
    /// Its de-icing on the stand isn't done so early.
    Ice,
    /// The minute isn't within the tolerance of its CTOT.
    Ctot,
    /// The runway is closed.
    Closure,
    /// Other flights occupy the runway at a minute at which it would.
    Spacing,
    /// The cell has as many flights as it takes.
    Rate,
    /// Nothing but that it would have had to leave its stand before now.
    Now,
}

impl Waiting<'_> {
    // How many flights of the slots it would meet, if it took off at the minute.
    fn count_among(&self, minute: Minute, slots: &[Slot]) -> usize
        ensures { result ≡ length (met_among self.now minute slots.now) }
    {
        slots.iter().filter(|slot| self.meets(minute, slot)).count()
    }

    // How many flights it would meet, if it took off at the minute.
    fn count_met(&self, minute: Minute) -> usize
        ensures { result ≡ length (met_at self.now minute) }
    {
        self.count_among(minute, self.near(minute))
    }

    /// What holds the flight at the minute apart from the clock, and the clock where nothing else does. There is a
    /// cause exactly where there is a reason (`a_reason_has_a_cause`).
    #[tactic(auto, unfolding(crate::specs::Causes::cause_at))]
    pub fn cause_at(&self, minute: Minute) -> Option<Cause>
        ensures { result ≡ cause_at self.now minute }
    {
        let flight = self.flight;
        let number = minute.get();
        if number < self.tobt.get() + flight.ice.minutes_on_stand() + self.exot {
            return Some(Cause::Ice);
        }
        if !self.keeps_ctot(minute) {
            return Some(Cause::Ctot);
        }
        if self.runway.closed(minute) {
            return Some(Cause::Closure);
        }
        if self.count_met(minute) > 0 {
            return Some(Cause::Spacing);
        }
        if usize::from(self.runway.cap_at(minute).get()) <= self.held_at(minute).len() {
            return Some(Cause::Rate);
        }
        if number < self.values.clock.get() + self.exot {
            return Some(Cause::Now);
        }
        None
    }
}
