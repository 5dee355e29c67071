//! Windows of minutes.
ghost use Rattle.std.specs.Prelude.{◌≡◌, ℕ, ◌+◌, ◌-◌, ◌≤◌, ◌<◌, nat_lt, min, Some, None, if◌then◌else◌};
ghost use Rattle.cdm_time.specs.Windows.{is_in_tolerance, window_has};

use crate::bound::Bound;
use crate::minute::Minute;
use crate::tolerance::Tolerance;
use std::marker::Model;

/// The minutes from one up to a bound, which is not among them. No window is empty.
#[derive(Clone, Copy, PartialEq, Eq, Debug)]
pub struct Window {
    from: Minute,
    to: Bound,
}

impl Model for Window {
    ghost use Rattle.std.specs.Prelude.{◌<◌, ℕ};
    ghost use Rattle.std.specs.declared.ops.Range.{Range};

    ghost Value = { Range ℕ };

    ghost view = { λ w. record { start = w.from; end = w.to } };

    ghost inverse = { λ r. record { from = r.start; to = r.end } };

    ghost invariant = { λ w. w.from < w.to };
}

impl Window {
    /// The window from a minute up to a bound, or `None` where it would have no minute.
    pub fn new(from: Minute, to: Bound) -> Option<Window>
        ensures { result ≡ (if nat_lt from to then Some (record { start = from; end = to }) else None) }
    {
        if from.get() < to.get() {
            Some(Window { from, to })
        } else {
            None
        }
    }

    /// The window's first minute.
    pub fn from(self) -> Minute
        ensures value { result ≡ self.start }
        ensures ordered { self.start < self.end }
    {
        self.from
    }

    /// The bound at which the window ends.
    pub fn to(self) -> Bound
        ensures value { result ≡ self.end }
        ensures ordered { self.start < self.end }
        ensures in_horizon { self.end ≤ 2880 }
    {
        self.to
    }

    /// Whether a minute is one of the window's.
    pub fn contains(self, minute: Minute) -> bool
        ensures { result ≡ window_has self.start self.end minute }
    {
        self.from.get() <= minute.get() && minute.get() < self.to.get()
    }
}

/// The minutes at which a flight with this CTOT may take off: those of the horizon within the
/// tolerance of the CTOT.
pub fn ctot_window(ctot: Minute, tolerance: Tolerance) -> Window
    ensures from { result.start ≡ ctot - tolerance.before }
    ensures to { result.end ≡ min 2880 (ctot + tolerance.after + 1) }
    ensures minutes { (m : ℕ) → m < 2880 → window_has result.start result.end m ≡ is_in_tolerance tolerance ctot m }
{
    let from = ctot.get().saturating_sub(tolerance.before);
    let to = (ctot.get() + tolerance.after + 1).min(Bound::END.get());
    Window {
        from: Minute { number: from },
        to: Bound { number: to },
    }
}
