//! The CTOT tolerance.
ghost use Rattle.std.specs.Prelude.{◌≡◌, ◌&&◌, nat_le, Some, None, if◌then◌else◌};

use std::marker::Model;

/// How far from its CTOT a flight may take off, in minutes: up to 15 before it and up to 30 after
/// it (local profile, after the manual's slot tolerance window).
#[derive(Clone, Copy, PartialEq, Eq, Debug)]
pub struct Tolerance {
    pub before: u16,
    pub after: u16,
}

impl Model for Tolerance {
    ghost use Rattle.cdm_time.specs.declared.tolerance.Tolerance.TheInside as inside;

    ghost Value = { inside.Inside };

    ghost use Rattle.std.specs.Prelude.{◌≤◌};

    ghost view = { λ t. t };

    ghost invariant = { λ t. (t.before ≤ 15) × (t.after ≤ 30) };

    ghost inverse = { λ t. t };
}

impl Tolerance {
    ghost use Rattle.cdm_time.specs.Windows.{usual_tolerance};

    /// The tolerance of so many minutes before the CTOT and after it, or None above 15 before or
    /// above 30 after.
    pub fn new(before: u16, after: u16) -> Option<Tolerance>
        ensures { result ≡ (if nat_le before 15 && nat_le after 30 then Some (record { before = before; after = after }) else None) }
    {
        if before <= 15 && after <= 30 {
            Some(Tolerance { before, after })
        } else {
            None
        }
    }

    /// The usual one: 5 minutes before and 10 after (the manual's slot tolerance window).
    pub fn usual() -> Tolerance
        ensures { result ≡ usual_tolerance }
    {
        Tolerance {
            before: 5,
            after: 10,
        }
    }
}
