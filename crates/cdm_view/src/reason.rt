//! Why a flight can't take off at a minute.
ghost use Rattle.std.specs.Prelude.{◌≡◌, ◌↔◌, IsTrue};

use crate::names::Names;
use cdm_flight::Cap;

/// Why a planned flight can't take off at a minute, in the order in which the reasons are asked
/// (local profile). Names of flights stand by take-off and name.
#[derive(Debug, Drop)]
pub enum Reason {
    /// Its de-icing on the stand isn't done so early.
    Ice,
    /// It would have had to leave its stand before now.
    Now,
    /// The minute isn't within the tolerance of its CTOT.
    Ctot,
    /// The runway is closed.
    Closure,
    /// These flights occupy the runway at a minute at which it would.
    Spacing(Names),
    /// The cell takes so many flights, and has taken these.
    Rate(Cap, Names),
}

// Whether both have the same names, in the same order.
fn are_same_names(names: &Names, others: &Names) -> bool
    ensures { IsTrue result ↔ (names.now ≡ others.now) }
{
    names.as_slice() == others.as_slice()
}

impl Reason {
    /// Whether the other is the same, with the same cap and names.
    pub(crate) fn is(&self, other: &Reason) -> bool
        ensures { IsTrue result ↔ (self.now ≡ other.now) }
    {
        match (self, other) {
            (Reason::Ice, Reason::Ice)
            | (Reason::Now, Reason::Now)
            | (Reason::Ctot, Reason::Ctot)
            | (Reason::Closure, Reason::Closure) => true,
            (Reason::Spacing(names), Reason::Spacing(others)) => are_same_names(names, others),
            (Reason::Rate(cap, names), Reason::Rate(other_cap, others)) => {
                cap == other_cap && are_same_names(names, others)
            }
            _ => false,
        }
    }
}
