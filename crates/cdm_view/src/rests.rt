//! Two lists without what they share.
ghost use Rattle.std.specs.Prelude.{◌≡◌, IfOk};
ghost use Rattle.std.specs.declared.cmp.Ordering.TheVariants.{Equal};
ghost use Rattle.cdm_view.specs.inner.Left.{AreRests};

use crate::standing::Standing;
use cdm_flight::push_last;
use cdm_sequence::{BlockedFlight, Slot};
use std::alloc::{AllocError, Global};
use std::cmp::Ordering;

/// What a plan lists, by the order in which it does.
pub(crate) trait Ordered {
    ghost use Rattle.std.specs.Prelude.{◌≡◌};
    ghost use Rattle.std.specs.declared.cmp.Ordering.TheVariants.{Equal};

    /// Which comes first, or `Equal` if they are the same.
    fn order(&self, other: &Self) -> Ordering
        ensures { result ≡ Equal → self.now ≡ other.now };
}

impl Ordered for Slot {
    #[tactic(auto, using(crate::proofs::EqualLemmas::equal_slots))]
    fn order(&self, other: &Self) -> Ordering {
        if self == other {
            Ordering::Equal
        } else if (self.ttot, self.name) < (other.ttot, other.name) {
            Ordering::Less
        } else {
            Ordering::Greater
        }
    }
}

impl Ordered for BlockedFlight {
    fn order(&self, other: &Self) -> Ordering {
        if self == other {
            Ordering::Equal
        } else if self.name < other.name {
            Ordering::Less
        } else {
            Ordering::Greater
        }
    }
}

impl Ordered for Standing {
    #[tactic(auto, using(crate::proofs::EqualLemmas::equal_standings))]
    fn order(&self, other: &Self) -> Ordering {
        if self == other {
            Ordering::Equal
        } else if self.flight() < other.flight() {
            Ordering::Less
        } else {
            Ordering::Greater
        }
    }
}

/// The two lists without what they share. Both are gone through once: of lists in their order, all that they share is
/// left out.
pub(crate) fn rests_of<T: Ordered + Copy>(
    alloc: Global,
    one: &[T],
    other: &[T],
) -> Result<(Vec<T>, Vec<T>), AllocError>
    ensures { IfOk result (λ rests. AreRests one.now other.now rests.0.items rests.1.items) }
{
    let (mut first, mut second) = (Vec::new(alloc), Vec::new(alloc));
    let (mut place, mut other_place) = (0, 0);
    'places: while place < one.len() && other_place < other.len() {
        match one[place].order(&other[other_place]) {
            Ordering::Equal => {
                place += 1;
                other_place += 1;
            }
            Ordering::Less => {
                push_last(&mut first, one[place])?;
                place += 1;
            }
            Ordering::Greater => {
                push_last(&mut second, other[other_place])?;
                other_place += 1;
            }
        }
    }
    first.extend_from_slice(&one[place..])?;
    second.extend_from_slice(&other[other_place..])?;
    Ok((first, second))
}
