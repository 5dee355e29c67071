//! Numbered parts of a phase's answer.
ghost use Rattle.std.specs.Prelude.{◌≡◌, ℕ, ◌*◌, ◌<◌, ◌≤◌, All, IfOk, length};
ghost use Rattle.std.specs.List.{AllZip};
ghost use Rattle.cdm_phase.specs.Piece.{items_of};

use crate::job::Job;
use crate::phase::run_here;
use std::alloc::{AllocError, Global};

/// The values of one piece of a list of items. Piece n has the items from `n * grain` on, at most
/// `grain` of them.
#[derive(Debug, Drop)]
pub struct Piece<Out> {
    /// The number of the piece, from 0.
    pub number: usize,
    /// The values of its items, in their order.
    pub outs: Vec<Out>,
}

// How many pieces so many items make: those whose first item exists.
pub(crate) fn piece_count(len: usize, grain: usize) -> usize
    requires { 0 < grain }
    ensures inside { (n : ℕ) → n < result → n * grain < len }
    ensures all { len ≤ result * grain }
{
    len.div_ceil(grain)
}

// The values of the items of one piece.
pub(crate) fn run_piece<J: Job>(
    alloc: Global,
    job: &J,
    items: &[J::Item],
    grain: usize,
    number: usize,
) -> Result<Vec<J::Out>, AllocError>
    requires exists { number * grain < length items.now }
    requires can { All (J.can_run job.now) items.now }
    ensures { let part = items_of items.now grain number in
        IfOk result (λ outs. AllZip (J.gives job.now) part outs.items) }
{
    let rest = &items[number * grain..];
    run_here(alloc, job, &rest[..grain.min(rest.len())])
}
