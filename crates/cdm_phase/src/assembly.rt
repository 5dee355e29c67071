//! The list that pieces make.
ghost use Rattle.std.specs.Prelude.{◌≡◌, ◌*◌, ◌<◌, All, IfOk, IfSome, IsNone, length, vec_len};
ghost use Rattle.std.specs.List.{AllZip};
ghost use Rattle.cdm_phase.specs.Piece.{items_of, IsPieceOf};
ghost use Rattle.cdm_phase.specs.inner.Slots.{AreSlotsOf};

use crate::job::Job;
use crate::piece::{Piece, piece_count, run_piece};
use std::alloc::{AllocError, Global};

/// The list of the job's values at all the items, put together from pieces in any order. Of several
/// pieces of one number one is taken, and a piece that is missing is run here. The pieces are
/// consumed. The only error is want of memory, in the job or here.
pub fn assemble<J: Job>(
    alloc: Global,
    job: &J,
    items: &[J::Item],
    grain: usize,
    pieces: Vec<Piece<J::Out>>,
) -> Result<Vec<J::Out>, AllocError>
    requires grain { 0 < grain }
    requires can { All (J.can_run job.now) items.now }
    requires pieces { All (IsPieceOf (J.gives job.now) items.now grain) pieces.items }
    ensures { IfOk result (λ outs. AllZip (J.gives job.now) items.now outs.items) }
{
    let mut slots = slots_of(alloc, piece_count(items.len(), grain), pieces)?;
    let mut outs = Vec::new(alloc);
    for (number, slot) in slots.iter_mut().enumerate() {
        let mut part = fill_gap(alloc, job, items, grain, number, slot.take())?;
        outs.append(&mut part)?;
    }
    Ok(outs)
}

// A slot for each of `count` piece numbers, with what a piece of that number has, if there is one.
fn slots_of<Out: Drop>(
    alloc: Global,
    count: usize,
    pieces: Vec<Piece<Out>>,
) -> Result<Vec<Option<Vec<Out>>>, AllocError>
    requires { All (λ piece. piece.number < count) pieces.items }
    ensures len { IfOk result (λ slots. vec_len slots ≡ count) }
    ensures from_pieces { IfOk result (λ slots. AreSlotsOf pieces.items slots.items) }
{
    let mut slots = empty_slots(alloc, count)?;
    for piece in pieces {
        slots[piece.number] = Some(piece.outs);
    }
    Ok(slots)
}

fn empty_slots<Out: Drop>(alloc: Global, count: usize) -> Result<Vec<Option<Vec<Out>>>, AllocError>
    ensures len { IfOk result (λ slots. vec_len slots ≡ count) }
    ensures empty { IfOk result (λ slots. All (λ slot. IsNone slot) slots.items) }
{
    let mut slots = Vec::new(alloc);
    for _ in 0..count {
        slots.push(None)?;
    }
    Ok(slots)
}

// The values of the items of one piece: those in its slot, or worked out here where that is empty.
fn fill_gap<J: Job>(
    alloc: Global,
    job: &J,
    items: &[J::Item],
    grain: usize,
    number: usize,
    slot: Option<Vec<J::Out>>,
) -> Result<Vec<J::Out>, AllocError>
    requires exists { number * grain < length items.now }
    requires can { All (J.can_run job.now) items.now }
    requires slot { let part = items_of items.now grain number in
        IfSome slot (λ outs. AllZip (J.gives job.now) part outs.items) }
    ensures { let part = items_of items.now grain number in
        IfOk result (λ outs. AllZip (J.gives job.now) part outs.items) }
{
    match slot {
        Some(outs) => Ok(outs),
        None => run_piece(alloc, job, items, grain, number),
    }
}
