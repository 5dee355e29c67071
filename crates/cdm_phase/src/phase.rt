//! A phase: its workers, each a thread that claims pieces from one counter, or the caller alone.
ghost use Rattle.std.specs.Prelude.{◌≡◌, ◌+◌, ◌*◌, ◌<◌, ◌≤◌, All, IfOk, length};
ghost use Rattle.std.specs.List.{AllZip};
ghost use Rattle.std.specs.Thread.{IsSync, IsSend};
ghost use Rattle.cdm_phase.specs.Piece.{IsPieceOf};

use crate::assembly::assemble;
use crate::gate::Gate;
use crate::job::Job;
use crate::piece::{Piece, piece_count, run_piece};
use crate::workers::Workers;
use std::alloc::{AllocError, Global};
use std::ops::Range;
use std::sync::atomic::{AtomicUsize, Ordering};
use std::thread;
use std::thread::Threads;

/// The list of the job's values at all the items, in their order, whoever ran which piece.
///
/// The items are cut into pieces of `grain` items, of which the last may have fewer. There are as
/// many workers as asked for, but no more than pieces. Each worker claims the next piece that nobody
/// has claimed, passes the gate with it and runs it, until no piece is left, so each piece passes
/// the gate once, in the job's phase. Without items the list is empty and the gate isn't passed.
///
/// The caller is one of the workers. Where a thread can't be started, the thread that would have
/// started it does its work. The only error is want of memory, in the job or here, and it is
/// answered after all workers have ended.
pub fn run_phase<R: Threads + Sync, J: Job, G: Gate>(
    rt: &R,
    alloc: Global,
    workers: Workers,
    grain: usize,
    job: &J,
    items: &[J::Item],
    gate: &G,
) -> Result<Vec<J::Out>, AllocError>
    requires grain { 0 < grain }
    requires can { All (J.can_run job.now) items.now }
    ensures { IfOk result (λ outs. AllZip (J.gives job.now) items.now outs.items) }
{
    if items.is_empty() {
        return Ok(Vec::new(alloc));
    }
    let count = workers.get().min(piece_count(items.len(), grain));
    let next = AtomicUsize::new(0);
    let work = Work {
        grain,
        job,
        items,
        gate,
        next: &next,
    };
    let pieces = run_workers(rt, alloc, &work, 0..count)?;
    assemble(alloc, job, items, grain, pieces)
}

/// The list of the job's values at all the items, in their order. The caller runs them one after
/// another, and no gate is passed. The only error is want of memory, in the job or here.
pub fn run_here<J: Job>(
    alloc: Global,
    job: &J,
    items: &[J::Item],
) -> Result<Vec<J::Out>, AllocError>
    requires { All (J.can_run job.now) items.now }
    ensures { IfOk result (λ outs. AllZip (J.gives job.now) items.now outs.items) }
{
    let mut outs = Vec::with_capacity(alloc, items.len())?;
    for item in items {
        outs.push(job.run(alloc, item)?)?;
    }
    Ok(outs)
}

// What the workers of a phase share. `next` is the number of the next piece to be claimed. No proof
// rests on it: a piece claimed twice or never would be a double or a gap for `assemble`.
#[derive(Drop)]
struct Work<'a, J: Job, G: Gate> {
    grain: usize,
    job: &'a J,
    items: &'a [J::Item],
    gate: &'a G,
    next: &'a AtomicUsize,
    ghost grain_is_positive: { 0 < grain },
}

// The pieces that a range of workers claim. One worker claims by itself. More go as two halves, the
// front one on this thread, so that the caller of it all ends as worker 0.
#[cycle(workers)]
fn run_workers<R: Threads + Sync, J: Job, G: Gate>(
    rt: &R,
    alloc: Global,
    work: &Work<'_, J, G>,
    workers: Range<usize>,
) -> Result<Vec<Piece<J::Out>>, AllocError>
    requires workers { workers.start < workers.end }
    requires can { All (J.can_run work.now.job.now) work.now.items.now }
    ensures { let w = work.now in IfOk result (λ pieces.
        All (IsPieceOf (J.gives w.job.now) w.items.now w.grain) pieces.items) }
{
    let Range { start, end } = workers;
    if end - start == 1 {
        return claim_pieces(alloc, work);
    }
    let middle = start + (end - start) / 2;
    let back = move || -> Result<Vec<Piece<J::Out>>, AllocError>
        requires shared { IsSync R.row × IsSync J.row × IsSync J.Item.row × IsSync G.row }
        requires sent { IsSend J.Out.row }
        requires workers { middle < end }
        requires can { All (J.can_run work.now.job.now) work.now.items.now }
        ensures { let w = work.entry.now in IfOk result (λ pieces.
            All (IsPieceOf (J.gives w.job.now) w.items.now w.grain) pieces.items) }
    { run_workers(rt, alloc, work, middle..end) };
    let front = move || -> Result<Vec<Piece<J::Out>>, AllocError>
        requires shared { IsSync R.row × IsSync J.row × IsSync J.Item.row × IsSync G.row }
        requires sent { IsSend J.Out.row }
        requires workers { start < middle }
        requires can { All (J.can_run work.now.job.now) work.now.items.now }
        ensures { let w = work.entry.now in IfOk result (λ pieces.
            All (IsPieceOf (J.gives w.job.now) w.items.now w.grain) pieces.items) }
    { run_workers(rt, alloc, work, start..middle) };
    let (theirs, mine) = thread::join(rt, back, front);
    let mut pieces = mine?;
    let mut others = theirs?;
    pieces.append(&mut others)?;
    Ok(pieces)
}

// The pieces that one worker claims. It stops at a number that is no piece, or after as many turns
// as there are pieces.
fn claim_pieces<J: Job, G: Gate>(
    alloc: Global,
    work: &Work<'_, J, G>,
) -> Result<Vec<Piece<J::Out>>, AllocError>
    requires { All (J.can_run work.now.job.now) work.now.items.now }
    ensures { let w = work.now in IfOk result (λ pieces.
        All (IsPieceOf (J.gives w.job.now) w.items.now w.grain) pieces.items) }
{
    let count = piece_count(work.items.len(), work.grain);
    let mut pieces = Vec::new(alloc);
    for _ in 0..count {
        let number = work.next.fetch_add(1, Ordering::SeqCst);
        if number >= count {
            break;
        }
        work.gate.pass(work.job.phase(), number);
        let outs = run_piece(alloc, work.job, work.items, work.grain, number)?;
        pieces.push(Piece { number, outs })?;
    }
    Ok(pieces)
}
