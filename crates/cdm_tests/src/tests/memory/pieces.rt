//! Pieces that are put together.
ghost use Rattle.std.specs.Prelude.{◌≡◌, ◌+◌, [], ◌∷◌, IfOk};
ghost use Rattle.std.proofs.Common.{sym, ◌∙◌};
ghost use Rattle.cdm_phase.specs.declared.job.PhaseName.TheVariants.{Targets};

use crate::tests::asserts::assert_holds;
use cdm_phase::{Job, OpenGate, PhaseName, Piece, Workers, assemble, run_here, run_phase};
use std::alloc::{AllocError, Global};
use std::thread::Threads;

const ITEMS: [u32; 3] = [10, 20, 30];

/// What is made of them.
const OUTS: [u64; 3] = [11, 21, 31];

/// One more than the item.
struct AddOne;

impl Job for AddOne {
    type Item = u32;

    type Out = u64;

    ghost gives = { λ _ item out. out ≡ item + 1 };

    ghost phase_name = { Targets };

    fn run(&self, _alloc: Global, item: &u32) -> Result<u64, AllocError> {
        Ok(u64::from(*item) + 1)
    }

    fn phase(&self) -> PhaseName {
        PhaseName::Targets
    }

    ghost one_value = { λ _ _ x y _ a b. a ∙ sym b };
}

fn piece_of_one(alloc: Global, number: usize, out: u64) -> Result<Piece<u64>, AllocError>
    ensures { IfOk result (λ piece. (piece.number ≡ number) × (piece.outs.items ≡ out ∷ [])) }
{
    let mut outs = Vec::new(alloc);
    outs.push(out)?;
    Ok(Piece { number, outs })
}

// Two pieces have the first item, one the third, and none the second.
fn double_and_gap(alloc: Global) -> Result<Vec<u64>, AllocError> {
    let third = piece_of_one(alloc, 2, 31)?;
    let first = piece_of_one(alloc, 0, 11)?;
    let double = piece_of_one(alloc, 0, 11)?;
    let pieces = Vec::from_array(alloc, [third, first, double])?;
    assemble(alloc, &AddOne, &ITEMS, 1, pieces)
}

// What many workers make.
fn by_workers<R: Threads + Sync>(rt: &R, alloc: Global, count: usize) -> Option<Vec<u64>> {
    let workers = Workers::new(count)?;
    again!(
        run_phase(rt, alloc, workers, 1, &AddOne, &ITEMS, &OpenGate),
        AllocError,
        true
    )
}

// What a double and a gap make.
fn by_pieces(alloc: Global) -> Option<Vec<u64>> {
    again!(double_and_gap(alloc), AllocError, true)
}

// What the caller alone makes.
fn by_caller(alloc: Global) -> Option<Vec<u64>> {
    again!(run_here(alloc, &AddOne, &ITEMS), AllocError, true)
}

// Whether it is the list.
fn is_list(outs: Option<Vec<u64>>) -> bool {
    match outs {
        Some(outs) => outs.as_slice() == OUTS.as_slice(),
        None => false,
    }
}

/// A double and a gap make the list, and so do a phase of many workers and the caller alone.
#[test]
fn refused_memory_in_pieces(rt: HostRuntime) {
    let alloc = rt.alloc();
    assert_holds(&rt, is_list(by_pieces(alloc)), "a double and a gap");
    assert_holds(&rt, is_list(by_caller(alloc)), "the caller alone");
    for count in [1, 2, 7] {
        let outs = by_workers(&rt, alloc, count);
        assert_holds(&rt, is_list(outs), (count, "workers"));
    }
}
