//! Why a call of a board is refused.
ghost use Rattle.std.specs.Prelude.{◌≡◌};
ghost use Rattle.cdm_board.specs.declared.fault.BoardError.TheVariants.{Memory};

use std::alloc::{AllocError, AllocFailed};
use thiserror::Error;

/// Why a call of a board is refused. The board, its history and the desk are then as before.
#[derive(Clone, Copy, PartialEq, Eq, Debug, Error)]
pub enum BoardError {
    /// The batch has more than 256 updates.
    #[error("more than 256 updates in a batch")]
    BatchSize,
    /// The history has as many entries as it may have, which is 4,096.
    #[error("the history is full")]
    HistoryFull(usize),
    /// There was no memory.
    #[error("out of memory")]
    Memory,
    /// A board has 1 to 16 desks.
    #[error("no desks or more than 16")]
    DeskCount,
}

impl From<AllocError> for BoardError {
    ghost from_gives = { λ _ e. e ≡ Memory };

    fn from(_error: AllocError) -> BoardError {
        BoardError::Memory
    }
}

impl<T: Drop> From<AllocFailed<T>> for BoardError {
    ghost from_gives = { λ _ e. e ≡ Memory };

    fn from(_error: AllocFailed<T>) -> BoardError {
        BoardError::Memory
    }
}
