//! Why a live run ends without its whole text.
ghost use Rattle.std.specs.Prelude.{◌≡◌};
ghost use Rattle.cdm_files.specs.declared.common_fault.CommonFault.TheVariants as common;
ghost use Rattle.cdm_live.specs.declared.live_error.LiveError.TheVariants as error;

use cdm_board::{BoardError, MOST_CALLS};
use cdm_files::{CommonFault, WriteFault};
use std::alloc::{AllocError, AllocFailed};
use thiserror::Error;

/// Why a live run ends without its whole text. Records are numbered from 1.
#[derive(Clone, Copy, PartialEq, Eq, Debug, Error)]
pub enum LiveError {
    /// A fault that every run can have.
    #[error(transparent)]
    Common(CommonFault),
    /// The feeds need more calls than a board takes.
    #[error("board is full after {MOST_CALLS} calls")]
    HistoryFull,
    /// The board gave an answer that the feeds can't cause.
    #[error("board and desk differ")]
    Mismatch,
}

impl From<CommonFault> for LiveError {
    ghost from_gives = { λ fault e. e ≡ error.Common fault };

    fn from(fault: CommonFault) -> LiveError {
        LiveError::Common(fault)
    }
}

impl From<AllocError> for LiveError {
    ghost from_gives = { λ _ e. e ≡ error.Common common.Memory };

    fn from(_error: AllocError) -> LiveError {
        LiveError::Common(CommonFault::Memory)
    }
}

impl<T: Drop> From<AllocFailed<T>> for LiveError {
    ghost from_gives = { λ _ e. e ≡ error.Common common.Memory };

    fn from(_error: AllocFailed<T>) -> LiveError {
        LiveError::Common(CommonFault::Memory)
    }
}

impl From<BoardError> for LiveError {
    ghost use Rattle.cdm_live.specs.inner.LiveSteps.{fault_of_call};

    ghost from_gives = { λ fault e. e ≡ fault_of_call fault };

    // No batch is too long, and the calls were counted before the first of them.
    fn from(fault: BoardError) -> LiveError {
        match fault {
            BoardError::Memory => LiveError::Common(CommonFault::Memory),
            BoardError::BatchSize | BoardError::HistoryFull(_) | BoardError::DeskCount => {
                LiveError::Mismatch
            }
        }
    }
}

impl From<WriteFault> for LiveError {
    ghost from_gives = { λ _ e. e ≡ error.Common common.Write };

    fn from(_fault: WriteFault) -> LiveError {
        LiveError::Common(CommonFault::Write)
    }
}
