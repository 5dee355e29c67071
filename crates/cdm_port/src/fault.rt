//! Why something outside can't be done.
ghost use Rattle.std.specs.Prelude.{◌≡◌};
ghost use Rattle.cdm_port.specs.declared.fault.PortFault.TheVariants as fault;

use crate::reason::Reason;
use std::alloc::AllocError;
use thiserror::Error;

/// The most bytes that a journal may have where it is read (local profile).
pub const JOURNAL_LIMIT: usize = 8_388_608;

/// Why something outside a served day can't be done, in the words that a fault line ends with. What the system says of it
/// stands behind them.
#[derive(Clone, Copy, PartialEq, Eq, Debug, Error)]
pub enum PortFault {
    /// The journal can't be read.
    #[error("cannot read JOURNAL{0}")]
    CannotReadJournal(Reason),
    /// The journal has more than [`JOURNAL_LIMIT`] bytes.
    #[error("JOURNAL is longer than {JOURNAL_LIMIT} bytes")]
    JournalTooLong,
    /// The input can't be read.
    #[error("cannot read standard input{0}")]
    CannotReadInput(Reason),
    /// The journal can't be written, renamed, marked or synced.
    #[error("cannot write JOURNAL{0}")]
    CannotWriteJournal(Reason),
    /// The journal isn't the file that was opened any more, or has another length than what was written to it.
    #[error("JOURNAL was changed by another")]
    JournalChanged,
    /// The output can't be written or flushed.
    #[error("cannot write{0}")]
    CannotWrite(Reason),
    /// Want of memory.
    #[error("out of memory")]
    Memory,
}

impl From<AllocError> for PortFault {
    ghost from_gives = { λ _ e. e ≡ fault.Memory };

    fn from(_error: AllocError) -> PortFault {
        PortFault::Memory
    }
}
