//! Files whose first faulty record refuses them.
ghost use Rattle.std.specs.Prelude.{◌≡◌};
ghost use Rattle.cdm_files.specs.declared.file_fault.FileFault.TheVariants as file;
ghost use Rattle.cdm_files.specs.declared.file_fault.RecordFault.TheVariants as row;

use cdm_flight::RefusalWord;
use std::alloc::AllocError;
use thiserror::Error;

/// Why a file is not read.
#[derive(Clone, Copy, PartialEq, Eq, Debug, Error)]
pub enum FileFault {
    /// The number of the file's first faulty record, from 1, and the word that refuses it.
    #[error("record {0}: {1}")]
    Refused(usize, RefusalWord),
    /// Want of memory.
    #[error("out of memory")]
    Memory,
}

impl From<AllocError> for FileFault {
    ghost from_gives = { λ _ e. e ≡ file.Memory };

    fn from(_error: AllocError) -> FileFault {
        FileFault::Memory
    }
}

// Why a record of a file is not taken.
#[derive(Clone, Copy, PartialEq, Eq)]
pub(crate) enum RecordFault {
    Refused(RefusalWord),
    Memory,
}

impl From<RefusalWord> for RecordFault {
    ghost from_gives = { λ word e. e ≡ row.Refused word };

    fn from(word: RefusalWord) -> RecordFault {
        RecordFault::Refused(word)
    }
}

impl RecordFault {
    /// The fault of the file, where its first faulty record has this number.
    pub(crate) fn at(self, number: usize) -> FileFault
        ensures { result ≡ fault_at self number }
    {
        match self {
            RecordFault::Refused(word) => FileFault::Refused(number, word),
            RecordFault::Memory => FileFault::Memory,
        }
    }
}

ghost use Rattle.cdm_files.specs.inner.RecordFaults.{fault_at};
