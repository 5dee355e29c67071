//! Why a served day ends before its input does.
ghost use Rattle.std.specs.Prelude.{◌≡◌};
ghost use Rattle.cdm_files.specs.declared.common_fault.CommonFault.TheVariants as common;
ghost use Rattle.cdm_serve.specs.declared.fault.ServeError.TheVariants as error;

use cdm_files::{CommonFault, FileFault};
use cdm_flight::RefusalWord;
use cdm_port::PortFault;
use std::alloc::AllocError;
use thiserror::Error;

/// Why a served day ends before its input does. Records are numbered from 1.
#[derive(Clone, Copy, PartialEq, Eq, Debug, Error)]
pub enum ServeError {
    /// A fault that every run can have: of the airport file, or want of memory.
    #[error(transparent)]
    Common(CommonFault),
    /// The first refused record of the journal, and the word that refuses it.
    #[error("JOURNAL record {0}: {1}")]
    Journal(usize, RefusalWord),
    /// A fault of the journal, the input or the output.
    #[error(transparent)]
    Port(PortFault),
    /// There were more records and questions than can be numbered.
    #[error("too many records")]
    TooMany,
}

impl From<CommonFault> for ServeError {
    ghost from_gives = { λ fault e. e ≡ error.Common fault };

    fn from(fault: CommonFault) -> ServeError {
        ServeError::Common(fault)
    }
}

impl From<PortFault> for ServeError {
    ghost from_gives = { λ fault e. e ≡ error.Port fault };

    fn from(fault: PortFault) -> ServeError {
        ServeError::Port(fault)
    }
}

impl From<FileFault> for ServeError {
    ghost use Rattle.cdm_serve.specs.inner.Steps.{error_of};

    ghost from_gives = { λ fault e. e ≡ error_of fault };

    fn from(fault: FileFault) -> ServeError {
        match fault {
            FileFault::Refused(number, word) => ServeError::Journal(number, word),
            FileFault::Memory => ServeError::Common(CommonFault::Memory),
        }
    }
}

impl From<AllocError> for ServeError {
    ghost from_gives = { λ _ e. e ≡ error.Common common.Memory };

    fn from(_error: AllocError) -> ServeError {
        ServeError::Common(CommonFault::Memory)
    }
}
