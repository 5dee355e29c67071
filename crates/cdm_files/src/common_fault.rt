//! The faults that every run can have.
ghost use Rattle.std.specs.Prelude.{◌≡◌, Some};
ghost use Rattle.cdm_files.specs.declared.common_fault.CommonFault.TheVariants as common;

use crate::input::INPUT_LIMIT;
use crate::output::WriteFault;
use cdm_flight::RefusalWord;
use std::alloc::AllocError;
use std::fmt;
use thiserror::Error;

/// The inputs of a run, by the names that its faults give them.
#[derive(Clone, Copy, PartialEq, Eq, Debug)]
pub enum Input {
    /// The airport file.
    Airport,
    /// The feed.
    Feed,
    /// The scenario file.
    Scenarios,
    /// The airport file of the next day.
    NextAirport,
    /// The feed of the first desk of a live run.
    Feed1,
    /// The feed of the second desk of a live run.
    Feed2,
}

impl fmt::Display for Input {
    ghost use Rattle.cdm_files.specs.InputNames.{input_name};

    ghost output = { λ input. Some (input_name input) };

    fn fmt<W: fmt::Write>(&self, f: &mut fmt::Formatter<W>) -> fmt::Result {
        f.write_str(match self {
            Input::Airport => "AIRPORT",
            Input::Feed => "FEED",
            Input::Scenarios => "SCENARIOS",
            Input::NextAirport => "NEXT_AIRPORT",
            Input::Feed1 => "FEED1",
            Input::Feed2 => "FEED2",
        })
    }
}

/// Why a run, whatever it reads beside an airport file, ends without its whole text. Records are
/// numbered from 1.
#[derive(Clone, Copy, PartialEq, Eq, Debug, Error)]
pub enum CommonFault {
    /// A read of this input failed.
    #[error("cannot read {0}")]
    Read(Input),
    /// This input has more than [`INPUT_LIMIT`] bytes.
    #[error("{0} is longer than {INPUT_LIMIT} bytes")]
    TooLong(Input),
    /// The first faulty record of the airport file, and the word that refuses it.
    #[error("AIRPORT record {0}: {1}")]
    Airport(usize, RefusalWord),
    /// Want of memory.
    #[error("out of memory")]
    Memory,
    /// A write or the flush at the end failed.
    #[error("cannot write")]
    Write,
}

impl From<AllocError> for CommonFault {
    ghost from_gives = { λ _ fault. fault ≡ common.Memory };

    fn from(_error: AllocError) -> CommonFault {
        CommonFault::Memory
    }
}

impl From<WriteFault> for CommonFault {
    ghost from_gives = { λ _ fault. fault ≡ common.Write };

    fn from(_fault: WriteFault) -> CommonFault {
        CommonFault::Write
    }
}
