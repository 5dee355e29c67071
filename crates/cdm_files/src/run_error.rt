//! Why a run ends without its whole text.
ghost use Rattle.std.specs.Prelude.{◌≡◌};
ghost use Rattle.cdm_files.specs.declared.common_fault.CommonFault.TheVariants as common;
ghost use Rattle.cdm_files.specs.declared.run_error.RunError.TheVariants as error;

use crate::common_fault::CommonFault;
use crate::days_apart::DaysApart;
use crate::output::WriteFault;
use cdm_flight::{FlightName, RefusalWord, RunwayName, Status};
use cdm_scenario::ScenarioName;
use std::alloc::AllocError;
use thiserror::Error;

/// Why a run ends without its whole text. Records are numbered from 1.
#[derive(Clone, Copy, PartialEq, Eq, Debug, Error)]
pub enum RunError {
    /// A fault that every run can have.
    #[error(transparent)]
    Common(CommonFault),
    /// The first faulty record of the scenario file, and the word that refuses it.
    #[error("SCENARIOS record {0}: {1}")]
    Scenario(usize, RefusalWord),
    /// No such flight is known.
    #[error("no flight {}", .0.text())]
    NoFlight(FlightName),
    /// The flight that is to be helped has left its stand, or won't depart.
    #[error("{} is {}", .0.text(), stand_of(*.1))]
    NotPlanned(FlightName, Status),
    /// The airport has no such runway.
    #[error("no runway {}", .0.text())]
    NoRunway(RunwayName),
    /// The scenario file has no scenario of this name.
    #[error("no scenario {}", .0.text())]
    NoScenario(ScenarioName),
    /// The first update of this scenario that is refused, by its number in the scenario from 1, and the word that refuses it.
    #[error("SCENARIOS scenario {}: update {}: {}", .0.text(), .1, .2)]
    Update(ScenarioName, usize, RefusalWord),
    /// The time from which is asked isn't one of the airport's two days.
    #[error("--since names a time outside the airport's two days")]
    OtherDay,
    /// The first faulty record of the next airport file, and the word that refuses it.
    #[error("NEXT_AIRPORT record {0}: {1}")]
    NextAirport(usize, RefusalWord),
    /// The day of the next airport isn't the one after the airport's.
    #[error("NEXT_AIRPORT: {0}")]
    NextDay(DaysApart),
}

// How a flight stands, in words.
fn stand_of(status: Status) -> &'static str {
    match status {
        Status::Planned => "planned",
        Status::OffBlock { .. } => "off-block",
        Status::Airborne { .. } => "airborne",
        Status::Cancelled => "cancelled",
    }
}

impl From<CommonFault> for RunError {
    ghost from_gives = { λ fault e. e ≡ error.Common fault };

    fn from(fault: CommonFault) -> RunError {
        RunError::Common(fault)
    }
}

impl From<AllocError> for RunError {
    ghost from_gives = { λ _ e. e ≡ error.Common common.Memory };

    fn from(_error: AllocError) -> RunError {
        RunError::Common(CommonFault::Memory)
    }
}

impl From<WriteFault> for RunError {
    ghost from_gives = { λ _ e. e ≡ error.Common common.Write };

    fn from(_fault: WriteFault) -> RunError {
        RunError::Common(CommonFault::Write)
    }
}
