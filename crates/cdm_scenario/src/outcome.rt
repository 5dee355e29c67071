//! What becomes of a day by a scenario.
use cdm_flight::RefusalWord;
use cdm_report::Counts;
use cdm_sequence::Plan;

/// The answer to a scenario.
#[derive(Drop)]
pub enum Outcome {
    /// The plan of the day with the scenario's updates, and its indicators.
    Planned(Plan, Counts),
    /// The number of the first update that is refused, from 1, and the word that refuses it.
    Refused(usize, RefusalWord),
}
