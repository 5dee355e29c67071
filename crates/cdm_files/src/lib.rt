//! Reads and writes bytes: whole inputs and texts, the records of a feed, of an airport file
//! and of a scenario file, what their fields spell, and the day that they make.
#![tactic(auto)]

mod airport_file;
mod asking;
mod common_fault;
mod days_apart;
mod device;
mod feed;
mod feed_record;
mod field;
mod file_fault;
mod input;
mod inputs;
mod judging;
mod laws;
mod lent;
mod output;
mod record_reader;
mod refused;
mod role;
mod run_error;
mod scenario_file;
mod scenario_record;

pub use airport_file::{airport_of, cell_field, occupancy_field, read_airport};
pub use asking::{AskedDay, asked_day, scenarios_of};
pub use common_fault::{CommonFault, Input};
pub use days_apart::DaysApart;
pub use device::Device;
pub use feed::read_feed;
pub use feed_record::{ctot_field, ice_field, parse_record, tolerance_fields};
pub use field::{cap_field, field_at, number_field, place_field, priority_field, taxi_field};
pub use file_fault::FileFault;
pub use input::{INPUT_LIMIT, InputFault, read_input};
pub use inputs::{Inputs, read_inputs, read_whole};
pub use judging::{Judged, day_of, judge};
pub use laws::{records_are_read_back, records_name_their_kind, wrong_counts_are_refused};
pub use lent::Lent;
pub use output::{WriteFault, write_text};
pub use record_reader::RecordReader;
pub use refused::{refusals_of, updates_of, words_of};
pub use role::role_of;
pub use run_error::RunError;
pub use scenario_file::read_scenarios;
