//! Whole runs, from the bytes of an airport file, of a feed and of a third file to one text.
#![tactic(auto)]

mod answers;
mod asked;
mod counted;
mod laws;
mod making;
mod runs;

pub use asked::{Asked, DayText};
pub use cdm_carry::CarryText;
pub use cdm_files::{
    AskedDay, CommonFault, DaysApart, Device, FileFault, INPUT_LIMIT, Input, InputFault, Inputs,
    Judged, Lent, RecordReader, RunError, WriteFault, airport_of, asked_day, ctot_field, judge,
    number_field, parse_record, place_field, read_airport, read_feed, read_input, read_inputs,
    read_scenarios, read_whole, records_are_read_back, refusals_of, role_of, updates_of, words_of,
    write_text,
};
pub use cdm_shift::{Ahead, DayQuestion, GroupBy, SheetQuestion, ShiftQuestion};
pub use cdm_trace::Since;
pub use counted::Counted;
pub use laws::{one_text, one_text_each};
pub use runs::{RunCounts, run, run_asked};
