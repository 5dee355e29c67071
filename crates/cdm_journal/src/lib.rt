//! The journal of a served day: what a line of the input says, the lines of accepted records, what a start
//! takes of a journal that a stop has torn, and the day that a journal makes.
#![tactic(auto)]

mod laws;
mod lines;
mod reading;
mod record_text;
mod whole;

pub use laws::{journal_goes_on, journal_is_read_back, journal_stays_short, torn_line_is_left_out};
pub use lines::{LineRead, read_line};
pub use reading::read_journal;
pub use record_text::{journal_line, own_lines, push_record_text};
pub use whole::whole_length;
