//! Laws of the lines of JSON that the program writes: each nests little, so whoever reads it has its value, and is one line; and
//! whoever reads the replies of a day has its Rows.
#![tactic(auto)]

mod answers;
mod checks;
mod helped;
mod kinds;
mod replies;
mod shifts;
mod tables;
mod traces;

pub use answers::{
    accepted_fits_line, answers_are_lines, load_fits_line, plan_fits_line, refused_fits_line,
    values_fit_line, why_fits_line,
};
pub use checks::{checks_are_lines, finding_fits_line, hint_fits_line, last_fits_line};
pub use helped::{options_are_lines, options_reply_fits_line};
pub use kinds::{kind_fits_line, kinds_are_lines, kinds_are_read_back};
pub use replies::{
    explained_fits_line, readers_keep_up, ready_fits_line, replies_are_lines,
    served_replies_are_lines, stopped_replies_are_lines,
};
pub use shifts::shift_answers_are_lines;
pub use tables::{
    change_fits_line, comparisons_are_lines, plans_are_lines, refusal_fits_line, step_fits_line,
    summary_fits_line, sweeps_are_lines,
};
pub use traces::{moved_fits_line, told_records_are_lines, traces_are_lines};
