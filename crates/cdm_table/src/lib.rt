//! Tables over a day and its scenarios: each flight's row for other programs, the plans as JSON, and the scenarios side
//! by side, the best first, as they are or at each of some minutes.
#![tactic(auto)]

mod answers;
mod changing;
mod comparing;
mod comparison;
mod comparison_json;
mod csv_rows;
mod each;
mod json_rows;
mod line;
mod line_rows;
mod moved;
mod own_row;
mod plans;
mod ranking;
mod row;
mod sweep;
mod sweep_json;
mod table;
mod tries;

pub use each::{Each, StepMinutes};
pub use line::{Line, Summary};
pub use plans::plans_json;
pub use table::{Table, TableFault, tabulate};
