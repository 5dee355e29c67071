//! The Row of a flight: what programs are told of it, column by column, whether as CSV or as JSON.
#![tactic(auto)]

mod columns;
mod laws;
mod row;
mod rows;
mod writing;

pub use columns::{COLUMN_COUNT, Value, column_names};
pub use laws::{changed_rows_suffice, each_flight_has_one_row, same_rows_are_equal};
pub use row::{Row, RowStatus};
pub use rows::Rows;
pub use writing::{
    push_count, push_member, push_minute, push_row, push_rows, push_text, push_value,
};
