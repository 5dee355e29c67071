//! Rows of CSV: their fields, and the text of them.
#![tactic(auto)]

mod row_text;

pub use row_text::{Fields, RowWriter};
