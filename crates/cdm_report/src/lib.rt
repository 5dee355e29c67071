//! The report of a plan: its indicators, and the bytes of its texts.
#![tactic(auto)]

mod counts;
mod delta;
mod line;
mod made;
mod text;

pub use counts::{Counts, indicators};
pub use delta::delta_text;
pub use line::{FlightLine, TimeColumn, line_has_47_bytes};
pub use made::{RunwayLines, made_lines};
pub use text::{push_day, refused_text, report_over, report_text};
