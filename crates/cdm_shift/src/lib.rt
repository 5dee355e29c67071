//! A shift's questions of a day and its plan: which start-ups come next, what is wrong or about to be, and where the minutes of
//! delay come from. None of them decides anything: they are made of Rows, slots and causes.
#![tactic(auto)]

mod answering;
mod costs;
mod held;
mod laws;
mod load_sheet;
mod objects;
mod question;
mod sheet;
mod start_ups;
mod text;
mod warning;
mod warnings;

pub use answering::day_answer;
pub use costs::Costs;
pub use laws::{
    a_slot_is_held_its_delay, columns_are_members, groups_are_those_of_rows, one_day_answer,
    start_ups_are_those_ahead, the_causes_add_up, the_total_is_the_reports,
};
pub use question::{Ahead, Asking, DayQuestion, GroupBy, SheetQuestion, ShiftQuestion};
pub use start_ups::StartUp;
pub use warning::Warning;
pub use warnings::has_clock;
