//! What a command opens, as which input, and what is made of it.
#![tactic(auto)]

mod asking;
mod ending;
mod job;
mod named;
mod opening;
mod serving;

pub use asking::{Answer, Ended, answer_of};
pub use ending::Ending;
pub use job::{Job, Question, job_of};
pub use named::Named;
pub use opening::{
    Opened, OpenedOrEmpty, are_regular, is_regular, open, open_named, shown, shown_path, text_of,
    unopened,
};
pub use serving::served;
