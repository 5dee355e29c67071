//! What could help a flight, as a text for people and as lines of JSON.
#![tactic(auto)]

mod columns;
mod line;
mod objects;
mod reply;
mod text;
mod texts;

pub use texts::{options_line, options_text};
