//! A list that contracts alone read: it takes no memory, and what is added to it does nothing where it runs.
#![tactic(auto)]

mod history;

pub use history::History;
