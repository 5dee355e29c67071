//! The one table of the kinds of updates: their words, what they are of, who may send them, and their fields.
#![tactic(auto)]

mod field;
mod format;
mod kind;
mod laws;
mod objects;
mod role;
mod subject;
mod table;

pub use field::Field;
pub use format::Format;
pub use kind::Kind;
pub use laws::{flights_come_first, kinds_have_their_roles};
pub use role::role_name;
pub use subject::Subject;
pub use table::kinds_text;
