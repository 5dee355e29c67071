//! The next day: what of a day's accepted records goes on in it, what a person must know before, and the text
//! of either, made of whole inputs.
#![tactic(auto)]

mod carry_text;
mod carrying;
mod laws;
mod making;
mod moving;
mod notice;
mod notice_object;
mod notice_text;
mod noticed;
mod noticing;
mod staying;
mod taking;
mod writing;

pub use carry_text::CarryText;
pub use carrying::carry_of;
pub use laws::{flights_that_stay_are_the_same, one_carried_feed};
pub use making::{Carried, carried_text};
pub use notice::Notice;
pub use noticed::{notices_of, notices_text};
pub use writing::feed_text;
