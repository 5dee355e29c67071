//! What could help a flight: single records that are tried over a day, what each would do, and those that help it, the
//! best first.
#![tactic(auto)]

mod effect;
mod helping;
mod laws;
mod options;
mod tried;

pub use effect::{Effect, minute_in};
pub use helping::Helping;
pub use laws::each_option_is_a_what_if;
pub use options::{Options, OptionsFault, options_of};
pub use tried::sender_of;
