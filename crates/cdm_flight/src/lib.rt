//! Flights, the updates that change them, who may make them, and the order of sequence.
#![tactic(auto)]

mod airport;
mod flight;
mod group;
mod ice;
mod key;
mod list;
mod name;
mod place;
mod reach;
mod role;
mod spacing;
mod units;
mod update;
mod values;
mod word;

pub use airport::RunwayRow;
pub use flight::{Flight, Status};
pub use group::Group;
pub use ice::Ice;
pub use key::{Key, before};
pub use list::{Listed, push_last};
pub use name::Name;
pub use place::Place;
pub use reach::Reach;
pub use role::{Role, allows};
pub use spacing::Spacing;
pub use units::{Cap, CellLength, IceMinutes, Occupancy, Priority, TaxiMinutes};
pub use update::Update;
pub use values::DayValues;
pub use word::RefusalWord;

/// The name of a flight, its aircraft identification: 1 to 7 letters and digits.
pub type FlightName = Name<7>;

/// The name of a runway: 1 to 3 letters and digits.
pub type RunwayName = Name<3>;

/// The name of a stand: 1 to 5 letters and digits.
pub type StandName = Name<5>;
