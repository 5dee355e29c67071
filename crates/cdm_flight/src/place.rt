//! Places of taxi rows.
use crate::StandName;

/// The place of a taxi time: a stand, or all those that have none of their own.
#[derive(Clone, Copy, Debug, PartialEq, Eq, PartialOrd, Ord)]
pub enum Place {
    /// The runway's default, written `*`.
    Default,
    /// A stand.
    Stand(StandName),
}
