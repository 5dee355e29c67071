//! Rows of an airport file.
use crate::{Cap, CellLength, RunwayName, Spacing};

/// A runway as the airport file gives it: its name, the length of its cells, how many flights each
/// cell takes where no rate says otherwise, and for how long a departure of each group occupies it
/// (local profile).
#[derive(Clone, Copy, Debug, PartialEq, Eq)]
pub struct RunwayRow {
    pub name: RunwayName,
    pub cell: CellLength,
    pub cap: Cap,
    pub spacing: Spacing,
}
