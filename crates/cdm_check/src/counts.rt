//! What a check counts.

/// What a check counts.
#[derive(Clone, Copy, PartialEq, Eq, Debug, Default)]
pub struct CheckCounts {
    /// The records of all files.
    pub records: usize,
    /// Those that are refused: nothing is wrong where there are none.
    pub refused: usize,
}
