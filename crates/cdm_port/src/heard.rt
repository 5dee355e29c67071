//! What the input says next.

/// The most bytes that a line of the input may have, without its LF (local profile).
pub const LINE_LIMIT: usize = 4_096;

/// What the input says next.
#[derive(Debug, Drop)]
pub enum Heard {
    /// A line, without its LF.
    Line(Vec<u8>),
    /// A line of more than [`LINE_LIMIT`] bytes, which was passed over to its end, or a last one that no LF ends.
    Broken,
    /// There is no line more.
    End,
}
