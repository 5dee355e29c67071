//! Formats of output.

/// How a table is written.
#[derive(Clone, Copy, Debug, PartialEq, Eq)]
pub enum Format {
    /// As lines for people.
    Text,
    /// As JSON, one object a line, for programs.
    Json,
}
