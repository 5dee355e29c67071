//! What happens outside while a day is served.

/// What happens outside while a day is served, without the bytes that are read or written.
#[derive(Clone, Copy, PartialEq, Eq, Debug)]
pub enum Happening {
    /// The journal was read, whole.
    Read,
    /// A new file was renamed over the journal.
    Renamed,
    /// The journal was marked as served.
    Marked,
    /// A last line without its end was left out, and told.
    LeftOut,
    /// A line of the input was read.
    Line,
    /// A line of the input was passed over.
    Broken,
    /// The input ended.
    End,
    /// Bytes were written at the journal's end.
    Appended,
    /// The journal was put on the disk.
    Synced,
    /// Bytes were written to the output.
    Replied,
    /// The output was flushed.
    Flushed,
}
