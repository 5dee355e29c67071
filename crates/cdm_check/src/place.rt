//! Where a record begins in its file, and why it is refused.

use csv::ByteRecord;

/// Why a record is refused.
#[derive(Drop)]
pub(crate) struct Cause {
    /// The line of the file on which the record begins, from 1.
    pub line: u64,
    /// The sentence that says so.
    pub sentence: String,
}

/// The bytes of a mark that some editors put before a text.
const MARK: &[u8] = b"\xEF\xBB\xBF";

/// A text without the byte order mark before it.
pub(crate) fn without_mark(text: &[u8]) -> &[u8] {
    text.strip_prefix(MARK).unwrap_or(text)
}

/// The line of the text on which the record that was read from it begins, from 1. Blank lines before the record
/// are counted, and so is each line end in a quoted field.
pub(crate) fn line_of(text: &[u8], row: &ByteRecord) -> u64 {
    let Some(position) = row.position() else {
        return 1;
    };
    let before = usize::try_from(position.byte()).unwrap_or(0);
    let rest = text.get(before..).unwrap_or_default();
    let rest = if before == 0 {
        without_mark(rest)
    } else {
        rest
    };
    position.line().saturating_add(blank_lines(rest))
}

// How many blank lines a text begins with.
fn blank_lines(text: &[u8]) -> u64 {
    let mut lines: u64 = 0;
    for byte in text {
        match *byte {
            b'\n' => lines = lines.saturating_add(1),
            b'\r' => {}
            _ => break,
        }
    }
    lines
}
