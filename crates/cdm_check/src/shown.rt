//! Fields as sentences show them.

use std::fmt;

/// The columns of a field that is shown at most, without the dots behind one that is cut.
const MOST_COLUMNS: usize = 40;

// How many columns a byte takes.
fn columns_of(byte: u8) -> usize {
    if byte >= 32 && byte <= 126 { 1 } else { 4 }
}

/// A field in quotes. Each byte that isn't printable ASCII is shown as `\xHH`, and a long field is cut.
#[derive(Clone, Copy)]
pub(crate) struct Shown<'a>(pub &'a [u8]);

impl fmt::Display for Shown<'_> {
    fn fmt<W: fmt::Write>(&self, f: &mut fmt::Formatter<W>) -> fmt::Result {
        f.write_str("\"")?;
        let mut room = MOST_COLUMNS;
        for byte in self.0 {
            let byte = *byte;
            let columns = columns_of(byte);
            if columns > room {
                f.write_str("..")?;
                break;
            }
            room -= columns;
            if columns == 1 {
                f.write_char(char::from(byte))?;
            } else {
                write!(f, "\\x{byte:02x}")?;
            }
        }
        f.write_str("\"")
    }
}

/// Where a field has spaces.
pub(crate) fn where_spaces_are(field: &[u8]) -> &'static str {
    let before = matches!(field.first(), Some(byte) if byte.is_ascii_whitespace());
    let behind = matches!(field.last(), Some(byte) if byte.is_ascii_whitespace());
    match (before, behind) {
        (true, true) => "the spaces around",
        (true, false) => "the space before",
        _ => "the space behind",
    }
}
