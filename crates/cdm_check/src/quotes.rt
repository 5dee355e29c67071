//! Quotes that nothing closes.

/// Where a text stands, between two bytes of it.
#[derive(Clone, Copy, PartialEq, Eq)]
enum Within {
    /// At the beginning of a field.
    Begin,
    /// In a field without quotes, or behind its quotes.
    Plain,
    /// In a field with quotes.
    Quoted,
    /// Behind a quote in such a field, which closes it or is the first of two.
    Closing,
}

// Where the text stands behind one more byte.
fn after(within: Within, byte: u8) -> Within {
    match (within, byte) {
        (Within::Quoted, b'"') => Within::Closing,
        (Within::Quoted, _) | (Within::Begin | Within::Closing, b'"') => Within::Quoted,
        (_, b',' | b'\n' | b'\r') => Within::Begin,
        _ => Within::Plain,
    }
}

/// The line on which a quote opens a field that nothing closes, from 1, if there is one.
pub(crate) fn open_quote(text: &[u8]) -> Option<usize> {
    let mut within = Within::Begin;
    let mut line: usize = 1;
    let mut opened = 1;
    for byte in text {
        let next = after(within, *byte);
        if within == Within::Begin && next == Within::Quoted {
            opened = line;
        }
        if *byte == b'\n' {
            line = line.saturating_add(1);
        }
        within = next;
    }
    if within == Within::Quoted {
        Some(opened)
    } else {
        None
    }
}
