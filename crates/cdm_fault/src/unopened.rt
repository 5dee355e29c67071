//! Files that can't be opened.
use std::fmt;
use std::fmt::{Display, Formatter, Write};
use std::io::ErrorKind;

/// Why a file can't be opened.
#[derive(Clone, Copy, PartialEq, Eq, Debug)]
pub enum OpenReason {
    /// The process or the system has as many open files as it may have.
    TooManyFiles,
    /// The reason that the system reports.
    Told(ErrorKind),
}

/// A file that can't be opened. It is shown as its path and, if the system reports one, the reason.
#[derive(PartialEq, Eq, Debug, Drop)]
pub struct UnopenedFile {
    /// The file's path.
    pub path: String,
    /// Why it can't be opened.
    pub reason: OpenReason,
}

impl Display for UnopenedFile {
    fn fmt<W: Write>(&self, f: &mut Formatter<W>) -> fmt::Result {
        write_path(&self.path, f)?;
        match self.reason {
            OpenReason::TooManyFiles => f.write_str(": too many open files"),
            OpenReason::Told(ErrorKind::NotFound) => f.write_str(": no such file"),
            OpenReason::Told(ErrorKind::Other | ErrorKind::Uncategorized) => Ok(()),
            OpenReason::Told(kind) => write!(f, ": {kind}"),
        }
    }
}

/// A path that is owned, shown like a [`PathText`].
#[derive(PartialEq, Eq, Debug, Drop)]
pub struct ShownPath(pub String);

impl Display for ShownPath {
    fn fmt<W: Write>(&self, f: &mut Formatter<W>) -> fmt::Result {
        write_path(&self.0, f)
    }
}

/// A path as lines show it, with `\xHH` in place of each byte of a control character.
#[derive(Clone, Copy, Debug)]
pub struct PathText<'a>(pub &'a str);

impl Display for PathText<'_> {
    fn fmt<W: Write>(&self, f: &mut Formatter<W>) -> fmt::Result {
        write_path(self.0, f)
    }
}

// Writes a path, with `\xHH` in place of each byte of a control character.
fn write_path<W: Write>(path: &str, f: &mut Formatter<W>) -> fmt::Result {
    for character in path.chars() {
        if character.is_control() {
            write_bytes(character, f)?;
        } else {
            f.write_char(character)?;
        }
    }
    Ok(())
}

// Writes the bytes of a character, each as `\xHH`.
fn write_bytes<W: Write>(character: char, f: &mut Formatter<W>) -> fmt::Result {
    for byte in character.encode_utf8(&mut [0; 4]).bytes() {
        write!(f, "\\x{byte:02x}")?;
    }
    Ok(())
}
