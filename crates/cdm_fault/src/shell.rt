//! Words of a command, as they can be pasted into a shell.
use std::fmt;
use std::fmt::{Display, Formatter, Write};

/// A word that a shell reads back as one word: as it is, or in quotes if the shell would split it. Each byte of a control character is
/// shown as `\xHH`. A path that begins with `-` gets `./` before it, so that it isn't read as an option.
#[derive(Clone, Copy, Debug)]
pub struct ShellWord<'a>(pub &'a str);

impl Display for ShellWord<'_> {
    fn fmt<W: Write>(&self, f: &mut Formatter<W>) -> fmt::Result {
        let word = self.0;
        if word.starts_with('-') {
            f.write_str("./")?;
        }
        if word.chars().any(|character| character.is_control()) {
            write_escaped(word, f)
        } else if !word.is_empty() && word.chars().all(|character| is_plain(character)) {
            f.write_str(word)
        } else {
            write_quoted(word, f)
        }
    }
}

// Whether a shell takes the character as it is.
fn is_plain(character: char) -> bool {
    character.is_ascii_alphanumeric() || "_-./:=@%+,".contains(character) || !character.is_ascii()
}

// Writes a word in single quotes.
fn write_quoted<W: Write>(word: &str, f: &mut Formatter<W>) -> fmt::Result {
    f.write_char('\'')?;
    for character in word.chars() {
        match character {
            '\'' => f.write_str("'\\''")?,
            character => f.write_char(character)?,
        }
    }
    f.write_char('\'')
}

// Writes a word in the quotes of a shell in which `\xHH` is a byte.
fn write_escaped<W: Write>(word: &str, f: &mut Formatter<W>) -> fmt::Result {
    f.write_str("$'")?;
    for character in word.chars() {
        match character {
            '\'' | '\\' => write!(f, "\\{character}")?,
            character if character.is_control() => {
                for byte in character.encode_utf8(&mut [0; 4]).bytes() {
                    write!(f, "\\x{byte:02x}")?;
                }
            }
            character => f.write_char(character)?,
        }
    }
    f.write_char('\'')
}
