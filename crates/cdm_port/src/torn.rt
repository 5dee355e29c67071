//! The line that tells a torn last line.
ghost use Rattle.std.specs.Prelude.{Some};
ghost use Rattle.cdm_port.specs.Torn.{byte_told, torn_told};

use std::fmt;
use std::fmt::{Display, Formatter, Write};

/// The most bytes of a torn line that are told.
const TOLD_LIMIT: usize = 80;

/// A last line without its end, as it is told: its first [`TOLD_LIMIT`] bytes, with `\xHH` in place of each that isn't printable.
#[derive(Clone, Copy)]
pub(crate) struct TornText<'a>(pub(crate) &'a [u8]);

impl Display for TornText<'_> {
    ghost output = { λ torn. Some (torn_told torn.0.now) };

    fn fmt<W: Write>(&self, f: &mut Formatter<W>) -> fmt::Result {
        let told = TOLD_LIMIT.min(self.0.len());
        for byte in &self.0[..told] {
            let byte = ByteText(*byte);
            write!(f, "{byte}")?;
        }
        Ok(())
    }
}

/// A byte of a torn line, as it is told.
#[derive(Clone, Copy)]
struct ByteText(u8);

impl Display for ByteText {
    ghost output = { λ byte. Some (byte_told byte.0) };

    fn fmt<W: Write>(&self, f: &mut Formatter<W>) -> fmt::Result {
        if b' ' <= self.0 && self.0 <= b'~' {
            f.write_char(char::from(self.0))
        } else {
            let high = self.0 / 16;
            let low = self.0 % 16;
            write!(f, "\\x{high:x}{low:x}")
        }
    }
}
