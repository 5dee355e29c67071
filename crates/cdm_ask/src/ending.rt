//! How what was read ended.
ghost use Rattle.std.specs.Io.{ReadsAtMost};
ghost use Rattle.std.specs.Io.KnownBytes.{ReadConsumes};

use std::io;
use std::io::Read;

/// A reader that remembers the last byte that it gave, and whether it came to its end.
#[derive(Drop)]
pub struct Ending<R> {
    inner: R,
    last: Option<u8>,
    ended: bool,
}

impl<R> Ending<R> {
    /// Nothing has been read yet.
    pub(crate) fn new(inner: R) -> Ending<R> {
        Ending {
            inner,
            last: None,
            ended: false,
        }
    }

    /// Whether all was read, and the last line has no LF.
    pub fn lacks_end(&self) -> bool {
        self.ended && self.last.is_some_and(|byte| byte != b'\n')
    }
}

impl<R: Read> Read for Ending<R> {
    ghost remaining = { λ e. R.remaining e.inner };

    fn read(&mut self, buf: &mut [u8]) -> io::Result<usize> {
        let count = self.inner.read(buf)?;
        match buf[..count].last() {
            Some(byte) => self.last = Some(*byte),
            None => self.ended |= !buf.is_empty(),
        }
        Ok(count)
    }
}
