//! A reader or a writer that remembers whether it failed, and of which contracts know the bytes that passed.
ghost use Rattle.std.specs.Prelude.{◌≡◌, ◌||◌, [], false, is_err};
ghost use Rattle.std.specs.Io.{ReadsAtMost, WritesAtMost};
ghost use Rattle.std.specs.Io.KnownBytes.{Keeps, ReadConsumes, WriteAppends};
ghost use Rattle.cdm_files.specs.Device.{Passes, Wrapped, bytes_in, is_failed_write, part_of};

use cdm_history::History;
use std::io;
use std::io::{Read, Write};
use std::marker::Model;

/// A reader or a writer that remembers whether it failed. It is itself a reader or a writer, and
/// passes on each call with its answer. Contracts know which bytes its reads gave and its writes took, whatever it wraps:
/// a text in memory, a file, a pipe or a terminal.
#[derive(Drop)]
pub struct Device<T> {
    inner: T,
    failed: bool,
    passed: History<()>,
}

impl<T> Model for Device<T> {
    ghost Value = { Wrapped T };

    ghost view = { λ d. record { inner = d.inner; failed = d.failed; passed = bytes_in d.passed.notes } };
}

impl<T> Device<T> {
    /// A device round `inner` that hasn't failed.
    pub fn new(inner: T) -> Device<T>
        ensures inner { result.inner ≡ inner }
        ensures fresh { result.failed ≡ false }
        ensures passed { result.passed ≡ [] }
    {
        Device {
            inner,
            failed: false,
            passed: History::new(),
        }
    }

    /// Whether, since the device was made, a read, write or flush on it failed, or a write took no
    /// byte of a text that isn't empty.
    pub fn failed(&self) -> bool
        ensures { result ≡ self.now.failed }
    {
        self.failed
    }

    /// What the device was made of, as its reads and writes left it.
    pub fn into_inner(self) -> T
        ensures { result ≡ self.inner }
    {
        self.inner
    }
}

impl<R: Read> Read for Device<R> {
    ghost remaining = { λ d. R.remaining d.inner };

    fn read(&mut self, buf: &mut [u8]) -> io::Result<usize>
        ensures bound { ReadsAtMost result buf.new }
        ensures bytes { ReadConsumes (R.remaining self.old.inner) (R.remaining self.new.inner)
            result buf.new }
        ensures failed { self.new.failed ≡ (self.old.failed || is_err result) }
        ensures passed { Passes self.old self.new (part_of result buf.new) }
    {
        let outcome = self.inner.read(buf);
        match outcome {
            Ok(count) => self.passed.note(&(), &buf[..count]),
            Err(_) => self.failed = true,
        }
        outcome
    }
}

impl<W: Write> Write for Device<W> {
    ghost contents = { λ d. W.contents d.inner };

    fn write(&mut self, buf: &[u8]) -> io::Result<usize>
        ensures bound { WritesAtMost result buf.now }
        ensures bytes { WriteAppends (W.contents self.old.inner) (W.contents self.new.inner)
            result buf.now }
        ensures failed { self.new.failed ≡ (self.old.failed || is_failed_write result buf.now) }
        ensures passed { Passes self.old self.new (part_of result buf.now) }
    {
        let outcome = self.inner.write(buf);
        match outcome {
            Ok(count) => {
                self.passed.note(&(), &buf[..count]);
                self.failed |= count == 0 && !buf.is_empty();
            }
            Err(_) => self.failed = true,
        }
        outcome
    }

    /// Flushes the writer. No clause can say that it was flushed: tests show it.
    fn flush(&mut self) -> io::Result<()>
        ensures bytes { Keeps (W.contents self.old.inner) (W.contents self.new.inner) }
        ensures failed { self.new.failed ≡ (self.old.failed || is_err result) }
        ensures passed { Passes self.old self.new [] }
    {
        let outcome = self.inner.flush();
        self.failed |= outcome.is_err();
        outcome
    }
}
