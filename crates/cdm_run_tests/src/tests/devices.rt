//! Readers and writers that give or take little, or fail, and a gate at which two meet.
use cdm_phase::{Gate, PhaseName};
use std::alloc::Global;
use std::io;
use std::io::{Error, ErrorKind, Read, Write};
use std::sync::atomic::{AtomicBool, AtomicUsize, Ordering};
use std::thread::yield_now;

/// A text, how many bytes of it come at a time, and the number of the read that fails, from 1, or 0 for none.
pub type Given<'a> = (&'a [u8], usize, usize);

/// A reader of a text, which fails at one of its reads, the first of which is number 1.
#[derive(Drop)]
pub struct Source<'a> {
    left: &'a [u8],
    at_a_time: usize,
    fails_at: usize,
    /// How many reads were made.
    pub reads: usize,
}

impl<'a> Source<'a> {
    /// Gives so many bytes at a time, and fails at the read of this number.
    pub fn new(text: &'a [u8], at_a_time: usize, fails_at: usize) -> Source<'a> {
        Source {
            left: text,
            at_a_time,
            fails_at,
            reads: 0,
        }
    }

    /// Gives the text so.
    pub fn of((text, at_a_time, fails_at): Given<'a>) -> Source<'a> {
        Source::new(text, at_a_time, fails_at)
    }

    /// Gives the text whole.
    pub fn whole(text: &'a [u8]) -> Source<'a> {
        Source::new(text, usize::MAX, 0)
    }
}

impl Read for Source<'_> {
    fn read(&mut self, buf: &mut [u8]) -> io::Result<usize> {
        self.reads = self.reads.saturating_add(1);
        if self.reads == self.fails_at {
            return Err(Error::from(ErrorKind::Interrupted));
        }
        let count = self.left.len().min(self.at_a_time).min(buf.len());
        buf[..count].copy_from_slice(&self.left[..count]);
        self.left = &self.left[count..];
        Ok(count)
    }
}

/// Where a writer stops: at a write of this number, from 1, by an error or by no byte, or at its flush.
#[derive(Clone, Copy, PartialEq, Eq, Debug)]
pub enum Stop {
    Never,
    Error(usize),
    NoByte(usize),
    Flush,
}

/// A writer that takes one byte at a time.
#[derive(Drop)]
pub struct Sink {
    pub text: Vec<u8>,
    stop: Stop,
    writes: usize,
    pub flushes_since_write: usize,
}

impl Sink {
    pub fn new(alloc: Global, stop: Stop) -> Sink {
        Sink {
            text: Vec::new(alloc),
            stop,
            writes: 0,
            flushes_since_write: 0,
        }
    }
}

impl Write for Sink {
    fn write(&mut self, buf: &[u8]) -> io::Result<usize> {
        self.writes = self.writes.saturating_add(1);
        self.flushes_since_write = 0;
        if self.stop == Stop::Error(self.writes) {
            return Err(Error::from(ErrorKind::Interrupted));
        }
        if self.stop == Stop::NoByte(self.writes) {
            return Ok(0);
        }
        let count = buf.len().min(1);
        self.text.extend_from_slice(&buf[..count])?;
        Ok(count)
    }

    fn flush(&mut self) -> io::Result<()> {
        if self.stop == Stop::Flush {
            return Err(Error::from(ErrorKind::Interrupted));
        }
        self.flushes_since_write = self.flushes_since_write.saturating_add(1);
        Ok(())
    }
}

/// A writer that takes no memory.
#[derive(Drop)]
pub struct Page {
    bytes: [u8; 2_000],
    len: usize,
}

impl Page {
    pub fn new() -> Page {
        Page {
            bytes: [0; 2_000],
            len: 0,
        }
    }

    pub fn text(&self) -> &[u8] {
        self.bytes.get(..self.len).unwrap_or(&[])
    }
}

impl Write for Page {
    fn write(&mut self, buf: &[u8]) -> io::Result<usize> {
        let mut count = 0;
        if let Some(room) = self.bytes.get_mut(self.len..) {
            count = buf.len().min(room.len());
            room[..count].copy_from_slice(&buf[..count]);
        }
        self.len = self.len.saturating_add(count);
        Ok(count)
    }

    fn flush(&mut self) -> io::Result<()> {
        Ok(())
    }
}

/// Holds each of the first two pieces of a phase until the other has come, for so many turns at most.
#[derive(Drop)]
pub struct Meeting {
    phase: PhaseName,
    turns: usize,
    came: [AtomicUsize; 2],
    missed: AtomicBool,
    others: AtomicUsize,
}

impl Meeting {
    pub fn new(phase: PhaseName, turns: usize) -> Meeting {
        Meeting {
            phase,
            turns,
            came: [AtomicUsize::new(0), AtomicUsize::new(0)],
            missed: AtomicBool::new(false),
            others: AtomicUsize::new(0),
        }
    }

    /// How often each of the two pieces came.
    pub fn came(&self) -> [usize; 2] {
        [
            self.came[0].load(Ordering::SeqCst),
            self.came[1].load(Ordering::SeqCst),
        ]
    }

    /// Whether one of them waited in vain.
    pub fn is_missed(&self) -> bool {
        self.missed.load(Ordering::SeqCst)
    }

    /// How often other pieces came, of this phase or of another.
    pub fn others(&self) -> usize {
        self.others.load(Ordering::SeqCst)
    }
}

impl Gate for Meeting {
    fn pass(&self, phase: PhaseName, piece: usize) {
        if phase != self.phase || piece > 1 {
            self.others.fetch_add(1, Ordering::SeqCst);
            return;
        }
        self.came[piece].fetch_add(1, Ordering::SeqCst);
        for _ in 0..self.turns {
            if self.came[1 - piece].load(Ordering::SeqCst) > 0 {
                return;
            }
            yield_now();
        }
        self.missed.store(true, Ordering::SeqCst);
    }
}
