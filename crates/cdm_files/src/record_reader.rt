//! The records of a text, one after the other. Only this module reads a text by `csv`.
ghost use Rattle.std.specs.Prelude.{◌≡◌, ◌≤◌, ◌∷◌, [], length, false, IfOk, OnErr, if◌then◌else◌};
ghost use Rattle.csv.specs.Records.{fields_of};
ghost use Rattle.cdm_files.specs.Records.{records_of};

use csv::{ByteRecord, ErrorKind, Reader, ReaderBuilder};
use std::alloc::{AllocError, Global};
use std::marker::Model;

/// Reads the records of a text. A contract sees the records that are left.
pub struct RecordReader<'a> {
    reader: Reader<&'a [u8]>,
    ended: bool,
}

// One call drops it, in place of its fields one by one at each exit of each function that owns it.
impl Drop for RecordReader<'_> {
    fn drop(self) {
        let RecordReader {
            reader: _,
            ended: _,
        } = self;
    }
}

impl<'a> Model for RecordReader<'a> {
    ghost use Rattle.std.specs.Prelude.{◌≡◌, false, [], List, ℕ, if◌then◌else◌};

    ghost Value = { List (List (List ℕ)) };

    ghost use Rattle.cdm_files.specs.inner.RecordsLeft.{IsBetweenRecords, records_left};

    ghost view = { λ r. if r.ended then [] else records_left r.reader };

    ghost invariant = { λ r. r.ended ≡ false → IsBetweenRecords r.reader };
}

impl<'a> RecordReader<'a> {
    /// A reader of the records of `text`: fields between commas or in double quotes, any number of
    /// them, as they stand; lines end with LF or CR LF, and a blank line is no record.
    pub fn new(alloc: Global, text: &'a [u8]) -> RecordReader<'a>
        ensures left { result ≡ records_of text.now }
        ensures count { length result ≤ length text.now }
    {
        RecordReader {
            reader: ReaderBuilder::new()
                .has_headers(false)
                .flexible(true)
                .from_reader(alloc, text),
            ended: false,
        }
    }

    /// Puts the next record in `row`, and says whether there was one. Where there was none, or no
    /// memory for it, the reader has ended.
    pub fn read(&mut self, row: &mut ByteRecord) -> Result<bool, AllocError>
        ensures left { IfOk result (λ found.
            self.old ≡ (if found then fields_of row.new ∷ self.new else [])) }
        ensures last { IfOk result (λ found. found ≡ false → self.new ≡ []) }
        ensures ended { OnErr result (self.new ≡ []) }
    {
        if self.ended {
            return Ok(false);
        }
        match self.reader.read_byte_record(row) {
            Ok(found) => {
                self.ended = !found;
                Ok(found)
            }
            Err(error) => {
                self.ended = true;
                match error.into_kind() {
                    // A read of memory fails for want of it alone.
                    ErrorKind::Io(_) | ErrorKind::OutOfMemory => Err(AllocError),
                    // The reader takes records of any length, and asks for no text.
                    _ => unreachable!(),
                }
            }
        }
    }
}
