//! The records of a text, one after another.

use crate::fields::field_at;
use crate::place::{Cause, line_of};
use cdm_files::RecordReader;
use csv::ByteRecord;
use std::alloc::{AllocError, Global};

/// The number of the record that has this name, if one has it.
pub(crate) fn number_of(names: &[(usize, Vec<u8>)], name: &[u8]) -> Option<usize> {
    for (number, other) in names {
        if other.as_slice() == name {
            return Some(*number);
        }
    }
    None
}

/// The records of a text, and the one that was read last.
pub(crate) struct Rows<'a> {
    text: &'a [u8],
    reader: RecordReader<'a>,
    row: ByteRecord,
}

// One call drops it, in place of its fields one by one at each exit of each function that owns it.
impl Drop for Rows<'_> {
    fn drop(self) {
        let Rows {
            text: _,
            reader: _,
            row: _,
        } = self;
    }
}

impl<'a> Rows<'a> {
    /// Stands before the first record.
    pub fn new(alloc: Global, text: &'a [u8]) -> Rows<'a> {
        Rows {
            text,
            reader: RecordReader::new(alloc, text),
            row: ByteRecord::new(alloc),
        }
    }

    /// Reads one more record, if there is one.
    pub fn read(&mut self) -> Result<bool, AllocError> {
        self.reader.read(&mut self.row)
    }

    /// The record that was read last.
    pub fn row(&self) -> &ByteRecord {
        &self.row
    }

    /// The line on which the record begins that was read last.
    pub fn line(&self) -> u64 {
        line_of(self.text, &self.row)
    }

    /// Why the record that was read last is refused, by this sentence.
    pub fn cause(&self, sentence: String) -> Cause {
        Cause {
            line: self.line(),
            sentence,
        }
    }

    /// The names in the records of this kind among those before the one of this number, each with its record's number.
    pub fn names_before(
        &mut self,
        alloc: Global,
        kind: &[u8],
        number: usize,
    ) -> Result<Vec<(usize, Vec<u8>)>, AllocError> {
        let mut names = Vec::new(alloc);
        for place in 1..number {
            self.read()?;
            if field_at(&self.row, 0) == kind {
                names.push((place, Vec::from_slice(alloc, field_at(&self.row, 1))?))?;
            }
        }
        Ok(names)
    }
}
