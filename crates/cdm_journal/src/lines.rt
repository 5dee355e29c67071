//! Lines of the input.
ghost use Rattle.std.specs.Prelude.{◌≡◌, IfOk};
ghost use Rattle.cdm_journal.specs.Lines.{line_record, read_as};

use cdm_files::RecordReader;
use csv::ByteRecord;
use std::alloc::{AllocError, Global};

/// What was read of a line.
#[derive(Debug, Drop)]
pub enum LineRead {
    /// No record: the line is blank.
    Blank,
    /// One record.
    One(ByteRecord),
    /// Several records, which a carriage return parts.
    Several,
}

/// Reads a line, which its line feed isn't part of, by the grammar of records for itself: a quote that is open at its
/// end ends there.
#[tactic(auto, unfolding(crate::specs::Lines::line_record))]
pub fn read_line(alloc: Global, line: &[u8]) -> Result<LineRead, AllocError>
    ensures { IfOk result (λ read. read_as read ≡ line_record line.now) }
{
    let mut reader = RecordReader::new(alloc, line);
    let mut row = ByteRecord::new(alloc);
    if !reader.read(&mut row)? {
        return Ok(LineRead::Blank);
    }
    if reader.read(&mut ByteRecord::new(alloc))? {
        return Ok(LineRead::Several);
    }
    Ok(LineRead::One(row))
}
