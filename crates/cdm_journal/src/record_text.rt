//! Records as they are written.
ghost use Rattle.std.specs.Prelude.{◌≡◌, ◌++◌, [], false, IfOk, OnOk};
ghost use Rattle.csv.specs.Records.{fields_of};
ghost use Rattle.csv.specs.Writing.{default_writer, fields_written, has_written, row_text, writer_pending, writer_setup, writer_under};
ghost use Rattle.cdm_files.specs.Records.{records_of};
ghost use Rattle.cdm_journal.specs.Journal.{journal_line, journal_text, record_text};

use cdm_files::{RecordReader, field_at};
use csv::{ByteRecord, Writer, WriterBuilder};
use std::alloc::{AllocError, Global};

/// Puts a record behind a text: its fields as they stand, with a comma between each two. Only want of memory makes it
/// fail.
#[tactic(auto, using(crate::proofs::TextLemmas::first_text, crate::proofs::TextLemmas::more_text, std::proofs::lemmas::Grind::common_steps))]
pub fn push_record_text(text: &mut Vec<u8>, row: &ByteRecord) -> Result<(), AllocError>
    ensures { OnOk result (text.new.items ≡ text.old.items ++ record_text (fields_of row.now)) }
{
    text.extend_from_slice(field_at(row, 0))?;
    for place in 1..row.len() {
        text.push(b',')?;
        text.extend_from_slice(field_at(row, place))?;
    }
    Ok(())
}

// Writes a record as the first of a writer, with all that the writer holds back.
fn write_row(writer: &mut Writer<Vec<u8>>, row: &ByteRecord) -> Result<(), csv::Error>
    requires setup { writer_setup writer.old ≡ default_writer }
    requires fields { fields_written writer.old ≡ 0 }
    requires wrote { has_written writer.old ≡ false }
    requires pending { writer_pending writer.old ≡ [] }
    requires empty { (writer_under writer.old).items ≡ [] }
    ensures { OnOk result ((writer_under writer.new).items ≡ row_text default_writer (fields_of row.now)) }
{
    writer.write_byte_record(row)?;
    writer.flush()
}

/// A record's line, as a journal has it: the record as `csv` writes it, and a line feed. Only want of memory makes it
/// fail.
#[tactic(auto, unfolding(crate::specs::Journal::journal_line))]
pub fn journal_line(alloc: Global, row: &ByteRecord) -> Result<Vec<u8>, AllocError>
    ensures { IfOk result (λ line. line.items ≡ journal_line (fields_of row.now)) }
{
    let mut writer = WriterBuilder::new().from_writer(Vec::new(alloc));
    // Memory is written, which fails for want of it alone.
    if write_row(&mut writer, row).is_err() {
        return Err(AllocError);
    }
    Vec::from_slice(alloc, writer.get_ref())
}

/// The records of a feed as a journal's own lines, without its blank lines, and with no more quotes than they need.
/// Only want of memory makes it fail.
#[tactic(auto, unfolding(crate::specs::Journal::journal_text), using(std::proofs::lemmas::Grind::common_steps))]
pub fn own_lines(alloc: Global, feed: &[u8]) -> Result<Vec<u8>, AllocError>
    ensures { IfOk result (λ text. text.items ≡ journal_text (records_of feed.now)) }
{
    let mut reader = RecordReader::new(alloc, feed);
    let mut row = ByteRecord::new(alloc);
    let mut text = Vec::new(alloc);
    'records: loop {
        if !reader.read(&mut row)? {
            return Ok(text);
        }
        let line = journal_line(alloc, &row)?;
        text.extend_from_slice(&line)?;
    }
}
