//! Feeds.
ghost use Rattle.std.specs.Prelude.{◌≡◌, ◌≤◌, ◌<◌, ◌++◌, [], IfOk, length, map};
ghost use Rattle.cdm_files.specs.Parsing.{parse_of};
ghost use Rattle.cdm_files.specs.Records.{records_of};

use crate::feed_record::parse_record;
use crate::record_reader::RecordReader;
use cdm_flight::{RefusalWord, Role, Update, push_last};
use cdm_time::Day;
use csv::ByteRecord;
use std::alloc::{AllocError, Global};

/// What each record of a feed spells, in the feed's order: the role and the update, or the word that
/// refuses it, the first that holds of Fields, Role, Kind, Text and Range, which are seen in the
/// record alone (local profile). Times are minutes of the horizon that begins on `day`.
pub fn read_feed(
    alloc: Global,
    day: &Day,
    text: &[u8],
) -> Result<Vec<Result<(Role, Update), RefusalWord>>, AllocError>
    ensures spelled { IfOk result (λ parsed. parsed.items ≡ map (parse_of day.now) (records_of text.now)) }
    ensures count { IfOk result (λ parsed. length parsed.items ≤ length text.now) }
{
    let mut reader = RecordReader::new(alloc, text);
    // No text has more records than bytes.
    read_stretch(alloc, *day, &mut reader, text.len())
}

/// What the next records of a feed spell, in the feed's order: of so many, or of all that are left
/// where they are fewer.
pub(crate) fn read_stretch(
    alloc: Global,
    day: Day,
    reader: &mut RecordReader<'_>,
    most: usize,
) -> Result<Vec<Result<(Role, Update), RefusalWord>>, AllocError>
    ensures spelled { IfOk result (λ parsed.
        map (parse_of day) reader.old ≡ parsed.items ++ map (parse_of day) reader.new) }
    ensures count { IfOk result (λ parsed. length parsed.items ≤ most) }
    ensures all { IfOk result (λ parsed. length parsed.items < most → reader.new ≡ []) }
{
    let mut row = ByteRecord::new(alloc);
    let mut parsed = Vec::new(alloc);
    'records: while parsed.len() < most {
        if !reader.read(&mut row)? {
            return Ok(parsed);
        }
        push_last(&mut parsed, parse_record(day, &row))?;
    }
    Ok(parsed)
}
