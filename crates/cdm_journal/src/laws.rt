//! Laws of a journal.
ghost use Rattle.cdm_journal.specs.Laws.{AddsLine, AddsUpdate, FeedMakes, HasUpdates, IsShort, IsWhole, LeavesTorn, ReadsBack};

/// A journal is read back: where none of its records is refused it reads as these records, and so it has their updates
/// and no refused record. The records of any feed of which none is refused make the feed's updates, so a start may
/// write them as a journal's own lines in the feed's place.
pub fn journal_is_read_back()
    ensures feed { FeedMakes }
    ensures records { ReadsBack }
    ensures updates { HasUpdates }
{}

/// A journal goes on: the line of a record that its day takes, behind it, is one record more, and one update more.
pub fn journal_goes_on()
    ensures line { AddsLine }
    ensures update { AddsUpdate }
{}

/// The lines of a journal are whole, and a line that a stop has torn, short of its line feed, is left out.
pub fn torn_line_is_left_out()
    ensures whole { IsWhole }
    ensures torn { LeavesTorn }
{}

/// A journal can always be started again: with its own lines alone it has less than 2 MiB, of the 8 that may be read.
pub fn journal_stays_short()
    ensures { IsShort }
{}
