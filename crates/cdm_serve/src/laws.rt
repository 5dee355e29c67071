//! A law of served days.
ghost use Rattle.cdm_serve.specs.Life.{LifeIsKept};

/// Let no record of a journal be refused, and let the journal be on the disk as it is read. However often it is started and stopped, each
/// time with the same airport file and the same program, no record that was replied to as accepted is lost. Whatever the last stop leaves, a
/// start refuses none of it. It has the updates of the journal as it first was, then all that any start replied to as accepted, in order,
/// with at most one more for each stop.
pub fn served_journal_is_kept()
    ensures { LifeIsKept }
{}
