//! What a served day reads and writes.
ghost use Rattle.std.specs.Prelude.{◌≡◌, ◌≤◌, [], ◌∷◌, ◌++◌, List, Bool, true, Option, IfOk, OnOk, OnErr, vec_len};
ghost use Rattle.cdm_port.specs.Event.{Event, journal_limit};
ghost use Rattle.cdm_port.specs.Event.Event.{Read, Renamed, Marked, LeftOut, Appended, Synced, Replied, Flushed};
ghost use Rattle.cdm_port.specs.Fault.{fault_after};
ghost use Rattle.cdm_port.specs.Heard.{IsHeard, event_of};
ghost use Rattle.cdm_port.specs.Stop.{Stops};
ghost use Rattle.cdm_port.specs.declared.fault.PortFault.{PortFault};

use crate::fault::PortFault;
use crate::heard::Heard;
use std::alloc::Global;

/// What a served day reads and writes: its journal, its input and its output. Each call at `Ok` is one event more of
/// all that has happened, and `replace` two. At an `Err` of a call that reads, or that syncs or flushes, nothing more is known to
/// have happened; a call that renames, marks or writes may have done its work, or have written a first part. The fault is that of
/// the call that failed last. Whether the journal was marked as served stays as it is, but for `mark`.
pub trait Port {
    /// All that has happened, the first of it first.
    ghost events: { Self → List Event };

    /// The fault of the call that failed last.
    ghost fault: { Self → Option PortFault };

    /// Whether the journal is marked as served.
    ghost marked: { Self → Bool };

    /// Whether the journal is marked as served: a day that was served before has made the mark.
    fn is_marked(&self) -> bool
        ensures { result ≡ marked self.now };

    /// All bytes of the journal.
    ///
    /// `JournalTooLong` where there are more than [`JOURNAL_LIMIT`](crate::JOURNAL_LIMIT), and else `CannotReadJournal` or `Memory`.
    fn journal(&mut self, alloc: Global) -> Result<Vec<u8>, PortFault>
        ensures ok { IfOk result (λ bytes. events self.new ≡ events self.old ++ Read bytes.items ∷ []) }
        ensures limit { IfOk result (λ bytes. vec_len bytes ≤ journal_limit) }
        ensures err { OnErr result (events self.new ≡ events self.old) }
        ensures fault { fault self.new ≡ fault_after (fault self.old) result }
        ensures mark { marked self.new ≡ marked self.old };

    /// Renames a new file of these bytes, which are on the disk, over the journal, and puts the new name on the disk.
    /// What is appended later goes to its end.
    ///
    /// `JournalChanged` where the journal isn't the file that was opened, as long as it was then; and
    /// `CannotWriteJournal`.
    fn replace(&mut self, bytes: &[u8]) -> Result<(), PortFault>
        ensures ok { OnOk result (events self.new ≡ events self.old ++ Renamed bytes.now ∷ Synced ∷ []) }
        ensures err { OnErr result (Stops (events self.old) (Renamed bytes.now ∷ Synced ∷ []) (events self.new)) }
        ensures fault { fault self.new ≡ fault_after (fault self.old) result }
        ensures mark { marked self.new ≡ marked self.old };

    /// Marks the journal as served, and puts the mark on the disk, also where it is there already.
    ///
    /// `CannotWriteJournal`.
    fn mark(&mut self) -> Result<(), PortFault>
        ensures ok { OnOk result (events self.new ≡ events self.old ++ Marked ∷ []) }
        ensures err { OnErr result (Stops (events self.old) (Marked ∷ []) (events self.new)) }
        ensures fault { fault self.new ≡ fault_after (fault self.old) result }
        ensures mark { OnOk result (marked self.new ≡ true) };

    /// Tells a last line without its end, which is left out of the journal. That it can't be told is no fault.
    fn left_out(&mut self, bytes: &[u8])
        ensures told { events self.new ≡ events self.old ++ LeftOut bytes.now ∷ [] }
        ensures fault { fault self.new ≡ fault self.old }
        ensures mark { marked self.new ≡ marked self.old };

    /// The next line of the input.
    ///
    /// `CannotReadInput` or `Memory`.
    fn line(&mut self, alloc: Global) -> Result<Heard, PortFault>
        ensures ok { IfOk result (λ heard. events self.new ≡ events self.old ++ event_of heard ∷ []) }
        ensures heard { IfOk result IsHeard }
        ensures err { OnErr result (events self.new ≡ events self.old) }
        ensures fault { fault self.new ≡ fault_after (fault self.old) result }
        ensures mark { marked self.new ≡ marked self.old };

    /// Writes at the journal's end.
    ///
    /// `JournalChanged` where the journal isn't the file that was opened, as long as what was written; and
    /// `CannotWriteJournal`.
    fn append(&mut self, bytes: &[u8]) -> Result<(), PortFault>
        ensures ok { OnOk result (events self.new ≡ events self.old ++ Appended bytes.now ∷ []) }
        ensures err { OnErr result (Stops (events self.old) (Appended bytes.now ∷ []) (events self.new)) }
        ensures fault { fault self.new ≡ fault_after (fault self.old) result }
        ensures mark { marked self.new ≡ marked self.old };

    /// Puts on the disk what was written to the journal.
    ///
    /// `JournalChanged` where the journal isn't the file that was opened, as long as what was written; and
    /// `CannotWriteJournal`.
    fn sync(&mut self) -> Result<(), PortFault>
        ensures ok { OnOk result (events self.new ≡ events self.old ++ Synced ∷ []) }
        ensures err { OnErr result (events self.new ≡ events self.old) }
        ensures fault { fault self.new ≡ fault_after (fault self.old) result }
        ensures mark { marked self.new ≡ marked self.old };

    /// Writes to the output.
    ///
    /// `CannotWrite`.
    fn reply(&mut self, bytes: &[u8]) -> Result<(), PortFault>
        ensures ok { OnOk result (events self.new ≡ events self.old ++ Replied bytes.now ∷ []) }
        ensures err { OnErr result (Stops (events self.old) (Replied bytes.now ∷ []) (events self.new)) }
        ensures fault { fault self.new ≡ fault_after (fault self.old) result }
        ensures mark { marked self.new ≡ marked self.old };

    /// Hands on what was written to the output.
    ///
    /// `CannotWrite`.
    fn flush(&mut self) -> Result<(), PortFault>
        ensures ok { OnOk result (events self.new ≡ events self.old ++ Flushed ∷ []) }
        ensures err { OnErr result (events self.new ≡ events self.old) }
        ensures fault { fault self.new ≡ fault_after (fault self.old) result }
        ensures mark { marked self.new ≡ marked self.old };
}
