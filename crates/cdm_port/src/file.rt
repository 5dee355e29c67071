//! The file of a journal.
ghost use Rattle.std.specs.Prelude.{◌≡◌, ◌++◌, Bool, true, false, length, take, Option, Some, Ok, IsErrAnd, IsNone, IsSome, IfErr, IfOk, OnErr, OnOk};
ghost use Rattle.std.specs.Io.{ReadsAtMost, WritesAtMost};
ghost use Rattle.std.specs.IoError.{error_kind};
ghost use Rattle.std.specs.declared.io.ErrorKind.{ErrorKind};
ghost use Rattle.std.specs.declared.io.ErrorKind.TheVariants.{NotFound, Other};
ghost use Rattle.cdm_port.specs.Calls.{Held, IsMarkBegun, IsRenamed, IsRenameStopped, grown, looking, marking, naming, reading, syncing, writing};
ghost use Rattle.cdm_port.specs.Disk.{FileCalls, calls_after, kind_after};

use std::io;

/// The file of a journal, by the calls that the system has done for it: what each method does is the calls that it adds to their list.
/// The system's fault is that of the call that failed last.
pub trait JournalFile {
    /// What the system has done for the journal, the first of it first.
    ghost calls: { Self → FileCalls };

    /// What is known of the journal's files.
    ghost held: { Self → Held };

    /// Why the call that failed last has failed.
    ghost kind: { Self → Option ErrorKind };

    /// Whether the journal is marked as served.
    fn is_marked(&self) -> bool
        ensures { result ≡ (held self.now).lock.marked };

    /// Whether the journal's name still has the file that was opened or renamed, as long as what was written, or still
    /// has none. It is looked for each time.
    fn is_own(&mut self) -> bool
        ensures did { calls self.new ≡ calls self.old ++ looking (held self.old) result }
        ensures same { held self.new ≡ held self.old }
        ensures other { result ≡ false → kind self.new ≡ Some Other };

    /// Reads bytes of the journal, if it is there.
    fn read(&mut self, buf: &mut [u8]) -> io::Result<usize>
        ensures bound { ReadsAtMost result buf.new }
        ensures did { calls self.new ≡ calls_after (calls self.old) (λ n. reading (held self.old).file (length buf.old) (take n buf.new)) result }
        ensures same { held self.new ≡ held self.old }
        ensures kind { kind self.new ≡ kind_after (kind self.old) result }
        ensures none { IsNone (held self.old).file → result ≡ Ok 0 };

    /// Writes bytes at the journal's end, and knows then that it is longer.
    ///
    /// `NotFound` where it isn't there.
    fn write(&mut self, bytes: &[u8]) -> io::Result<usize>
        ensures bound { WritesAtMost result bytes.now }
        ensures did { calls self.new ≡ calls_after (calls self.old) (λ n. writing (held self.old).file (take n bytes.now)) result }
        ensures same { held self.new ≡ record (held self.old) { own = (held self.new).own } }
        ensures own { IfOk result (λ n. (held self.new).own ≡ grown n (held self.old).own) }
        ensures same_own { OnErr result ((held self.new).own ≡ (held self.old).own) }
        ensures kind { IsSome (held self.old).file → kind self.new ≡ kind_after (kind self.old) result }
        ensures none { IsNone (held self.old).file → IsErrAnd result (λ error. error_kind error ≡ NotFound) };

    /// Renames a new file of these bytes, which are on the disk, over the journal, where `is_own`. Writes go to its end from
    /// then on. At an `Err` the journal is as it was, and the new file is cleared.
    fn rename(&mut self, bytes: &[u8]) -> io::Result<()>
        ensures ok { OnOk result (IsRenamed (calls self.old) (calls self.new) (held self.old) (held self.new) bytes.now) }
        ensures err { OnErr result (IsRenameStopped (calls self.old) (calls self.new) (held self.old) bytes.now) }
        ensures same { OnErr result (held self.new ≡ held self.old) }
        ensures kind { IfErr result (λ error. kind self.new ≡ Some (error_kind error)) };

    /// Puts the journal's name on the disk, as it was renamed.
    fn sync_name(&mut self) -> io::Result<()>
        ensures did { calls self.new ≡ calls_after (calls self.old) (λ _. naming (held self.old)) result }
        ensures same { held self.new ≡ held self.old }
        ensures kind { kind self.new ≡ kind_after (kind self.old) result };

    /// Puts on the disk what was written.
    ///
    /// `NotFound` where the journal isn't there.
    fn sync(&mut self) -> io::Result<()>
        ensures did { calls self.new ≡ calls_after (calls self.old) (λ _. syncing (held self.old).file) result }
        ensures same { held self.new ≡ held self.old }
        ensures kind { IsSome (held self.old).file → kind self.new ≡ kind_after (kind self.old) result }
        ensures none { IsNone (held self.old).file → IsErrAnd result (λ error. error_kind error ≡ NotFound) };

    /// Marks the journal as served, and puts the mark on the disk.
    fn mark(&mut self) -> io::Result<()>
        ensures ok { OnOk result (calls self.new ≡ calls self.old ++ marking (held self.old).lock) }
        ensures err { OnErr result (IsMarkBegun (held self.old).lock (calls self.old) (calls self.new)) }
        ensures same { held self.new ≡ record (held self.old) { lock = record (held self.old).lock { marked = true } } }
        ensures kind { IfErr result (λ error. kind self.new ≡ Some (error_kind error)) };
}
