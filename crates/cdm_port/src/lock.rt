//! The file that carries a journal's lock, and marks the journal as served.
ghost use Rattle.std.specs.Prelude.{◌≡◌, [], ◌∷◌, ◌++◌, true, Some, codes, string_bytes, IfErr, IfOk, OnErr, OnOk};
ghost use Rattle.std.specs.IoError.{error_kind};
ghost use Rattle.cdm_port.specs.Calls.{IsMarkBegun, giving_up, marking};
ghost use Rattle.cdm_port.specs.Disk.{calls_after, number};
ghost use Rattle.cdm_port.specs.Opened.{IsTaken, lock_of};
ghost use Rattle.cdm_port.specs.declared.disk.FileCall.TheVariants as call;

use crate::disk::{Disk, OpenFile, Sight};
use crate::unopened::OpenFault;
use std::alloc::Global;
use std::fs::{File, Files};
use std::io;

/// How often a lock is tried that another process removes before it is taken.
const LOCK_TRIES: u32 = 100;
/// The bytes of the mark. An empty lock says nothing.
const MARK: &[u8] = b"served\n";

/// The lock of a journal, which this process has: an advisory one, of the whole file beside the journal. The file has bytes
/// where the journal was served.
#[derive(Drop)]
pub(crate) struct Lock {
    path: String,
    file: OpenFile,
    made: bool,
    marked: bool,
}

// What an open lock is.
fn seen<R>(disk: &mut Disk<'_, R>, file: &OpenFile) -> Result<Sight, OpenFault>
    ensures did { disk.new.done.notes ≡ calls_after disk.old.done.notes (λ sight. (call.Seen (number file.now) sight, []) ∷ []) result }
{
    match disk.see(file) {
        Ok(sight) => Ok(sight),
        Err(error) => Err(OpenFault::of_lock(&error)),
    }
}

impl Lock {
    /// Takes the lock of a journal at this path, behind all links, and makes its file where it isn't there. It isn't waited for.
    ///
    /// `InUse` where another process has it, `Lock` where the system refuses it, and `Memory`.
    pub(crate) fn take<R: Files<File = File>>(
        disk: &mut Disk<'_, R>,
        alloc: Global,
        journal: &str,
    ) -> Result<Lock, OpenFault>
        ensures taken { IfOk result (λ lock. IsTaken disk.old.done.notes disk.new.done.notes lock) }
        ensures path { IfOk result (λ lock. string_bytes lock.path ≡ journal.now ++ codes ".lock") }
    {
        let path = format!(in alloc; "{journal}.lock")?;
        for _ in 0..LOCK_TRIES {
            let Some((file, made)) = disk.open_lock(&path)? else {
                continue;
            };
            disk.lock(&file)?;
            let sight = seen(disk, &file)?;
            if disk.stands(&path, Some(sight.standing)).is_ok() {
                let marked = sight.standing.length > 0;
                return Ok(Lock {
                    path,
                    file,
                    made,
                    marked,
                });
            }
        }
        Err(OpenFault::InUse)
    }

    /// Removes the lock's file where this process has made it and it has no mark.
    pub(crate) fn give_up<R: Files<File = File>>(&self, disk: &mut Disk<'_, R>)
        ensures notes { disk.new.done.notes ≡ disk.old.done.notes ++ giving_up (lock_of self.now) }
        ensures fault { disk.new.fault ≡ disk.old.fault }
    {
        if self.made && !self.marked {
            disk.clear(&self.path);
        }
    }

    /// Whether the journal is marked as served.
    pub(crate) fn is_marked(&self) -> bool
        ensures { result ≡ self.now.marked }
    {
        self.marked
    }

    /// Marks the journal as served, and puts the mark on the disk, also where it is there already: the system may have it in
    /// memory alone.
    pub(crate) fn mark<R>(&mut self, disk: &mut Disk<'_, R>) -> io::Result<()>
        ensures mark { self.new ≡ record self.old { marked = true } }
        ensures ok { OnOk result (disk.new.done.notes ≡ disk.old.done.notes ++ marking (lock_of self.old)) }
        ensures err { OnErr result (IsMarkBegun (lock_of self.old) disk.old.done.notes disk.new.done.notes) }
        ensures fault { IfErr result (λ error. disk.new.fault ≡ Some (error_kind error)) }
    {
        self.marked = true;
        disk.write_all(&self.file, MARK)?;
        disk.sync(&self.file)
    }
}
