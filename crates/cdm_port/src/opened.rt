//! The journal of a day in the file system, with its lock. What is done with it is told by the calls that its disk notes.
ghost use Rattle.std.specs.Prelude.{◌≡◌, ◌++◌, [], true, false, Some, codes, string_bytes, IfErr, IfOk, IfSome, IsNone, OnErr, OnOk};
ghost use Rattle.std.specs.IoError.{error_kind};
ghost use Rattle.cdm_port.specs.Calls.{IsRenameBegun, IsRenamed, giving_up};
ghost use Rattle.cdm_port.specs.Opened.{IsOpened, finding, held_of, lock_of};

use crate::disk::{Disk, OpenFile, Sight, Standing};
use crate::file::JournalFile;
use crate::lock::Lock;
use crate::unopened::OpenFault;
use std::alloc::Global;
use std::fs::{File, Files};
use std::io;
use std::io::ErrorKind;

/// The journal of a day in the file system, for this process alone: its file, if it is there, and its lock.
#[derive(Drop)]
pub struct OpenJournal<'a, R> {
    disk: Disk<'a, R>,
    lock: Lock,
    path: String,
    fresh: String,
    file: Option<OpenFile>,
    own: Option<Standing>,
    mode: Option<u32>,
}

// Opens a journal's file, if it is there. One that is marked as served has to be.
fn find<R: Files<File = File>>(
    disk: &mut Disk<'_, R>,
    path: &str,
    is_marked: bool,
) -> Result<Option<(OpenFile, Sight)>, OpenFault>
    ensures found { IfOk result (λ found. disk.new.done.notes ≡ disk.old.done.notes ++ finding path.now found) }
    ensures file { IfOk result (λ found. IfSome found (λ f. f.1.is_file ≡ true)) }
    ensures missing { IfOk result (λ found. IsNone found → is_marked ≡ false) }
{
    if !disk.is_there(path)? {
        return if is_marked {
            Err(OpenFault::Missing)
        } else {
            Ok(None)
        };
    }
    match disk.open(path) {
        Ok(file) => match disk.see(&file) {
            Ok(sight) if sight.is_file => Ok(Some((file, sight))),
            Ok(_) => Err(OpenFault::NoFile),
            Err(error) => Err(OpenFault::of_journal(&error)),
        },
        Err(error) => Err(OpenFault::of_journal(&error)),
    }
}

impl<'a, R: Files<File = File>> OpenJournal<'a, R> {
    /// Takes the lock of the journal at a path, and opens its file, if it is there. The lock's file, beside the journal behind all
    /// links, is made where it isn't there; it is removed again where the journal isn't opened.
    ///
    /// `InUse` where another process has the lock, `Missing` where the lock's file marks the journal as served and the journal isn't
    /// there, `NoFile` where it is no regular file, `Journal` and `Lock` where the system refuses to open them, and `Memory`.
    pub fn open(files: &'a R, alloc: Global, path: &str) -> Result<OpenJournal<'a, R>, OpenFault>
        ensures opened { IfOk result IsOpened }
        ensures missing { IfOk result (λ journal. IsNone journal.file → journal.lock.marked ≡ false) }
        ensures fresh { IfOk result (λ journal. string_bytes journal.fresh ≡ string_bytes journal.path ++ codes ".lock.new") }
        ensures lock { IfOk result (λ journal. string_bytes journal.lock.path ≡ string_bytes journal.path ++ codes ".lock") }
    {
        let mut disk = Disk::new(files);
        let path = disk.resolve(alloc, path)?;
        disk.is_there(&path)?;
        // Behind the lock nothing needs memory: where that runs out, the lock's file isn't made.
        let fresh = format!(in alloc; "{path}.lock.new")?;
        let lock = Lock::take(&mut disk, alloc, &path)?;
        match find(&mut disk, &path, lock.is_marked()) {
            Ok(Some((file, sight))) => Ok(OpenJournal {
                disk,
                lock,
                path,
                fresh,
                file: Some(file),
                own: Some(sight.standing),
                mode: Some(sight.mode),
            }),
            Ok(None) => Ok(OpenJournal {
                disk,
                lock,
                path,
                fresh,
                file: None,
                own: None,
                mode: None,
            }),
            Err(fault) => {
                lock.give_up(&mut disk);
                Err(fault)
            }
        }
    }

    /// Removes the lock's file where this process has made it and the journal isn't marked: a start that was refused leaves
    /// everything as it was.
    pub fn give_up(&mut self)
        ensures notes { self.new.disk.done.notes ≡ self.old.disk.done.notes ++ giving_up (lock_of self.old.lock) }
        ensures same { self.new ≡ record self.old { disk = self.new.disk } }
        ensures fault { self.new.disk.fault ≡ self.old.disk.fault }
    {
        self.lock.give_up(&mut self.disk);
    }

    // Renames a new file of these bytes over the journal, where that is still the one that was opened. What an earlier
    // start has left beside it goes.
    fn put_fresh(&mut self, bytes: &[u8]) -> io::Result<()>
        ensures ok { OnOk result (IsRenamed self.old.disk.done.notes self.new.disk.done.notes (held_of self.old) (held_of self.new) bytes.now) }
        ensures err { OnErr result (IsRenameBegun self.old.disk.done.notes self.new.disk.done.notes (held_of self.old) bytes.now) }
        ensures same { OnErr result (self.new ≡ record self.old { disk = self.new.disk }) }
        ensures fault { IfErr result (λ error. self.new.disk.fault ≡ Some (error_kind error)) }
    {
        self.disk.remove(&self.fresh)?;
        let file = self.disk.make(&self.fresh, self.mode)?;
        self.disk.write_all(&file, bytes)?;
        self.disk.sync(&file)?;
        let made = self.disk.see(&file)?;
        self.disk.stands(&self.path, self.own)?;
        self.disk.rename(&self.fresh, &self.path)?;
        self.file = Some(file);
        self.own = Some(Standing {
            length: bytes.len() as u64,
            ..made.standing
        });
        Ok(())
    }
}

impl<R: Files<File = File>> JournalFile for OpenJournal<'_, R> {
    ghost calls = { λ journal. journal.disk.done.notes };

    ghost held = { held_of };

    ghost kind = { λ journal. journal.disk.fault };

    fn is_marked(&self) -> bool {
        self.lock.is_marked()
    }

    fn is_own(&mut self) -> bool {
        self.disk.stands(&self.path, self.own).is_ok()
    }

    fn read(&mut self, buf: &mut [u8]) -> io::Result<usize> {
        match &self.file {
            Some(file) => self.disk.read(file, buf),
            None => Ok(0),
        }
    }

    fn write(&mut self, bytes: &[u8]) -> io::Result<usize> {
        let Some(file) = &self.file else {
            return Err(ErrorKind::NotFound.into());
        };
        let count = self.disk.write(file, bytes)?;
        if let Some(own) = &mut self.own {
            own.length = own.length.saturating_add(count as u64);
        }
        Ok(count)
    }

    fn rename(&mut self, bytes: &[u8]) -> io::Result<()> {
        match self.put_fresh(bytes) {
            Ok(()) => Ok(()),
            Err(error) => {
                self.disk.clear(&self.fresh);
                Err(error)
            }
        }
    }

    fn sync_name(&mut self) -> io::Result<()> {
        self.disk.sync_name(&self.path)
    }

    fn sync(&mut self) -> io::Result<()> {
        match &self.file {
            Some(file) => self.disk.sync_data(file),
            None => Err(ErrorKind::NotFound.into()),
        }
    }

    fn mark(&mut self) -> io::Result<()> {
        self.lock.mark(&mut self.disk)
    }
}
