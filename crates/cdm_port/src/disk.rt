//! The system's calls on the files of a journal: no other file makes one. Each that the system has done is noted, and why it has not
//! done one is kept. What it really does no clause can say: that each function does what it notes is to be read here.
ghost use Rattle.std.specs.Prelude.{◌≡◌, ◌≤◌, [], ◌∷◌, ◌++◌, length, take, is_ok, IfErr, IfOk, None, string_bytes};
ghost use Rattle.std.specs.IoError.{error_kind};
ghost use Rattle.std.specs.declared.io.ErrorKind.TheVariants.{Other};
ghost use Rattle.cdm_port.specs.Disk.{Did, calls_after, kind_after, looking_for, number, opening_lock, standing_there};
ghost use Rattle.cdm_port.specs.declared.disk.FileCall.TheVariants as call;

use crate::unopened::OpenFault;
use cdm_history::History;
use std::alloc::Global;
use std::fs::{File, Files, Metadata, OpenOptions, Permissions, TryLockError};
use std::io::{ErrorKind, Read, Write};
use std::os::fd::{AsRawFd, RawFd};
use std::os::unix::fs::{MetadataExt, OpenOptionsExt, PermissionsExt};
use std::path::Path;
use std::{fs, io};

/// Who may read and write a journal that is made, before the process's mask is taken away.
const MADE_MODE: u32 = 0o666;
/// Only the owner may open a lock.
const LOCK_MODE: u32 = 0o600;
/// What of a file's mode says who may read and write it.
const MODE_BITS: u32 = 0o7777;

/// Which file stands at a path, and how long it is.
#[derive(Clone, Copy, PartialEq, Eq)]
pub(crate) struct Standing {
    pub(crate) device: u64,
    pub(crate) inode: u64,
    pub(crate) length: u64,
}

/// What the system tells of a file: which it is and how long, whether it is a regular one, and who may read and write it.
#[derive(Clone, Copy)]
pub(crate) struct Sight {
    pub(crate) standing: Standing,
    pub(crate) is_file: bool,
    pub(crate) mode: u32,
}

impl Sight {
    fn of(found: &Metadata) -> Sight {
        Sight {
            standing: Standing {
                device: found.dev(),
                inode: found.ino(),
                length: found.len(),
            },
            is_file: found.is_file(),
            mode: found.mode() & MODE_BITS,
        }
    }
}

/// An open file, which only the calls of this file reach.
#[derive(Drop)]
pub(crate) struct OpenFile {
    file: File,
}

/// What the system has done with the files of a journal. An open file is told by its number. A note of a call has the bytes that
/// it read or wrote, or the path that it was made for.
#[derive(Clone, Copy)]
pub(crate) enum FileCall {
    /// The journal has this path, behind all links.
    Resolved,
    /// A regular file stands at the path.
    Stood,
    /// Nothing stands at the path.
    Absent,
    /// The file at the path was opened: a journal to be read and written at its end, or a lock.
    Opened(RawFd),
    /// A new file stands at the path, where nothing stood. It has this mode, or, if none is given, what the process's mask leaves.
    Made(RawFd, Option<u32>),
    /// This process has the lock of the open file, and no other has it.
    Locked(RawFd),
    /// The open file was looked at, and it is this.
    Seen(RawFd, Sight),
    /// The file that stands at the path was looked for, and it is this one, or there is none.
    Found(Option<Standing>),
    /// The file that stands at the path was looked for. It isn't this one, or it is there though there was none.
    Missed(Option<Standing>),
    /// Nothing stands at the path any more.
    Removed,
    /// It was tried to remove what stands at the path.
    Cleared,
    /// So many bytes of the open file were asked for, and these were read. None is left where some were asked for and none was read.
    Read(RawFd, usize),
    /// Bytes were written at the end of the open file.
    Written(RawFd),
    /// What was written to the open file is on the disk.
    Synced(RawFd),
    /// The file at the path was renamed to that of the next note.
    RenamedFrom,
    /// What stood at the path gave way to the file of the note before.
    RenamedTo,
    /// The names in the folder of the path are on the disk.
    NameSynced,
}

/// The file system, for the files of a journal, and what it has done there. The fault is that of the call that failed last.
#[derive(Drop)]
pub(crate) struct Disk<'a, R> {
    files: &'a R,
    done: History<FileCall>,
    fault: Option<ErrorKind>,
}

// What stands at a path, or nothing where the system doesn't tell it.
fn named<R: Files>(files: &R, path: &str) -> Option<Standing> {
    let found = fs::symlink_metadata(files, path).ok()?;
    Some(Sight::of(&found).standing)
}

// Puts the names of the folder that a path lies in on the disk.
fn sync_folder_of<R: Files<File = File>>(files: &R, path: &str) -> io::Result<()> {
    let folder = match Path::new(path).parent() {
        Some(folder) if folder.as_str() != "" => folder.as_str(),
        _ => ".",
    };
    let folder = fs::open(files, folder)?;
    folder.sync_all()
}

// The journal's path, behind all links. A file that isn't there has the path that was given, unless that is a link or empty.
fn real_path<R: Files>(files: &R, alloc: Global, path: &str) -> Result<String, OpenFault> {
    match files.canonicalize(alloc, path) {
        Ok(real) => Ok(real.into_string()),
        Err(error) if error.kind() == ErrorKind::NotFound => match fs::symlink_metadata(
            files, path,
        ) {
            Err(_) if path != "" => Ok(String::from_str(alloc, path)?),
            _ => Err(OpenFault::Journal(ErrorKind::NotFound)),
        },
        Err(error) => Err(OpenFault::of_journal(&error)),
    }
}

// Whether a regular file is at a path. What is no regular file is refused before it is opened.
fn is_there<R: Files>(files: &R, path: &str) -> Result<bool, OpenFault> {
    match fs::symlink_metadata(files, path) {
        Ok(found) if found.is_file() => Ok(true),
        Ok(found) if found.is_dir() => Err(OpenFault::Journal(ErrorKind::IsADirectory)),
        Ok(_) => Err(OpenFault::NoFile),
        Err(error) if error.kind() == ErrorKind::NotFound => Ok(false),
        Err(error) => Err(OpenFault::of_journal(&error)),
    }
}

// The file of a journal, for reading, where this process may write to it too.
fn open_file<R: Files<File = File>>(files: &R, path: &str) -> io::Result<OpenFile> {
    let mut options = OpenOptions::new();
    options.read(true);
    options.append(true);
    let file = options.open(files, path)?;
    Ok(OpenFile { file })
}

// Makes a new file at a path where nothing stands, with this mode, if one is given.
fn make_file<R: Files<File = File>>(
    files: &R,
    path: &str,
    mode: Option<u32>,
) -> io::Result<OpenFile> {
    let mut options = OpenOptions::new();
    options.append(true);
    options.create_new(true);
    options.mode(mode.unwrap_or(MADE_MODE));
    let file = options.open(files, path)?;
    if let Some(mode) = mode {
        file.set_permissions(Permissions::from_mode(mode))?;
    }
    Ok(OpenFile { file })
}

// Opens a lock, or makes it: then the answer's second part is true. None where it was removed meanwhile.
fn open_lock<R: Files<File = File>>(files: &R, path: &str) -> io::Result<Option<(OpenFile, bool)>> {
    let mut options = OpenOptions::new();
    options.write(true);
    options.create_new(true);
    options.mode(LOCK_MODE);
    match options.open(files, path) {
        Ok(file) => return Ok(Some((OpenFile { file }, true))),
        Err(error) if error.kind() == ErrorKind::AlreadyExists => {}
        Err(error) => return Err(error),
    }
    options.create_new(false);
    match fs::symlink_metadata(files, path) {
        Ok(found) if found.is_file() => {}
        Ok(_) => return Err(ErrorKind::AlreadyExists.into()),
        Err(error) if error.kind() == ErrorKind::NotFound => return Ok(None),
        Err(error) => return Err(error),
    }
    match options.open(files, path) {
        Ok(file) => Ok(Some((OpenFile { file }, false))),
        Err(error) if error.kind() == ErrorKind::NotFound => Ok(None),
        Err(error) => Err(error),
    }
}

// Makes a call again as long as a signal interrupts it.
fn again<F: FnMut() -> io::Result<()>>(mut call: F) -> io::Result<()>
    requires { F.IsAlwaysCallable call }
{
    for _ in 0..u64::MAX {
        match call() {
            Err(error) if error.kind() == ErrorKind::Interrupted => {}
            done => return done,
        }
    }
    Err(ErrorKind::Interrupted.into())
}

impl<'a, R> Disk<'a, R> {
    /// Nothing was done yet.
    pub(crate) fn new(files: &'a R) -> Disk<'a, R>
        ensures notes { result.done.notes ≡ [] }
        ensures fault { result.fault ≡ None }
    {
        Disk {
            files,
            done: History::new(),
            fault: None,
        }
    }

    // Notes a call that the system has done, or keeps why it hasn't.
    fn answer<T>(&mut self, answer: io::Result<T>, call: FileCall, bytes: &[u8]) -> io::Result<T>
        ensures same { result ≡ answer }
        ensures did { Did self.old self.new (λ _. (call, bytes.now) ∷ []) answer }
    {
        match &answer {
            Ok(_) => self.done.note(&call, bytes),
            Err(error) => self.fault = Some(error.kind()),
        }
        answer
    }

    /// Reads bytes of an open file.
    pub(crate) fn read(&mut self, opened: &OpenFile, buf: &mut [u8]) -> io::Result<usize>
        ensures bound { IfOk result (λ n. n ≤ length buf.new) }
        ensures did { Did self.old self.new (λ n. (call.Read (number opened.now) (length buf.old), take n buf.new) ∷ []) result }
    {
        let call = FileCall::Read(opened.file.as_raw_fd(), buf.len());
        let mut reader = &opened.file;
        let read = reader.read(buf);
        let count = read.as_ref().map_or(0, |count| *count);
        self.answer(read, call, &buf[..count])
    }

    /// Writes bytes at the end of an open file.
    pub(crate) fn write(&mut self, opened: &OpenFile, bytes: &[u8]) -> io::Result<usize>
        ensures bound { IfOk result (λ n. n ≤ length bytes.now) }
        ensures did { Did self.old self.new (λ n. (call.Written (number opened.now), take n bytes.now) ∷ []) result }
    {
        let mut writer = &opened.file;
        let written = writer.write(bytes);
        let count = written.as_ref().map_or(0, |count| *count);
        self.answer(
            written,
            FileCall::Written(opened.file.as_raw_fd()),
            &bytes[..count],
        )
    }

    /// Writes all these bytes at the end of an open file.
    pub(crate) fn write_all(&mut self, opened: &OpenFile, bytes: &[u8]) -> io::Result<()>
        ensures did { Did self.old self.new (λ _. (call.Written (number opened.now), bytes.now) ∷ []) result }
    {
        let mut writer = &opened.file;
        let written = writer.write_all(bytes);
        self.answer(written, FileCall::Written(opened.file.as_raw_fd()), bytes)
    }

    /// Puts an open file on the disk.
    pub(crate) fn sync(&mut self, opened: &OpenFile) -> io::Result<()>
        ensures did { Did self.old self.new (λ _. (call.Synced (number opened.now), []) ∷ []) result }
    {
        self.answer(
            opened.file.sync_all(),
            FileCall::Synced(opened.file.as_raw_fd()),
            &[],
        )
    }

    /// Puts the bytes of an open file on the disk.
    pub(crate) fn sync_data(&mut self, opened: &OpenFile) -> io::Result<()>
        ensures did { Did self.old self.new (λ _. (call.Synced (number opened.now), []) ∷ []) result }
    {
        self.answer(
            opened.file.sync_data(),
            FileCall::Synced(opened.file.as_raw_fd()),
            &[],
        )
    }

    /// What an open file is.
    pub(crate) fn see(&mut self, opened: &OpenFile) -> io::Result<Sight>
        ensures did { Did self.old self.new (λ sight. (call.Seen (number opened.now) sight, []) ∷ []) result }
    {
        match opened.file.metadata() {
            Ok(found) => {
                let sight = Sight::of(&found);
                self.done
                    .note(&FileCall::Seen(opened.file.as_raw_fd(), sight), &[]);
                Ok(sight)
            }
            Err(error) => {
                self.fault = Some(error.kind());
                Err(error)
            }
        }
    }

    /// Takes the lock of an open file, for this process alone. It isn't waited for.
    ///
    /// `InUse` where another process has it, and else as the system refuses it.
    pub(crate) fn lock(&mut self, opened: &OpenFile) -> Result<(), OpenFault>
        ensures did { self.new.done.notes ≡ calls_after self.old.done.notes (λ _. (call.Locked (number opened.now), []) ∷ []) result }
    {
        match opened.file.try_lock() {
            Ok(()) => {
                self.done
                    .note(&FileCall::Locked(opened.file.as_raw_fd()), &[]);
                Ok(())
            }
            Err(TryLockError::WouldBlock) => Err(OpenFault::InUse),
            Err(TryLockError::Error(error)) => Err(OpenFault::of_lock(&error)),
        }
    }
}

impl<R: Files<File = File>> Disk<'_, R> {
    /// The path of the journal at a path, behind all links.
    ///
    /// `Journal` where the system refuses it, and `Memory`.
    pub(crate) fn resolve(&mut self, alloc: Global, path: &str) -> Result<String, OpenFault>
        ensures did { self.new.done.notes ≡ calls_after self.old.done.notes (λ real. (call.Resolved, string_bytes real) ∷ []) result }
    {
        let real = real_path(self.files, alloc, path)?;
        self.done.note(&FileCall::Resolved, real.as_bytes());
        Ok(real)
    }

    /// Whether a regular file stands at a path.
    ///
    /// `NoFile` where another kind of file does, `Journal` where the system refuses to tell, and `Memory`.
    pub(crate) fn is_there(&mut self, path: &str) -> Result<bool, OpenFault>
        ensures did { self.new.done.notes ≡ calls_after self.old.done.notes (standing_there path.now) result }
    {
        let there = is_there(self.files, path)?;
        if there {
            self.done.note(&FileCall::Stood, path.as_bytes());
        } else {
            self.done.note(&FileCall::Absent, path.as_bytes());
        }
        Ok(there)
    }

    /// Opens a journal's file, which is there, for reading and for writing at its end.
    pub(crate) fn open(&mut self, path: &str) -> io::Result<OpenFile>
        ensures did { Did self.old self.new (λ opened. (call.Opened (number opened), path.now) ∷ []) result }
    {
        match open_file(self.files, path) {
            Ok(opened) => {
                self.done.note(&FileCall::Opened(opened.file.as_raw_fd()), path.as_bytes());
                Ok(opened)
            }
            Err(error) => {
                self.fault = Some(error.kind());
                Err(error)
            }
        }
    }

    /// Opens a lock, or makes it: then the answer's second part is true. None where it was removed meanwhile.
    ///
    /// `Lock` where the system refuses it, `Journal` where its folder isn't there, and `Memory`.
    pub(crate) fn open_lock(&mut self, path: &str) -> Result<Option<(OpenFile, bool)>, OpenFault>
        ensures did { self.new.done.notes ≡ calls_after self.old.done.notes (opening_lock path.now) result }
    {
        match open_lock(self.files, path) {
            Ok(Some((opened, true))) => {
                let call = FileCall::Made(opened.file.as_raw_fd(), Some(LOCK_MODE));
                self.done.note(&call, path.as_bytes());
                Ok(Some((opened, true)))
            }
            Ok(Some((opened, false))) => {
                self.done.note(&FileCall::Opened(opened.file.as_raw_fd()), path.as_bytes());
                Ok(Some((opened, false)))
            }
            Ok(None) => Ok(None),
            Err(error) => Err(OpenFault::of_lock(&error)),
        }
    }

    /// Looks for the file that stands at a path.
    ///
    /// `Other` where it isn't this one, as long as it is here, or isn't there though it is here.
    pub(crate) fn stands(&mut self, path: &str, own: Option<Standing>) -> io::Result<()>
        ensures did { self.new.done.notes ≡ self.old.done.notes ++ looking_for own path.now (is_ok result) }
        ensures fault { self.new.fault ≡ kind_after self.old.fault result }
        ensures other { IfErr result (λ error. error_kind error ≡ Other) }
    {
        if named(self.files, path) == own {
            self.done.note(&FileCall::Found(own), path.as_bytes());
            Ok(())
        } else {
            self.done.note(&FileCall::Missed(own), path.as_bytes());
            self.fault = Some(ErrorKind::Other);
            Err(ErrorKind::Other.into())
        }
    }

    /// Removes what stands at a path. It is no fault that nothing does.
    pub(crate) fn remove(&mut self, path: &str) -> io::Result<()>
        ensures did { Did self.old self.new (λ _. (call.Removed, path.now) ∷ []) result }
    {
        let removed = match again(|| fs::remove_file(self.files, path)) {
            Err(error) if error.kind() == ErrorKind::NotFound => Ok(()),
            removed => removed,
        };
        self.answer(removed, FileCall::Removed, path.as_bytes())
    }

    /// Tries to remove what stands at a path. It is no fault that it stays.
    pub(crate) fn clear(&mut self, path: &str)
        ensures notes { self.new.done.notes ≡ self.old.done.notes ++ (call.Cleared, path.now) ∷ [] }
        ensures fault { self.new.fault ≡ self.old.fault }
    {
        let _ = fs::remove_file(self.files, path);
        self.done.note(&FileCall::Cleared, path.as_bytes());
    }

    /// Makes a new file at a path where nothing stands, with this mode, if one is given. Writes go to its end.
    pub(crate) fn make(&mut self, path: &str, mode: Option<u32>) -> io::Result<OpenFile>
        ensures did { Did self.old self.new (λ opened. (call.Made (number opened) mode, path.now) ∷ []) result }
    {
        match make_file(self.files, path, mode) {
            Ok(opened) => {
                let call = FileCall::Made(opened.file.as_raw_fd(), mode);
                self.done.note(&call, path.as_bytes());
                Ok(opened)
            }
            Err(error) => {
                self.fault = Some(error.kind());
                Err(error)
            }
        }
    }

    /// Renames a file over another.
    pub(crate) fn rename(&mut self, from: &str, to: &str) -> io::Result<()>
        ensures did { Did self.old self.new (λ _. (call.RenamedFrom, from.now) ∷ (call.RenamedTo, to.now) ∷ []) result }
    {
        let renamed = again(|| fs::rename(self.files, from, to));
        if renamed.is_ok() {
            self.done.note(&FileCall::RenamedFrom, from.as_bytes());
        }
        self.answer(renamed, FileCall::RenamedTo, to.as_bytes())
    }

    /// Puts the names of the folder that a path lies in on the disk.
    pub(crate) fn sync_name(&mut self, path: &str) -> io::Result<()>
        ensures did { Did self.old self.new (λ _. (call.NameSynced, path.now) ∷ []) result }
    {
        let synced = sync_folder_of(self.files, path);
        self.answer(synced, FileCall::NameSynced, path.as_bytes())
    }
}
