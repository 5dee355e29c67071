//! Why a journal isn't opened.
ghost use Rattle.std.specs.Prelude.{◌≡◌, ◌≢◌};
ghost use Rattle.std.specs.IoError.{error_kind};
ghost use Rattle.std.specs.declared.io.ErrorKind.TheVariants.{NotFound, OutOfMemory};
ghost use Rattle.cdm_port.specs.declared.unopened.OpenFault.TheVariants as fault;

use std::alloc::AllocError;
use std::io;
use std::io::ErrorKind;

/// Why a journal isn't opened.
#[derive(Clone, Copy, PartialEq, Eq, Debug)]
pub enum OpenFault {
    /// The system refuses to open the journal.
    Journal(ErrorKind),
    /// The system refuses to open the journal's lock, or to make it.
    Lock(ErrorKind),
    /// The journal is no regular file.
    NoFile,
    /// The journal is marked as served, and it isn't there.
    Missing,
    /// Another process has the journal's lock.
    InUse,
    /// Want of memory.
    Memory,
}

impl From<AllocError> for OpenFault {
    ghost from_gives = { λ _ e. e ≡ fault.Memory };

    fn from(_error: AllocError) -> OpenFault {
        OpenFault::Memory
    }
}

impl OpenFault {
    /// Why the system refuses to open the journal.
    pub(crate) fn of_journal(error: &io::Error) -> OpenFault
        ensures memory { error_kind error.now ≡ OutOfMemory → result ≡ fault.Memory }
        ensures other { error_kind error.now ≢ OutOfMemory → result ≡ fault.Journal (error_kind error.now) }
    {
        match error.kind() {
            ErrorKind::OutOfMemory => OpenFault::Memory,
            kind => OpenFault::Journal(kind),
        }
    }

    /// Why the system refuses to open the journal's lock, or to make it. Where its folder isn't there, no journal can be.
    pub(crate) fn of_lock(error: &io::Error) -> OpenFault
        ensures memory { error_kind error.now ≡ OutOfMemory → result ≡ fault.Memory }
        ensures folder { error_kind error.now ≡ NotFound → result ≡ fault.Journal NotFound }
        ensures other { error_kind error.now ≢ OutOfMemory → error_kind error.now ≢ NotFound → result ≡ fault.Lock (error_kind error.now) }
    {
        match error.kind() {
            ErrorKind::OutOfMemory => OpenFault::Memory,
            ErrorKind::NotFound => OpenFault::Journal(ErrorKind::NotFound),
            kind => OpenFault::Lock(kind),
        }
    }
}
