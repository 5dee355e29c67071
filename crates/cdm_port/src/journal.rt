//! Reading and writing a journal, in the steps that a port tells.
ghost use Rattle.std.specs.Prelude.{◌≡◌, ◌≤◌, ◌<◌, ℕ, List, length, take, is_ok, vec_len, IfOk, IsErrOf, OnErr, OnOk};
ghost use Rattle.cdm_port.specs.Calls.{HasAppended, HasRead, HasReadAll, HasWritten, IsSized, grown};
ghost use Rattle.cdm_port.specs.Event.{journal_limit};
ghost use Rattle.cdm_port.specs.declared.fault.PortFault.TheVariants as fault;

use crate::fault::{JOURNAL_LIMIT, PortFault};
use crate::file::JournalFile;
use crate::reason::Reason;
use std::alloc::Global;
use std::io::ErrorKind;

/// The most bytes that one read of a journal asks for.
const CHUNK: usize = 16_384;

/// All bytes of a journal.
///
/// `JournalTooLong` where it has more than [`JOURNAL_LIMIT`], and else `CannotReadJournal` or `Memory`.
pub(crate) fn read_whole<J: JournalFile>(
    alloc: Global,
    journal: &mut J,
) -> Result<Vec<u8>, PortFault>
    ensures whole { IfOk result (λ bytes. HasReadAll (J.held journal.old).file (J.calls journal.old) (J.calls journal.new) bytes.items) }
    ensures limit { IfOk result (λ bytes. vec_len bytes ≤ journal_limit) }
    ensures part { OnErr result ((bytes : List ℕ) × HasRead (J.held journal.old).file (J.calls journal.old) (J.calls journal.new) bytes) }
    ensures too_long { IsErrOf result fault.JournalTooLong →
        (bytes : List ℕ) × HasRead (J.held journal.old).file (J.calls journal.old) (J.calls journal.new) bytes × (journal_limit < length bytes) }
    ensures same { J.held journal.new ≡ J.held journal.old }
{
    let mut bytes = Vec::new(alloc);
    let mut chunk = [0; CHUNK];
    for _ in 0..u64::MAX {
        let room = CHUNK.min(JOURNAL_LIMIT + 1 - bytes.len());
        match journal.read(&mut chunk[..room]) {
            Ok(0) => return Ok(bytes),
            Ok(count) if bytes.len() + count > JOURNAL_LIMIT => {
                return Err(PortFault::JournalTooLong);
            }
            Ok(count) => bytes.extend_from_slice(&chunk[..count])?,
            Err(error) if error.kind() == ErrorKind::Interrupted => {}
            Err(error) if error.kind() == ErrorKind::OutOfMemory => return Err(PortFault::Memory),
            Err(error) => return Err(PortFault::CannotReadJournal(Reason::of(&error))),
        }
    }
    Err(PortFault::CannotReadJournal(Reason::Told(ErrorKind::Interrupted)))
}

/// Writes bytes at a journal's end, and answers how many of them were written, and why not all.
///
/// `JournalChanged` where the journal isn't the file that was opened, as long as what was written, and then nothing is written; and
/// `CannotWriteJournal`.
pub(crate) fn append_counted<J: JournalFile>(
    journal: &mut J,
    bytes: &[u8],
) -> (usize, Result<(), PortFault>)
    ensures count { result.0 ≤ length bytes.now }
    ensures all { OnOk result.1 (result.0 ≡ length bytes.now) }
    ensures written { HasAppended (J.held journal.old) (J.calls journal.old) (J.calls journal.new) (take result.0 bytes.now) (is_ok result.1) }
    ensures same { J.held journal.new ≡ record (J.held journal.old) { own = (J.held journal.new).own } }
    ensures own { IsSized (J.held journal.old).own → (J.held journal.new).own ≡ grown result.0 (J.held journal.old).own }
{
    if !journal.is_own() {
        return (0, Err(PortFault::JournalChanged));
    }
    let (count, written) = put_counted(journal, bytes);
    (count, written.map_err(PortFault::CannotWriteJournal))
}

// Writes bytes at a journal's end, and answers how many of them were written, and why not all where a write failed.
fn put_counted<J: JournalFile>(journal: &mut J, bytes: &[u8]) -> (usize, Result<(), Reason>)
    ensures count { result.0 ≤ length bytes.now }
    ensures all { OnOk result.1 (result.0 ≡ length bytes.now) }
    ensures written { HasWritten (J.held journal.old).file (J.calls journal.old) (J.calls journal.new) (take result.0 bytes.now) }
    ensures same { J.held journal.new ≡ record (J.held journal.old) { own = (J.held journal.new).own } }
    ensures own { IsSized (J.held journal.old).own → (J.held journal.new).own ≡ grown result.0 (J.held journal.old).own }
{
    let mut count = 0;
    for _ in 0..u64::MAX {
        if bytes.len() == count {
            return (count, Ok(()));
        }
        match journal.write(&bytes[count..]) {
            Ok(0) => return (count, Err(Reason::Told(ErrorKind::WriteZero))),
            Ok(taken) => count += taken,
            Err(error) if error.kind() == ErrorKind::Interrupted => {}
            Err(error) => return (count, Err(Reason::of(&error))),
        }
    }
    (count, Err(Reason::Told(ErrorKind::Interrupted)))
}
