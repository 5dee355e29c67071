//! A journal, an input and an output in memory, which stop at one of their calls.
ghost use Rattle.std.specs.Prelude.{◌≡◌, ◌≤◌, [], ◌∷◌, ◌++◌, map, true, IfOk, OnErr, OnOk, vec_len};
ghost use Rattle.cdm_port.specs.Event.{journal_limit};
ghost use Rattle.cdm_port.specs.Event.Event.{Appended, Flushed, Marked, Read, Renamed, Replied, Synced};
ghost use Rattle.cdm_port.specs.Fault.{fault_after};
ghost use Rattle.cdm_port.specs.Heard.{IsHeard, event_of};
ghost use Rattle.cdm_port.specs.Notes.{noted};
ghost use Rattle.cdm_port.specs.Stop.{Stops};

use super::script::Row;
use cdm_port::{Happening, Heard, History, JOURNAL_LIMIT, LINE_LIMIT, Port, PortFault, Reason};
use std::alloc::{AllocError, Global};

/// Why each call fails.
pub const REASON: Reason = Reason::NoSpace;

/// The calls of a port that can fail.
#[derive(Clone, Copy, PartialEq, Eq, Debug)]
pub enum Call {
    Journal,
    Replace,
    Mark,
    Line,
    Append,
    Sync,
    Reply,
    Flush,
}

impl Call {
    /// The fault of this call where it fails.
    fn fault(self) -> PortFault {
        match self {
            Call::Journal => PortFault::CannotReadJournal(REASON),
            Call::Line => PortFault::CannotReadInput(REASON),
            Call::Replace | Call::Mark | Call::Append | Call::Sync => {
                PortFault::CannotWriteJournal(REASON)
            }
            Call::Reply | Call::Flush => PortFault::CannotWrite(REASON),
        }
    }
}

/// Where a port stops: after so many of its calls, or of its calls of this kind alone.
#[derive(Clone, Copy, Debug)]
pub struct Stop {
    pub kind: Option<Call>,
    pub calls: usize,
}

/// What a stop leaves of the bytes that aren't synced.
#[derive(Clone, Copy, Debug)]
pub enum Left {
    Nothing,
    Half,
    All,
}

/// A journal, the lines of a script, and what was replied. A write at which it stops writes its first half, and a file that is
/// renamed over the journal where it stops is there, but not on the disk.
#[derive(Drop)]
pub struct Memory {
    alloc: Global,
    script: &'static [Row],
    stop: Stop,
    history: History<Happening>,
    /// Whether the journal is marked as served.
    pub marked: bool,
    /// The journal as it was synced.
    pub synced: Vec<u8>,
    /// The journal as it is written.
    pub journal: Vec<u8>,
    /// What was left out at the start.
    pub left_out: usize,
    pub replies: Vec<u8>,
    /// How many lines were heard.
    pub heard: usize,
    /// How many lines had been heard when the last reply was begun.
    pub told: usize,
    /// The fault of the call at which it stopped.
    pub fault: Option<PortFault>,
}

impl Memory {
    /// Over a journal that is on the disk, marked as served or not.
    pub fn new(
        alloc: Global,
        (marked, journal): (bool, &[u8]),
        script: &'static [Row],
        stop: Stop,
    ) -> Result<Memory, AllocError> {
        Ok(Memory {
            alloc,
            script,
            stop,
            history: History::new(),
            marked,
            synced: journal.to_vec(alloc)?,
            journal: journal.to_vec(alloc)?,
            left_out: 0,
            replies: Vec::new(alloc),
            heard: 0,
            told: 0,
            fault: None,
        })
    }

    /// What a stop can leave: of a line that is written behind the synced ones a part too.
    pub fn lefts(&self) -> &'static [Left] {
        if self.synced == self.journal {
            &[Left::All]
        } else if self.journal.starts_with(&self.synced) {
            &[Left::Nothing, Left::Half, Left::All]
        } else {
            &[Left::Nothing, Left::All]
        }
    }

    /// What a stop leaves of the journal.
    pub fn left(&self, left: Left) -> &[u8] {
        let unsynced = self.journal.len().saturating_sub(self.synced.len());
        let half = self.journal.len().saturating_sub(unsynced / 2);
        match left {
            Left::Nothing => &self.synced,
            Left::Half => self.journal.get(..half).unwrap_or(&self.journal),
            Left::All => &self.journal,
        }
    }

    // Counts a call, unless the port stops at it.
    fn make(&mut self, call: Call) -> Result<(), PortFault>
        ensures same { self.new.history ≡ self.old.history }
        ensures kept { self.new.fault ≡ self.old.fault }
        ensures mark { self.new.marked ≡ self.old.marked }
    {
        if self.stop.kind.unwrap_or(call) != call {
            return Ok(());
        }
        if self.stop.calls == 0 {
            return Err(call.fault());
        }
        self.stop.calls -= 1;
        Ok(())
    }

    // Keeps a fault, and hands on the answer.
    fn answer<T>(&mut self, outcome: Result<T, PortFault>) -> Result<T, PortFault>
        ensures same { result ≡ outcome }
        ensures notes { self.new.history ≡ self.old.history }
        ensures kept { self.new.fault ≡ fault_after self.old.fault outcome }
        ensures mark { self.new.marked ≡ self.old.marked }
    {
        if let Err(fault) = &outcome {
            self.fault = Some(*fault);
        }
        outcome
    }

    // The calls of the port, but for that a fault is kept.

    fn read(&mut self, alloc: Global) -> Result<Vec<u8>, PortFault>
        ensures ok { IfOk result (λ bytes. map noted self.new.history.notes ≡ map noted self.old.history.notes ++ Read bytes.items ∷ []) }
        ensures limit { IfOk result (λ bytes. vec_len bytes ≤ journal_limit) }
        ensures err { OnErr result (map noted self.new.history.notes ≡ map noted self.old.history.notes) }
        ensures kept { self.new.fault ≡ self.old.fault }
        ensures mark { self.new.marked ≡ self.old.marked }
    {
        self.make(Call::Journal)?;
        if self.journal.len() > JOURNAL_LIMIT {
            return Err(PortFault::JournalTooLong);
        }
        let bytes = self.journal.to_vec(alloc)?;
        self.history.note(&Happening::Read, &bytes);
        Ok(bytes)
    }

    fn rename(&mut self, bytes: &[u8]) -> Result<(), PortFault>
        ensures ok { OnOk result (map noted self.new.history.notes ≡ map noted self.old.history.notes ++ Renamed bytes.now ∷ Synced ∷ []) }
        ensures err { OnErr result (Stops (map noted self.old.history.notes) (Renamed bytes.now ∷ Synced ∷ []) (map noted self.new.history.notes)) }
        ensures kept { self.new.fault ≡ self.old.fault }
        ensures mark { self.new.marked ≡ self.old.marked }
    {
        let journal = bytes.to_vec(self.alloc)?;
        let synced = bytes.to_vec(self.alloc)?;
        self.journal = journal;
        self.history.note(&Happening::Renamed, bytes);
        self.make(Call::Replace)?;
        self.synced = synced;
        self.history.note(&Happening::Synced, &[]);
        Ok(())
    }

    fn set_mark(&mut self) -> Result<(), PortFault>
        ensures ok { OnOk result (map noted self.new.history.notes ≡ map noted self.old.history.notes ++ Marked ∷ []) }
        ensures err { OnErr result (map noted self.new.history.notes ≡ map noted self.old.history.notes) }
        ensures kept { self.new.fault ≡ self.old.fault }
        ensures mark { OnOk result (self.new.marked ≡ true) }
    {
        self.make(Call::Mark)?;
        self.marked = true;
        self.history.note(&Happening::Marked, &[]);
        Ok(())
    }

    fn hear(&mut self, alloc: Global) -> Result<Heard, PortFault>
        ensures ok { IfOk result (λ heard. map noted self.new.history.notes ≡ map noted self.old.history.notes ++ event_of heard ∷ []) }
        ensures heard { IfOk result IsHeard }
        ensures err { OnErr result (map noted self.new.history.notes ≡ map noted self.old.history.notes) }
        ensures kept { self.new.fault ≡ self.old.fault }
        ensures mark { self.new.marked ≡ self.old.marked }
    {
        self.make(Call::Line)?;
        let Some((line, _, _)) = self.script.get(self.heard) else {
            self.history.note(&Happening::End, &[]);
            return Ok(Heard::End);
        };
        let bytes = line.as_bytes().to_vec(alloc)?;
        self.heard = self.heard.saturating_add(1);
        if bytes.len() > LINE_LIMIT || bytes.contains(&b'\n') {
            self.history.note(&Happening::Broken, &[]);
            return Ok(Heard::Broken);
        }
        self.history.note(&Happening::Line, &bytes);
        Ok(Heard::Line(bytes))
    }

    fn write(&mut self, bytes: &[u8]) -> Result<(), PortFault>
        ensures ok { OnOk result (map noted self.new.history.notes ≡ map noted self.old.history.notes ++ Appended bytes.now ∷ []) }
        ensures err { OnErr result (Stops (map noted self.old.history.notes) (Appended bytes.now ∷ []) (map noted self.new.history.notes)) }
        ensures kept { self.new.fault ≡ self.old.fault }
        ensures mark { self.new.marked ≡ self.old.marked }
    {
        let made = self.make(Call::Append);
        let count = written(&made, bytes.len());
        self.journal.extend_from_slice(&bytes[..count])?;
        self.history.note(&Happening::Appended, &bytes[..count]);
        made
    }

    fn settle(&mut self) -> Result<(), PortFault>
        ensures ok { OnOk result (map noted self.new.history.notes ≡ map noted self.old.history.notes ++ Synced ∷ []) }
        ensures err { OnErr result (map noted self.new.history.notes ≡ map noted self.old.history.notes) }
        ensures kept { self.new.fault ≡ self.old.fault }
        ensures mark { self.new.marked ≡ self.old.marked }
    {
        self.make(Call::Sync)?;
        self.synced = self.journal.to_vec(self.alloc)?;
        self.history.note(&Happening::Synced, &[]);
        Ok(())
    }

    fn tell(&mut self, bytes: &[u8]) -> Result<(), PortFault>
        ensures ok { OnOk result (map noted self.new.history.notes ≡ map noted self.old.history.notes ++ Replied bytes.now ∷ []) }
        ensures err { OnErr result (Stops (map noted self.old.history.notes) (Replied bytes.now ∷ []) (map noted self.new.history.notes)) }
        ensures kept { self.new.fault ≡ self.old.fault }
        ensures mark { self.new.marked ≡ self.old.marked }
    {
        let made = self.make(Call::Reply);
        let count = written(&made, bytes.len());
        self.told = self.heard;
        self.replies.extend_from_slice(&bytes[..count])?;
        self.history.note(&Happening::Replied, &bytes[..count]);
        made
    }

    fn hand_on(&mut self) -> Result<(), PortFault>
        ensures ok { OnOk result (map noted self.new.history.notes ≡ map noted self.old.history.notes ++ Flushed ∷ []) }
        ensures err { OnErr result (map noted self.new.history.notes ≡ map noted self.old.history.notes) }
        ensures kept { self.new.fault ≡ self.old.fault }
        ensures mark { self.new.marked ≡ self.old.marked }
    {
        self.make(Call::Flush)?;
        self.history.note(&Happening::Flushed, &[]);
        Ok(())
    }
}

// How many of so many bytes are written by a call: half of them where the port stops at it.
fn written(made: &Result<(), PortFault>, count: usize) -> usize
    ensures few { result ≤ count }
    ensures all { OnOk made.now (result ≡ count) }
{
    match made {
        Ok(()) => count,
        Err(_) => count / 2,
    }
}

impl Port for Memory {
    ghost events = { λ memory. map noted memory.history.notes };

    ghost fault = { λ memory. memory.fault };

    ghost marked = { λ memory. memory.marked };

    fn is_marked(&self) -> bool {
        self.marked
    }

    fn journal(&mut self, alloc: Global) -> Result<Vec<u8>, PortFault> {
        let bytes = self.read(alloc);
        self.answer(bytes)
    }

    fn replace(&mut self, bytes: &[u8]) -> Result<(), PortFault> {
        let renamed = self.rename(bytes);
        self.answer(renamed)
    }

    fn mark(&mut self) -> Result<(), PortFault> {
        let marked = self.set_mark();
        self.answer(marked)
    }

    fn left_out(&mut self, bytes: &[u8]) {
        self.left_out = bytes.len();
        self.history.note(&Happening::LeftOut, bytes);
    }

    fn line(&mut self, alloc: Global) -> Result<Heard, PortFault> {
        let heard = self.hear(alloc);
        self.answer(heard)
    }

    fn append(&mut self, bytes: &[u8]) -> Result<(), PortFault> {
        let written = self.write(bytes);
        self.answer(written)
    }

    fn sync(&mut self) -> Result<(), PortFault> {
        let settled = self.settle();
        self.answer(settled)
    }

    fn reply(&mut self, bytes: &[u8]) -> Result<(), PortFault> {
        let told = self.tell(bytes);
        self.answer(told)
    }

    fn flush(&mut self) -> Result<(), PortFault> {
        let flushed = self.hand_on();
        self.answer(flushed)
    }
}
