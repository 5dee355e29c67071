//! The file of a journal, an input and an output.
ghost use Rattle.std.specs.Prelude.{◌≡◌, ◌≤◌, ◌⊎◌, ℕ, List, Bool, true, false, Option, None, [], ◌∷◌, ◌++◌, is_ok, length, map, IfOk, IfSome, IsSome, OnErr, OnOk, vec_len};
ghost use Rattle.std.specs.Io.BufRead.{DropsThrough};
ghost use Rattle.std.specs.Io.KnownBytes.{Appends};
ghost use Rattle.cdm_port.specs.Calls.{HasAppended, HasRead, HasReadAll, IsMarkBegun, IsRenamed, IsReplaceStopped, IsReplaced, IsSized, grown, looking, marking, syncing};
ghost use Rattle.cdm_port.specs.Event.{Event, journal_limit};
ghost use Rattle.cdm_port.specs.Event.Event.{Read, Renamed, Marked, LeftOut, Appended, Synced, Replied, Flushed};
ghost use Rattle.cdm_port.specs.Fault.{fault_after};
ghost use Rattle.cdm_port.specs.Heard.{IsHeard, event_of, heard_in};
ghost use Rattle.cdm_port.specs.Notes.{noted};
ghost use Rattle.cdm_port.specs.Parts.{Parts};
ghost use Rattle.cdm_port.specs.Stop.{Stops};

use crate::calls::{next_line, write_counted};
use crate::fault::PortFault;
use crate::file::JournalFile;
use crate::happening::Happening;
use crate::heard::Heard;
use crate::journal::{append_counted, read_whole};
use crate::port::Port;
use crate::reason::Reason;
use crate::torn::TornText;
use cdm_history::History;
use std::alloc::Global;
use std::io::{Read, Write};
use std::marker::Model;

/// The input and the output of a served day, where a torn line is told, and the file of its journal. What is noted of the journal is
/// what the system's calls on its files did, which are one list. What is read of the input and written to the output is what is noted,
/// at any reader and writer whose bytes clauses know. That the output is flushed where this is noted, and that a torn line is told, is
/// to be read here.
#[derive(Drop)]
pub struct Streams<I, O, E, J> {
    input: I,
    output: O,
    errors: E,
    journal: J,
    marked: bool,
    history: History<Happening>,
    fault: Option<PortFault>,
}

impl<I, O, E, J> Model for Streams<I, O, E, J> {
    ghost Value = { Parts I O E J };

    ghost view = { λ s. record { input = s.input; output = s.output; errors = s.errors; journal = s.journal; marked = s.marked; notes = s.history.notes; fault = s.fault } };
}

impl<I, O, E, J: JournalFile> Streams<I, O, E, J> {
    /// Nothing has happened yet.
    pub fn new(input: I, output: O, errors: E, journal: J) -> Streams<I, O, E, J>
        ensures notes { result.notes ≡ [] }
        ensures unfailed { result.fault ≡ None }
        ensures marked { result.marked ≡ (J.held journal).lock.marked }
        ensures journal { result.journal ≡ journal }
    {
        let marked = journal.is_marked();
        Streams {
            input,
            output,
            errors,
            journal,
            marked,
            history: History::new(),
            fault: None,
        }
    }
}

impl<I: Drop, O: Drop, E: Drop, J> Streams<I, O, E, J> {
    /// The file of the journal, as it was left.
    pub fn into_journal(self) -> J
        ensures { result ≡ self.journal }
    {
        self.journal
    }
}

impl<I, O, E, J> Streams<I, O, E, J> {
    // Keeps a fault, and hands on the answer.
    fn answer<T>(&mut self, outcome: Result<T, PortFault>) -> Result<T, PortFault>
        ensures same { result ≡ outcome }
        ensures kept { self.new ≡ record self.old { fault = fault_after self.old.fault outcome } }
    {
        if let Err(fault) = &outcome {
            self.fault = Some(*fault);
        }
        outcome
    }
}

impl<I: Read, O: Write, E: Write, J: JournalFile> Port for Streams<I, O, E, J> {
    ghost events = { λ streams. map noted streams.notes };

    ghost fault = { λ streams. streams.fault };

    ghost marked = { λ streams. streams.marked };

    fn is_marked(&self) -> bool {
        self.marked
    }

    fn journal(&mut self, alloc: Global) -> Result<Vec<u8>, PortFault>
        ensures ok { IfOk result (λ bytes. map noted self.new.notes ≡ map noted self.old.notes ++ Read bytes.items ∷ []) }
        ensures limit { IfOk result (λ bytes. vec_len bytes ≤ journal_limit) }
        ensures err { OnErr result (map noted self.new.notes ≡ map noted self.old.notes) }
        ensures fault { self.new.fault ≡ fault_after self.old.fault result }
        ensures mark { self.new.marked ≡ self.old.marked }

        // All bytes of the file were read, and nothing else was done.
        ensures whole { IfOk result (λ bytes. HasReadAll (J.held self.old.journal).file (J.calls self.old.journal) (J.calls self.new.journal) bytes.items) }
        ensures part { OnErr result ((bytes : List ℕ) × HasRead (J.held self.old.journal).file (J.calls self.old.journal) (J.calls self.new.journal) bytes) }
        ensures same { J.held self.new.journal ≡ J.held self.old.journal }
    {
        let bytes = read_whole(alloc, &mut self.journal);
        if let Ok(bytes) = &bytes {
            self.history.note(&Happening::Read, bytes);
        }
        self.answer(bytes)
    }

    fn replace(&mut self, bytes: &[u8]) -> Result<(), PortFault>
        ensures ok { OnOk result (map noted self.new.notes ≡ map noted self.old.notes ++ Renamed bytes.now ∷ Synced ∷ []) }
        ensures err { OnErr result (Stops (map noted self.old.notes) (Renamed bytes.now ∷ Synced ∷ []) (map noted self.new.notes)) }
        ensures fault { self.new.fault ≡ fault_after self.old.fault result }
        ensures mark { self.new.marked ≡ self.old.marked }

        // A new file of these bytes was renamed over the journal, and its name put on the disk; at an error, only the first of this.
        ensures replaced { OnOk result (IsReplaced (J.calls self.old.journal) (J.calls self.new.journal) (J.held self.old.journal)
            (J.held self.new.journal) bytes.now) }
        ensures stopped { OnErr result (IsReplaceStopped (J.calls self.old.journal) (J.calls self.new.journal) (J.held self.old.journal) bytes.now
            ⊎ IsRenamed (J.calls self.old.journal) (J.calls self.new.journal) (J.held self.old.journal) (J.held self.new.journal) bytes.now) }

        // At an error that they are on the disk isn't noted.
        ensures unsynced { OnErr result ((map noted self.new.notes ≡ map noted self.old.notes)
            ⊎ (map noted self.new.notes ≡ map noted self.old.notes ++ Renamed bytes.now ∷ [])) }
    {
        if let Err(error) = self.journal.rename(bytes) {
            let fault = if self.journal.is_own() {
                PortFault::CannotWriteJournal(Reason::of(&error))
            } else {
                PortFault::JournalChanged
            };
            return self.answer(Err(fault));
        }
        self.history.note(&Happening::Renamed, bytes);
        let named = self.journal.sync_name();
        if let Err(error) = named {
            return self.answer(Err(PortFault::CannotWriteJournal(Reason::of(&error))));
        }
        self.history.note(&Happening::Synced, &[]);
        Ok(())
    }

    fn mark(&mut self) -> Result<(), PortFault>
        ensures ok { OnOk result (map noted self.new.notes ≡ map noted self.old.notes ++ Marked ∷ []) }
        ensures err { OnErr result (Stops (map noted self.old.notes) (Marked ∷ []) (map noted self.new.notes)) }
        ensures fault { self.new.fault ≡ fault_after self.old.fault result }
        ensures mark { OnOk result (self.new.marked ≡ true) }

        // The mark was written and put on the disk; at an error, only the first of this.
        ensures kept { OnOk result (J.calls self.new.journal ≡ J.calls self.old.journal ++ marking (J.held self.old.journal).lock) }
        ensures begun { OnErr result (IsMarkBegun (J.held self.old.journal).lock (J.calls self.old.journal) (J.calls self.new.journal)) }
    {
        if let Err(error) = self.journal.mark() {
            return self.answer(Err(PortFault::CannotWriteJournal(Reason::of(&error))));
        }
        self.marked = true;
        self.history.note(&Happening::Marked, &[]);
        Ok(())
    }

    fn left_out(&mut self, bytes: &[u8])
        ensures told { map noted self.new.notes ≡ map noted self.old.notes ++ LeftOut bytes.now ∷ [] }
        ensures fault { self.new.fault ≡ self.old.fault }
        ensures mark { self.new.marked ≡ self.old.marked }

        // Nothing is done with the journal's file.
        ensures apart { self.new.journal ≡ self.old.journal }
    {
        let text = TornText(bytes);
        let _ = writeln!(
            self.errors,
            "cdmseq: JOURNAL: its last line has no end, and is left out: {text}"
        );
        self.history.note(&Happening::LeftOut, bytes);
    }

    fn line(&mut self, alloc: Global) -> Result<Heard, PortFault>
        ensures ok { IfOk result (λ heard. map noted self.new.notes ≡ map noted self.old.notes ++ event_of heard ∷ []) }
        ensures heard { IfOk result IsHeard }
        ensures err { OnErr result (map noted self.new.notes ≡ map noted self.old.notes) }
        ensures fault { self.new.fault ≡ fault_after self.old.fault result }
        ensures mark { self.new.marked ≡ self.old.marked }

        // What the input said next was heard, to the end of its line.
        ensures line { IfOk result (λ heard. IfSome (I.remaining self.old.input) (λ bytes. event_of heard ≡ heard_in bytes)) }
        ensures rest { OnOk result (DropsThrough (I.remaining self.old.input) (I.remaining self.new.input) 10) }

        // Nothing is done with the journal's file.
        ensures apart { self.new.journal ≡ self.old.journal }
    {
        let heard = next_line(alloc, &mut self.input);
        match &heard {
            Ok(Heard::Line(bytes)) => self.history.note(&Happening::Line, bytes),
            Ok(Heard::Broken) => self.history.note(&Happening::Broken, &[]),
            Ok(Heard::End) => self.history.note(&Happening::End, &[]),
            Err(_) => {}
        }
        self.answer(heard)
    }

    fn append(&mut self, bytes: &[u8]) -> Result<(), PortFault>
        ensures ok { OnOk result (map noted self.new.notes ≡ map noted self.old.notes ++ Appended bytes.now ∷ []) }
        ensures err { OnErr result (Stops (map noted self.old.notes) (Appended bytes.now ∷ []) (map noted self.new.notes)) }
        ensures fault { self.new.fault ≡ fault_after self.old.fault result }
        ensures mark { self.new.marked ≡ self.old.marked }

        // The journal was looked for and found, and then what is noted was written, and nothing else.
        ensures written { (part : List ℕ) × (map noted self.new.notes ≡ map noted self.old.notes ++ Appended part ∷ [])
            × HasAppended (J.held self.old.journal) (J.calls self.old.journal) (J.calls self.new.journal) part (is_ok result)
            × (IsSized (J.held self.old.journal).own → (J.held self.new.journal).own ≡ grown (length part) (J.held self.old.journal).own) }
    {
        let (count, written) = append_counted(&mut self.journal, bytes);
        self.history.note(&Happening::Appended, &bytes[..count]);
        self.answer(written)
    }

    fn sync(&mut self) -> Result<(), PortFault>
        ensures ok { OnOk result (map noted self.new.notes ≡ map noted self.old.notes ++ Synced ∷ []) }
        ensures err { OnErr result (map noted self.new.notes ≡ map noted self.old.notes) }
        ensures fault { self.new.fault ≡ fault_after self.old.fault result }
        ensures mark { self.new.marked ≡ self.old.marked }

        // What was written to the journal was put on the disk, and then the journal was looked for and found.
        ensures synced { OnOk result (J.calls self.new.journal ≡ J.calls self.old.journal
            ++ (syncing (J.held self.old.journal).file ++ looking (J.held self.old.journal) true)) }
        ensures unsynced { OnErr result ((J.calls self.new.journal ≡ J.calls self.old.journal)
            ⊎ (J.calls self.new.journal ≡ J.calls self.old.journal
            ++ (syncing (J.held self.old.journal).file ++ looking (J.held self.old.journal) false))) }
        ensures file { OnOk result (IsSome (J.held self.old.journal).file) }
        ensures same { J.held self.new.journal ≡ J.held self.old.journal }
    {
        if let Err(error) = self.journal.sync() {
            return self.answer(Err(PortFault::CannotWriteJournal(Reason::of(&error))));
        }
        if !self.journal.is_own() {
            return self.answer(Err(PortFault::JournalChanged));
        }
        self.history.note(&Happening::Synced, &[]);
        Ok(())
    }

    fn reply(&mut self, bytes: &[u8]) -> Result<(), PortFault>
        ensures ok { OnOk result (map noted self.new.notes ≡ map noted self.old.notes ++ Replied bytes.now ∷ []) }
        ensures err { OnErr result (Stops (map noted self.old.notes) (Replied bytes.now ∷ []) (map noted self.new.notes)) }
        ensures fault { self.new.fault ≡ fault_after self.old.fault result }
        ensures mark { self.new.marked ≡ self.old.marked }

        // What is noted was written, and nothing else.
        ensures written { (part : List ℕ) × (map noted self.new.notes ≡ map noted self.old.notes ++ Replied part ∷ [])
            × Appends (O.contents self.old.output) (O.contents self.new.output) part }

        // Nothing is done with the journal's file.
        ensures apart { self.new.journal ≡ self.old.journal }
    {
        let (count, written) = write_counted(&mut self.output, bytes);
        self.history.note(&Happening::Replied, &bytes[..count]);
        self.answer(written.map_err(PortFault::CannotWrite))
    }

    fn flush(&mut self) -> Result<(), PortFault>
        ensures ok { OnOk result (map noted self.new.notes ≡ map noted self.old.notes ++ Flushed ∷ []) }
        ensures err { OnErr result (map noted self.new.notes ≡ map noted self.old.notes) }
        ensures fault { self.new.fault ≡ fault_after self.old.fault result }
        ensures mark { self.new.marked ≡ self.old.marked }

        // Nothing is done with the journal's file.
        ensures apart { self.new.journal ≡ self.old.journal }
    {
        if let Err(error) = self.output.flush() {
            return self.answer(Err(PortFault::CannotWrite(Reason::of(&error))));
        }
        self.history.note(&Happening::Flushed, &[]);
        Ok(())
    }
}
