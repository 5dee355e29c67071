//! The answer to one line of the input.
ghost use Rattle.std.specs.Prelude.{◌≡◌, ◌+◌, ◌^◌, IfErr, IfOk, OnErr, OnOk};
ghost use Rattle.cdm_journal.specs.Journal.{journal_line};
ghost use Rattle.cdm_journal.specs.Lines.{read_as};
ghost use Rattle.cdm_serve.specs.Requests.{request_of};
ghost use Rattle.cdm_serve.specs.Served.{IsReplyTo, answered, numbered, told_of};
ghost use Rattle.cdm_serve.specs.Taken.{after, day_with, fields_in, taken_of};
ghost use Rattle.cdm_serve.specs.inner.Steps.{IsAnswerFault, events_of, text_of};

use crate::asked::{Asked, asked_text};
use crate::fault::ServeError;
use crate::form::ReplyForm;
use crate::posting::post;
use crate::refusing::{explained, word_asked};
use crate::request::{Request, request_of};
use cdm_day::DayState;
use cdm_desk::DeskDay;
use cdm_files::Lent;
use cdm_flight::{RefusalWord, Role, Update};
use cdm_journal::{LineRead, journal_line};
use cdm_phase::OpenGate;
use csv::ByteRecord;
use std::alloc::{AllocError, Global};
use std::thread::Threads;

/// What is to be done for a line of the input.
#[derive(Drop)]
pub(crate) enum Answer {
    /// Nothing: the line is blank.
    Nothing,
    /// This text is replied.
    Reply(Vec<u8>),
    /// This line goes to the journal, and then this text is replied.
    Record(Vec<u8>, Vec<u8>),
}

/// A day that is served, and how many records and questions were numbered.
#[derive(Drop)]
pub(crate) struct ServedDay {
    pub desk: DeskDay,
    pub number: u32,
}

// The journal's line of a record. What is no record has no fields.
fn line_of(alloc: Global, read: &LineRead) -> Result<Vec<u8>, AllocError>
    ensures { IfOk result (λ line. line.items ≡ journal_line (fields_in (read_as read.now))) }
{
    match read {
        LineRead::One(row) => journal_line(alloc, row),
        LineRead::Blank | LineRead::Several => journal_line(alloc, &ByteRecord::new(alloc)),
    }
}

// Posts what a line spells, and says what is to be done then.
fn post_line(
    alloc: Global,
    form: ReplyForm,
    desk: &mut DeskDay,
    number: u32,
    read: &LineRead,
    spelled: &Result<(Role, Update), RefusalWord>,
) -> Result<Answer, AllocError>
    ensures reply { IfOk result (λ answer. IsReplyTo form desk.old number (Request.Post spelled.now) (text_of answer)) }
    ensures events { IfOk result (λ answer. events_of answer ≡
        told_of (taken_of desk.old (fields_in (read_as read.now)) (Request.Post spelled.now)) (text_of answer)) }
    ensures day { OnOk result (desk.new ≡
        day_with desk.old (taken_of desk.old (fields_in (read_as read.now)) (Request.Post spelled.now))) }
{
    let posted = post(alloc, form.format, desk, number, spelled)?;
    match posted.refusal {
        None => {
            let line = line_of(alloc, read)?;
            Ok(Answer::Record(line, posted.text))
        }
        Some(word) if form.sentences => {
            let text = explained(alloc, form.format, desk.state(), number, read, word)?;
            Ok(Answer::Reply(text))
        }
        Some(_) => Ok(Answer::Reply(posted.text)),
    }
}

// The reply to a question that a line asks.
fn ask_line<R: Threads + Sync>(
    lent: &Lent<'_, R, OpenGate>,
    form: ReplyForm,
    state: &DayState,
    number: u32,
    read: &LineRead,
    asked: &Asked,
) -> Result<Vec<u8>, AllocError>
    ensures { IfOk result (λ text. IsReplyTo form state.now number (Request.Ask asked.now) text.items) }
{
    match word_asked(state, asked) {
        None => asked_text(lent, form.format, state, number, *asked),
        Some(word) if form.sentences => {
            explained(lent.alloc, form.format, state, number, read, word)
        }
        Some(_) => asked_text(lent, form.format, state, number, *asked),
    }
}

impl ServedDay {
    // Counts one record or question more, and gives its number.
    fn count(&mut self) -> Result<u32, ServeError>
        ensures count { IfOk result (λ number. number ≡ self.old.number + 1) }
        ensures counted { OnOk result (self.new.number ≡ self.old.number + 1) }
        ensures same { self.new.desk ≡ self.old.desk }
        ensures fault { IfErr result (IsAnswerFault self.old.number) }
    {
        self.number = self.number.checked_add(1).ok_or(ServeError::TooMany)?;
        Ok(self.number)
    }

    /// Answers a line: a record is judged, and the day takes it where no word refuses it; a question is answered of the
    /// day as it is. The reply and the journal's line are ready then.
    ///
    /// `TooMany` where the line's number would be greater than a `u32`, and else only `Memory`.
    pub(crate) fn answer<R: Threads + Sync>(
        &mut self,
        lent: &Lent<'_, R, OpenGate>,
        form: ReplyForm,
        read: &LineRead,
    ) -> Result<Answer, ServeError>
        ensures reply { IfOk result (λ answer. IsReplyTo form self.old.desk (numbered self.old.number (read_as read.now))
            (request_of self.old.desk.airport.day (read_as read.now)) (text_of answer)) }
        ensures events { IfOk result (λ answer. events_of answer ≡ answered self.old.desk (read_as read.now) (text_of answer)) }
        ensures day { OnOk result (self.new.desk ≡ after self.old.desk (read_as read.now)) }
        ensures number { OnOk result (self.new.number ≡ numbered self.old.number (read_as read.now)) }
        ensures fault { IfErr result (IsAnswerFault self.old.number) }
    {
        match request_of(*self.desk.state().day(), read) {
            Request::Nothing => Ok(Answer::Nothing),
            Request::Post(spelled) => {
                let number = self.count()?;
                let answer = post_line(lent.alloc, form, &mut self.desk, number, read, &spelled)?;
                Ok(answer)
            }
            Request::Ask(asked) => {
                let number = self.count()?;
                let text = ask_line(lent, form, self.desk.state(), number, read, &asked)?;
                Ok(Answer::Reply(text))
            }
        }
    }
}
