//! Records that are posted to a day.
ghost use Rattle.std.specs.Prelude.{◌≡◌, ◌∷◌, [], Option, IfOk, OnErr, OnOk};
ghost use Rattle.cdm_day.specs.Replies.{reply_of};
ghost use Rattle.cdm_flight.specs.Accepted.{accepted, refusal};
ghost use Rattle.cdm_desk.specs.Replies.{AreChangedRows, IsReply, IsReplyBy, IsRowReply, IsRowReplyBy, day_after, with_one};
ghost use Rattle.cdm_desk.specs.inner.Next.{IsNextBy};
ghost use Rattle.cdm_flight.specs.declared.word.RefusalWord.{RefusalWord as AWord};

use crate::desk_day::DeskDay;
use crate::reply::{DeskReply, RowReply};
use cdm_day::{DayState, Reply};
use cdm_flight::{Listed, RefusalWord, Role, Update};
use cdm_row::{Row, Rows};
use cdm_view::changes_by;
use std::alloc::{AllocError, Global};
use std::mem;

// The Rows that changed from a day to another one of its airport.
fn changed_rows_of(
    alloc: Global,
    before: &DayState,
    after: &DayState,
) -> Result<Vec<Row>, AllocError>
    ensures changed { IfOk result (λ changed. AreChangedRows before.now after.now changed.items) }
{
    let had = Rows::of(alloc, before, before.plan())?;
    let has = Rows::of(alloc, after, after.plan())?;
    let changed = has.changed_since(alloc, &had)?;
    Ok(changed)
}

// The word that refuses the one update of a batch, if one does.
fn word_in(replies: &[Reply]) -> Option<RefusalWord>
    ensures { (word : Option AWord) → replies.now ≡ reply_of word ∷ [] → result ≡ word }
{
    match replies.first() {
        Some(Reply::Refused(word)) => Some(*word),
        Some(Reply::Accepted) | None => None,
    }
}

impl DeskDay {
    // The day once more, for an update to change it. The journal is there once.
    fn once_more(&mut self, alloc: Global, update: Update) -> Result<DayState, AllocError>
        ensures same { self.new ≡ self.old }
        ensures day { IfOk result (λ s. s ≡ self.old) }
    {
        let other = match self.spare.take() {
            Some(state) => state,
            None => self.state.copy(alloc)?,
        };
        self.state.with_list(alloc, other, update)
    }

    // Takes the day after an update, which the day till now follows.
    fn take(&mut self, alloc: Global, update: &(Role, Update), next: DayState)
        requires { next ≡ record self.old { journal = accepted self.old.airport self.old.journal (update.now ∷ []) } }
        ensures { self.new ≡ next }
    {
        let batch = [*update];
        let former = mem::replace(&mut self.state, next);
        self.spare = former.following(alloc, &batch, &self.state).ok();
    }

    // The day after an update, made of the day once more; or the word that refuses it. The day itself stays.
    fn next_by(
        &mut self,
        alloc: Global,
        update: &(Role, Update),
    ) -> Result<Result<DayState, RefusalWord>, AllocError>
        ensures same { self.new ≡ self.old }
        ensures next { IfOk result (IsNextBy self.old update.now) }
    {
        let own = self.once_more(alloc, update.1)?;
        let batch = [*update];
        let (next, replies) = own.after(alloc, &batch)?;
        match word_in(&replies) {
            Some(word) => {
                self.spare = Some(next);
                Ok(Err(word))
            }
            None => Ok(Ok(next)),
        }
    }

    // Judges an update and takes it, unless a word refuses it.
    fn post_update(
        &mut self,
        alloc: Global,
        update: &(Role, Update),
    ) -> Result<DeskReply, AllocError>
        ensures reply { let d = self.old in IfOk result (IsReplyBy (refusal d.airport d.journal update.now.0 update.now.1) d (with_one d update.now)) }
        ensures ok { OnOk result (self.new ≡ with_one self.old update.now) }
        ensures err { OnErr result (self.new ≡ self.old) }
    {
        let next = match self.next_by(alloc, update)? {
            Ok(next) => next,
            Err(word) => return Ok(DeskReply::Refused(word)),
        };
        let changed = changes_by(alloc, &update.1, &self.state, &next)?;
        self.take(alloc, update, next);
        Ok(DeskReply::Accepted(Listed::new(changed)))
    }

    // Judges an update and takes it, unless a word refuses it, and tells of Rows.
    fn post_update_rows(
        &mut self,
        alloc: Global,
        update: &(Role, Update),
    ) -> Result<RowReply, AllocError>
        ensures reply { let d = self.old in IfOk result (IsRowReplyBy (refusal d.airport d.journal update.now.0 update.now.1) d (with_one d update.now)) }
        ensures ok { OnOk result (self.new ≡ with_one self.old update.now) }
        ensures err { OnErr result (self.new ≡ self.old) }
    {
        let next = match self.next_by(alloc, update)? {
            Ok(next) => next,
            Err(word) => return Ok(RowReply::Refused(word)),
        };
        let changed = changed_rows_of(alloc, &self.state, &next)?;
        self.take(alloc, update, next);
        Ok(RowReply::Accepted(Listed::new(changed)))
    }

    /// Posts a record, as its fields spell it: the update is judged, and taken into the journal unless a word refuses
    /// it. The reply is that word, or the flights that stand otherwise since. Only the runways that the update touches are
    /// gone through. Where there is no memory nothing changes.
    pub fn post(
        &mut self,
        alloc: Global,
        spelled: &Result<(Role, Update), RefusalWord>,
    ) -> Result<DeskReply, AllocError>
        ensures reply { IfOk result (IsReply self.old spelled.now) }
        ensures ok { OnOk result (self.new ≡ day_after self.old spelled.now) }
        ensures err { OnErr result (self.new ≡ self.old) }
    {
        match spelled {
            Ok(update) => self.post_update(alloc, update),
            Err(word) => Ok(DeskReply::Refused(*word)),
        }
    }

    /// Posts a record as [`DeskDay::post`] does. The reply has the changed Rows in place of the standings: of each
    /// flight that has another Row than before, or none before. Who puts them over the Rows that he had has the Rows
    /// of the day (`changed_rows_suffice`). All flights are gone through, on both days.
    pub fn post_rows(
        &mut self,
        alloc: Global,
        spelled: &Result<(Role, Update), RefusalWord>,
    ) -> Result<RowReply, AllocError>
        ensures reply { IfOk result (IsRowReply self.old spelled.now) }
        ensures ok { OnOk result (self.new ≡ day_after self.old spelled.now) }
        ensures err { OnErr result (self.new ≡ self.old) }
    {
        match spelled {
            Ok(update) => self.post_update_rows(alloc, update),
            Err(word) => Ok(RowReply::Refused(*word)),
        }
    }
}
