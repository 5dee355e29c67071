//! The list of a day's accepted updates.
ghost use Rattle.std.specs.Prelude.{◌≡◌, ◌+◌, ◌<◌, ◌≤◌, ◌++◌, ◌∷◌, [], IfOk, OnOk, IsTrue, length, take, vec_len, vec_capacity};
ghost use Rattle.std.specs.Arc.{arc_value};

use cdm_flight::{Update, push_last};
use std::alloc::{AllocError, Global};
use std::marker::Model;
use std::sync::Arc;

// By how many updates the room of a list grows. Each look at a board keeps the journal of its moment, so
// a journal has little room to spare.
const JOURNAL_ROOM: usize = 256;

// Makes room for one more update.
fn make_room(list: &mut Vec<Update>) -> Result<(), AllocError>
    ensures items { list.new.items ≡ list.old.items }
    ensures room { OnOk result (vec_len list.new < vec_capacity list.new) }
{
    if list.len() == list.capacity() {
        list.reserve_exact(JOURNAL_ROOM)?;
    }
    Ok(())
}

// A copy of these updates with one more.
fn longer_list(
    alloc: Global,
    updates: &[Update],
    update: Update,
) -> Result<Arc<Vec<Update>>, AllocError>
    ensures { IfOk result (λ longer. (arc_value longer).items ≡ updates.now ++ update ∷ []) }
{
    let mut longer = Vec::new(alloc);
    longer.reserve_exact(updates.len() + JOURNAL_ROOM)?;
    longer.extend_from_slice(updates)?;
    push_last(&mut longer, update)?;
    let longer = Arc::new(alloc, longer)?;
    Ok(longer)
}

// Puts an update behind the first `len` of a list, in place of all others. If the list is shared, a copy takes its place.
fn put_behind(
    alloc: Global,
    list: &mut Arc<Vec<Update>>,
    len: usize,
    update: Update,
) -> Result<(), AllocError>
    requires { len ≤ length (arc_value list.old).items }
    ensures put { OnOk result ((arc_value list.new).items ≡ take len (arc_value list.old).items ++ update ∷ []) }
    ensures first { take len (arc_value list.new).items ≡ take len (arc_value list.old).items }
    ensures within { len ≤ length (arc_value list.new).items }
{
    if let Some(own) = Arc::get_mut(list) {
        own.truncate(len);
        make_room(own)?;
        own.push_reserved(update);
        return Ok(());
    }
    *list = longer_list(alloc, &list[..len], update)?;
    Ok(())
}

// Whether the list has this update behind its first `len`.
fn is_next(list: &[Update], len: usize, update: &Update) -> bool
    ensures next { IsTrue result → take (len + 1) list.now ≡ take len list.now ++ update.now ∷ [] }
    ensures within { IsTrue result → len + 1 ≤ length list.now }
{
    match list.get(len) {
        Some(next) => next == update,
        None => false,
    }
}

/// The accepted updates of a day, the oldest first. They begin a list that other journals may share, and that may have more
/// updates behind them.
#[derive(Drop)]
pub(crate) struct Journal {
    list: Arc<Vec<Update>>,
    len: usize,
}

impl Model for Journal {
    ghost use Rattle.std.specs.Prelude.{◌≤◌, List, length, take};
    ghost use Rattle.std.specs.Arc.{arc_value};
    ghost use Rattle.cdm_flight.specs.declared.update.Update.{Update as AnUpdate};

    ghost Value = { List AnUpdate };

    ghost view = { λ j. take j.len (arc_value j.list).items };

    ghost invariant = { λ j. j.len ≤ length (arc_value j.list).items };
}

impl Journal {
    /// No update.
    pub(crate) fn new(alloc: Global) -> Result<Journal, AllocError>
        ensures { IfOk result (λ journal. journal ≡ []) }
    {
        let list = Arc::new(alloc, Vec::new(alloc))?;
        Ok(Journal { list, len: 0 })
    }

    /// The updates.
    pub(crate) fn as_slice(&self) -> &[Update]
        ensures { result.now ≡ self.now }
    {
        &self.list[..self.len]
    }

    /// How many updates there are.
    pub(crate) fn len(&self) -> usize
        ensures { result ≡ length self.now }
    {
        self.len
    }

    /// The same journal, which shares the list.
    pub(crate) fn share(&self) -> Result<Journal, AllocError>
        ensures { IfOk result (λ journal. journal ≡ self.now) }
    {
        let list = Arc::try_clone(&self.list)?;
        Ok(Journal {
            list,
            len: self.len,
        })
    }

    /// The list, shared; a copy of it, if it has more updates than the journal.
    pub(crate) fn share_list(&self) -> Result<Arc<Vec<Update>>, AllocError>
        ensures { IfOk result (λ list. (arc_value list).items ≡ self.now) }
    {
        if self.list.len() == self.len {
            return Arc::try_clone(&self.list);
        }
        let alloc = *self.list.allocator();
        let own = Vec::from_slice(alloc, self.as_slice())?;
        let list = Arc::new(alloc, own)?;
        Ok(list)
    }

    /// The journal with one more update, which shares the list. An update that is next in the list isn't added again.
    pub(crate) fn with(&mut self, alloc: Global, update: Update) -> Result<Journal, AllocError>
        ensures same { self.new ≡ self.old }
        ensures longer { IfOk result (λ journal. journal ≡ self.old ++ update ∷ []) }
    {
        if !is_next(self.list.as_slice(), self.len, &update) {
            put_behind(alloc, &mut self.list, self.len, update)?;
        }
        let list = Arc::try_clone(&self.list)?;
        Ok(Journal {
            list,
            len: self.len + 1,
        })
    }
}
