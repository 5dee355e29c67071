//! Receipts of calls.
ghost use Rattle.std.specs.Prelude.{◌≡◌, ◌↔◌, IfOk, IsTrue};
ghost use Rattle.cdm_board.specs.History.{Posts, Looks};
ghost use Rattle.cdm_board.specs.Receipts.{call_of};

use cdm_day::{Airport, DayState, Reply};
use cdm_flight::{Role, Update};
use std::alloc::{AllocError, Global};
use std::sync::Arc;

/// What a call of a desk was answered.
pub enum Receipt {
    /// A post: the batch, and the replies to its updates in their order.
    Posted {
        batch: Vec<(Role, Update)>,
        replies: Vec<Reply>,
    },
    /// A look: the airport, and the accepted updates at that moment, the oldest first. Both are shared
    /// with the snapshot.
    Looked {
        airport: Arc<Airport>,
        journal: Arc<Vec<Update>>,
    },
}

// One call drops it, in place of its fields one by one at each exit of each function that owns it.
impl Drop for Receipt {
    fn drop(self) {
        match self {
            Receipt::Posted {
                batch: _,
                replies: _,
            } => {}
            Receipt::Looked {
                airport: _,
                journal: _,
            } => {}
        }
    }
}

/// A call in a board's history: the number of the desk that made it, and what it was answered.
#[derive(Drop)]
pub struct Entry {
    pub desk: usize,
    pub receipt: Receipt,
}

/// The receipt of a post.
pub fn posted(
    alloc: Global,
    batch: &[(Role, Update)],
    replies: &[Reply],
) -> Result<Receipt, AllocError>
    ensures { IfOk result (λ r. call_of r ≡ Posts batch.now replies.now) }
{
    let batch = Vec::from_slice(alloc, batch)?;
    let replies = Vec::from_slice(alloc, replies)?;
    Ok(Receipt::Posted { batch, replies })
}

/// The receipt of a look at this day.
pub fn looked(day: &DayState) -> Result<Receipt, AllocError>
    ensures { IfOk result (λ r. call_of r ≡ Looks day.now.airport day.now.journal) }
{
    let airport = day.share_airport()?;
    let journal = day.share_journal()?;
    Ok(Receipt::Looked { airport, journal })
}

/// Whether two journals have the same updates.
pub fn is_same_journal(one: &[Update], other: &[Update]) -> bool
    ensures { IsTrue result ↔ (one.now ≡ other.now) }
{
    one == other
}

fn is_same_batch(one: &[(Role, Update)], other: &[(Role, Update)]) -> bool
    ensures { IsTrue result ↔ (one.now ≡ other.now) }
{
    one == other
}

fn are_same_replies(one: &[Reply], other: &[Reply]) -> bool
    ensures { IsTrue result ↔ (one.now ≡ other.now) }
{
    one == other
}

/// Whether two receipts are of one call.
pub fn is_same_call(one: &Receipt, other: &Receipt) -> bool
    ensures { IsTrue result ↔ (call_of one.now ≡ call_of other.now) }
{
    match (one, other) {
        (
            Receipt::Posted { batch, replies },
            Receipt::Posted {
                batch: other_batch,
                replies: other_replies,
            },
        ) => {
            is_same_batch(batch.as_slice(), other_batch.as_slice())
                && are_same_replies(replies.as_slice(), other_replies.as_slice())
        }
        (
            Receipt::Looked { airport, journal },
            Receipt::Looked {
                airport: other_airport,
                journal: other_journal,
            },
        ) => {
            airport.is_same(other_airport)
                && is_same_journal(journal.as_slice(), other_journal.as_slice())
        }
        _ => false,
    }
}
