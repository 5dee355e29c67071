//! A record that is posted, and its reply.
ghost use Rattle.std.specs.Prelude.{◌≡◌, IfOk, OnOk};
ghost use Rattle.cdm_desk.specs.Replies.{day_after, reply_text, word_for};
ghost use Rattle.cdm_serve.specs.Posted.{IsRecordText};

use cdm_desk::{DeskDay, DeskReply, RowReply, push_reply};
use cdm_flight::{RefusalWord, Role, Update};
use cdm_json::reply_line;
use cdm_kinds::Format;
use cdm_time::Day;
use std::alloc::{AllocError, Global};

/// The reply to a record, and the word that refuses it, if one does.
#[derive(Drop)]
pub(crate) struct Posted {
    pub refusal: Option<RefusalWord>,
    pub text: Vec<u8>,
}

/// The text of a reply to the record or the question of this number. Only want of memory makes it fail.
pub(crate) fn reply_text(
    alloc: Global,
    day: Day,
    number: u32,
    reply: &DeskReply,
) -> Result<Vec<u8>, AllocError>
    ensures { IfOk result (λ text. text.items ≡ reply_text day number reply.now) }
{
    let mut text = String::new(alloc);
    push_reply(&mut text, day, number, reply)?;
    Ok(text.into_bytes())
}

// Posts a record, and replies by the flights that stand otherwise.
fn post_for_text(
    alloc: Global,
    desk: &mut DeskDay,
    number: u32,
    spelled: &Result<(Role, Update), RefusalWord>,
) -> Result<Posted, AllocError>
    ensures text { IfOk result (λ posted. IsRecordText Format.Text desk.old number spelled.now posted.text.items) }
    ensures refusal { IfOk result (λ posted. posted.refusal ≡ word_for desk.old spelled.now) }
    ensures day { OnOk result (desk.new ≡ day_after desk.old spelled.now) }
{
    let day = *desk.state().day();
    let reply = desk.post(alloc, spelled)?;
    let text = reply_text(alloc, day, number, &reply)?;
    let refusal = match reply {
        DeskReply::Refused(word) => Some(word),
        DeskReply::Accepted(_) => None,
    };
    Ok(Posted { refusal, text })
}

// Posts a record, and replies by the Rows that changed.
fn post_for_json(
    alloc: Global,
    desk: &mut DeskDay,
    number: u32,
    spelled: &Result<(Role, Update), RefusalWord>,
) -> Result<Posted, AllocError>
    ensures text { IfOk result (λ posted. IsRecordText Format.Json desk.old number spelled.now posted.text.items) }
    ensures refusal { IfOk result (λ posted. posted.refusal ≡ word_for desk.old spelled.now) }
    ensures day { OnOk result (desk.new ≡ day_after desk.old spelled.now) }
{
    let day = *desk.state().day();
    let reply = desk.post_rows(alloc, spelled)?;
    let count = desk.state().journal().len();
    let text = reply_line(alloc, day, number, count, &reply)?;
    let refusal = match reply {
        RowReply::Refused(word) => Some(word),
        RowReply::Accepted(_) => None,
    };
    Ok(Posted { refusal, text })
}

/// Posts a record, or the word that refuses it in itself: the day takes it where no word refuses it. Only want of memory makes it
/// fail.
pub(crate) fn post(
    alloc: Global,
    format: Format,
    desk: &mut DeskDay,
    number: u32,
    spelled: &Result<(Role, Update), RefusalWord>,
) -> Result<Posted, AllocError>
    ensures text { IfOk result (λ posted. IsRecordText format desk.old number spelled.now posted.text.items) }
    ensures refusal { IfOk result (λ posted. posted.refusal ≡ word_for desk.old spelled.now) }
    ensures day { OnOk result (desk.new ≡ day_after desk.old spelled.now) }
{
    match format {
        Format::Text => post_for_text(alloc, desk, number, spelled),
        Format::Json => post_for_json(alloc, desk, number, spelled),
    }
}
