//! Replies to records.
ghost use Rattle.std.specs.Prelude.{◌≡◌, ◌++◌, OnOk, flat_map};
ghost use Rattle.std.specs.String.{string_bytes};
ghost use Rattle.cdm_desk.specs.Replies.{changed_line, reply_text};

use cdm_flight::{Listed, RefusalWord};
use cdm_row::Row;
use cdm_time::Day;
use cdm_view::{Standing, push_standing};
use std::alloc::AllocError;
use std::fmt::Write;

/// The reply to a record (local profile).
#[derive(Debug, Drop)]
pub enum DeskReply {
    /// It changed nothing, for this reason.
    Refused(RefusalWord),
    /// It is accepted, and these flights, by name, stand otherwise since, or are known since.
    Accepted(Listed<Standing>),
}

/// The reply to a record, told by Rows (local profile).
#[derive(Debug, Drop)]
pub enum RowReply {
    /// It changed nothing, for this reason.
    Refused(RefusalWord),
    /// It is accepted, and these flights, by name, have another Row since, or are known since.
    Accepted(Listed<Row>),
}

// The lines of standings.
fn push_changed(text: &mut String, day: Day, changed: &[Standing]) -> Result<(), AllocError>
    ensures { OnOk result (string_bytes text.new ≡ string_bytes text.old ++ flat_map (changed_line day) changed.now) }
{
    for standing in changed {
        push_standing(text, day, standing)?;
        writeln!(text)?;
    }
    Ok(())
}

/// Puts the text of a reply to the record of this number behind a text: the number and the word, or the number and how
/// many flights stand otherwise, and a line for each of them. Only want of memory makes it fail.
#[tactic(auto, unfolding(crate::specs::Replies::reply_text))]
pub fn push_reply(
    text: &mut String,
    day: Day,
    number: u32,
    reply: &DeskReply,
) -> Result<(), AllocError>
    ensures { OnOk result (string_bytes text.new ≡ string_bytes text.old ++ reply_text day number reply.now) }
{
    match reply {
        DeskReply::Refused(word) => writeln!(text, "{number} REFUSED {word}"),
        DeskReply::Accepted(changed) => {
            let count = changed.as_slice().len();
            writeln!(text, "{number} ACCEPTED {count}")?;
            push_changed(text, day, changed.as_slice())
        }
    }
}
