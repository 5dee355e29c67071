//! Records that are posted to a day, one at a time.
use crate::tests::asserts::assert_found;
use crate::tests::days::{day_with, planned};
use cdm_desk::{DeskDay, RowReply, push_reply};
use cdm_flight::{RefusalWord, Role, Update};
use cdm_row::push_row;
use cdm_time::Day;
use json::Writer;
use std::alloc::Global;

/// A record: an update and who makes it, or why it spells none.
type Record = Result<(Role, Update), RefusalWord>;

// The updates that plan a flight for 06:00, and a record that spells none, with their numbers.
fn records() -> Option<[(u32, Record); 4]> {
    let [known, assigned, ready] = planned("AB1")?;
    Some([
        (1, Ok(known)),
        (2, Ok(assigned)),
        (3, Ok(ready)),
        (4, Err(RefusalWord::Text)),
    ])
}

// Posts a record, and adds its reply to a text.
fn post(
    alloc: Global,
    desk: &mut DeskDay,
    text: &mut String,
    record: &(u32, Record),
) -> Option<()> {
    let reply = desk.post(alloc, &record.1).ok()?;
    let day = *desk.state().day();
    push_reply(text, day, record.0, &reply).ok()
}

// The replies to the records.
fn replies(alloc: Global) -> Option<String> {
    let records = records()?;
    let mut desk = DeskDay::new(day_with(alloc, &["27L"])?);
    let mut text = String::new(alloc);
    for record in &records {
        post(alloc, &mut desk, &mut text, record)?;
    }
    Some(text)
}

/// Each reply tells the flights that stand otherwise since, and no others.
#[test]
fn replies_tell_what_changed(rt: HostRuntime) {
    let told = "1 ACCEPTED 1\nBLOCKED AB1     TOBT\n2 ACCEPTED 0\n3 ACCEPTED 1\n\
        SLOT 27L AB1     100600   15 ------ 100600 100615 P    0\n4 REFUSED TEXT\n";
    let replies = replies(rt.alloc());
    assert_found(&rt, replies.as_deref(), Some(told), "replies");
}

// Posts an update, and writes the Rows that change.
fn post_rows(
    alloc: Global,
    desk: &mut DeskDay,
    writer: &mut Writer,
    record: &Record,
) -> Option<()> {
    let reply = desk.post_rows(alloc, record).ok()?;
    push_rows(writer, *desk.state().day(), &reply)
}

// Writes the Rows of a reply.
fn push_rows(writer: &mut Writer, day: Day, reply: &RowReply) -> Option<()> {
    let RowReply::Accepted(changed) = reply else {
        return None;
    };
    for row in changed.as_slice() {
        push_row(writer, day, row).ok()?;
    }
    Some(())
}

// The changed Rows of the same updates, one after another.
fn changed_rows(alloc: Global) -> Option<Vec<u8>> {
    let updates = planned("AB1")?;
    let mut desk = DeskDay::new(day_with(alloc, &["27L"])?);
    let mut writer = Writer::new(Vec::new(alloc));
    for update in updates {
        post_rows(alloc, &mut desk, &mut writer, &Ok(update))?;
    }
    Some(writer.into_inner())
}

/// A Row changes where any of its columns does: with a runway its flight is blocked as before, and has an EXOT.
#[test]
fn replies_tell_changed_rows(rt: HostRuntime) {
    let told =
        "{\"flight\":\"AB1\",\"status\":\"BLOCKED\",\"runway\":null,\"stand\":null,\"priority\":5,\"group\":\"M\",\
        \"tobt\":null,\"exot\":null,\"ctot\":null,\"tsat\":null,\"ttot\":null,\"delay\":null,\"rule\":\"TOBT\"},\
        {\"flight\":\"AB1\",\"status\":\"BLOCKED\",\"runway\":\"27L\",\"stand\":null,\"priority\":5,\"group\":\"M\",\
        \"tobt\":null,\"exot\":15,\"ctot\":null,\"tsat\":null,\"ttot\":null,\"delay\":null,\"rule\":\"TOBT\"},\
        {\"flight\":\"AB1\",\"status\":\"PLANNED\",\"runway\":\"27L\",\"stand\":null,\"priority\":5,\"group\":\"M\",\
        \"tobt\":\"2025-03-10T06:00Z\",\"exot\":15,\"ctot\":null,\"tsat\":\"2025-03-10T06:00Z\",\
        \"ttot\":\"2025-03-10T06:15Z\",\"delay\":0,\"rule\":null}";
    let rows = changed_rows(rt.alloc());
    assert_found(&rt, rows.as_deref(), Some(told.as_bytes()), "Rows");
}
