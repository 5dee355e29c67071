//! Served days over a port that stops at each of its calls, or at the last of each kind, with each journal that such a stop
//! may leave; starts on a journal that is torn at each of its bytes; and first starts.
mod memory;
mod refused;
mod script;

use crate::tests::asserts::{assert_found, assert_holds};
use cdm_feed::airport_of;
use cdm_flight::RefusalWord;
use cdm_kinds::Format;
use cdm_port::PortFault;
use cdm_serve::{ReplyForm, ServeError, serve};
use memory::{Call, Left, Memory, Stop};
use script::{AIRPORT, BEGUN, OWN, READY, Row, SCRIPT, TORN};
use std::alloc::{AllocError, Global};
use std::thread::Threads;

/// The form of the replies.
const FORM: ReplyForm = ReplyForm {
    format: Format::Text,
    sentences: true,
};

/// No port makes so many calls here.
const NEVER: Stop = Stop {
    kind: None,
    calls: 1_000_000,
};

// What a served day over this port answers.
fn answer_of<R: AllocGlobal + Threads + Sync>(rt: &R, port: &mut Memory) -> Result<(), ServeError> {
    let airport = airport_of(rt.alloc(), AIRPORT.as_bytes())?;
    serve(rt, rt.alloc(), airport, FORM, port)
}

// What is left of the parts behind a text that begins with them, or nothing where they differ.
fn behind<'a>(text: &'a [u8], part: &str) -> Option<&'a [u8]> {
    text.strip_prefix(part.as_bytes())
}

// Whether it is the journal when the day has heard so many lines.
fn is_journal_after(journal: &[u8], lines: usize) -> bool {
    let Some(mut left) = behind(journal, OWN) else {
        return false;
    };
    for (_, _, record) in SCRIPT.iter().take(lines) {
        match behind(left, record) {
            Some(rest) => left = rest,
            None => return false,
        }
    }
    left.is_empty()
}

// What is left of the replies of a day behind those to so many lines, or the part of one that is the last.
fn replies_behind(replies: &[u8], lines: usize) -> Result<&[u8], bool> {
    let Some(mut left) = behind(replies, READY) else {
        return Err(READY.as_bytes().starts_with(replies));
    };
    for (_, reply, _) in SCRIPT.iter().take(lines) {
        match behind(left, reply) {
            Some(rest) => left = rest,
            None => return Err(reply.as_bytes().starts_with(left)),
        }
    }
    Ok(left)
}

// Whether it is what is written when the day has replied to so many lines.
fn are_replies_after(replies: &[u8], lines: usize) -> bool {
    replies_behind(replies, lines) == Ok(b"".as_slice())
}

// Whether it is that or begins it.
fn are_replies_before(replies: &[u8], lines: usize) -> bool {
    match replies_behind(replies, lines) {
        Ok(left) => left.is_empty(),
        Err(is_begun) => is_begun,
    }
}

// Whether a start on a journal of so many records replies this.
fn is_ready(alloc: Global, replies: &[u8], records: usize) -> bool {
    match format!(in alloc; "READY {records}\n") {
        Ok(ready) => replies == ready.as_bytes(),
        Err(_) => false,
    }
}

// A journal that two records begin, the next one torn or not.
fn begun(alloc: Global, torn: bool) -> Result<Vec<u8>, AllocError> {
    let mut journal = BEGUN.as_bytes().to_vec(alloc)?;
    if torn {
        journal.extend_from_slice(TORN.as_bytes())?;
    }
    Ok(journal)
}

// The port of a day that stops here: on a torn journal that was served before, or on one that wasn't.
fn port_of(alloc: Global, torn: bool, stop: Stop) -> Result<Memory, AllocError> {
    let journal = begun(alloc, torn)?;
    Memory::new(alloc, (torn, journal.as_slice()), SCRIPT, stop)
}

// Whether a day over it is served or ends by the port's fault.
fn is_answered<R: AllocGlobal + Threads + Sync>(rt: &R, port: &mut Memory) -> bool {
    let answer = answer_of(rt, port);
    match port.fault {
        Some(fault) => answer == Err(ServeError::Port(fault)),
        None => answer == Ok(()),
    }
}

// The port when it has stopped.
fn stopped<R: AllocGlobal + Threads + Sync>(rt: &R, torn: bool, stop: Stop) -> Option<Memory> {
    let mut port = port_of(rt.alloc(), torn, stop).ok()?;
    is_answered(rt, &mut port).then_some(port)
}

// Whether a start has its journal on the disk, and has told it to have as many records as it has lines.
fn is_started(alloc: Global, port: &Memory) -> bool {
    let lines = port.journal.iter().filter(|byte| **byte == b'\n').count();
    is_ready(alloc, &port.replies, lines) && port.synced == port.journal && port.marked
}

// The port of a day with these lines over a journal, when it has been served.
fn served<R: AllocGlobal + Threads + Sync>(
    rt: &R,
    found: (bool, &[u8]),
    lines: &'static [Row],
) -> Option<Memory> {
    let mut port = Memory::new(rt.alloc(), found, lines, NEVER).ok()?;
    answer_of(rt, &mut port).is_ok().then_some(port)
}

// The port of such a start on this journal.
fn kept<R: AllocGlobal + Threads + Sync>(rt: &R, found: (bool, &[u8])) -> Option<Memory> {
    let port = served(rt, found, &[])?;
    is_started(rt.alloc(), &port).then_some(port)
}

// How many lines of the day a journal has heard: those that were told, or those that were heard.
fn heard_by(journal: &[u8], port: &Memory) -> Option<usize> {
    if is_journal_after(journal, port.told) {
        Some(port.told)
    } else if is_journal_after(journal, port.heard) {
        Some(port.heard)
    } else {
        None
    }
}

// Whether a day goes on from this journal with the lines that are left to the journal of the whole day.
fn goes_on_from<R: AllocGlobal + Threads + Sync>(rt: &R, journal: &[u8], next: usize) -> bool {
    let Some(lines) = SCRIPT.get(next..) else {
        return false;
    };
    match served(rt, (true, journal), lines) {
        Some(port) => is_journal_after(&port.journal, SCRIPT.len()),
        None => false,
    }
}

// Whether a start on what a stop left has the records that were told, and at most the one that was heard since, and
// goes on with the lines that are left to the journal of the whole day.
fn goes_on<R: AllocGlobal + Threads + Sync>(rt: &R, port: &Memory, left: Left) -> bool {
    let Some(start) = kept(rt, (port.marked, port.left(left))) else {
        return false;
    };
    match heard_by(&start.journal, port) {
        Some(next) => goes_on_from(rt, &start.journal, next),
        None => false,
    }
}

// Whether this is so of each journal that a stop may leave.
fn all_go_on<R: AllocGlobal + Threads + Sync>(rt: &R, port: &Memory) -> bool {
    for left in port.lefts() {
        if !goes_on(rt, port, *left) {
            return false;
        }
    }
    true
}

// Whether nothing was replied to the last line that was heard, or at the start.
fn is_untold(port: &Memory) -> bool {
    if port.heard == 0 {
        port.replies.is_empty()
    } else {
        port.told < port.heard
    }
}

// Whether a port has stopped with the beginning of its replies, none to a record that it couldn't put on the disk.
fn is_told_in_order(port: &Memory) -> bool {
    let is_synced = match port.fault {
        Some(PortFault::CannotWriteJournal(_)) => is_untold(port),
        Some(_) => true,
        None => false,
    };
    is_synced && are_replies_before(&port.replies, port.told)
}

// Whether a day that stops here has done so, and each journal that it may leave is gone on from.
fn is_kept<R: AllocGlobal + Threads + Sync>(rt: &R, torn: bool, stop: Stop) -> bool {
    match stopped(rt, torn, stop) {
        Some(port) => is_told_in_order(&port) && all_go_on(rt, &port),
        None => false,
    }
}

// Whether a day has been served whole.
fn is_whole(port: &Memory) -> bool {
    let is_written = is_journal_after(&port.journal, SCRIPT.len());
    is_written && are_replies_after(&port.replies, SCRIPT.len())
}

// Whether a day that stops here has been served to its end before.
fn is_served<R: AllocGlobal + Threads + Sync>(rt: &R, torn: bool, stop: Stop) -> bool {
    match stopped(rt, torn, stop) {
        Some(port) => port.fault.is_none() && is_whole(&port) && port.synced == port.journal,
        None => false,
    }
}

// A start reads, renames, marks, replies and flushes. A line is read, an accepted record is appended and synced too, and
// what isn't blank is replied to, and flushed.
#[test]
fn a_day_that_stops_at_any_call_goes_on(rt: HostRuntime) {
    let table = [
        (None, 124),
        (Some(Call::Journal), 1),
        (Some(Call::Replace), 1),
        (Some(Call::Mark), 1),
        (Some(Call::Line), 31),
        (Some(Call::Append), 16),
        (Some(Call::Sync), 16),
        (Some(Call::Reply), 29),
        (Some(Call::Flush), 29),
    ];
    for (kind, count) in table {
        let served = is_served(&rt, true, Stop { kind, calls: count });
        assert_holds(&rt, served, (kind, count));
        let first = if kind.is_none() {
            0
        } else {
            count.saturating_sub(1)
        };
        for calls in first..count {
            let kept = is_kept(&rt, true, Stop { kind, calls });
            assert_holds(&rt, kept, (kind, "after", calls));
        }
    }
}

// The first calls of a day whose journal wasn't served before.
#[test]
fn a_first_start_that_stops_at_any_call_goes_on(rt: HostRuntime) {
    for calls in 0..8 {
        let kept = is_kept(&rt, false, Stop { kind: None, calls });
        assert_holds(&rt, kept, ("after", calls));
    }
    assert_holds(&rt, is_served(&rt, false, NEVER), "served");
}

// Whether a journal that was served before becomes these own lines.
fn becomes<R: AllocGlobal + Threads + Sync>(rt: &R, journal: &[u8], own: &[u8]) -> bool {
    match kept(rt, (true, journal)) {
        Some(port) => port.journal.as_slice() == own,
        None => false,
    }
}

// Whether a journal of these whole lines and any part of one more line does so.
fn is_left_out<R: AllocGlobal + Threads + Sync>(
    rt: &R,
    whole: &[u8],
    line: &[u8],
    own: &[u8],
) -> Option<bool> {
    let mut journal = whole.to_vec(rt.alloc()).ok()?;
    let mut is_left_out = becomes(rt, &journal, own);
    for byte in line {
        if *byte != b'\n' {
            journal.push(*byte).ok()?;
            is_left_out = is_left_out && becomes(rt, &journal, own);
        }
    }
    Some(is_left_out)
}

#[test]
fn a_line_torn_at_any_byte_is_left_out(rt: HostRuntime) {
    let table = [
        ("", "AP,FLT,AB1,5\n", ""),
        ("AP,FLT,AB1,5\n", "ATC,\"RWY\",AB1,27L\n", "AP,FLT,AB1,5\n"),
        (
            "AP,FLT,AB1,5\nATC,\"RWY\",AB1,27L\n",
            "AO,TOBT,AB1,2025-03-10T06:00Z\r\n",
            "AP,FLT,AB1,5\nATC,RWY,AB1,27L\n",
        ),
        (
            "AP,FLT,AB1,5\nATC,RWY,AB1,27L\nAO,TOBT,AB1,2025-03-10T06:00Z\r\n",
            "AO,CNL,AB1\n",
            "AP,FLT,AB1,5\nATC,RWY,AB1,27L\nAO,TOBT,AB1,2025-03-10T06:00Z\n",
        ),
    ];
    for (whole, line, own) in table {
        let is_left_out = is_left_out(&rt, whole.as_bytes(), line.as_bytes(), own.as_bytes());
        assert_found(&rt, is_left_out, Some(true), line);
    }
}

// The journal that a start on this one leaves, and how many bytes it told to be left out.
fn start_on<R: AllocGlobal + Threads + Sync>(
    rt: &R,
    found: (bool, &[u8]),
) -> Option<(Result<(), ServeError>, Memory)> {
    let mut port = Memory::new(rt.alloc(), found, &[], NEVER).ok()?;
    let answer = answer_of(rt, &mut port);
    Some((answer, port))
}

// What a start on this journal answers, whether it has these own lines on the disk, how many bytes it told to be left out,
// and whether it marked the journal.
fn taken<R: AllocGlobal + Threads + Sync>(
    rt: &R,
    found: (bool, &[u8]),
    own: &[u8],
) -> Option<(Result<(), ServeError>, bool, usize, bool)> {
    let (answer, port) = start_on(rt, found)?;
    let is_own = port.synced.as_slice() == own;
    Some((answer, is_own, port.left_out, port.marked))
}

// The last line is taken with or without its end where the journal wasn't served before.
#[test]
fn a_journal_is_taken_by_its_mark(rt: HostRuntime) {
    let table = [
        (false, "", "", 0),
        (true, "", "", 0),
        (false, "AP,FLT,AB1,5\nATC,RWY,AB1,27L", OWN, 0),
        (true, "AP,FLT,AB1,5\nATC,RWY,AB1,27L", "AP,FLT,AB1,5\n", 15),
        (false, BEGUN, OWN, 0),
    ];
    for (marked, journal, own, left_out) in table {
        let found = taken(&rt, (marked, journal.as_bytes()), own.as_bytes());
        let wanted = Some((Ok(()), true, left_out, true));
        assert_found(&rt, found, wanted, journal);
    }
}

// What a start on this journal answers, and whether it has left it alone.
fn left_alone<R: AllocGlobal + Threads + Sync>(
    rt: &R,
    journal: &[u8],
) -> Option<(Result<(), ServeError>, bool)> {
    let (answer, port) = start_on(rt, (false, journal))?;
    let is_alone = port.journal.as_slice() == journal && !port.marked;
    Some((answer, is_alone && port.replies.is_empty()))
}

// What is no feed of accepted records stays as it is, unmarked, and nothing is replied.
#[test]
fn a_refused_journal_is_left_alone(rt: HostRuntime) {
    let table = [
        ("{\"key\":\"precious\"}", 1, RefusalWord::Fields),
        ("AP,FLT,AB1,5\nAP,FLT,AB1,5\n", 2, RefusalWord::Exists),
        ("AP,FLT,AB1,5\nAO,TOBT,AB1,2025-0", 2, RefusalWord::Text),
    ];
    for (journal, number, word) in table {
        let wanted = Some((Err(ServeError::Journal(number, word)), true));
        assert_found(&rt, left_alone(&rt, journal.as_bytes()), wanted, journal);
    }
}
