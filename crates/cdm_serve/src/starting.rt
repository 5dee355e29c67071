//! The start of a served day.
ghost use Rattle.std.specs.Prelude.{◌≡◌, ◌≤◌, ◌++◌, drop, length, take, IfErr, IfOk, OnErr, OnOk};
ghost use Rattle.cdm_port.specs.Event.{journal_limit};
ghost use Rattle.cdm_port.specs.Fault.{fault_after};
ghost use Rattle.cdm_port.specs.Stop.{Stops};
ghost use Rattle.cdm_serve.specs.Faults.{fault_told};
ghost use Rattle.cdm_serve.specs.Served.{begun, left_out, reading, ready_text, start_text};
ghost use Rattle.cdm_serve.specs.inner.Steps.{IsStartFault, Starts, StartStops};

use crate::fault::ServeError;
use crate::performing::tell;
use cdm_day::{Airport, DayState};
use cdm_journal::{own_lines, read_journal, whole_length};
use cdm_json::{begin_line, end_line};
use cdm_kinds::Format;
use cdm_phase::{OpenGate, Workers};
use cdm_port::{Port, PortFault};
use cdm_row::push_count;
use std::alloc::{AllocError, Global};
use std::fmt::Write;
use std::thread::Threads;

// A journal as it was read, and how many of its bytes a start takes.
#[derive(Drop)]
struct Found {
    bytes: Vec<u8>,
    taken: usize,
}

// The line of JSON that tells that a day is served, with how many updates it has.
fn ready_line(alloc: Global, count: usize) -> Result<Vec<u8>, AllocError>
    ensures { IfOk result (λ line. line.items ≡ ready_text Format.Json count) }
{
    let mut writer = begin_line(alloc, None, "")?;
    push_count(&mut writer, "ready", count as u64)?;
    end_line(writer)
}

// The text that tells it.
fn ready_text(alloc: Global, format: Format, count: usize) -> Result<Vec<u8>, AllocError>
    ensures { IfOk result (λ text. text.items ≡ ready_text format count) }
{
    match format {
        Format::Text => {
            let mut text = String::new(alloc);
            writeln!(text, "READY {count}")?;
            Ok(text.into_bytes())
        }
        Format::Json => ready_line(alloc, count),
    }
}

// How many bytes a start takes of a journal.
fn start_length(marked: bool, bytes: &[u8]) -> usize
    ensures within { result ≤ length bytes.now }
    ensures text { take result bytes.now ≡ start_text marked bytes.now }
{
    if marked {
        whole_length(bytes)
    } else {
        bytes.len()
    }
}

// Tells what is left out of a journal, where that is anything.
fn tell_left_out<P: Port>(port: &mut P, rest: &[u8])
    ensures told { P.events port.new ≡ P.events port.old ++ left_out rest.now }
    ensures fault { P.fault port.new ≡ P.fault port.old }
{
    if !rest.is_empty() {
        port.left_out(rest);
    }
}

// Reads a journal, and tells what of it isn't taken.
fn read_port<P: Port>(alloc: Global, port: &mut P) -> Result<Found, PortFault>
    ensures ok { IfOk result (λ found. P.events port.new ≡ P.events port.old ++ reading (P.marked port.old) found.bytes.items) }
    ensures limit { IfOk result (λ found. length found.bytes.items ≤ journal_limit) }
    ensures within { IfOk result (λ found. found.taken ≤ length found.bytes.items) }
    ensures text { IfOk result (λ found. take found.taken found.bytes.items ≡ start_text (P.marked port.old) found.bytes.items) }
    ensures err { OnErr result (P.events port.new ≡ P.events port.old) }
    ensures fault { P.fault port.new ≡ fault_after (P.fault port.old) result }
{
    let bytes = port.journal(alloc)?;
    let taken = start_length(port.is_marked(), &bytes);
    tell_left_out(port, &bytes[taken..]);
    Ok(Found { bytes, taken })
}

// Puts the journal's own lines on the disk in its place, marks it, and tells that the day is ready.
fn begin<P: Port>(port: &mut P, lines: &[u8], ready: &[u8]) -> Result<(), PortFault>
    ensures ok { OnOk result (P.events port.new ≡ P.events port.old ++ begun lines.now ready.now) }
    ensures err { OnErr result (Stops (P.events port.old) (begun lines.now ready.now) (P.events port.new)) }
    ensures fault { P.fault port.new ≡ fault_after (P.fault port.old) result }
{
    port.replace(lines)?;
    port.mark()?;
    tell(port, ready)
}

/// Reads the journal and judges what it takes of it: its whole lines where it was served before, and else all. Then it
/// writes the records as the journal's own lines to the disk, marks the journal, and tells that the day is ready.
///
/// `Journal` where a record is refused, and then nothing but the reading has happened; `Port` and `Memory`.
pub(crate) fn start<R: Threads + Sync, P: Port>(
    rt: &R,
    alloc: Global,
    airport: Airport,
    format: Format,
    port: &mut P,
) -> Result<DayState, ServeError>
    ensures ok { IfOk result (Starts format airport (P.marked port.old) (P.events port.old) (P.events port.new)) }
    ensures err { OnErr result (StartStops format airport (P.marked port.old) (P.events port.old) (P.events port.new)) }
    ensures fault { IfErr result (IsStartFault airport (P.marked port.old) (P.events port.old) (P.events port.new)) }
    ensures failed { P.fault port.new ≡ fault_told (P.fault port.old) result }
{
    let found = read_port(alloc, port)?;
    let text = &found.bytes[..found.taken];
    let one = Workers::new(1).unwrap();
    let state = read_journal(rt, alloc, airport, text, one, &OpenGate)?;
    let lines = own_lines(alloc, text)?;
    let ready = ready_text(alloc, format, state.journal().len())?;
    begin(port, &lines, &ready)?;
    Ok(state)
}
