//! A day served over a port.
ghost use Rattle.std.specs.Prelude.{◌≡◌, ◌++◌, ℕ, List, IfErr, IfOk, OnErr, OnOk};
ghost use Rattle.cdm_port.specs.Event.Event.{End};
ghost use Rattle.cdm_port.specs.Stop.{since};
ghost use Rattle.cdm_serve.specs.Faults.{IsServeFault, fault_told};
ghost use Rattle.cdm_serve.specs.Promises.{AtEachMoment, IsKept};
ghost use Rattle.cdm_serve.specs.Served.{IsServed, IsStopped};
ghost use Rattle.cdm_serve.specs.inner.Steps.{Hears, HearsInVain, IsLinesFault, IsPortFault, Serves, ServeStops};

use crate::answering::ServedDay;
use crate::fault::ServeError;
use crate::form::ReplyForm;
use crate::performing::perform;
use crate::starting::start;
use cdm_day::Airport;
use cdm_desk::DeskDay;
use cdm_files::Lent;
use cdm_journal::{LineRead, read_line};
use cdm_phase::{OpenGate, Workers};
use cdm_port::{Heard, Port};
use std::alloc::Global;
use std::thread::Threads;

// The next line of the input, as it is read.
fn hear<P: Port>(alloc: Global, port: &mut P) -> Result<Option<LineRead>, ServeError>
    ensures ok { IfOk result (Hears (P.events port.old) (P.events port.new)) }
    ensures err { OnErr result (HearsInVain (P.events port.old) (P.events port.new)) }
    ensures fault { IfErr result IsPortFault }
    ensures failed { P.fault port.new ≡ fault_told (P.fault port.old) result }
{
    match port.line(alloc)? {
        Heard::Line(bytes) => {
            let read = read_line(alloc, &bytes)?;
            Ok(Some(read))
        }
        Heard::Broken => Ok(Some(LineRead::Several)),
        Heard::End => Ok(None),
    }
}

// Serves the lines to the input's end.
fn serve_lines<R: Threads + Sync, P: Port>(
    lent: &Lent<'_, R, OpenGate>,
    form: ReplyForm,
    port: &mut P,
    mut day: ServedDay,
) -> Result<(), ServeError>
    ensures ok { OnOk result (Serves form day.desk day.number (P.events port.old) (P.events port.new)) }
    ensures err { OnErr result (ServeStops form day.desk day.number (P.events port.old) (P.events port.new)) }
    ensures fault { IfErr result (IsLinesFault day.number (P.events port.old) (P.events port.new)) }
    ensures failed { P.fault port.new ≡ fault_told (P.fault port.old) result }
{
    'lines: for _ in 0..u64::MAX {
        let Some(read) = hear(lent.alloc, port)? else {
            return Ok(());
        };
        let answer = day.answer(lent, form, &read)?;
        perform(port, &answer)?;
    }
    Err(ServeError::TooMany)
}

/// Serves the day of an airport over a port. The journal is read: where it was served before, a last line that a stop
/// has torn is left out, and told. The day is that of the airport and the journal's records. These are written in its
/// place as its own lines, the journal is marked as served, and the day is told to be ready. Then each line of the input
/// is answered in its turn: a record that is accepted is appended to the journal and synced before its reply is begun, and
/// each reply is flushed before the next line is read. The replies are of this form: texts for people or lines of JSON, and with
/// a sentence that says why where one refuses, or without. `Ok` comes at the input's end.
///
/// `Journal`: a record of the journal is refused, and the journal is as it was. `TooMany`: a line's number wouldn't fit into a `u32`.
/// `Port`: the port failed. `Common`: memory ran out.
pub fn serve<R: Threads + Sync, P: Port>(
    rt: &R,
    alloc: Global,
    airport: Airport,
    form: ReplyForm,
    port: &mut P,
) -> Result<(), ServeError>
    // What has happened stays.
    ensures log { P.events port.new ≡ P.events port.old ++ since (P.events port.old) (P.events port.new) }

    // The replies are those of the lines in their order, each accepted record on the disk first.
    ensures served { OnOk result ((bytes : List ℕ) × IsServed form airport (P.marked port.old) bytes End (since (P.events port.old) (P.events port.new))) }

    // Where it stopped, it had done the first part of that.
    ensures stopped { IsStopped form airport (P.marked port.old) (since (P.events port.old) (P.events port.new)) }

    // From what a stop at any moment leaves, a start goes on with all accepted records whose reply was begun, and at most
    // one more.
    ensures kept { AtEachMoment (since (P.events port.old) (P.events port.new)) (IsKept airport (P.marked port.old)) }

    // A fault is told where it happened, and a fault of the port exactly then.
    ensures fault { IfErr result (IsServeFault airport (P.marked port.old) (since (P.events port.old) (P.events port.new))) }
    ensures failed { P.fault port.new ≡ fault_told (P.fault port.old) result }
{
    let state = start(rt, alloc, airport, form.format, port)?;
    let desk = DeskDay::new(state);
    let lent = Lent {
        rt,
        alloc,
        workers: Workers::new(1).unwrap(),
        gate: &OpenGate,
    };
    serve_lines(&lent, form, port, ServedDay { desk, number: 0 })
}
