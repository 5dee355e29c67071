//! How a served day ends.
ghost use Rattle.std.specs.Prelude.{◌≡◌, ◌++◌, ℕ, List, IfErr, IfOk, OnOk};
ghost use Rattle.cdm_port.specs.Event.Event.{End};
ghost use Rattle.cdm_port.specs.Stop.{since};
ghost use Rattle.cdm_serve.specs.Promises.{AtEachMoment, IsKept};
ghost use Rattle.cdm_serve.specs.Served.{IsServed, IsStopped};
ghost use Rattle.cdm_ask.specs.Stops.{IsServeStop};

use cdm_day::Airport;
use cdm_fault::Fault;
use cdm_port::Port;
use cdm_serve::{ReplyForm, serve};
use std::alloc::Global;
use std::thread::Threads;

/// Serves the day of an airport over a port to the end of its input, and answers the exit status, 0. A fault is one of serving.
pub fn served<R: Threads + Sync, P: Port>(
    rt: &R,
    alloc: Global,
    airport: Airport,
    form: ReplyForm,
    port: &mut P,
) -> Result<u8, Fault>
    // What a served day promises holds of this call: what has happened stays, the replies are those of the lines, where it stopped it had done
    // the first part of that, and a start goes on from there.
    ensures log { P.events port.new ≡ P.events port.old ++ since (P.events port.old) (P.events port.new) }
    ensures served { OnOk result ((bytes : List ℕ) × IsServed form airport (P.marked port.old) bytes End (since (P.events port.old) (P.events port.new))) }
    ensures stopped { IsStopped form airport (P.marked port.old) (since (P.events port.old) (P.events port.new)) }
    ensures kept { AtEachMoment (since (P.events port.old) (P.events port.new)) (IsKept airport (P.marked port.old)) }
    ensures status { IfOk result (λ status. status ≡ 0) }
    ensures fault { IfErr result (IsServeStop airport (P.marked port.old) (since (P.events port.old) (P.events port.new))) }
{
    match serve(rt, alloc, airport, form, port) {
        Ok(()) => Ok(0),
        Err(error) => Err(Fault::Serve(error)),
    }
}
