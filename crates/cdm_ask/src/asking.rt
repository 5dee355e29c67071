//! What is asked of the files of a day is made of what they give.
ghost use Rattle.std.specs.Prelude.{◌≡◌, false, IfErr, IfOk, OnErr};
ghost use Rattle.cdm_files.specs.Device.{Passes};
ghost use Rattle.cdm_files.specs.RunFaults.{is_write_fault};
ghost use Rattle.cdm_fault.specs.Statuses.{status_of_run};
ghost use Rattle.cdm_ask.specs.Opening.{AreOpened, IsMadeOf};
ghost use Rattle.cdm_ask.specs.Stops.{IsStoppedBy, IsUnopenedOf};

use crate::job::Question;
use crate::named::Named;
use crate::opening::{Opened, OpenedOrEmpty, open, open_named};
use cdm_fault::{Fault, run_status};
use cdm_feed::{Counted, Device, Input, Lent, RunError, run_asked};
use cdm_phase::OpenGate;
use std::fs::Files;
use std::io;
use std::io::Write;
use std::thread::Threads;

/// How a run ended that has written its text.
#[derive(Clone, Copy, PartialEq, Eq, Debug)]
pub struct Ended {
    /// What is counted.
    pub counted: Counted,
    /// The exit status.
    pub status: u8,
}

/// The files that were opened for a question, and how the run ended that made a text of them.
#[derive(Drop)]
pub struct Answer<'a, A, F, T> {
    /// The airport file.
    pub airport: Named<'a, A>,
    /// The feed.
    pub feed: Named<'a, F>,
    /// The file that is read after them.
    pub third: Named<'a, T>,
    /// How the run ended, or what stopped it.
    pub ended: Result<Ended, RunError>,
}

/// Opens the files of a question, and writes the text that is asked of them. A fault is one of opening a file, or want of memory for it:
/// then nothing is written. What stops the run after that is in the answer.
pub fn answer_of<'a, R: AllocGlobal + Files + io::Input + Threads + Sync, W: Write>(
    rt: &R,
    question: &Question<'a>,
    out: &mut Device<W>,
) -> Result<Answer<'a, Opened<R>, Opened<R>, OpenedOrEmpty<R>>, Fault>
    requires { out.old.failed ≡ false }

    // The files of the question were opened as the inputs that they are.
    ensures opened { IfOk result (λ answer. AreOpened question.now.files question.now.asked answer.airport answer.feed answer.third) }

    // What was written is the one text of what these files gave.
    ensures made { IfOk result (λ answer. IfOk answer.ended (λ ended.
        IsMadeOf question.now.asked answer.airport answer.feed answer.third ended.counted (Passes out.old out.new))) }
    ensures status { IfOk result (λ answer. IfOk answer.ended (λ ended.
        ended.status ≡ status_of_run question.now.is_strict ended.counted)) }

    // What stopped it is a fault of a file, or what the bytes that the files gave say, or want of memory.
    ensures stopped { IfOk result (λ answer. IfErr answer.ended (IsStoppedBy question.now.asked answer.airport answer.feed answer.third)) }
    ensures fault { IfErr result (IsUnopenedOf question.now.asked) }
    ensures unopened { OnErr result (out.new ≡ out.old) }
    ensures unmade { IfOk result (λ answer. OnErr answer.ended (is_write_fault answer.ended ≡ false → out.new ≡ out.old)) }
{
    let Question {
        files,
        asked,
        workers,
        is_strict,
    } = question;
    let mut airport = open(rt, files.airport, Input::Airport)?;
    let mut feed = open(rt, files.feed, Input::Feed)?;
    let mut third = open_named(rt, files.third, asked.third_input())?;
    let lent = Lent {
        rt,
        alloc: rt.alloc(),
        workers: *workers,
        gate: &OpenGate,
    };
    let ended = run_asked(
        &lent,
        asked,
        &mut airport.device,
        &mut feed.device,
        &mut third.device,
        out,
    )
    .map(|counted| Ended {
        counted,
        status: run_status(&counted, *is_strict),
    });
    Ok(Answer {
        airport,
        feed,
        third,
        ended,
    })
}
