//! The steps that an answer asks for, in their order.
ghost use Rattle.std.specs.Prelude.{◌≡◌, [], ◌∷◌, ◌++◌, OnErr, OnOk};
ghost use Rattle.cdm_port.specs.Event.Event.{Flushed, Replied};
ghost use Rattle.cdm_port.specs.Fault.{fault_after};
ghost use Rattle.cdm_port.specs.Stop.{Stops};
ghost use Rattle.cdm_serve.specs.inner.Steps.{events_of};

use crate::answering::Answer;
use cdm_port::{Port, PortFault};

/// Writes a reply, and flushes it.
pub(crate) fn tell<P: Port>(port: &mut P, text: &[u8]) -> Result<(), PortFault>
    ensures ok { OnOk result (P.events port.new ≡ P.events port.old ++ Replied text.now ∷ Flushed ∷ []) }
    ensures err { OnErr result (Stops (P.events port.old) (Replied text.now ∷ Flushed ∷ []) (P.events port.new)) }
    ensures fault { P.fault port.new ≡ fault_after (P.fault port.old) result }
{
    port.reply(text)?;
    port.flush()
}

/// Does what an answer wants: an accepted record is on the disk before its reply is begun.
pub(crate) fn perform<P: Port>(port: &mut P, answer: &Answer) -> Result<(), PortFault>
    ensures ok { OnOk result (P.events port.new ≡ P.events port.old ++ events_of answer.now) }
    ensures err { OnErr result (Stops (P.events port.old) (events_of answer.now) (P.events port.new)) }
    ensures fault { P.fault port.new ≡ fault_after (P.fault port.old) result }
{
    match answer {
        Answer::Nothing => Ok(()),
        Answer::Reply(text) => tell(port, text),
        Answer::Record(line, text) => {
            port.append(line)?;
            port.sync()?;
            tell(port, text)
        }
    }
}
