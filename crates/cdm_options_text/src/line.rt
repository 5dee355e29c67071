//! A record that is tried, as a feed has it.
ghost use Rattle.std.specs.Prelude.{◌≡◌, ◌++◌, IfOk};
ghost use Rattle.std.specs.String.{string_bytes};
ghost use Rattle.cdm_report.specs.Report.{line_end};
ghost use Rattle.cdm_carry.specs.Texts.{record_text};
ghost use Rattle.cdm_options.specs.Tried.{EndsInTime};
ghost use Rattle.cdm_options_text.specs.Lines.{sent};

use cdm_carry::feed_text;
use cdm_flight::{Role, Update};
use cdm_options::sender_of;
use cdm_time::Day;
use std::alloc::{AllocError, Global};

// The line of a record.
#[tactic(auto, using(crate::proofs::RecordLemmas::one_ends, crate::proofs::RecordLemmas::one_record))]
fn record_line(alloc: Global, day: Day, made: (Role, Update)) -> Result<String, AllocError>
    requires { EndsInTime made.1 }
    ensures { IfOk result (λ text. string_bytes text ≡ record_text day made ++ line_end) }
{
    feed_text(alloc, day, &[made])
}

/// The record from the role that may send it, without the end of its line.
#[tactic(auto, using(crate::proofs::RecordLemmas::end_byte, crate::proofs::RecordLemmas::without_end))]
pub(crate) fn sent(alloc: Global, day: Day, update: &Update) -> Result<String, AllocError>
    requires { EndsInTime update.now }
    ensures { IfOk result (λ text. string_bytes text ≡ sent day update.now) }
{
    let mut text = record_line(alloc, day, (sender_of(update), *update))?;
    let end = text.len().saturating_sub(1);
    text.truncate(end);
    Ok(text)
}
