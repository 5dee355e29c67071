//! What could help a flight, in a format.
ghost use Rattle.std.specs.Prelude.{◌≡◌, ℕ, List, All, IfErr, IfOk};
ghost use Rattle.cdm_flight.specs.Journal.{flight_of};
ghost use Rattle.cdm_options.specs.Options.{IsOptionsFault};
ghost use Rattle.cdm_options.specs.Tried.{EndsInTime};
ghost use Rattle.cdm_options_text.specs.Texts.{IsOptionsReply, IsOptionsText, options_in};

use crate::objects::options_objects;
use crate::reply::options_reply;
use crate::text::options_lines;
use cdm_day::{DayState, Records};
use cdm_flight::{FlightName, Role};
use cdm_kinds::Format;
use cdm_options::{Options, OptionsFault, options_of};
use cdm_phase::Gate;
use cdm_plan::Runner;
use cdm_time::Day;
use std::alloc::{AllocError, Global};
use std::thread::Threads;

// Options in a format.
fn options_in(
    alloc: Global,
    format: Format,
    day: Day,
    options: &Options,
) -> Result<Vec<u8>, AllocError>
    requires { All (λ h. EndsInTime h.update) options.now.helping }
    ensures { IfOk result (λ text. text.items ≡ options_in format day options.now) }
{
    match format {
        Format::Text => options_lines(alloc, day, options),
        Format::Json => options_objects(alloc, day, options),
    }
}

/// What could help a flight (local profile), as a text for people or as lines of JSON: the day and the minute that it is now, the
/// flight and where it stands, a line for each record that helps, the best first, and how many records were tried, help and were refused.
///
/// The faults are those of [`options_of`].
#[tactic(auto, using(crate::proofs::TextLemmas::one_text))]
pub fn options_text<R: Threads + Sync, G: Gate>(
    alloc: Global,
    format: Format,
    base: &DayState,
    name: FlightName,
    role: Option<Role>,
    runner: &Runner<'_, R, G>,
) -> Result<Vec<u8>, OptionsFault>
    ensures text { let d = base.now in
        IfOk result (λ text. IsOptionsText format d (flight_of d.airport d.journal name) role text.items) }
    ensures only { let d = base.now in IfOk result (λ text. (other : List ℕ) →
        IsOptionsText format d (flight_of d.airport d.journal name) role other → other ≡ text.items) }
    ensures fault { let d = base.now in IfErr result (IsOptionsFault (flight_of d.airport d.journal name) name) }
{
    // What the base's records tell is sound, which makes the text the only one.
    let _values = base.values();
    let options = options_of(alloc, base, name, role, runner)?;
    let text = options_in(alloc, format, *base.day(), &options)?;
    Ok(text)
}

/// What could help a flight (local profile), as one line of JSON: the reply to the question of this number. It has the members of the
/// first line of [`options_text`], and in a list the objects of the others.
///
/// The faults are those of [`options_of`].
#[tactic(auto, using(crate::proofs::TextLemmas::one_reply))]
pub fn options_line<R: Threads + Sync, G: Gate>(
    alloc: Global,
    number: u32,
    base: &DayState,
    name: FlightName,
    role: Option<Role>,
    runner: &Runner<'_, R, G>,
) -> Result<Vec<u8>, OptionsFault>
    ensures line { let d = base.now in
        IfOk result (λ text. IsOptionsReply number d (flight_of d.airport d.journal name) role text.items) }
    ensures only { let d = base.now in IfOk result (λ text. (other : List ℕ) →
        IsOptionsReply number d (flight_of d.airport d.journal name) role other → other ≡ text.items) }
    ensures fault { let d = base.now in IfErr result (IsOptionsFault (flight_of d.airport d.journal name) name) }
{
    // What the base's records tell is sound, which makes the line the only one.
    let _values = base.values();
    let options = options_of(alloc, base, name, role, runner)?;
    let text = options_reply(alloc, number, *base.day(), &options)?;
    Ok(text)
}
