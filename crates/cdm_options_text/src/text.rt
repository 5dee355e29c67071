//! What could help a flight, line by line.
ghost use Rattle.std.specs.Prelude.{◌≡◌, ◌++◌, All, IfOk, OnOk, Some, flat_map};
ghost use Rattle.std.specs.String.{string_bytes};
ghost use Rattle.cdm_report.specs.Columns.{time_column};
ghost use Rattle.cdm_report.specs.Report.{day_line};
ghost use Rattle.cdm_options.specs.Tried.{EndsInTime};
ghost use Rattle.cdm_options_text.specs.Lines.{first_columns, flight_line, heading, help_line, options_lines, stand_told, total_line, width_of};

use crate::columns::{gain, push_column, push_counts, push_left};
use crate::line::sent;
use cdm_options::{Helping, Options};
use cdm_report::{Counts, TimeColumn, push_day};
use cdm_sequence::Rule;
use cdm_time::{Day, Minute};
use std::alloc::{AllocError, Global};
use std::fmt::Write;

// The column of a minute.
fn column(day: Day, minute: Option<Minute>) -> TimeColumn
    ensures day { result.day ≡ day }
    ensures minute { result.minute ≡ minute }
{
    TimeColumn { day, minute }
}

// The flight's take-off, or the rule that blocks it.
#[tactic(auto, unfolding(crate::specs::Lines::stand_told))]
fn push_stand(
    text: &mut String,
    day: Day,
    before: Option<Minute>,
    rule: Option<Rule>,
) -> Result<(), AllocError>
    ensures { OnOk result (string_bytes text.new ≡ string_bytes text.old ++ stand_told day before rule) }
{
    match before {
        Some(ttot) => {
            let ttot = column(day, Some(ttot));
            write!(text, "TTOT {ttot}")
        }
        None => match rule {
            Some(rule) => write!(text, "BLOCKED {rule}"),
            None => text.push_str("BLOCKED"),
        },
    }
}

// The flight, where it stands, and its CTOT.
#[tactic(auto, unfolding(crate::specs::Lines::flight_line))]
fn push_flight(text: &mut String, day: Day, options: &Options) -> Result<(), AllocError>
    ensures { OnOk result (string_bytes text.new ≡ string_bytes text.old ++ flight_line day options.now) }
{
    let name = options.flight.name.text();
    let ctot = column(day, options.flight.ctot);
    write!(text, "FLIGHT {name} ")?;
    push_stand(text, day, options.before, options.rule)?;
    writeln!(text, " CTOT {ctot}")
}

// The day, the minute that it is now, and the flight.
fn first_lines(alloc: Global, day: Day, options: &Options) -> Result<Vec<u8>, AllocError>
    ensures { IfOk result (λ text. text.items ≡ day_line day options.now.clock ++ flight_line day options.now) }
{
    let mut text = String::new(alloc);
    push_day(&mut text, day, options.clock)?;
    push_flight(&mut text, day, options)?;
    Ok(text.into_bytes())
}

// How wide the records' column is.
fn width_of(alloc: Global, day: Day, helping: &[Helping]) -> Result<usize, AllocError>
    requires { All (λ h. EndsInTime h.update) helping.now }
    ensures { IfOk result (λ width. width ≡ width_of day helping.now) }
{
    let mut width = 6;
    for help in helping {
        width = width.max(sent(alloc, day, &help.update)?.len());
    }
    Ok(width)
}

// The columns' names.
#[tactic(auto, unfolding(crate::specs::Lines::heading))]
fn push_heading(text: &mut Vec<u8>, width: usize) -> Result<(), AllocError>
    ensures { OnOk result (text.new.items ≡ text.old.items ++ heading width) }
{
    push_left(text, width, b"OPTION")?;
    text.extend_from_slice(b"   TTOT  GAIN  DELAY   MAX  LATE BLOCKED  MOVED")?;
    text.push(b'\n')?;
    Ok(())
}

// The column of a take-off.
fn time_text(alloc: Global, day: Day, minute: Minute) -> Result<Vec<u8>, AllocError>
    ensures { IfOk result (λ text. text.items ≡ time_column day (Some minute)) }
{
    let mut text = String::new(alloc);
    let minute = column(day, Some(minute));
    write!(text, "{minute}")?;
    Ok(text.into_bytes())
}

// A record that helps, the flight's take-off with it, and by how many minutes it is sooner.
#[tactic(auto, unfolding(crate::specs::Lines::first_columns))]
fn push_first(
    text: &mut Vec<u8>,
    day: Day,
    width: usize,
    before: &Option<Minute>,
    help: &Helping,
) -> Result<(), AllocError>
    requires { EndsInTime help.now.update }
    ensures { OnOk result (text.new.items ≡ text.old.items ++ first_columns day width before.now help.now) }
{
    let alloc = *text.allocator();
    let line = sent(alloc, day, &help.update)?;
    let ttot = time_text(alloc, day, help.ttot)?;
    let gain = gain(alloc, before, help.ttot)?;
    push_left(text, width, line.as_bytes())?;
    text.push(b' ')?;
    text.extend_from_slice(&ttot)?;
    push_column(text, 5, &gain)
}

// A record that helps, and what it would do.
#[tactic(auto, unfolding(crate::specs::Lines::help_line))]
fn push_help(
    text: &mut Vec<u8>,
    day: Day,
    width: usize,
    before: &Option<Minute>,
    base: &Counts,
    help: &Helping,
) -> Result<(), AllocError>
    requires { EndsInTime help.now.update }
    ensures { OnOk result (text.new.items ≡ text.old.items ++ help_line day width before.now base.now help.now) }
{
    push_first(text, day, width, before, help)?;
    push_counts(text, base, &help.counts, help.moved)?;
    text.push(b'\n')?;
    Ok(())
}

// Each record that helps.
fn push_helping(
    text: &mut Vec<u8>,
    day: Day,
    width: usize,
    options: &Options,
) -> Result<(), AllocError>
    requires { All (λ h. EndsInTime h.update) options.now.helping }
    ensures { OnOk result (text.new.items ≡ text.old.items ++ flat_map (help_line day width options.now.before options.now.counts) options.now.helping) }
{
    let helping = options.helping.as_slice();
    for help in helping {
        push_help(text, day, width, &options.before, &options.counts, help)?;
    }
    Ok(())
}

// How many were tried, help and were refused.
#[tactic(auto, unfolding(crate::specs::Lines::total_line))]
fn total_text(alloc: Global, options: &Options) -> Result<Vec<u8>, AllocError>
    ensures { IfOk result (λ text. text.items ≡ total_line options.now) }
{
    let mut text = String::new(alloc);
    let (tried, refused) = (options.tried, options.refused);
    let help = options.helping.len();
    writeln!(text, "TRIED {tried} HELP {help} REFUSED {refused}")?;
    Ok(text.into_bytes())
}

/// What could help a flight, as lines.
#[tactic(auto, unfolding(crate::specs::Lines::options_lines))]
pub(crate) fn options_lines(
    alloc: Global,
    day: Day,
    options: &Options,
) -> Result<Vec<u8>, AllocError>
    requires { All (λ h. EndsInTime h.update) options.now.helping }
    ensures { IfOk result (λ text. text.items ≡ options_lines day options.now) }
{
    let width = width_of(alloc, day, options.helping.as_slice())?;
    let mut text = first_lines(alloc, day, options)?;
    push_heading(&mut text, width)?;
    push_helping(&mut text, day, width, options)?;
    text.extend_from_slice(&total_text(alloc, options)?)?;
    Ok(text)
}
