//! The answer to what a shift asks of a day.
ghost use Rattle.std.specs.Prelude.{◌≡◌, IfErr, IfOk};
ghost use Rattle.cdm_plan.specs.DayPlan.{IsDayPlan};
ghost use Rattle.cdm_shift.specs.Answers.{IsDayAnswer, IsNoSheet, IsNotAnswered, IsSheet, IsShiftSheet, IsShiftText, IsViewText};
ghost use Rattle.cdm_shift.specs.Warnings.{has_clock};
ghost use Rattle.cdm_view.specs.Questions.{IsUnanswered};

use crate::load_sheet::load_sheet;
use crate::objects::{causes_lines, next_lines, warning_lines};
use crate::question::{Asking, DayQuestion, SheetQuestion, ShiftQuestion};
use crate::sheet::{causes_sheet, next_sheet, warnings_sheet};
use crate::text::{causes_text, next_text, warnings_text};
use cdm_day::{Airport, Records};
use cdm_json::json_answer;
use cdm_kinds::Format;
use cdm_row::Rows;
use cdm_sequence::Plan;
use cdm_time::Day;
use cdm_view::{Question, ViewFault, answer};
use std::alloc::{AllocError, Global};

// The answer to a question of a view of the day.
fn view_answer<R: Records>(
    alloc: Global,
    format: Format,
    airport: &Airport,
    records: &R,
    plan: &Plan,
    question: Question,
) -> Result<Vec<u8>, ViewFault>
    requires airport { airport.now ≡ (R.day records.now).airport }
    requires plan { IsDayPlan (R.day records.now) plan.now }
    ensures answer { IfOk result (λ text. IsViewText format question (R.day records.now) plan.entry.now text.items) }
    ensures fault { IfErr result (IsUnanswered question (R.day records.now)) }
{
    match format {
        Format::Text => answer(alloc, airport, records, plan, question),
        Format::Json => json_answer(alloc, None, airport, records, plan, question),
    }
}

// The lines that answer what a shift asks.
fn shift_text<R: Records>(
    alloc: Global,
    day: Day,
    clocked: bool,
    records: &R,
    plan: &Plan,
    question: ShiftQuestion,
) -> Result<Vec<u8>, AllocError>
    requires day { day ≡ (R.day records.now).airport.day }
    requires clock { clocked ≡ has_clock (R.day records.now).journal }
    requires plan { IsDayPlan (R.day records.now) plan.now }
    ensures { IfOk result (λ text. IsShiftText Format.Text question (R.day records.now) plan.entry.now text.items) }
{
    let rows = Rows::of(alloc, records, plan)?;
    let rows = rows.as_slice();
    match question {
        ShiftQuestion::Next(ahead) => next_text(alloc, day, records, plan, rows, ahead),
        ShiftQuestion::Warnings => warnings_text(alloc, day, clocked, records, plan, rows),
        ShiftQuestion::Causes(by) => causes_text(alloc, records, plan, by, rows),
    }
}

// The lines of JSON that answer what a shift asks.
fn shift_lines<R: Records>(
    alloc: Global,
    day: Day,
    clocked: bool,
    records: &R,
    plan: &Plan,
    question: ShiftQuestion,
) -> Result<Vec<u8>, AllocError>
    requires day { day ≡ (R.day records.now).airport.day }
    requires clock { clocked ≡ has_clock (R.day records.now).journal }
    requires plan { IsDayPlan (R.day records.now) plan.now }
    ensures { IfOk result (λ text. IsShiftText Format.Json question (R.day records.now) plan.entry.now text.items) }
{
    let rows = Rows::of(alloc, records, plan)?;
    let rows = rows.as_slice();
    match question {
        ShiftQuestion::Next(ahead) => next_lines(alloc, day, records, plan, rows, ahead),
        ShiftQuestion::Warnings => warning_lines(alloc, day, clocked, records, plan, rows),
        ShiftQuestion::Causes(by) => causes_lines(alloc, day, records, plan, by, rows),
    }
}

// The rows that answer what a shift asks.
fn shift_sheet<R: Records>(
    alloc: Global,
    day: Day,
    clocked: bool,
    records: &R,
    plan: &Plan,
    question: ShiftQuestion,
) -> Result<Vec<u8>, AllocError>
    requires day { day ≡ (R.day records.now).airport.day }
    requires clock { clocked ≡ has_clock (R.day records.now).journal }
    requires plan { IsDayPlan (R.day records.now) plan.now }
    ensures { IfOk result (λ text. IsShiftSheet question (R.day records.now) plan.entry.now text.items) }
{
    let rows = Rows::of(alloc, records, plan)?;
    let rows = rows.as_slice();
    match question {
        ShiftQuestion::Next(ahead) => next_sheet(alloc, day, records, plan, rows, ahead),
        ShiftQuestion::Warnings => warnings_sheet(alloc, day, clocked, records, plan, rows),
        ShiftQuestion::Causes(by) => causes_sheet(alloc, day, records, plan, by, rows),
    }
}

// The rows that answer a question.
fn sheet_answer<R: Records>(
    alloc: Global,
    airport: &Airport,
    clocked: bool,
    records: &R,
    plan: &Plan,
    question: SheetQuestion,
) -> Result<Vec<u8>, ViewFault>
    requires airport { airport.now ≡ (R.day records.now).airport }
    requires clock { clocked ≡ has_clock (R.day records.now).journal }
    requires plan { IsDayPlan (R.day records.now) plan.now }
    ensures answer { IfOk result (λ text. IsSheet question (R.day records.now) plan.entry.now text.items) }
    ensures fault { IfErr result (IsNoSheet question (R.day records.now)) }
{
    match question {
        SheetQuestion::Load(runway) => load_sheet(alloc, airport, records, plan, runway),
        SheetQuestion::Shift(question) => {
            Ok(shift_sheet(alloc, *airport.day(), clocked, records, plan, question)?)
        }
    }
}

/// The text that answers a question of a day, from what is known of it and its plan: lines, JSON or CSV.
///
/// `clocked` says whether a CLOCK was accepted. `NoFlight` and `NoRunway` where what is asked for isn't known, and else only
/// `Memory`.
pub fn day_answer<R: Records>(
    alloc: Global,
    asking: Asking,
    airport: &Airport,
    clocked: bool,
    records: &R,
    plan: &Plan,
) -> Result<Vec<u8>, ViewFault>
    requires airport { airport.now ≡ (R.day records.now).airport }
    requires clock { clocked ≡ has_clock (R.day records.now).journal }
    requires plan { IsDayPlan (R.day records.now) plan.now }
    ensures answer { IfOk result (λ text. IsDayAnswer asking.format asking.question (R.day records.now) plan.entry.now text.items) }
    ensures fault { IfErr result (IsNotAnswered asking.question (R.day records.now)) }
{
    let Asking { question, format } = asking;
    match (question, format) {
        (DayQuestion::View(question), _) => {
            view_answer(alloc, format, airport, records, plan, question)
        }
        (DayQuestion::Sheet(question), _) => {
            sheet_answer(alloc, airport, clocked, records, plan, question)
        }
        (DayQuestion::Shift(question), Format::Text) => {
            let text = shift_text(alloc, *airport.day(), clocked, records, plan, question)?;
            Ok(text)
        }
        (DayQuestion::Shift(question), Format::Json) => {
            let text = shift_lines(alloc, *airport.day(), clocked, records, plan, question)?;
            Ok(text)
        }
    }
}
