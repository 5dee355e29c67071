//! Notices as lines for people.
ghost use Rattle.std.specs.Prelude.{◌≡◌, ◌<◌, ◌++◌, ◌∷◌, [], All, IfOk, OnOk, Some, codes, flat_map};
ghost use Rattle.std.specs.Fmt.{decimal};
ghost use Rattle.std.specs.List.{concat};
ghost use Rattle.std.specs.String.{string_bytes};
ghost use Rattle.cdm_flight.specs.Words.{text_of};
ghost use Rattle.cdm_report.specs.Report.{line_end};
ghost use Rattle.cdm_carry.specs.NoticeTexts.{at, notice_end, notice_line};
ghost use Rattle.cdm_carry.specs.Texts.{record_text, window_end};

use crate::notice::Notice;
use crate::writing::push_record;
use cdm_flight::{FlightName, RefusalWord, Role, RunwayName, Update};
use cdm_report::TimeColumn;
use cdm_time::{Day, Minute};
use std::alloc::{AllocError, Global};
use std::fmt::Write;

// The column of a minute.
fn column(day: Day, minute: Minute) -> TimeColumn
    ensures day { result.day ≡ day }
    ensures minute { result.minute ≡ Some minute }
{
    let minute = Some(minute);
    TimeColumn { day, minute }
}

// The line of a flight that is left.
fn push_left(
    text: &mut String,
    day: Day,
    flight: FlightName,
    runway: RunwayName,
    aobt: Minute,
    ttot: Minute,
) -> Result<(), AllocError>
    ensures { OnOk result (string_bytes text.new ≡ string_bytes text.old ++ concat (
        codes "LEFT    " ∷ flight ∷ codes " " ∷ runway ∷ at day (codes "AOBT") aobt ∷ at day (codes "TTOT") ttot ∷ line_end ∷ [])) }
{
    let (flight, runway) = (flight.text(), runway.text());
    let aobt = column(day, aobt);
    let ttot = column(day, ttot);
    writeln!(text, "LEFT    {flight} {runway} AOBT {aobt} TTOT {ttot}")
}

// The line of a flight whose time of this title was early.
fn push_earlier(
    text: &mut String,
    day: Day,
    flight: FlightName,
    title: &str,
    minute: Minute,
) -> Result<(), AllocError>
    ensures { OnOk result (string_bytes text.new ≡ string_bytes text.old ++ concat (
        codes "EARLIER " ∷ flight ∷ at day title.now minute ∷ line_end ∷ [])) }
{
    let flight = flight.text();
    let minute = column(day, minute);
    writeln!(text, "EARLIER {flight} {title} {minute}")
}

// The line of a record that the next airport refuses.
fn push_refused(
    text: &mut String,
    next: Day,
    number: usize,
    word: RefusalWord,
    role: Role,
    update: &Update,
) -> Result<(), AllocError>
    requires { window_end update.now < 2880 }
    ensures { OnOk result (string_bytes text.new ≡ string_bytes text.old ++ concat (
        codes "REFUSED " ∷ decimal number ∷ codes " " ∷ text_of word ∷ codes " " ∷ record_text next (role, update.now) ∷ line_end ∷ [])) }
{
    write!(text, "REFUSED {number} {word} ")?;
    push_record(text, next, role, update)?;
    text.push_str("\n")
}

// The line of a notice.
#[tactic(auto, unfolding(crate::specs::NoticeTexts::notice_line))]
fn push_notice(text: &mut String, day: Day, next: Day, notice: &Notice) -> Result<(), AllocError>
    requires { notice_end notice.now < 2880 }
    ensures { OnOk result (string_bytes text.new ≡ string_bytes text.old ++ notice_line day next notice.now) }
{
    match *notice {
        Notice::Left(flight, runway, aobt, ttot) => push_left(
            text, day, flight, runway, aobt, ttot,
        ),
        Notice::EarlierTobt(flight, tobt) => push_earlier(text, day, flight, "TOBT", tobt),
        Notice::EarlierCtot(flight, ctot) => push_earlier(text, day, flight, "CTOT", ctot),
        Notice::Refused(number, word, role, update) => {
            push_refused(text, next, number, word, role, &update)
        }
        Notice::Gone(count) => writeln!(text, "GONE    {count}"),
        Notice::Stay(count) => writeln!(text, "STAY    {count}"),
    }
}

/// The lines of notices. Their times are those of the day that ends, and a record that is refused is one of the next day.
pub(crate) fn notice_lines(
    alloc: Global,
    day: Day,
    next: Day,
    notices: &[Notice],
) -> Result<Vec<u8>, AllocError>
    requires { All (λ n. notice_end n < 2880) notices.now }
    ensures { IfOk result (λ text. text.items ≡ flat_map (notice_line day next) notices.now) }
{
    let mut text = String::new(alloc);
    for notice in notices {
        push_notice(&mut text, day, next, notice)?;
    }
    Ok(text.into_bytes())
}
