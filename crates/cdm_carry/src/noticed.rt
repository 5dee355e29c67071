//! All notices of a feed, and their texts.
ghost use Rattle.std.specs.Prelude.{◌≡◌, ◌<◌, All, IfOk, List};
ghost use Rattle.std.specs.List.{list_any};
ghost use Rattle.cdm_carry.specs.NoticeTexts.{notice_end, notices_text};
ghost use Rattle.cdm_carry.specs.Noticed.{AreNotices};
ghost use Rattle.cdm_carry.specs.Notices.{needs_care};

use crate::notice::Notice;
use crate::notice_object::notice_objects;
use crate::notice_text::notice_lines;
use crate::noticing::{
    carried_numbered, flight_notices, flights_by_name, push_counts, push_refused,
};
use crate::taking::{day_of, take_feed};
use cdm_day::Airport;
use cdm_flight::{RefusalWord, Role, Update};
use cdm_kinds::Format;
use cdm_scenario::Overlay;
use cdm_time::Day;
use std::alloc::{AllocError, Global};

/// What a person must know before the next day begins: of the flights of the day that the records of a feed make at an airport, by
/// name in each kind, and of the records that the next airport refuses, by number. Only want of memory makes it fail.
pub fn notices_of(
    alloc: Global,
    airport: Airport,
    records: &[Result<(Role, Update), RefusalWord>],
    next: Airport,
) -> Result<Vec<Notice>, AllocError>
    ensures value { IfOk result (λ notices. AreNotices airport records.now next notices.items) }
    ensures short { IfOk result (λ notices. All (λ n. notice_end n < 2880) notices.items) }
{
    let first = day_of(alloc, airport)?;
    let mut day = Overlay::over(alloc, &first);
    let records = take_feed(alloc, &mut day, records)?;
    let flights = flights_by_name(alloc, &day)?;
    let carried = carried_numbered(alloc, &day, &records)?;
    let mut notices = flight_notices(alloc, &flights)?;
    let next = day_of(alloc, next)?;
    let mut next = Overlay::over(alloc, &next);
    push_refused(&mut notices, alloc, &mut next, &carried)?;
    push_counts(&mut notices, &flights)?;
    Ok(notices)
}

/// Whether a person has to see to one of these notices.
pub(crate) fn need_care(notices: &[Notice]) -> bool
    ensures { result ≡ list_any needs_care notices.now }
{
    notices.iter().any(Notice::needs_care)
}

/// The text of notices before the next day, in this format. A record that is refused has a window that ends before the horizon
/// does, if it has one. Only want of memory makes it fail.
pub fn notices_text(
    alloc: Global,
    format: Format,
    day: Day,
    next: Day,
    notices: &[Notice],
) -> Result<Vec<u8>, AllocError>
    requires { All (λ n. notice_end n < 2880) notices.now }
    ensures { IfOk result (λ text. text.items ≡ notices_text format day next notices.now) }
{
    match format {
        Format::Text => notice_lines(alloc, day, next, notices),
        Format::Json => notice_objects(alloc, day, next, notices),
    }
}
