//! Runs whose text is lines of JSON.
use super::runs::{AIRPORT, FEED, is_made_of};
use crate::tests::devices::{Page, Source};
use cdm_check::FilePaths;
use cdm_feed::{
    Asked, CommonFault, Counted, DayQuestion, DayText, Device, Lent, RunError, run_asked,
};
use cdm_flight::FlightName;
use cdm_kinds::Format;
use cdm_phase::{OpenGate, Workers};
use cdm_table::Table;
use cdm_view::Question;
use std::process::Abort;
use std::thread::Threads;

const SCENARIO: &str = "SCENARIO,BAD\nPRIO,AB3,1\n";

/// The Rows of the one flight after each of its records.
const NEW: &str = "\
{\"flight\":\"AB1\",\"status\":\"BLOCKED\",\"runway\":null,\"stand\":null,\"priority\":5,\"group\":\"M\",\"tobt\":null,\
\"exot\":null,\"ctot\":null,\"tsat\":null,\"ttot\":null,\"delay\":null,\"rule\":\"TOBT\"}";

const ON_A_RUNWAY: &str = "\
{\"flight\":\"AB1\",\"status\":\"BLOCKED\",\"runway\":\"27L\",\"stand\":null,\"priority\":5,\"group\":\"M\",\"tobt\":null,\
\"exot\":15,\"ctot\":null,\"tsat\":null,\"ttot\":null,\"delay\":null,\"rule\":\"TOBT\"}";

const ROW: &str = "\
{\"flight\":\"AB1\",\"status\":\"PLANNED\",\"runway\":\"27L\",\"stand\":null,\"priority\":5,\"group\":\"M\",\
\"tobt\":\"2025-03-10T06:00Z\",\"exot\":15,\"ctot\":null,\"tsat\":\"2025-03-10T06:00Z\",\"ttot\":\"2025-03-10T06:15Z\",\
\"delay\":0,\"rule\":null}";

const PLAN: &str = "\
{\"scenario\":null,\"day\":\"2025-03-10\",\"now\":\"2025-03-10T00:00Z\",\"placed\":1,\"delay\":0,\"max\":0,\"late\":0,\
\"blocked\":0,\"rules\":{},\"flights\":[";

const LINE: &str = "\
{\"scenario\":null,\"placed\":1,\"delay\":0,\"max\":0,\"late\":0,\"blocked\":0,\"moved\":0}\n";

const REFUSED: &str = "{\"scenario\":\"BAD\",\"update\":1,\"word\":\"UNKNOWN\"}\n";

const WHY: &str =
    ",\"ice\":{\"kind\":\"NONE\",\"minutes\":0},\"now\":\"2025-03-10T00:00Z\",\"waits\":[]}\n";

const LOAD: &str = "\
{\"runway\":\"27L\",\"cell\":10,\"now\":\"2025-03-10T00:00Z\",\"cells\":[{\"from\":\"2025-03-10T06:10Z\",\"placed\":1,\
\"cap\":2,\"closed\":0,\"flights\":[\"AB1\"]}]}\n";

const FIRST: &str = "{\"record\":1,\"fields\":[\"AP\",\"FLT\",\"AB1\",\"5\"],\"row\":";

const SECOND: &str = "{\"record\":2,\"fields\":[\"ATC\",\"RWY\",\"AB1\",\"27L\"],\"row\":";

const THIRD: &str =
    "{\"record\":3,\"fields\":[\"AO\",\"TOBT\",\"AB1\",\"2025-03-10T06:00Z\"],\"row\":";

/// What a check says of the scenario.
const HINT: &str = "\
{\"path\":\"s.csv\",\"hint\":\"line 2: update 1 of BAD is refused: UNKNOWN: AB3 has no FLT that was accepted before this \
record\"}\n";

// What a run that is asked for this of one flight and a scenario answers, and what it has written.
fn ask<R: AllocGlobal + Threads + Sync + Abort>(
    rt: &R,
    asked: &Asked<'_>,
) -> (Result<Counted, RunError>, Page) {
    let feed = FEED.get(..59).unwrap_or(FEED);
    let lent = Lent {
        rt,
        alloc: rt.alloc(),
        workers: Workers::new(1).expect(rt, "workers"),
        gate: &OpenGate,
    };
    let mut out = Device::new(Page::new());
    let answer = run_asked(
        &lent,
        asked,
        &mut Device::new(Source::whole(AIRPORT.as_bytes())),
        &mut Device::new(Source::whole(feed.as_bytes())),
        &mut Device::new(Source::whole(SCENARIO.as_bytes())),
        &mut out,
    );
    (answer, out.into_inner())
}

// Whether the run, made once more where it was refused memory and had written nothing, writes a text of these parts.
fn is_written<R: AllocGlobal + Threads + Sync + Abort>(
    rt: &R,
    asked: &Asked<'_>,
    parts: &[&str],
) -> bool {
    let (answer, out) = ask(rt, asked);
    let (answer, out) = if answer == Err(RunError::Common(CommonFault::Memory))
        && out.text().is_empty()
    {
        ask(rt, asked)
    } else {
        (answer, out)
    };
    answer.is_ok() && is_made_of(out.text(), parts)
}

/// Each text in JSON: nothing for want of memory, and then the whole text.
#[test]
fn refused_memory_in_lines_of_json(rt: HostRuntime) {
    let flight = FlightName::new(b"AB1").expect(&rt, "flight");
    let json = Format::Json;
    let paths = FilePaths {
        airport: "a.csv",
        feed: "f.csv",
        scenarios: Some("s.csv"),
    };
    let table: [(DayText, &[&str]); 5] = [
        (
            DayText::Plan(json),
            &[PLAN, ROW, "],\"refused\":[]}\n", REFUSED],
        ),
        (
            DayText::Table(Table::ComparisonJson(None)),
            &[LINE, REFUSED],
        ),
        (
            DayText::Answer(DayQuestion::View(Question::Why(flight)), None, json),
            &["{\"row\":", ROW, WHY],
        ),
        (
            DayText::Answer(DayQuestion::View(Question::Load(None)), None, json),
            &[LOAD],
        ),
        (
            DayText::Trace(Some(flight), None, json),
            &[
                FIRST,
                NEW,
                "}\n",
                SECOND,
                ON_A_RUNWAY,
                "}\n",
                THIRD,
                ROW,
                "}\n",
            ],
        ),
    ];
    for (text, parts) in table {
        assert!(rt; is_written(&rt, &Asked::Day(text), parts), "{text:?}");
    }
    let found = [HINT, "{\"records\":9,\"refused\":0}\n"];
    assert!(rt; is_written(&rt, &Asked::Check(paths, json), &found));
}
