//! What no clause says of the command line: what is made of words, the help, the lines of faults, and what is
//! answered where memory is refused.
mod faults;
mod help;
mod memory;

use crate::tests::asserts::assert_holds;
use cdm_command::{Command, CommandFault, DayFiles, command_of};
use cdm_feed::{Ahead, DayQuestion, DayText, GroupBy, SheetQuestion, ShiftQuestion, Since};
use cdm_flight::{FlightName, RunwayName};
use cdm_kinds::Format;
use cdm_phase::Workers;
use cdm_scenario::ScenarioName;
use cdm_table::Table;
use cdm_view::Question;
use std::alloc::Global;

/// How the text of wrong words ends.
const TRY: &str = "For more information, try '--help'.\n";

/// A time of the second day.
const TIME: &str = "2025-03-11T23:59Z";

// Whether the words ask that this is told of the files a.csv and f.csv, and of these scenarios, by so many workers.
fn is_told(
    alloc: Global,
    words: &[&str],
    scenarios: Option<&str>,
    text: DayText,
    count: usize,
) -> bool {
    let Some(workers) = Workers::new(count) else {
        return false;
    };
    let files = DayFiles {
        airport: "a.csv",
        feed: "f.csv",
        third: scenarios,
    };
    let wanted = Command::Tell {
        files,
        text,
        workers,
        is_strict: false,
    };
    is_command(alloc, words, &wanted)
}

#[test]
fn plans_with_one_worker_or_as_many_as_asked_for(rt: HostRuntime) {
    let table: [(&[&str], Option<&str>, usize); 10] = [
        (&["plan", "a.csv", "f.csv"], None, 1),
        (&["plan", "a.csv", "f.csv", "--workers", "1"], None, 1),
        (&["plan", "a.csv", "f.csv", "--workers", "64"], None, 64),
        (&["plan", "a.csv", "f.csv", "--workers", "007"], None, 7),
        (&["plan", "a.csv", "f.csv", "--workers=4"], None, 4),
        (&["plan", "--workers", "2", "a.csv", "f.csv"], None, 2),
        (&["plan", "a.csv", "--workers", "3", "--", "f.csv"], None, 3),
        (
            &["plan", "a.csv", "f.csv", "--scenarios", "s.csv"],
            Some("s.csv"),
            1,
        ),
        (
            &["plan", "--scenarios=s.csv", "a.csv", "f.csv"],
            Some("s.csv"),
            1,
        ),
        (
            &[
                "plan",
                "a.csv",
                "--workers",
                "3",
                "f.csv",
                "--scenarios",
                "s.csv",
            ],
            Some("s.csv"),
            3,
        ),
    ];
    for (words, scenarios, count) in table {
        let plan = DayText::Plan(Format::Text);
        let told = is_told(rt.alloc(), words, scenarios, plan, count);
        assert_holds(&rt, told, words);
    }
}

#[test]
fn questions_name_a_flight_or_a_runway(rt: HostRuntime) {
    let flight = FlightName::new(b"AB12345").expect(&rt, "flight");
    let runway = RunwayName::new(b"27L").expect(&rt, "runway");
    let usual = Ahead::new(60).expect(&rt, "minutes");
    let longest = Ahead::new(2880).expect(&rt, "minutes");
    let table: [(&[&str], DayQuestion); 10] = [
        (
            &["why", "a.csv", "f.csv", "AB12345"],
            DayQuestion::View(Question::Why(flight)),
        ),
        (
            &["load", "a.csv", "f.csv"],
            DayQuestion::View(Question::Load(None)),
        ),
        (
            &["load", "a.csv", "f.csv", "27L"],
            DayQuestion::View(Question::Load(Some(runway))),
        ),
        (
            &["next", "a.csv", "f.csv"],
            DayQuestion::Shift(ShiftQuestion::Next(usual)),
        ),
        (
            &["next", "a.csv", "f.csv", "2880"],
            DayQuestion::Shift(ShiftQuestion::Next(longest)),
        ),
        (
            &["warnings", "a.csv", "f.csv"],
            DayQuestion::Shift(ShiftQuestion::Warnings),
        ),
        (
            &["causes", "a.csv", "f.csv"],
            DayQuestion::Shift(ShiftQuestion::Causes(GroupBy::All)),
        ),
        (
            &["causes", "a.csv", "f.csv", "--by", "operator"],
            DayQuestion::Shift(ShiftQuestion::Causes(GroupBy::Operator)),
        ),
        (
            &["load", "a.csv", "f.csv", "27L", "--format", "csv"],
            DayQuestion::Sheet(SheetQuestion::Load(Some(runway))),
        ),
        (
            &["warnings", "--format", "csv", "a.csv", "f.csv"],
            DayQuestion::Sheet(SheetQuestion::Shift(ShiftQuestion::Warnings)),
        ),
    ];
    for (words, question) in table {
        let text = DayText::Answer(question, None, Format::Text);
        assert_holds(&rt, is_told(rt.alloc(), words, None, text, 1), words);
    }
}

// Whether a line, with one space between two words, asks that this is told of the files and of s.csv.
fn is_line_told(alloc: Global, line: &str, text: DayText, count: usize) -> bool {
    match line.split(' ').collect::<Vec<&str>>(alloc) {
        Ok(words) => is_told(alloc, &words, Some("s.csv"), text, count),
        Err(_) => false,
    }
}

// The format that a line of words names.
fn format_in(line: &str) -> Format {
    if line.contains("json") {
        Format::Json
    } else {
        Format::Text
    }
}

#[test]
fn questions_are_asked_of_a_scenario(rt: HostRuntime) {
    let flight = FlightName::new(b"AB1").expect(&rt, "flight");
    let name = ScenarioName::new(b"SHUT-2").expect(&rt, "scenario");
    let five = Ahead::new(5).expect(&rt, "minutes");
    let table = [
        (
            "why a.csv f.csv AB1 --scenarios s.csv --scenario SHUT-2",
            DayQuestion::View(Question::Why(flight)),
        ),
        (
            "load a.csv --scenario SHUT-2 f.csv --scenarios s.csv --format json",
            DayQuestion::View(Question::Load(None)),
        ),
        (
            "next a.csv f.csv 5 --scenarios s.csv --scenario SHUT-2",
            DayQuestion::Shift(ShiftQuestion::Next(five)),
        ),
        (
            "warnings a.csv f.csv --scenarios s.csv --scenario SHUT-2",
            DayQuestion::Shift(ShiftQuestion::Warnings),
        ),
        (
            "causes a.csv f.csv --by runway --scenarios s.csv --format json --scenario SHUT-2",
            DayQuestion::Shift(ShiftQuestion::Causes(GroupBy::Runway)),
        ),
    ];
    for (line, question) in table {
        let text = DayText::Answer(question, Some(name), format_in(line));
        assert_holds(&rt, is_line_told(rt.alloc(), line, text, 1), line);
    }
}

#[test]
fn scenarios_are_compared_or_printed_as_rows(rt: HostRuntime) {
    let name = ScenarioName::new(b"SHUT-2").expect(&rt, "scenario");
    let table = [
        (
            "compare a.csv f.csv s.csv --workers 2",
            DayText::Table(Table::Comparison(None)),
        ),
        (
            "compare --workers=2 a.csv f.csv s.csv SHUT-2",
            DayText::Table(Table::Comparison(Some(name))),
        ),
        (
            "compare a.csv f.csv s.csv SHUT-2 --format json --workers 2",
            DayText::Table(Table::ComparisonJson(Some(name))),
        ),
        (
            "compare a.csv f.csv s.csv --format csv --workers 2",
            DayText::Table(Table::ComparisonCsv),
        ),
        (
            "plan a.csv f.csv --scenarios s.csv --workers 2 --format csv",
            DayText::Table(Table::Csv),
        ),
        (
            "plan --format=json --workers 2 --scenarios=s.csv a.csv f.csv",
            DayText::Plan(Format::Json),
        ),
        (
            "picture --workers=2 --scenarios=s.csv a.csv f.csv",
            DayText::Picture,
        ),
    ];
    for (line, wanted) in table {
        assert_holds(&rt, is_line_told(rt.alloc(), line, wanted, 2), line);
    }
}

// Whether the words ask for this.
fn is_command(alloc: Global, words: &[&str], wanted: &Command<'_>) -> bool {
    match command_of(alloc, words) {
        Ok(command) => command == *wanted,
        Err(_) => false,
    }
}

// Whether a trace in the format of this word is told.
fn is_traced(alloc: Global, word: &str, format: Format) -> bool {
    let words = ["trace", "a.csv", "f.csv", "--format", word];
    is_told(alloc, &words, None, DayText::Trace(None, None, format), 1)
}

// Whether one from a time on is.
fn is_traced_since(alloc: Global, word: &str, format: Format) -> bool {
    let words = ["trace", "a.csv", "f.csv", "--since", TIME, "--format", word];
    let told = DayText::Trace(None, Since::new(TIME.as_bytes()), format);
    is_told(alloc, &words, None, told, 1)
}

// Whether the files are checked in the format of this word.
fn is_checked(alloc: Global, word: &str, format: Format) -> bool {
    let files = DayFiles {
        airport: "a.csv",
        feed: "f.csv",
        third: None,
    };
    let words = ["check", "--format", word, "a.csv", "f.csv"];
    is_command(alloc, &words, &Command::Check { files, format })
}

// Whether the day of a journal is served in the format of this word.
fn is_served(alloc: Global, word: &str, format: Format) -> bool {
    let wanted = Command::Serve {
        airport: "a.csv",
        journal: "j.csv",
        format,
        sentences: false,
    };
    let words = ["serve", "a.csv", "j.csv", "--format", word];
    is_command(alloc, &words, &wanted)
}

// Whether the replies of a served day have sentences, in the format of this word.
fn is_explained(alloc: Global, word: &str, format: Format) -> bool {
    let wanted = Command::Serve {
        airport: "a.csv",
        journal: "j.csv",
        format,
        sentences: true,
    };
    let words = ["serve", "--sentences", "a.csv", "j.csv", "--format", word];
    is_command(alloc, &words, &wanted)
}

#[test]
fn traces_checks_and_served_days_have_a_format(rt: HostRuntime) {
    let alloc = rt.alloc();
    for (word, format) in [("text", Format::Text), ("json", Format::Json)] {
        assert_holds(&rt, is_traced(alloc, word, format), ("trace", word));
        assert_holds(&rt, is_traced_since(alloc, word, format), ("since", word));
        assert_holds(&rt, is_checked(alloc, word, format), ("check", word));
        assert_holds(&rt, is_served(alloc, word, format), ("serve", word));
        assert_holds(&rt, is_explained(alloc, word, format), ("sentences", word));
    }
}

// Whether these words, with one space between two, are told to be wrong for this cause.
fn is_wrong(alloc: Global, words: &str, cause: &str) -> bool {
    let Ok(words) = words.split(' ').collect::<Vec<&str>>(alloc) else {
        return false;
    };
    match command_of(alloc, words.as_slice()) {
        Err(CommandFault::Usage(text)) => {
            text.starts_with("error: ") && text.contains(cause) && text.ends_with(TRY)
        }
        _ => false,
    }
}

#[test]
fn wrong_words_of_a_plan_are_told(rt: HostRuntime) {
    let table = [
        ("plan", "<AIRPORT>"),
        ("plan a", "<FEED>"),
        ("plan a f g", "unexpected argument 'g'"),
        ("plan a f --worker 2", "unexpected argument '--worker'"),
        ("plan a f --scenarios", "required for '--scenarios <FILE>'"),
        ("plan a f --workers", "required for '--workers <N>'"),
        ("plan a f --workers 0", "write a whole number from 1 to 64"),
        ("plan a f --workers 65", "write a whole number from 1 to 64"),
        ("plan a f --workers two", "value 'two' for '--workers <N>'"),
        ("plan a f --workers 2.0", "value '2.0' for '--workers <N>'"),
        ("plan a f --workers=-1", "value '-1' for '--workers <N>'"),
        ("plan a f --workers -1", "value '-1' for '--workers <N>'"),
        ("plan a f --workers 2 --workers 2", "used multiple times"),
        ("plan a f --format", "required for '--format <FORMAT>'"),
        (
            "plan a f --format CSV",
            "value 'CSV' for '--format <FORMAT>'",
        ),
    ];
    for (words, cause) in table {
        assert_holds(&rt, is_wrong(rt.alloc(), words, cause), words);
    }
}

#[test]
fn other_wrong_words_are_told(rt: HostRuntime) {
    let table = [
        ("fly", "unrecognized subcommand 'fly'"),
        ("Plan a f", "unrecognized subcommand 'Plan'"),
        ("why a f AB1 --scenarios s", "--scenario <NAME>"),
        ("why a f AB1 --scenario SHUT", "--scenarios <FILE>"),
        ("load a f --scenarios s", "--scenario <NAME>"),
        ("load a f 27L --scenario SHUT", "--scenarios <FILE>"),
        (
            "load a f --scenarios s --scenario shut",
            "value 'shut' for '--scenario <NAME>'",
        ),
        ("live", "<AIRPORT>"),
        ("live a", "<FEED1>"),
        ("live a f", "<FEED2>"),
        ("live a f g h", "unexpected argument 'h'"),
        ("live a f g --workers 2", "unexpected argument '--workers'"),
        ("carry a f", "<NEXT_AIRPORT>"),
        ("carry a f n h", "unexpected argument 'h'"),
        ("compare a f", "<SCENARIOS>"),
        ("compare a f s shut", "invalid value 'shut' for '[NAME]'"),
        ("compare a f s A B", "unexpected argument 'B'"),
        ("compare a f s --each", "required for '--each <STEPS>'"),
        ("compare a f s --each 5", "value '5' for '--each <STEPS>'"),
        (
            "why a f AB1 --format csv",
            "value 'csv' for '--format <FORMAT>'",
        ),
        (
            "serve a j --format CSV",
            "value 'CSV' for '--format <FORMAT>'",
        ),
        ("why a f", "<FLIGHT>"),
        ("why a f AB1 AB2", "unexpected argument 'AB2'"),
        ("why a f AB123456", "value 'AB123456' for '<FLIGHT>'"),
        ("load a", "<FEED>"),
        ("load a f ", "invalid value '' for '[RUNWAY]'"),
        ("load a f 27L 09", "unexpected argument '09'"),
        ("next a f 0", "write a whole number from 1 to 2880"),
        ("next a f 2881", "write a whole number from 1 to 2880"),
        ("next a f 2.5", "value '2.5' for '[MINUTES]'"),
        ("next a f -1", "value '-1' for '[MINUTES]'"),
        (
            "causes a f --by flight",
            "value 'flight' for '--by <GROUP>'",
        ),
        ("warnings a f AB1", "unexpected argument 'AB1'"),
        ("next a f 5 --scenario SHUT", "--scenarios <FILE>"),
        (
            "trace a f --since 2025-03-10T06:30",
            "value '2025-03-10T06:30' for '--since <TIME>'",
        ),
        ("trace a f --since", "required for '--since <TIME>'"),
        ("help fly", "unrecognized subcommand 'fly'"),
        ("help plan live", "unexpected argument 'live'"),
    ];
    for (words, cause) in table {
        assert_holds(&rt, is_wrong(rt.alloc(), words, cause), words);
    }
}
