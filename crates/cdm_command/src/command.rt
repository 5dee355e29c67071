//! The command line.
ghost use Rattle.std.specs.Prelude.{◌≡◌};
ghost use Rattle.cdm_command.specs.declared.command.CommandFault.TheVariants as command;

use crate::manual::{VERSION, manual};
use crate::parsers::parser;
use cdm_feed::{
    Ahead, CarryText, DayQuestion, DayText, GroupBy, Input, SheetQuestion, ShiftQuestion, Since,
    role_of,
};
use cdm_flight::{FlightName, RunwayName};
use cdm_kinds::Format;
use cdm_phase::Workers;
use cdm_scenario::ScenarioName;
use cdm_table::{Each, StepMinutes, Table};
use cdm_time::Day;
use cdm_view::Question;
use clap::error::ErrorKind;
use clap::{ArgMatches, Error as ParseError};
use std::alloc::{AllocError, Global};
use std::convert::AsStr;
use thiserror::Error;

/// How many steps scenarios are tried at, at most (local profile).
const MOST_STEPS: u16 = 1440;

/// How the steps are written at which scenarios are tried.
const EACH_FORM: &str = "write FROM..TO/STEP, as 2025-03-10T06:00Z..2025-03-10T10:00Z/5";

/// What to do with a TO of other days.
const OTHER_DAYS: &str = "TO is before FROM, or after the day that follows FROM's";

/// The path that means standard input.
pub const STANDARD_INPUT: &str = "-";

/// The paths of the files of a day, and of the third file, if there is one.
#[derive(Clone, Copy, PartialEq, Eq, Debug)]
pub struct DayFiles<'a> {
    /// The airport file.
    pub airport: &'a str,
    /// The feed.
    pub feed: &'a str,
    /// The scenario file, or the airport file of the next day.
    pub third: Option<&'a str>,
}

impl DayFiles<'_> {
    // The first of the files that is standard input, as the input that it is, where the third one is this.
    fn standard_input(&self, third: Input) -> Option<Input> {
        if self.airport == STANDARD_INPUT {
            Some(Input::Airport)
        } else if self.feed == STANDARD_INPUT {
            Some(Input::Feed)
        } else if self.third == Some(STANDARD_INPUT) {
            Some(third)
        } else {
            None
        }
    }
}

/// What the command line asks for. Files are given by their paths; at most one is [`STANDARD_INPUT`].
#[derive(PartialEq, Eq, Debug, Drop)]
pub enum Command<'a> {
    /// Print this text about the day of an airport file and a feed, and about its scenarios, with this many workers. If `is_strict`, the
    /// exit status says whether a record of the feed was refused or the feed has none.
    Tell {
        files: DayFiles<'a>,
        text: DayText,
        workers: Workers,
        is_strict: bool,
    },
    /// Check the airport file, the feed and, if there is one, the scenario file.
    Check {
        files: DayFiles<'a>,
        format: Format,
    },
    /// Run two desks concurrently on one board: each posts one of the feeds.
    Live {
        airport: &'a str,
        feed1: &'a str,
        feed2: &'a str,
    },
    /// Carry a day over, and print this text. The third file is the next airport file.
    Carry {
        files: DayFiles<'a>,
        text: CarryText,
    },
    /// Run a day in real time, with a journal. The records come from standard input. If `sentences`, a reply that refuses says why.
    Serve {
        airport: &'a str,
        journal: &'a str,
        format: Format,
        sentences: bool,
    },
    /// Print the table of the kinds of updates.
    Kinds(Format),
    /// Print this text: the manual, a help or the version.
    Print(String),
}

impl Command<'_> {
    /// Which input is standard input: that of the first file that is [`STANDARD_INPUT`], if there is one.
    pub fn standard_input(&self) -> Option<Input> {
        match self {
            Command::Tell { files, .. } | Command::Check { files, .. } => {
                files.standard_input(Input::Scenarios)
            }
            Command::Carry { files, .. } => files.standard_input(Input::NextAirport),
            Command::Live { airport, .. } if *airport == STANDARD_INPUT => Some(Input::Airport),
            Command::Live { feed1, .. } if *feed1 == STANDARD_INPUT => Some(Input::Feed1),
            Command::Live { feed2, .. } if *feed2 == STANDARD_INPUT => Some(Input::Feed2),
            Command::Live { .. } | Command::Serve { .. } | Command::Kinds(_) | Command::Print(_) =>
                None,
        }
    }

    // Whether more than one of the files is standard input.
    fn has_standard_input_twice(&self) -> bool {
        let files = match self {
            Command::Tell { files, .. }
            | Command::Check { files, .. }
            | Command::Carry { files, .. } => [Some(files.airport), Some(files.feed), files.third],
            Command::Live {
                airport,
                feed1,
                feed2,
            } => [Some(*airport), Some(*feed1), Some(*feed2)],
            Command::Serve { .. } | Command::Kinds(_) | Command::Print(_) => [None; 3],
        };
        files
            .iter()
            .filter(|file| **file == Some(STANDARD_INPUT))
            .count()
            > 1
    }
}

/// Why a command line asks for nothing that can be done.
#[derive(Debug, Drop, Error)]
pub enum CommandFault {
    /// A usage error: the text that explains it.
    #[error("{0}")]
    Usage(String),
    /// Want of memory.
    #[error("out of memory")]
    Memory,
}

impl From<AllocError> for CommandFault {
    ghost from_gives = { λ _ e. e ≡ command.Memory };

    fn from(_error: AllocError) -> CommandFault {
        CommandFault::Memory
    }
}

/// The command that the words after the program's name ask for.
///
/// `Usage` where they ask for none, or where two files are standard input, with the text that says so.
/// Tests show what is answered.
pub fn command_of<'a, S: AsStr>(
    alloc: Global,
    words: &'a [S],
) -> Result<Command<'a>, CommandFault> {
    match parser(alloc)?.try_get_matches_from(words) {
        Ok(matches) => command_in(alloc, &matches),
        Err(error) => told(alloc, &error),
    }
}

// The command of these matches, which reads standard input once at most.
fn command_in<'a>(alloc: Global, matches: &ArgMatches<'a>) -> Result<Command<'a>, CommandFault> {
    match named_in(alloc, matches)? {
        Some(command) if command.has_standard_input_twice() => Err(wrong_words(
            alloc,
            "only one of the files can be '-' (standard input)",
        )?),
        Some(command) => Ok(command),
        None => Err(wrong_words(alloc, "the command is not complete")?),
    }
}

// The command that the matches name, with its words.
fn named_in<'a>(
    alloc: Global,
    matches: &ArgMatches<'a>,
) -> Result<Option<Command<'a>>, CommandFault> {
    match matches.subcommand() {
        Some(("plan", plan)) => plan_of(alloc, plan),
        Some(("compare", compare)) => compare_of(alloc, compare),
        Some(("trace", trace)) => trace_of(alloc, trace),
        Some(("serve", serve)) => serve_of(alloc, serve),
        Some(("picture", picture)) => picture_of(alloc, picture),
        Some(("live", live)) => Ok(live_of(live)),
        Some(("carry", carry)) => carry_of(alloc, carry),
        Some(("check", check)) => Ok(check_of(check)),
        Some(("why", why)) => why_of(alloc, why),
        Some(("options", options)) => options_of(alloc, options),
        Some(("load", load)) => load_of(alloc, load),
        Some(("next", next)) => next_of(alloc, next),
        Some(("warnings", words)) => shift_of(alloc, words, ShiftQuestion::Warnings),
        Some(("causes", words)) => shift_of(alloc, words, ShiftQuestion::Causes(group_by(words))),
        Some(("kinds", kinds)) => Ok(Some(Command::Kinds(format_of(kinds)))),
        Some(("version", _)) => Ok(Some(version_of(alloc)?)),
        Some((_, help)) => Ok(Some(help_of(alloc, help.get_str("COMMAND"))?)),
        None => Ok(None),
    }
}

// What the parser tells in place of matches: a help, the version, or what is wrong with the words.
fn told<'a>(alloc: Global, error: &ParseError) -> Result<Command<'a>, CommandFault> {
    match error.kind() {
        ErrorKind::OutOfMemory => Err(CommandFault::Memory),
        ErrorKind::DisplayHelp | ErrorKind::DisplayVersion => {
            Ok(Command::Print(error.to_string(alloc)?))
        }
        _ => Err(CommandFault::Usage(error.to_string(alloc)?)),
    }
}

// The help of the command of this name, which is the one of its `--help`, or else the manual.
fn help_of<'a>(alloc: Global, name: Option<&str>) -> Result<Command<'a>, CommandFault> {
    let Some(name) = name else {
        let manual = manual(alloc)?;
        let help = parser(alloc)?.after_help(&manual).render_help();
        return Ok(Command::Print(help?));
    };
    match parser(alloc)?.try_get_matches_from(&[name, "--help"]) {
        Err(error) => told(alloc, &error),
        Ok(_) => Err(wrong_words(alloc, "the command has no help")?),
    }
}

// The program's name and its version.
fn version_of<'a>(alloc: Global) -> Result<Command<'a>, AllocError> {
    Ok(Command::Print(format!(in alloc; "cdmseq {VERSION}\n")?))
}

// A line that says what is wrong with the words.
fn wrong_words(alloc: Global, cause: &str) -> Result<CommandFault, AllocError> {
    Ok(CommandFault::Usage(format!(in alloc; "error: {cause}\n")?))
}

// The files of a day, with this one after them.
fn files_of<'a>(words: &ArgMatches<'a>, third: Option<&'a str>) -> Option<DayFiles<'a>> {
    Some(DayFiles {
        airport: words.get_str("AIRPORT")?,
        feed: words.get_str("FEED")?,
        third,
    })
}

// How the output is written.
fn format_of(words: &ArgMatches<'_>) -> Format {
    match words.get_str("format") {
        Some("json") => Format::Json,
        _ => Format::Text,
    }
}

// Whether the output is rows of CSV.
fn is_csv(words: &ArgMatches<'_>) -> bool {
    words.get_str("format") == Some("csv")
}

// What one worker tells of a day, which these words ask for.
fn told_by_one<'a>(
    words: &ArgMatches<'a>,
    files: DayFiles<'a>,
    text: DayText,
) -> Option<Command<'a>> {
    let workers = Workers::new(1)?;
    Some(Command::Tell {
        files,
        text,
        workers,
        is_strict: words.get_flag("strict"),
    })
}

// The words of `plan`, all of which the parser has seen to but the number of workers.
fn plan_of<'a>(alloc: Global, plan: &ArgMatches<'a>) -> Result<Option<Command<'a>>, CommandFault> {
    let text = match plan.get_str("format") {
        Some("csv") => DayText::Table(Table::Csv),
        _ => DayText::Plan(format_of(plan)),
    };
    told_by_many(alloc, plan, plan.get_str("scenarios"), text)
}

// The words of `picture`, all of which the parser has seen to but the number of workers.
fn picture_of<'a>(
    alloc: Global,
    picture: &ArgMatches<'a>,
) -> Result<Option<Command<'a>>, CommandFault> {
    told_by_many(
        alloc,
        picture,
        picture.get_str("scenarios"),
        DayText::Picture,
    )
}

// What the workers tell of a day and of the scenarios of this file, which these words ask for.
fn told_by_many<'a>(
    alloc: Global,
    words: &ArgMatches<'a>,
    scenarios: Option<&'a str>,
    text: DayText,
) -> Result<Option<Command<'a>>, CommandFault> {
    let workers = workers_of(alloc, words)?;
    match files_of(words, scenarios) {
        Some(files) => Ok(Some(Command::Tell {
            files,
            text,
            workers,
            is_strict: words.get_flag("strict"),
        })),
        None => Ok(None),
    }
}

// The number of workers.
fn workers_of(alloc: Global, words: &ArgMatches<'_>) -> Result<Workers, CommandFault> {
    let word = words.get_str("workers").unwrap_or("1");
    match word
        .parse::<usize>()
        .ok()
        .and_then(|count| Workers::new(count))
    {
        Some(workers) => Ok(workers),
        None => Err(wrong_value(
            alloc,
            word,
            "--workers <N>",
            "write a whole number from 1 to 64",
        )?),
    }
}

// The words of `compare`, all of which the parser has seen to but the number of workers, the form of the scenario's name and the steps.
fn compare_of<'a>(
    alloc: Global,
    compare: &ArgMatches<'a>,
) -> Result<Option<Command<'a>>, CommandFault> {
    let name = match compare.get_str("NAME") {
        Some(word) => Some(scenario_in(alloc, word, "[NAME]")?),
        None => None,
    };
    let table = match compare.get_str("each") {
        Some(word) => sweep_of(alloc, word, name, compare.get_str("format"))?,
        None => comparison_of(alloc, name, compare.get_str("format"))?,
    };
    let scenarios = compare.get_str("SCENARIOS");
    told_by_many(alloc, compare, scenarios, DayText::Table(table))
}

// A comparison of scenarios as they are.
fn comparison_of(
    alloc: Global,
    name: Option<ScenarioName>,
    format: Option<&str>,
) -> Result<Table, CommandFault> {
    match (format, name) {
        (Some("csv"), None) => Ok(Table::ComparisonCsv),
        (Some("csv"), Some(_)) => Err(wrong_words(
            alloc,
            "with --format csv no scenario can be named: rows have no room for what changes by it",
        )?),
        (Some("json"), name) => Ok(Table::ComparisonJson(name)),
        (_, name) => Ok(Table::Comparison(name)),
    }
}

// A comparison of scenarios that are tried at each of the steps that a word gives.
fn sweep_of(
    alloc: Global,
    word: &str,
    name: Option<ScenarioName>,
    format: Option<&str>,
) -> Result<Table, CommandFault> {
    if name.is_some() {
        return Err(wrong_words(
            alloc,
            "with --each no scenario can be named: write the best time into SCENARIOS, and name it without --each",
        )?);
    }
    let each = match each_in(word) {
        Ok(each) => each,
        Err(form) => return Err(wrong_value(alloc, word, "--each <STEPS>", form)?),
    };
    match format {
        Some("csv") => Err(wrong_words(alloc, "with --each the format is text or json")?),
        Some("json") => Ok(Table::SweepJson(each)),
        _ => Ok(Table::Sweep(each)),
    }
}

// The steps that a word gives, or what is wrong with it.
fn each_in(word: &str) -> Result<Each, &'static str> {
    let Some((ends, step)) = word.split_once('/') else {
        return Err(EACH_FORM);
    };
    let Some((from, to)) = ends.split_once("..") else {
        return Err(EACH_FORM);
    };
    let (Ok(from), Ok(to)) = (time_text_of(from), time_text_of(to)) else {
        return Err(EACH_FORM);
    };
    match step
        .parse::<u16>()
        .ok()
        .and_then(|minutes| StepMinutes::new(minutes))
    {
        Some(step) => steps_in(Each { from, to, step }),
        None => Err("STEP is a whole number of minutes from 1 to 2880"),
    }
}

// The time that a word writes, as its bytes.
fn time_text_of(word: &str) -> Result<[u8; 17], ()> {
    match Since::new(word.as_bytes()) {
        Some(_) => {
            let mut text = [0; 17];
            text.copy_from_slice(word.as_bytes());
            Ok(text)
        }
        None => Err(()),
    }
}

// The steps, if TO is in the two days from FROM's day on and not before FROM, and they aren't too many.
fn steps_in(each: Each) -> Result<Each, &'static str> {
    let Ok(day) = Day::of_text(&each.from[..10]) else {
        return Err("FROM is no day of the years 2000 to 2099");
    };
    let Ok(from) = day.minute_of(&each.from) else {
        return Err(OTHER_DAYS);
    };
    let Ok(to) = day.minute_of(&each.to) else {
        return Err(OTHER_DAYS);
    };
    if to.get() < from.get() {
        return Err("TO is before FROM");
    }
    let steps = (to.get() - from.get()) / each.step.get() + 1;
    if steps > MOST_STEPS {
        return Err("at most 1440 steps are tried");
    }
    Ok(each)
}

// The scenario that a word names.
fn scenario_in(alloc: Global, word: &str, argument: &str) -> Result<ScenarioName, CommandFault> {
    match ScenarioName::new(word.as_bytes()) {
        Some(name) => Ok(name),
        None => Err(wrong_value(
            alloc,
            word,
            argument,
            "a scenario has 1 to 16 of A-Z, 0-9 and -",
        )?),
    }
}

// The file of the scenario that a question is asked of, and its name, if one is named. They are named together.
fn what_if_of<'a>(
    alloc: Global,
    words: &ArgMatches<'a>,
) -> Result<Option<(&'a str, ScenarioName)>, CommandFault> {
    match (words.get_str("scenarios"), words.get_str("scenario")) {
        (Some(scenarios), Some(word)) => {
            let name = scenario_in(alloc, word, "--scenario <NAME>")?;
            Ok(Some((scenarios, name)))
        }
        (None, None) => Ok(None),
        (Some(_), None) => Err(missing(alloc, "--scenario <NAME>")?),
        (None, Some(_)) => Err(missing(alloc, "--scenarios <FILE>")?),
    }
}

// The words of a question, all of which the parser has seen to but the scenario.
fn question_of<'a>(
    alloc: Global,
    words: &ArgMatches<'a>,
    question: DayQuestion,
) -> Result<Option<Command<'a>>, CommandFault> {
    let (scenarios, name) = match what_if_of(alloc, words)? {
        Some((scenarios, name)) => (Some(scenarios), Some(name)),
        None => (None, None),
    };
    match files_of(words, scenarios) {
        Some(files) => {
            let text = DayText::Answer(question, name, format_of(words));
            Ok(told_by_one(words, files, text))
        }
        None => Ok(None),
    }
}

// The words of `live`, all of which the parser has seen to.
fn live_of<'a>(live: &ArgMatches<'a>) -> Option<Command<'a>> {
    Some(Command::Live {
        airport: live.get_str("AIRPORT")?,
        feed1: live.get_str("FEED1")?,
        feed2: live.get_str("FEED2")?,
    })
}

// What `carry` writes: a feed, or what it tells in place of it.
fn carry_text_of(alloc: Global, carry: &ArgMatches<'_>) -> Result<CarryText, CommandFault> {
    match (carry.get_flag("tell"), format_of(carry)) {
        (true, format) => Ok(CarryText::Notices(format)),
        (false, Format::Text) => Ok(CarryText::Feed),
        (false, Format::Json) => Err(missing(alloc, "--tell")?),
    }
}

// The words of `carry`, all of which the parser has seen to but that only `--tell` has a format.
fn carry_of<'a>(
    alloc: Global,
    carry: &ArgMatches<'a>,
) -> Result<Option<Command<'a>>, CommandFault> {
    let text = carry_text_of(alloc, carry)?;
    match files_of(carry, carry.get_str("NEXT_AIRPORT")) {
        Some(files) => Ok(Some(Command::Carry { files, text })),
        None => Ok(None),
    }
}

// The words of `check`, all of which the parser has seen to.
fn check_of<'a>(check: &ArgMatches<'a>) -> Option<Command<'a>> {
    Some(Command::Check {
        files: files_of(check, check.get_str("scenarios"))?,
        format: format_of(check),
    })
}

// The words of `why`, all of which the parser has seen to but the form of the flight.
fn why_of<'a>(alloc: Global, why: &ArgMatches<'a>) -> Result<Option<Command<'a>>, CommandFault> {
    match why.get_str("FLIGHT") {
        Some(word) => {
            let flight = flight_in(alloc, word, "<FLIGHT>")?;
            question_of(alloc, why, DayQuestion::View(Question::Why(flight)))
        }
        None => Ok(None),
    }
}

// The words of `options`, all of which the parser has seen to but the form of the flight and the number of workers.
fn options_of<'a>(
    alloc: Global,
    options: &ArgMatches<'a>,
) -> Result<Option<Command<'a>>, CommandFault> {
    match options.get_str("FLIGHT") {
        Some(word) => {
            let flight = flight_in(alloc, word, "<FLIGHT>")?;
            let role = options
                .get_str("role")
                .and_then(|role| role_of(role.as_bytes()));
            let text = DayText::Options(flight, role, format_of(options));
            told_by_many(alloc, options, None, text)
        }
        None => Ok(None),
    }
}

// The words of `trace`, all of which the parser has seen to but the form of the flight and of the time.
fn trace_of<'a>(
    alloc: Global,
    trace: &ArgMatches<'a>,
) -> Result<Option<Command<'a>>, CommandFault> {
    let flight = match trace.get_str("FLIGHT") {
        Some(word) => Some(flight_in(alloc, word, "[FLIGHT]")?),
        None => None,
    };
    let since = match trace.get_str("since") {
        Some(word) => Some(since_in(alloc, word)?),
        None => None,
    };
    match files_of(trace, None) {
        Some(files) => {
            let text = DayText::Trace(flight, since, format_of(trace));
            Ok(told_by_one(trace, files, text))
        }
        None => Ok(None),
    }
}

// The time that a word writes.
fn since_in(alloc: Global, word: &str) -> Result<Since, CommandFault> {
    match Since::new(word.as_bytes()) {
        Some(since) => Ok(since),
        None => Err(wrong_value(
            alloc,
            word,
            "--since <TIME>",
            "a time is written 2025-03-10T06:30Z",
        )?),
    }
}

// The flight that a word names.
fn flight_in(alloc: Global, word: &str, argument: &str) -> Result<FlightName, CommandFault> {
    match FlightName::new(word.as_bytes()) {
        Some(flight) => Ok(flight),
        None => Err(wrong_value(alloc, word, argument, "a flight has 1 to 7 of A-Z and 0-9")?),
    }
}

// The words of `serve`, all of which the parser has seen to but that standard input has the records.
fn serve_of<'a>(
    alloc: Global,
    serve: &ArgMatches<'a>,
) -> Result<Option<Command<'a>>, CommandFault> {
    let (Some(airport), Some(journal)) = (serve.get_str("AIRPORT"), serve.get_str("JOURNAL")) else {
        return Ok(None);
    };
    if airport == STANDARD_INPUT || journal == STANDARD_INPUT {
        return Err(wrong_words(
            alloc,
            "standard input has the records, so no file can be '-'",
        )?);
    }
    Ok(Some(Command::Serve {
        airport,
        journal,
        format: format_of(serve),
        sentences: serve.get_flag("sentences"),
    }))
}

// The words of `load`, all of which the parser has seen to but the form of the runway.
fn load_of<'a>(alloc: Global, load: &ArgMatches<'a>) -> Result<Option<Command<'a>>, CommandFault> {
    let runway = match load.get_str("RUNWAY") {
        Some(word) => Some(runway_in(alloc, word)?),
        None => None,
    };
    let question = if is_csv(load) {
        DayQuestion::Sheet(SheetQuestion::Load(runway))
    } else {
        DayQuestion::View(Question::Load(runway))
    };
    question_of(alloc, load, question)
}

// The words of `next`, all of which the parser has seen to but the minutes and the scenario.
fn next_of<'a>(alloc: Global, next: &ArgMatches<'a>) -> Result<Option<Command<'a>>, CommandFault> {
    let ahead = ahead_of(alloc, next)?;
    shift_of(alloc, next, ShiftQuestion::Next(ahead))
}

// The words of what a shift asks, all of which the parser has seen to but the scenario.
fn shift_of<'a>(
    alloc: Global,
    words: &ArgMatches<'a>,
    question: ShiftQuestion,
) -> Result<Option<Command<'a>>, CommandFault> {
    let asked = told_as(is_csv(words), question);
    question_of(alloc, words, asked)
}

// What a shift asks, told as rows of CSV or otherwise.
fn told_as(is_csv: bool, question: ShiftQuestion) -> DayQuestion {
    match is_csv {
        true => DayQuestion::Sheet(SheetQuestion::Shift(question)),
        false => DayQuestion::Shift(question),
    }
}

// How many minutes ahead is looked.
fn ahead_of(alloc: Global, words: &ArgMatches<'_>) -> Result<Ahead, CommandFault> {
    let Some(word) = words.get_str("MINUTES") else {
        return Ok(Ahead::usual());
    };
    match word
        .parse::<u16>()
        .ok()
        .and_then(|minutes| Ahead::new(minutes))
    {
        Some(ahead) => Ok(ahead),
        None => Err(wrong_value(
            alloc,
            word,
            "[MINUTES]",
            "write a whole number from 1 to 2880",
        )?),
    }
}

// What flights are grouped by.
fn group_by(words: &ArgMatches<'_>) -> GroupBy {
    match words.get_str("by") {
        Some("runway") => GroupBy::Runway,
        Some("operator") => GroupBy::Operator,
        _ => GroupBy::All,
    }
}

// The runway that a word names.
fn runway_in(alloc: Global, word: &str) -> Result<RunwayName, CommandFault> {
    match RunwayName::new(word.as_bytes()) {
        Some(runway) => Ok(runway),
        None => Err(wrong_value(
            alloc,
            word,
            "[RUNWAY]",
            "a runway has 1 to 3 of A-Z and 0-9",
        )?),
    }
}

// What is told of a word that hasn't the form of its argument.
fn wrong_value(
    alloc: Global,
    word: &str,
    argument: &str,
    form: &str,
) -> Result<CommandFault, AllocError> {
    let text = format!(in alloc;
        "error: invalid value '{word}' for '{argument}': {form}\n\nFor more information, try '--help'.\n"
    )?;
    Ok(CommandFault::Usage(text))
}

// What is told where this argument is missing.
fn missing(alloc: Global, argument: &str) -> Result<CommandFault, AllocError> {
    let text = format!(in alloc;
        "error: the following required arguments were not provided:\n  {argument}\n\nFor more information, try '--help'.\n"
    )?;
    Ok(CommandFault::Usage(text))
}
