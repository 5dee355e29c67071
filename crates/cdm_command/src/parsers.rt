//! The arguments that the program and each command take.

use crate::manual::{
    ABOUT, CARRY_ABOUT, CARRY_EXAMPLE, CAUSES_ABOUT, CAUSES_EXAMPLE, CHECK_ABOUT, CHECK_EXAMPLE,
    COMPARE_ABOUT, COMPARE_EXAMPLE, EXAMPLES, HELP_ABOUT, HELP_EXAMPLE, KINDS_ABOUT, KINDS_EXAMPLE,
    LIVE_ABOUT, LIVE_EXAMPLE, LOAD_ABOUT, LOAD_EXAMPLE, NEXT_ABOUT, NEXT_EXAMPLE, OPTIONS_ABOUT,
    OPTIONS_EXAMPLE, PICTURE_ABOUT, PICTURE_EXAMPLE, PLAN_ABOUT, PLAN_EXAMPLE, SERVE_ABOUT,
    SERVE_EXAMPLE, TRACE_ABOUT, TRACE_EXAMPLE, VERSION, VERSION_ABOUT, VERSION_EXAMPLE,
    WARNINGS_ABOUT, WARNINGS_EXAMPLE, WHY_ABOUT, WHY_EXAMPLE,
};
use clap::{Arg, ArgAction, Command as Parser};
use std::alloc::{AllocError, Global};

/// How the output can be written.
const FORMATS: &[&str] = &["text", "json"];

/// How a plan, a comparison and most answers can be written.
const TABLE_FORMATS: &[&str] = &["text", "csv", "json"];

/// What the causes of delays can be grouped by.
const GROUPS: &[&str] = &["runway", "operator"];

/// The roles that can send a record.
const ROLES: &[&str] = &["AO", "GH", "AP", "ATC", "NM"];

/// What the formats are, where there are two.
const TEXT_OR_JSON: &str = "text, or json for programs";

/// What scenarios are, where they are answered.
const OVER_THE_FEED: &str = "What-if scenarios, each answered over the feed";

// A word that has to be there.
fn required_arg<'a>(alloc: Global, name: &'a str, help: &'a str) -> Arg<'a> {
    Arg::new(alloc, name).required(true).help(help)
}

// The airport file.
fn airport_arg<'a>(alloc: Global) -> Arg<'a> {
    required_arg(
        alloc,
        "AIRPORT",
        "Airport file: the day, the runways, the taxi times",
    )
}

// The scenario file of a plan.
fn scenarios_arg<'a>(alloc: Global, help: &'a str) -> Arg<'a> {
    Arg::new(alloc, "scenarios")
        .long("scenarios")
        .value_name("FILE")
        .help(help)
}

// The scenario that a question is asked of.
fn scenario_arg<'a>(alloc: Global) -> Arg<'a> {
    Arg::new(alloc, "scenario")
        .long("scenario")
        .value_name("NAME")
        .allow_negative_numbers(true)
        .help("Answer for this scenario of FILE")
}

// How the output is written, in one of these formats.
fn format_arg<'a>(alloc: Global, formats: &'a [&'a str], help: &'a str) -> Arg<'a> {
    Arg::new(alloc, "format")
        .long("format")
        .value_name("FORMAT")
        .value_parser(formats)
        .default_value("text")
        .hide_possible_values(true)
        .help(help)
}

// Whether the exit status says that a record is refused.
fn strict_arg<'a>(alloc: Global) -> Arg<'a> {
    Arg::new(alloc, "strict")
        .long("strict")
        .action(ArgAction::SetTrue)
        .help("Status 4 if FEED has a refused record, or none at all")
}

// Whether a reply that refuses says why.
fn sentences_arg<'a>(alloc: Global) -> Arg<'a> {
    Arg::new(alloc, "sentences")
        .long("sentences")
        .action(ArgAction::SetTrue)
        .help("Say in a sentence why a record is refused")
}

// The words that `check` takes.
fn check_parser<'a>(alloc: Global) -> Result<Parser<'a>, AllocError> {
    day_parser(alloc, "check", CHECK_ABOUT, CHECK_EXAMPLE)?
        .arg(scenarios_arg(alloc, "What-if scenarios, to be checked too"))?
        .arg(format_arg(alloc, FORMATS, TEXT_OR_JSON))
}

// The words that `plan` takes.
fn plan_parser<'a>(alloc: Global) -> Result<Parser<'a>, AllocError> {
    day_parser(alloc, "plan", PLAN_ABOUT, PLAN_EXAMPLE)?
        .arg(scenarios_arg(alloc, OVER_THE_FEED))?
        .arg(format_arg(alloc, TABLE_FORMATS, "text, csv (a row per flight) or json"))?
        .arg(workers_arg(alloc))?
        .arg(strict_arg(alloc))
}

// The number of workers.
fn workers_arg<'a>(alloc: Global) -> Arg<'a> {
    Arg::new(alloc, "workers")
        .long("workers")
        .value_name("N")
        .allow_negative_numbers(true)
        .default_value("1")
        .help("1 to 64 threads; the output is the same")
}

// The words that `compare` takes.
fn compare_parser<'a>(alloc: Global) -> Result<Parser<'a>, AllocError> {
    day_parser(alloc, "compare", COMPARE_ABOUT, COMPARE_EXAMPLE)?
        .arg(required_arg(alloc, "SCENARIOS", OVER_THE_FEED))?
        .arg(named_arg(alloc))?
        .arg(each_arg(alloc))?
        .arg(format_arg(
            alloc,
            TABLE_FORMATS,
            "text, csv (a row per scenario) or json",
        ))?
        .arg(workers_arg(alloc))?
        .arg(strict_arg(alloc))
}

// The scenario whose changes a comparison shows. Its name may begin with a hyphen.
fn named_arg<'a>(alloc: Global) -> Arg<'a> {
    Arg::new(alloc, "NAME")
        .allow_negative_numbers(true)
        .help("List the flights that this scenario changes")
}

// The steps at which a comparison tries the scenarios.
fn each_arg<'a>(alloc: Global) -> Arg<'a> {
    Arg::new(alloc, "each")
        .long("each")
        .value_name("STEPS")
        .help("Try each scenario at FROM..TO/STEP, at most 1440 steps")
}

// The words that `picture` takes.
fn picture_parser<'a>(alloc: Global) -> Result<Parser<'a>, AllocError> {
    day_parser(alloc, "picture", PICTURE_ABOUT, PICTURE_EXAMPLE)?
        .arg(scenarios_arg(alloc, OVER_THE_FEED))?
        .arg(workers_arg(alloc))?
        .arg(strict_arg(alloc))
}

// The words that `live` takes.
fn live_parser<'a>(alloc: Global) -> Result<Parser<'a>, AllocError> {
    Parser::new(alloc, "live")
        .about(LIVE_ABOUT)
        .after_help(LIVE_EXAMPLE)
        .arg(airport_arg(alloc))?
        .arg(required_arg(
            alloc,
            "FEED1",
            "Feed of the first desk, in the order of its updates",
        ))?
        .arg(required_arg(alloc, "FEED2", "Feed of the second desk"))
}

// The words that `carry` takes.
fn carry_parser<'a>(alloc: Global) -> Result<Parser<'a>, AllocError> {
    let next = required_arg(alloc, "NEXT_AIRPORT", "Airport file of the day after");
    let tell = Arg::new(alloc, "tell")
        .long("tell")
        .action(ArgAction::SetTrue)
        .help("Print what to know before, in place of the feed");
    day_parser(alloc, "carry", CARRY_ABOUT, CARRY_EXAMPLE)?
        .arg(next)?
        .arg(tell)?
        .arg(format_arg(alloc, FORMATS, "with --tell: text, or json for programs"))
}

// A command about the day of a feed at an airport, with an example.
fn day_parser<'a>(
    alloc: Global,
    name: &'a str,
    about: &'a str,
    example: &'a str,
) -> Result<Parser<'a>, AllocError> {
    Parser::new(alloc, name)
        .about(about)
        .after_help(example)
        .arg(airport_arg(alloc))?
        .arg(required_arg(
            alloc,
            "FEED",
            "Feed of updates, in the order in which they came",
        ))
}

// The words of a question of a day or of a scenario over it, behind those that are the question's own, with the formats of its answer.
fn question_parser<'a>(
    parser: Parser<'a>,
    alloc: Global,
    formats: &'a [&'a str],
    help: &'a str,
) -> Result<Parser<'a>, AllocError> {
    parser
        .arg(scenarios_arg(alloc, OVER_THE_FEED))?
        .arg(scenario_arg(alloc))?
        .arg(format_arg(alloc, formats, help))?
        .arg(strict_arg(alloc))
}

// The words that `why` takes.
fn why_parser<'a>(alloc: Global) -> Result<Parser<'a>, AllocError> {
    let parser = day_parser(alloc, "why", WHY_ABOUT, WHY_EXAMPLE)?;
    let flight = required_arg(
        alloc,
        "FLIGHT",
        "The flight that is asked for",
    ).allow_negative_numbers(true);
    question_parser(parser.arg(flight)?, alloc, FORMATS, TEXT_OR_JSON)
}

// The role whose records are tried.
fn role_arg<'a>(alloc: Global) -> Arg<'a> {
    Arg::new(alloc, "role")
        .long("role")
        .value_name("ROLE")
        .value_parser(ROLES)
        .hide_possible_values(true)
        .help("Try only what ROLE may send: AO, GH, AP, ATC or NM")
}

// The words that `options` takes.
fn options_parser<'a>(alloc: Global) -> Result<Parser<'a>, AllocError> {
    let parser = day_parser(alloc, "options", OPTIONS_ABOUT, OPTIONS_EXAMPLE)?;
    let flight = required_arg(
        alloc,
        "FLIGHT",
        "The flight that is to be helped",
    ).allow_negative_numbers(true);
    parser
        .arg(flight)?
        .arg(role_arg(alloc))?
        .arg(format_arg(alloc, FORMATS, TEXT_OR_JSON))?
        .arg(workers_arg(alloc))?
        .arg(strict_arg(alloc))
}

// The words that `load` takes.
fn load_parser<'a>(alloc: Global) -> Result<Parser<'a>, AllocError> {
    let parser = day_parser(alloc, "load", LOAD_ABOUT, LOAD_EXAMPLE)?;
    let runway = Arg::new(alloc, "RUNWAY")
        .allow_negative_numbers(true)
        .help("One runway alone");
    question_parser(
        parser.arg(runway)?,
        alloc,
        TABLE_FORMATS,
        "text, csv (a row per cell) or json",
    )
}

// The words that `next` takes.
fn next_parser<'a>(alloc: Global) -> Result<Parser<'a>, AllocError> {
    let parser = day_parser(alloc, "next", NEXT_ABOUT, NEXT_EXAMPLE)?;
    let minutes = Arg::new(alloc, "MINUTES")
        .allow_negative_numbers(true)
        .help("How far ahead, 1 to 2880 minutes; 60 without it");
    question_parser(
        parser.arg(minutes)?,
        alloc,
        TABLE_FORMATS,
        "text, csv (a row per start-up) or json",
    )
}

// The words that `warnings` takes.
fn warnings_parser<'a>(alloc: Global) -> Result<Parser<'a>, AllocError> {
    let parser = day_parser(alloc, "warnings", WARNINGS_ABOUT, WARNINGS_EXAMPLE)?;
    question_parser(
        parser,
        alloc,
        TABLE_FORMATS,
        "text, csv (a row per warning) or json",
    )
}

// The words that `causes` takes.
fn causes_parser<'a>(alloc: Global) -> Result<Parser<'a>, AllocError> {
    let parser = day_parser(alloc, "causes", CAUSES_ABOUT, CAUSES_EXAMPLE)?;
    let by = Arg::new(alloc, "by")
        .long("by")
        .value_name("GROUP")
        .value_parser(GROUPS)
        .hide_possible_values(true)
        .help("runway or operator: a line for each of them");
    question_parser(
        parser.arg(by)?,
        alloc,
        TABLE_FORMATS,
        "text, csv (a row per group) or json",
    )
}

// The flight that a trace is of.
fn traced_arg<'a>(alloc: Global) -> Arg<'a> {
    Arg::new(alloc, "FLIGHT")
        .allow_negative_numbers(true)
        .help("One flight alone, with the records that move it")
}

// The words that `trace` takes.
fn trace_parser<'a>(alloc: Global) -> Result<Parser<'a>, AllocError> {
    let parser = day_parser(alloc, "trace", TRACE_ABOUT, TRACE_EXAMPLE)?.arg(traced_arg(alloc))?;
    let since = Arg::new(alloc, "since")
        .long("since")
        .value_name("TIME")
        .help("Start at the first CLOCK of TIME or later");
    parser
        .arg(since)?
        .arg(format_arg(alloc, FORMATS, TEXT_OR_JSON))?
        .arg(strict_arg(alloc))
}

// The words that `serve` takes.
fn serve_parser<'a>(alloc: Global) -> Result<Parser<'a>, AllocError> {
    Parser::new(alloc, "serve")
        .about(SERVE_ABOUT)
        .after_help(SERVE_EXAMPLE)
        .arg(airport_arg(alloc))?
        .arg(required_arg(
            alloc,
            "JOURNAL",
            "Journal of accepted records; created if missing",
        ))?
        .arg(format_arg(alloc, FORMATS, TEXT_OR_JSON))?
        .arg(sentences_arg(alloc))
}

// The words that `kinds` takes.
fn kinds_parser<'a>(alloc: Global) -> Result<Parser<'a>, AllocError> {
    let format = format_arg(alloc, FORMATS, "text, or json: an object for each kind");
    Parser::new(alloc, "kinds")
        .about(KINDS_ABOUT)
        .after_help(KINDS_EXAMPLE)
        .arg(format)
}

// The words that `version` takes. The program's help lists the option of this name.
fn version_parser<'a>(alloc: Global) -> Result<Parser<'a>, AllocError> {
    Ok(
        Parser::new(alloc, "version")
            .about(VERSION_ABOUT)
            .after_help(VERSION_EXAMPLE)
            .hide(true),
    )
}

// The words that `help` takes.
fn help_parser<'a>(alloc: Global) -> Result<Parser<'a>, AllocError> {
    Parser::new(alloc, "help")
        .about(HELP_ABOUT)
        .after_help(HELP_EXAMPLE)
        .visible_alias("manual")?
        .arg(Arg::new(alloc, "COMMAND").help("The command whose help is asked for"))
}

// The program's words with those of one more command. A parser has many fields, so dropping one is dear to prove: where a
// command fails, only this call drops it.
fn with<'a>(
    parser: Parser<'a>,
    command: Result<Parser<'a>, AllocError>,
) -> Result<Parser<'a>, AllocError> {
    parser.subcommand(command?)
}

/// The words that the program takes.
pub(crate) fn parser<'a>(alloc: Global) -> Result<Parser<'a>, AllocError> {
    let parser = Parser::new(alloc, "cdmseq")
        .bin_name("cdmseq")?
        .version(VERSION)
        .about(ABOUT)
        .after_help(EXAMPLES)
        .no_binary_name(true)
        .disable_help_subcommand(true)
        .subcommand_required(true)
        .arg_required_else_help(true);
    let parser = with(parser, plan_parser(alloc))?;
    let parser = with(parser, next_parser(alloc))?;
    let parser = with(parser, warnings_parser(alloc))?;
    let parser = with(parser, causes_parser(alloc))?;
    let parser = with(parser, compare_parser(alloc))?;
    let parser = with(parser, why_parser(alloc))?;
    let parser = with(parser, options_parser(alloc))?;
    let parser = with(parser, load_parser(alloc))?;
    let parser = with(parser, trace_parser(alloc))?;
    let parser = with(parser, picture_parser(alloc))?;
    let parser = with(parser, live_parser(alloc))?;
    let parser = with(parser, serve_parser(alloc))?;
    let parser = with(parser, carry_parser(alloc))?;
    let parser = with(parser, check_parser(alloc))?;
    let parser = with(parser, kinds_parser(alloc))?;
    let parser = with(parser, version_parser(alloc))?;
    with(parser, help_parser(alloc))
}
