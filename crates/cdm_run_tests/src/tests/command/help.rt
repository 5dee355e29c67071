//! The help and the version.
use crate::tests::asserts::assert_holds;
use cdm_command::{Command, CommandFault, command_of};
use std::alloc::Global;

// What the manual says of times, records, columns, words and statuses, among other things.
const TOLD: &str = "\
TOBT   target|EXOT   estimated|CTOT   calculated|TSAT   target|TTOT   target|\
\nDAY,2025-03-10\n|\nRUNWAY,27L,10,2\n|\nTAXI,*,27L,15\n|\nTAXI,A1,27L,10\n|\nSPACE,27L,H,2\n|\
DAY,day|RUNWAY,runway,cell,cap|TAXI,stand,runway,minutes|\
SPACE,runway,group,minutes|AP,GROUP,|SPACING  at|\
SCENARIO,name|\nSCENARIO,SHUT\n|SCENARIO each|DELTA    the change|\
AP,FLT,|AO,TOBT,|AP,STAND,|ATC,RWY,|NM,CTOT,|GH,ICE,|ATC,PRIO,|ATC,OFF,|ATC,AIR,|AO,CNL,|\
ATC,RATE,|ATC,CLOSE,|ATC,OPEN,|ATC,TAXI,|ATC,CLOCK,|NM,TOL,|P  planned|O  off-block|A  airborne|\
PLACED|DELAY|MAX|LATE|BLOCKED|FIELDS |ROLE |KIND |TEXT |RANGE |AUTHORITY |UNKNOWN |EXISTS |\
ENDED |OFFBLOCK |ORDER |NOTREADY |FULL |TOBT     the|RUNWAY   it|EXOT     its|HORIZON  it|\
CTOT     it|CLOSURE  the|RATE     the|0  the complete|1  a file|2  usage error|3  a file|4  check|- reads|\
FEED1 and FEED2|DESK     the|MOVED    how|--each   tries|scenario,flight,status,|WAIT     for|RATE     the cell|RUNWAY   each|\
picture draws|two runs may print different texts|\
\nPLAN\n|\nNEXT\n|\nWARNINGS\n|\nCAUSES\n|\nCOMPARE\n|\nWHY\n|\nOPTIONS\n|\nLOAD\n|\nTRACE\n|\nPICTURE\n|\nLIVE\n|\nSERVE\n|\nCARRY\n|\nCHECK\n|\
\nKINDS\n|\nJSON\n|\nSTATUS\n|\nTHE BOARD\n|OVERDUE  off-block|--since  lists|--by operator|take --format csv|\
--day-at begins|--airport] [--day YYYY-MM-DD]";

const ALL: &str = "Usage: cdmseq <COMMAND>";

const PLAN: &str = "Usage: cdmseq plan [OPTIONS] <AIRPORT> <FEED>";

const NEXT: &str = "Usage: cdmseq next [OPTIONS] <AIRPORT> <FEED> [MINUTES]";

const WARNINGS: &str = "Usage: cdmseq warnings [OPTIONS] <AIRPORT> <FEED>";

const CAUSES: &str = "Usage: cdmseq causes [OPTIONS] <AIRPORT> <FEED>";

const TRACE: &str = "Usage: cdmseq trace [OPTIONS] <AIRPORT> <FEED> [FLIGHT]";

const COMPARE: &str = "Usage: cdmseq compare [OPTIONS] <AIRPORT> <FEED> <SCENARIOS> [NAME]";

const WHY: &str = "Usage: cdmseq why [OPTIONS] <AIRPORT> <FEED> <FLIGHT>";

const OPTIONS: &str = "Usage: cdmseq options [OPTIONS] <AIRPORT> <FEED> <FLIGHT>";

const LOAD: &str = "Usage: cdmseq load [OPTIONS] <AIRPORT> <FEED> [RUNWAY]";

const PICTURE: &str = "Usage: cdmseq picture [OPTIONS] <AIRPORT> <FEED>";

const LIVE: &str = "Usage: cdmseq live <AIRPORT> <FEED1> <FEED2>";

const CARRY: &str = "Usage: cdmseq carry [OPTIONS] <AIRPORT> <FEED> <NEXT_AIRPORT>";

const CHECK: &str = "Usage: cdmseq check [OPTIONS] <AIRPORT> <FEED>";

const KINDS: &str = "Usage: cdmseq kinds [OPTIONS]";

const HELP: &str = "Usage: cdmseq help [COMMAND]";

// The text that the words ask to be printed.
fn printed(alloc: Global, words: &[&str]) -> Option<String> {
    match command_of(alloc, words) {
        Ok(Command::Print(text)) => Some(text),
        _ => None,
    }
}

// Whether no line is longer than a terminal's.
fn has_short_lines(text: &str) -> bool {
    text.lines().all(|line| line.len() <= 80)
}

// Whether it is a help of 29 lines at most with this usage and an example, which names the manual.
fn is_help(text: &str, usage: &str) -> bool {
    text.contains(usage)
        && text.contains("\nExamples:\n  cdmseq ")
        && text.ends_with("Full manual: cdmseq help | less\n")
        && text.lines().count() <= 29
        && has_short_lines(text)
}

// Whether the words print such a help.
fn prints_help(alloc: Global, words: &[&str], usage: &str) -> bool {
    printed(alloc, words).is_some_and(|text| is_help(&text, usage))
}

#[test]
fn help_of_a_command_is_a_screen(rt: HostRuntime) {
    let table: [(&[&str], &str); 21] = [
        (&["-h"], ALL),
        (&["--help"], ALL),
        (&["plan", "-h"], PLAN),
        (&["plan", "--help"], PLAN),
        (&["plan", "a", "-h"], PLAN),
        (&["help", "plan"], PLAN),
        (&["manual", "plan"], PLAN),
        (&["help", "next"], NEXT),
        (&["help", "warnings"], WARNINGS),
        (&["help", "causes"], CAUSES),
        (&["help", "trace"], TRACE),
        (&["help", "compare"], COMPARE),
        (&["help", "why"], WHY),
        (&["help", "options"], OPTIONS),
        (&["load", "--help"], LOAD),
        (&["help", "picture"], PICTURE),
        (&["help", "live"], LIVE),
        (&["help", "carry"], CARRY),
        (&["help", "check"], CHECK),
        (&["help", "kinds"], KINDS),
        (&["help", "help"], HELP),
    ];
    for (words, usage) in table {
        assert_holds(&rt, prints_help(rt.alloc(), words, usage), words);
    }
}

// Whether no words are told to be wrong, by the program's help.
fn asks_for_a_command(alloc: Global) -> bool {
    match command_of::<&str>(alloc, &[]) {
        Err(CommandFault::Usage(text)) => is_help(&text, ALL),
        _ => false,
    }
}

// Whether the words print the manual.
fn prints_manual(alloc: Global, words: &[&str]) -> bool {
    printed(alloc, words).is_some_and(|text| {
        text.contains(ALL)
            && TOLD.split('|').all(|part| text.contains(part))
            && has_short_lines(&text)
    })
}

// Whether the word prints the version.
fn prints_version(alloc: Global, word: &str) -> bool {
    printed(alloc, &[word]).as_deref() == Some("cdmseq 1.1.0 (rules 1)\n")
}

#[test]
fn the_manual_and_the_version_are_printed(rt: HostRuntime) {
    let alloc = rt.alloc();
    assert_holds(&rt, asks_for_a_command(alloc), "no words");
    for word in ["help", "manual"] {
        assert_holds(&rt, prints_manual(alloc, &[word]), word);
    }
    for word in ["--version", "-V", "version"] {
        assert_holds(&rt, prints_version(alloc, word), word);
    }
}
