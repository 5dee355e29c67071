//! What a command does.
ghost use Rattle.cdm_ask.specs.Jobs.{IsJobOf};

use cdm_check::FilePaths;
use cdm_command::{Command, DayFiles};
use cdm_feed::Asked;
use cdm_kinds::Format;
use cdm_phase::Workers;
use cdm_serve::ReplyForm;

/// What is asked of which files.
#[derive(Clone, Copy, Debug)]
pub struct Question<'a> {
    /// The files of the day, and the one that is read after them, if there is one.
    pub files: DayFiles<'a>,
    /// What is asked of them.
    pub asked: Asked<'a>,
    /// How many workers answer it.
    pub workers: Workers,
    /// Whether the exit status says that a record of the feed is refused, or that the feed has none.
    pub is_strict: bool,
}

/// What a command does.
#[derive(Clone, Copy, Debug)]
pub enum Job<'a> {
    /// It asks this of the files of a day.
    Ask(Question<'a>),
    /// It lets two desks post a feed each to one board, at an airport.
    Live {
        airport: &'a str,
        feed1: &'a str,
        feed2: &'a str,
    },
    /// It serves the day of an airport as it happens, with a journal, and with replies of this form.
    Serve {
        airport: &'a str,
        journal: &'a str,
        form: ReplyForm,
    },
    /// It prints the table of the kinds of updates.
    Kinds(Format),
    /// It prints this text.
    Print(&'a str),
}

/// What a command does. A check tells its files by these paths.
pub fn job_of<'a>(paths: FilePaths<'a>, command: &'a Command<'a>) -> Job<'a>
    ensures { IsJobOf paths.entry command.now result }
{
    let one = Workers::new(1).unwrap();
    match command {
        Command::Tell {
            files,
            text,
            workers,
            is_strict,
        } => Job::Ask(Question {
            files: *files,
            asked: Asked::Day(*text),
            workers: *workers,
            is_strict: *is_strict,
        }),
        Command::Check { files, format } => Job::Ask(Question {
            files: *files,
            asked: Asked::Check(paths, *format),
            workers: one,
            is_strict: false,
        }),
        Command::Carry { files, text } => Job::Ask(Question {
            files: *files,
            asked: Asked::Carry(*text),
            workers: one,
            is_strict: false,
        }),
        Command::Live {
            airport,
            feed1,
            feed2,
        } => Job::Live {
            airport,
            feed1,
            feed2,
        },
        Command::Serve {
            airport,
            journal,
            format,
            sentences,
        } => Job::Serve {
            airport,
            journal,
            form: ReplyForm {
                format: *format,
                sentences: *sentences,
            },
        },
        Command::Kinds(format) => Job::Kinds(*format),
        Command::Print(text) => Job::Print(text),
    }
}
