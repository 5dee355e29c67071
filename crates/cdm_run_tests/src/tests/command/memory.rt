//! Words of which one request for memory may be refused.
use super::TRY;
use crate::tests::asserts::assert_holds;
use cdm_command::{Command, CommandFault, command_of};
use std::alloc::Global;

// The text that the words are answered, or the last file that they name. Nothing for want of memory.
fn text_in<'a>(answer: &'a Result<Command<'_>, CommandFault>) -> &'a str {
    match answer {
        Ok(Command::Tell { files, .. } | Command::Check { files, .. }) => files.feed,
        Ok(Command::Live { feed2, .. }) => feed2,
        Ok(Command::Carry { files, .. }) => files.third.unwrap_or_default(),
        Ok(Command::Serve { journal, .. }) => journal,
        Ok(Command::Kinds(_)) => "kinds",
        Ok(Command::Print(text)) | Err(CommandFault::Usage(text)) => text.as_str(),
        Err(CommandFault::Memory) => "",
    }
}

// Whether the words are answered twice by the same text, with this end, but for want of memory at one time.
fn is_told(alloc: Global, words: &[&str], end: &str) -> bool {
    let first = command_of(alloc, words);
    let second = command_of(alloc, words);
    let (text, again) = (text_in(&first), text_in(&second));
    if text.is_empty() {
        again.ends_with(end)
    } else {
        text.ends_with(end) && (again.is_empty() || again == text)
    }
}

/// Words are answered by the whole text or by want of memory.
#[test]
fn refused_memory_tells_no_half_text(rt: HostRuntime) {
    let table: [(&[&str], &str); 10] = [
        (&["plan", "a.csv", "--workers", "2", "f.csv"], "f.csv"),
        (&["live", "a.csv", "f.csv", "g.csv"], "g.csv"),
        (&["compare", "a.csv", "f.csv", "s.csv", "shut"], TRY),
        (&["why", "a.csv", "f.csv", "AB1"], "f.csv"),
        (&["load", "a.csv", "f.csv", "27-L"], TRY),
        (&["kinds", "--format", "json"], "kinds"),
        (&["--version"], "cdmseq 1.1.0 (rules 1)\n"),
        (&["help"], "more lines for people can follow.\n"),
        (&["help", "plan"], "cdmseq help | less\n"),
        (&["plan", "a.csv", "f.csv", "--workers", "65"], TRY),
    ];
    for (words, end) in table {
        assert_holds(&rt, is_told(rt.alloc(), words, end), end);
    }
}
