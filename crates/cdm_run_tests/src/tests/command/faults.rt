//! The lines of faults. Their statuses are told by clauses.
use crate::tests::asserts::assert_holds;
use crate::tests::devices::Page;
use cdm_fault::{Fault, OpenReason, ShownPath, UnopenedFile, report_fault};
use cdm_feed::{CommonFault, Device, RunError};
use cdm_flight::{FlightName, RefusalWord, Status};
use cdm_live::LiveError;
use cdm_port::{PortFault, Reason};
use cdm_scenario::ScenarioName;
use cdm_serve::ServeError;
use std::alloc::Global;
use std::io::ErrorKind;
use std::process::Abort;

// Whether the text is this line of the program.
fn is_line(text: &[u8], line: &str) -> bool {
    let told = text.strip_prefix(b"cdmseq: ".as_slice());
    let told = told.and_then(|text| text.strip_suffix(b"\n".as_slice()));
    told == Some(line.as_bytes())
}

// Whether the fault has this line.
fn has_line(fault: &Fault, line: &str) -> bool {
    let mut device = Device::new(Page::new());
    report_fault(fault, &mut device);
    is_line(device.into_inner().text(), line)
}

// Asserts that the fault has this line.
fn check_line(rt: &impl Abort, fault: Fault, line: &str) {
    assert_holds(rt, has_line(&fault, line), line);
}

#[test]
fn faults_have_lines(rt: HostRuntime) {
    use Fault::{Live, NoMemory, Run};
    use cdm_feed::Input::{Airport, Feed, Feed1, Feed2};
    let unknown = CommonFault::Airport(5, RefusalWord::Unknown);
    let common = [
        (CommonFault::Read(Airport), "cannot read AIRPORT"),
        (CommonFault::Read(Feed), "cannot read FEED"),
        (CommonFault::Read(Feed1), "cannot read FEED1"),
        (
            CommonFault::TooLong(Feed),
            "FEED is longer than 8388608 bytes",
        ),
        (
            CommonFault::TooLong(Feed2),
            "FEED2 is longer than 8388608 bytes",
        ),
        (unknown, "AIRPORT record 5: UNKNOWN"),
        (CommonFault::Memory, "out of memory"),
        (CommonFault::Write, "cannot write"),
    ];
    for (fault, line) in common {
        check_line(&rt, Run(RunError::Common(fault)), line);
        check_line(&rt, Live(LiveError::Common(fault)), line);
    }
    let disordered = RunError::Scenario(1, RefusalWord::Order);
    let night = ScenarioName::new(b"NIGHT").expect(&rt, "scenario");
    let update = RunError::Update(night, 2, RefusalWord::Unknown);
    let flight = FlightName::new(b"AB1").expect(&rt, "flight");
    let runs = [
        (
            RunError::NotPlanned(flight, Status::Cancelled),
            "AB1 is cancelled",
        ),
        (disordered, "SCENARIOS record 1: ORDER"),
        (RunError::NoScenario(night), "no scenario NIGHT"),
        (
            RunError::OtherDay,
            "--since names a time outside the airport's two days",
        ),
        (update, "SCENARIOS scenario NIGHT: update 2: UNKNOWN"),
    ];
    for (fault, line) in runs {
        check_line(&rt, Run(fault), line);
    }
    let live_runs = [
        (LiveError::HistoryFull, "board is full after 4096 calls"),
        (LiveError::Mismatch, "board and desk differ"),
    ];
    for (fault, line) in live_runs {
        check_line(&rt, Live(fault), line);
    }
    check_line(&rt, NoMemory, "out of memory");
}

// A path of its own.
fn shown(alloc: Global) -> Option<ShownPath> {
    Some(ShownPath(String::from_str(alloc, "j.csv").ok()?))
}

#[test]
fn faults_of_files_name_their_paths(rt: HostRuntime) {
    let path = shown(rt.alloc()).expect(&rt, "path");
    let in_use = Fault::JournalInUse(path);
    check_line(&rt, in_use, "JOURNAL is in use (j.csv)");
    let path = shown(rt.alloc()).expect(&rt, "path");
    let line = "JOURNAL is missing, and was served before (j.csv)";
    check_line(&rt, Fault::JournalMissing(path), line);
}

#[test]
fn faults_of_a_port_have_lines(rt: HostRuntime) {
    let (denied, full) = (ErrorKind::PermissionDenied, ErrorKind::StorageFull);
    let ports = [
        (
            PortFault::CannotReadJournal(Reason::from(denied)),
            "cannot read JOURNAL (permission denied)",
        ),
        (
            PortFault::JournalTooLong,
            "JOURNAL is longer than 8388608 bytes",
        ),
        (
            PortFault::CannotReadInput(Reason::from(ErrorKind::Other)),
            "cannot read standard input",
        ),
        (
            PortFault::CannotWriteJournal(Reason::from(full)),
            "cannot write JOURNAL (no space left on device)",
        ),
        (
            PortFault::CannotWrite(Reason::from(ErrorKind::Uncategorized)),
            "cannot write",
        ),
        (PortFault::JournalChanged, "JOURNAL was changed by another"),
        (PortFault::Memory, "out of memory"),
    ];
    for (fault, line) in ports {
        check_line(&rt, Fault::Serve(ServeError::Port(fault)), line);
    }
}

#[test]
fn faults_of_a_served_day_have_lines(rt: HostRuntime) {
    let unknown = ServeError::Journal(4, RefusalWord::Unknown);
    check_line(&rt, Fault::Serve(unknown), "JOURNAL record 4: UNKNOWN");
    check_line(&rt, Fault::Serve(ServeError::TooMany), "too many records");
}

// The fault of a feed at this path that can't be opened for this reason.
fn unopened(alloc: Global, path: &str, reason: OpenReason) -> Option<Fault> {
    let path = String::from_str(alloc, path).ok()?;
    let file = UnopenedFile { path, reason };
    Some(Fault::CannotOpen(cdm_feed::Input::Feed, file))
}

#[test]
fn unopened_files_are_told_by_path_and_reason(rt: HostRuntime) {
    use ErrorKind::{NotADirectory, NotFound, PermissionDenied, Uncategorized};
    use OpenReason::{Told, TooManyFiles};
    let table = [
        (
            "f.csv",
            Told(NotFound),
            "cannot read FEED (f.csv: no such file)",
        ),
        (
            "f.csv",
            Told(PermissionDenied),
            "cannot read FEED (f.csv: permission denied)",
        ),
        (
            "f.csv/g",
            Told(NotADirectory),
            "cannot read FEED (f.csv/g: not a directory)",
        ),
        ("f.csv", Told(Uncategorized), "cannot read FEED (f.csv)"),
        (
            "f.csv",
            TooManyFiles,
            "cannot read FEED (f.csv: too many open files)",
        ),
        (
            "fl\u{fc}ge \u{1b}[2J\n\u{7f}\u{85}",
            Told(NotFound),
            "cannot read FEED (fl\u{fc}ge \\x1b[2J\\x0a\\x7f\\xc2\\x85: no such file)",
        ),
    ];
    for (path, reason, line) in table {
        let fault = unopened(rt.alloc(), path, reason).expect(&rt, "path");
        check_line(&rt, fault, line);
    }
}
