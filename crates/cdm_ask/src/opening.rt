//! The files that the words name.
ghost use Rattle.std.specs.Prelude.{◌≡◌, IfErr, IfOk, Some};
ghost use Rattle.std.specs.Option.{option_copied};
ghost use Rattle.cdm_ask.specs.Opening.{unread};
ghost use Rattle.cdm_ask.specs.Stops.{IsUnopened};

use crate::named::Named;
use cdm_command::{DayFiles, STANDARD_INPUT};
use cdm_fault::{Fault, OpenReason, PathText, ShownPath, UnopenedFile};
use cdm_feed::{Asked, Device, Input, Lent, run_asked};
use cdm_phase::{OpenGate, Workers};
use either::Either;
use std::alloc::{AllocError, Global};
use std::fs::Files;
use std::io::ErrorKind;
use std::thread::Threads;
use std::{fs, io};

/// A file, or standard input. The latter is boxed, since each move of its buffer would take room on the stack.
pub type Opened<R> = Either<<R as Files>::File, Box<<R as io::Input>::Reader>>;

/// Such a file, or nothing where none is named.
pub type OpenedOrEmpty<R> = Either<Opened<R>, &'static [u8]>;

/// What the system answers where this process, or all processes, have as many open files as they may have.
const TOO_MANY_FILES: [i32; 2] = [24, 23];

/// Opens the file of this path as this input. A fault is one of opening it, or want of memory.
pub fn open<'a, R: AllocGlobal + Files + io::Input>(
    rt: &R,
    path: &'a str,
    input: Input,
) -> Result<Named<'a, Opened<R>>, Fault>
    ensures opened { IfOk result (λ file. file ≡ unread (Some path.now) input) }
    ensures fault { IfErr result (IsUnopened input) }
{
    let file = open_file(rt, path, input)?;
    Ok(Named::new(Some(path), input, file))
}

/// Opens the file of this path as this input, if one is named. Without one the input has no byte.
pub fn open_named<'a, R: AllocGlobal + Files + io::Input>(
    rt: &R,
    path: Option<&'a str>,
    input: Input,
) -> Result<Named<'a, OpenedOrEmpty<R>>, Fault>
    ensures opened { IfOk result (λ file. file ≡ unread (option_copied path.entry) input) }
    ensures fault { IfErr result (IsUnopened input) }
{
    let file = file_or_empty(rt, path, input)?;
    Ok(Named::new(path, input, file))
}

// Opens a file, if one is named.
fn file_or_empty<R: AllocGlobal + Files + io::Input>(
    rt: &R,
    path: Option<&str>,
    input: Input,
) -> Result<OpenedOrEmpty<R>, Fault>
    ensures { IfErr result (IsUnopened input) }
{
    match path {
        Some(path) => Ok(Either::Left(open_file(rt, path, input)?)),
        None => Ok(Either::Right(&[])),
    }
}

// Opens a file, or takes standard input where that is its name. A folder is no file. A fault is named as the input.
fn open_file<R: AllocGlobal + Files + io::Input>(
    rt: &R,
    path: &str,
    input: Input,
) -> Result<Opened<R>, Fault>
    ensures { IfErr result (IsUnopened input) }
{
    if path == STANDARD_INPUT {
        let Ok(reader) = Box::new(rt.alloc(), rt.reader()) else {
            return Err(Fault::NoMemory);
        };
        return Ok(Either::Right(reader));
    }
    if fs::metadata(rt, path).is_ok_and(|found| found.is_dir()) {
        let folder = OpenReason::Told(ErrorKind::IsADirectory);
        return Err(Fault::CannotOpen(input, unopened(rt.alloc(), path, folder)?));
    }
    match fs::open(rt, path) {
        Ok(file) => Ok(Either::Left(file)),
        Err(error) => {
            let file = unopened(rt.alloc(), path, reason_of(&error))?;
            Err(Fault::CannotOpen(input, file))
        }
    }
}

// Why a file can't be opened, as the system says it.
fn reason_of(error: &io::Error) -> OpenReason {
    match error.raw_os_error() {
        Some(code) if TOO_MANY_FILES.contains(&code) => OpenReason::TooManyFiles,
        _ => OpenReason::Told(error.kind()),
    }
}

/// A path of its own, for a line.
pub fn shown(alloc: Global, path: &str) -> Result<ShownPath, AllocError> {
    Ok(ShownPath(String::from_str(alloc, path)?))
}

/// A file that can't be opened for this reason.
pub fn unopened(alloc: Global, path: &str, reason: OpenReason) -> Result<UnopenedFile, AllocError> {
    let path = String::from_str(alloc, path)?;
    Ok(UnopenedFile { path, reason })
}

/// What is asked of the airport file, the third file and this feed, if there is one, as a text in memory.
pub fn text_of<R: AllocGlobal + Files + io::Input + Threads + Sync>(
    rt: &R,
    files: DayFiles<'_>,
    feed: Option<&str>,
    asked: &Asked<'_>,
) -> Result<String, Fault> {
    let alloc = rt.alloc();
    let airport = &mut open(rt, files.airport, Input::Airport)?.into_device();
    let feed = &mut open_named(rt, feed, Input::Feed)?.into_device();
    let third = &mut open_named(rt, files.third, asked.third_input())?.into_device();
    let lent = Lent {
        rt,
        alloc,
        workers: Workers::new(1).unwrap(),
        gate: &OpenGate,
    };
    let mut text = Vec::new(alloc);
    let out = &mut Device::new(&mut text);
    run_asked(&lent, asked, airport, feed, third, out)?;
    Ok(String::from_utf8(text).unwrap_or(String::new(alloc)))
}

/// Whether the airport file and the third file are regular files, which can be read a second time.
pub fn are_regular<R: Files>(rt: &R, files: DayFiles<'_>) -> bool {
    is_regular(rt, files.airport) && files.third.is_none_or(|path| is_regular(rt, path))
}

/// Whether a path names a regular file, which can be read a second time.
pub fn is_regular<R: Files>(rt: &R, path: &str) -> bool {
    if path == STANDARD_INPUT {
        return false;
    }
    match fs::metadata(rt, path) {
        Ok(found) => found.is_file(),
        Err(_) => false,
    }
}

/// A path as the lines of a check show it.
pub fn shown_path(alloc: Global, path: &str) -> Result<String, AllocError> {
    let path = PathText(path);
    format!(in alloc; "{path}")
}
