//! Reading the input and writing the output, in the steps that a port tells.
ghost use Rattle.std.specs.Prelude.{◌≡◌, ◌≤◌, length, take, IfOk, IfSome, IsNone, OnOk, option_to_list};
ghost use Rattle.std.specs.Io.BufRead.{DropsThrough};
ghost use Rattle.std.specs.Io.KnownBytes.{Appends, Consumes, IsAtEnd};
ghost use Rattle.cdm_port.specs.Heard.{IsHeard, event_of, heard_in};
ghost use Rattle.cdm_port.specs.inner.Reading.{line_with};

use crate::fault::PortFault;
use crate::heard::{Heard, LINE_LIMIT};
use crate::reason::Reason;
use std::alloc::{AllocError, Global};
use std::io;
use std::io::{ErrorKind, Read, Write};

// The next byte of a reader, or none at its end. A read that a signal interrupts is made again.
fn next_byte<R: Read>(reader: &mut R) -> io::Result<Option<u8>>
    ensures byte { IfOk result (λ byte. Consumes (R.remaining reader.old) (R.remaining reader.new) (option_to_list byte)) }
    ensures end { IfOk result (λ byte. IsNone byte → IsAtEnd (R.remaining reader.new)) }
{
    let mut byte = [0];
    for _ in 0..u64::MAX {
        match reader.read(&mut byte) {
            Ok(0) => return Ok(None),
            Ok(_) => return Ok(Some(byte[0])),
            Err(error) if error.kind() == ErrorKind::Interrupted => {}
            Err(error) => return Err(error),
        }
    }
    Err(ErrorKind::Interrupted.into())
}

/// The next line of an input. One that is too long is passed over to its end.
///
/// `CannotReadInput` or `Memory`.
pub(crate) fn next_line<R: Read>(alloc: Global, input: &mut R) -> Result<Heard, PortFault>
    ensures heard { IfOk result IsHeard }
    ensures line { IfOk result (λ heard. IfSome (R.remaining input.old) (λ bytes. event_of heard ≡ heard_in bytes)) }
    ensures rest { OnOk result (DropsThrough (R.remaining input.old) (R.remaining input.new) 10) }
{
    let mut line = Vec::new(alloc);
    for _ in 0..u64::MAX {
        match next_byte(input) {
            Ok(None) if line.is_empty() => return Ok(Heard::End),
            Ok(None) => return Ok(Heard::Broken),
            Ok(Some(b'\n')) if line.len() > LINE_LIMIT => return Ok(Heard::Broken),
            Ok(Some(b'\n')) => return Ok(Heard::Line(line)),
            Ok(Some(byte)) => push_up_to(&mut line, byte)?,
            Err(error) => return Err(PortFault::CannotReadInput(Reason::of(&error))),
        }
    }
    Err(PortFault::CannotReadInput(Reason::Told(ErrorKind::Interrupted)))
}

// Puts a byte behind a line, unless that is too long already.
fn push_up_to(line: &mut Vec<u8>, byte: u8) -> Result<(), AllocError>
    ensures { OnOk result (line.new.items ≡ line_with line.old.items byte) }
{
    if line.len() <= LINE_LIMIT {
        line.push(byte)?;
    }
    Ok(())
}

/// Writes bytes, and answers how many of them were written, and why not all where a write failed.
pub(crate) fn write_counted<W: Write>(writer: &mut W, bytes: &[u8]) -> (usize, Result<(), Reason>)
    ensures count { result.0 ≤ length bytes.now }
    ensures all { OnOk result.1 (result.0 ≡ length bytes.now) }
    ensures written { Appends (W.contents writer.old) (W.contents writer.new) (take result.0 bytes.now) }
{
    let mut count = 0;
    for _ in 0..u64::MAX {
        if count == bytes.len() {
            return (count, Ok(()));
        }
        match writer.write(&bytes[count..]) {
            Ok(0) => return (count, Err(Reason::Told(ErrorKind::WriteZero))),
            Ok(more) => count += more,
            Err(error) if error.kind() == ErrorKind::Interrupted => {}
            Err(error) => return (count, Err(Reason::of(&error))),
        }
    }
    (count, Err(Reason::Told(ErrorKind::Interrupted)))
}
