//! The stack that the system gives the program.
ghost use Rattle.std.specs.Prelude.{◌<◌, IfSome};

use cdm_fault::LEAST_STACK;
use std::fs;
use std::fs::Files;
use std::io::Read;

/// Where Linux tells the limits of a process.
const LIMITS: &str = "/proc/self/limits";

/// The first bytes of the limits, with the line of the stack.
const ROOM: usize = 1024;

/// The bytes of stack that this process may have, where they are fewer than every command works with. Where the system doesn't tell them,
/// nothing is known. This takes little stack itself.
#[inline(never)]
pub(crate) fn short_stack<R: AllocGlobal + Files>(rt: &R) -> Option<u64>
    ensures { IfSome result (λ bytes. bytes < 393216) }
{
    let bytes = stack_told(rt)?;
    if bytes < LEAST_STACK {
        Some(bytes)
    } else {
        None
    }
}

// The bytes of stack that the system tells.
fn stack_told<R: AllocGlobal + Files>(rt: &R) -> Option<u64> {
    let mut file = fs::open(rt, LIMITS).ok()?;
    let mut room = [0; ROOM];
    let count = file.read(&mut room).ok()?;
    stack_in(str::from_utf8(room.get(..count)?).ok()?)
}

// The bytes of stack in the text of the limits, if there is a limit and its line is whole.
fn stack_in(limits: &str) -> Option<u64> {
    let line = limits
        .lines()
        .filter_map(|line| line.strip_prefix("Max stack size "))
        .next()?;
    if !line.contains("bytes") {
        return None;
    }
    let word = line.split(' ').find(|word| !word.is_empty())?;
    word.parse::<u64>().ok()
}
