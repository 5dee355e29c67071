//! Layer by layer, the lowest first.

/// The answer of a call. Where it is refused memory, what it was lent is as before, and the same call is made once more.
macro_rules! again {
    ($call:expr, $memory:pat, $as_before:expr) => {
        match $call {
            Ok(answer) => Some(answer),
            Err($memory) if $as_before => $call.ok(),
            Err(_) => None,
        }
    };
}

mod agreeing;
mod asserts;
mod board;
mod day;
mod days;
mod desk;
mod memory;
mod phase;
mod rows;
mod scenario;
