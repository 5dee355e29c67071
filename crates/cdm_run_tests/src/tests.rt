//! Parts of runs and whole runs, and the command line.

/// The answer of a call, which is made once more where it is refused memory.
macro_rules! again {
    ($call:expr, $memory:pat) => {
        match $call {
            Err($memory) => $call,
            answer => answer,
        }
    };
}

mod asserts;
mod command;
mod devices;
mod feed;
mod live;
mod memory;
mod serve;
