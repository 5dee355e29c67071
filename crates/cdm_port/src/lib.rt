//! What a served day has outside: its journal, its input and its output, by the list of all that happens to them.
#![tactic(auto)]

mod calls;
mod disk;
mod fault;
mod file;
mod happening;
mod heard;
mod journal;
mod lock;
mod opened;
mod port;
mod reason;
mod streams;
mod torn;
mod unopened;

pub use cdm_history::History;
pub use fault::{JOURNAL_LIMIT, PortFault};
pub use file::JournalFile;
pub use happening::Happening;
pub use heard::{Heard, LINE_LIMIT};
pub use opened::OpenJournal;
pub use port::Port;
pub use reason::Reason;
pub use streams::Streams;
pub use unopened::OpenFault;
