//! What stops the program: files that can't be opened, and the lines and exit statuses of faults.
#![tactic(auto)]

mod fault;
mod served;
mod shell;
mod unopened;

pub use fault::{Fault, LEAST_STACK, report_command_fault, report_fault, run_status};
pub use served::{ServedFiles, report_served_fault};
pub use shell::ShellWord;
pub use unopened::{OpenReason, PathText, ShownPath, UnopenedFile};
