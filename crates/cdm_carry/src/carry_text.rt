//! What is asked for that carries a day over.
use cdm_kinds::Format;

/// What is asked for that carries a day over.
#[derive(Clone, Copy, PartialEq, Eq, Debug)]
pub enum CarryText {
    /// The feed of the next day.
    Feed,
    /// The notices before it.
    Notices(Format),
}
