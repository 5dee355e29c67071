//! The form of replies.

use cdm_kinds::Format;

/// The form of the replies of a served day (local profile).
#[derive(Clone, Copy, PartialEq, Eq, Debug)]
pub struct ReplyForm {
    /// Texts for people, or lines of JSON.
    pub format: Format,
    /// Whether a reply that refuses has a sentence that says why.
    pub sentences: bool,
}
