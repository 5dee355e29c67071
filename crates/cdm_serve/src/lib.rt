//! A day served as it happens: records are posted to it and questions are asked of it, one a line, and each
//! accepted record is on the disk before its reply is written.
#![tactic(auto)]

mod answering;
mod asked;
mod asked_json;
mod fault;
mod form;
mod laws;
mod options;
mod performing;
mod posting;
mod refusing;
mod request;
mod serving;
mod starting;

pub use asked::Asked;
pub use fault::ServeError;
pub use form::ReplyForm;
pub use laws::served_journal_is_kept;
pub use request::Request;
pub use serving::serve;
