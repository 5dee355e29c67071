//! What is told of a feed whose last line has no end.

use cdm_feed::Input;
use std::fmt;

/// The last line of this feed has no end.
#[derive(Clone, Copy)]
pub(crate) struct Unended(pub(crate) Input);

impl fmt::Display for Unended {
    fn fmt<W: fmt::Write>(&self, f: &mut fmt::Formatter<W>) -> fmt::Result {
        write!(f, "cdmseq: {}: its last line has no end", self.0)
    }
}
