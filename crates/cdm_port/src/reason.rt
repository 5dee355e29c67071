//! Why the system has not done a call.
ghost use Rattle.std.specs.Prelude.{◌≡◌};
ghost use Rattle.std.specs.IoError.{error_kind};
ghost use Rattle.cdm_port.specs.Reasons.{reason_for};

use std::io::{Error, ErrorKind};

/// Why the system has not done a call. It is shown behind a fault's words, in brackets, where the system tells it, and
/// else as nothing.
#[derive(Clone, Copy, PartialEq, Eq, Debug, thiserror::Error)]
pub enum Reason {
    /// The system doesn't tell why.
    #[error("")]
    Untold,
    /// The device is full.
    #[error(" (no space left on device)")]
    NoSpace,
    /// What the system tells.
    #[error(" ({0})")]
    Told(ErrorKind),
}

impl Reason {
    /// What the system says of an error.
    pub(crate) fn of(error: &Error) -> Reason
        ensures { result ≡ reason_for (error_kind error.now) }
    {
        Reason::from(error.kind())
    }
}

impl From<ErrorKind> for Reason {
    ghost from_gives = { λ kind reason. reason ≡ reason_for kind };

    fn from(kind: ErrorKind) -> Reason {
        match kind {
            ErrorKind::Other | ErrorKind::Uncategorized => Reason::Untold,
            ErrorKind::StorageFull => Reason::NoSpace,
            kind => Reason::Told(kind),
        }
    }
}
