//! What a worker passes before each piece.
use crate::job::PhaseName;

/// Where a phase can be watched or held. The worker that is going to run a piece calls `pass` once,
/// just before it runs the piece. A gate answers nothing. It may wait, and then it holds the handle
/// that waiting needs.
pub trait Gate: Sync {
    /// Lets the piece of this number pass, sooner or later. Pieces are numbered from 0.
    fn pass(&self, phase: PhaseName, piece: usize);
}

/// A gate that holds no piece.
#[derive(Clone, Copy, Debug, Default)]
pub struct OpenGate;

impl Gate for OpenGate {
    fn pass(&self, _phase: PhaseName, _piece: usize) {}
}
