//! Desks on two threads, the limits of a board, and what-if questions over a snapshot.

mod closing;
mod days;
pub mod desks;
mod limits;
mod meanwhile;
