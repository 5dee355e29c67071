//! Boards on days with one runway.
use crate::tests::days::day_of;
use cdm_board::{Board, Desk};
use std::alloc::Global;

/// A board with so many desks on the day that plans these flights.
pub fn opened(alloc: Global, flights: &[&str], desks: usize) -> Option<(Board, Vec<Desk>)> {
    match Board::open(alloc, day_of(alloc, flights)?, desks) {
        Ok(opened) => Some(opened),
        Err(_) => None,
    }
}

/// A board with two desks on the day that plans these flights.
pub fn two_desks(alloc: Global, flights: &[&str]) -> Option<(Board, Desk, Desk)> {
    let (board, mut desks) = opened(alloc, flights, 2)?;
    let second = desks.pop()?;
    let first = desks.pop()?;
    Some((board, first, second))
}
