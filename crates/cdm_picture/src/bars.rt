//! The bars of flights: from the first minute at which a flight could take off to its take-off.

use crate::hours::Hours;
use crate::shape::{Paint, Shape};
use crate::words::Words;
use cdm_flight::push_last;
use cdm_sequence::{Mark, Slot};
use cdm_view::{Reason, Run};
use std::alloc::{AllocError, Global};

/// The height of a lane, and of a bar in it.
pub(crate) const LANE: u32 = 15;

const BAR: u32 = 10;

/// The least width of a bar on which a letter has room, in tenths of a pixel.
const ROOM: u32 = 100;

// Minutes of a bar that are painted alike, from the first up to an end.
#[derive(Clone, Copy)]
struct Piece {
    paint: Paint,
    first: u16,
    end: u16,
}

// How the waiting for a reason is painted.
fn paint_of(reason: &Reason) -> Paint {
    match reason {
        Reason::Ice => Paint::Ice,
        Reason::Now => Paint::Past,
        Reason::Ctot => Paint::Ctot,
        Reason::Closure => Paint::Closure,
        Reason::Spacing(_) => Paint::Spacing,
        Reason::Rate(..) => Paint::Rate,
    }
}

// The letter of a bar that is painted so.
fn letter_of(paint: Paint) -> &'static str {
    match paint {
        Paint::Ice => "I",
        Paint::Past => "N",
        Paint::Ctot => "C",
        Paint::Closure => "X",
        Paint::Spacing => "S",
        Paint::Rate => "R",
        Paint::OffBlock => "O",
        _ => "A",
    }
}

/// The minute at which the bar of a slot begins: a planned flight's first at which it could take off, and
/// the minute at which another one left its stand.
pub(crate) fn first_of(slot: &Slot) -> u16 {
    match (slot.mark, slot.tobt) {
        (Mark::Planned, Some(tobt)) => tobt.get().saturating_add(slot.exot).min(slot.ttot.get()),
        (Mark::Planned, None) => slot.ttot.get(),
        (Mark::OffBlock | Mark::Airborne, _) => slot.tsat.get(),
    }
}

// The pieces of the bar of a slot with these runs of waiting.
fn pieces_of(alloc: Global, slot: &Slot, runs: &[Run]) -> Result<Vec<Piece>, AllocError> {
    let mut pieces = Vec::new(alloc);
    let paint = match slot.mark {
        Mark::Planned => return waits_in(alloc, runs),
        Mark::OffBlock => Paint::OffBlock,
        Mark::Airborne => Paint::Airborne,
    };
    push_last(
        &mut pieces,
        Piece {
            paint,
            first: slot.tsat.get(),
            end: slot.ttot.get(),
        },
    )?;
    Ok(pieces)
}

// The minutes of a run of waiting.
fn piece_of(run: &Run) -> Piece {
    Piece {
        paint: paint_of(&run.reason),
        first: run.first.get(),
        end: run.last.get() + 1,
    }
}

// The runs of waiting, those that are painted alike and follow one another as one.
fn waits_in(alloc: Global, runs: &[Run]) -> Result<Vec<Piece>, AllocError> {
    let mut pieces: Vec<Piece> = Vec::new(alloc);
    for run in runs {
        let piece = piece_of(run);
        match pieces.last_mut() {
            Some(last) if last.paint == piece.paint && last.end == piece.first => {
                last.end = piece.end;
            }
            _ => push_last(&mut pieces, piece)?,
        }
    }
    Ok(pieces)
}

/// Writes a letter on a white ground, if there is one, with its middle and its baseline there.
pub(crate) fn push_letter(
    alloc: Global,
    shapes: &mut Vec<Shape>,
    letter: &'static str,
    middle: u32,
    y: u32,
) -> Result<(), AllocError> {
    if letter.is_empty() {
        return Ok(());
    }
    let left = middle.saturating_sub(45);
    shapes.push(Shape::area(Paint::Page, left, y.saturating_sub(9), 90, BAR))?;
    let words = Words::fixed(alloc, letter)?;
    shapes.push(Shape::label(Paint::Letter, middle, y, words))?;
    Ok(())
}

/// What is drawn of a slot before its take-off, in a lane that begins at `y`.
pub(crate) fn bar_of(
    alloc: Global,
    hours: Hours,
    slot: &Slot,
    runs: &[Run],
    y: u32,
) -> Result<Vec<Shape>, AllocError> {
    let mut bar = Vec::new(alloc);
    for piece in &pieces_of(alloc, slot, runs)? {
        let x = hours.x_of(piece.first);
        let width = hours.width(piece.first, piece.end);
        bar.push(Shape::area(piece.paint, x, y.saturating_add(2), width, BAR))?;
        if width >= ROOM {
            let middle = x.saturating_add(width / 2);
            push_letter(
                alloc,
                &mut bar,
                letter_of(piece.paint),
                middle,
                y.saturating_add(11),
            )?;
        }
    }
    Ok(bar)
}
