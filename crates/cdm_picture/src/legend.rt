//! What the paints of a picture mean.

use crate::bars::push_letter;
use crate::shape::{Paint, Shape};
use crate::words::Words;
use std::alloc::{AllocError, Global};

/// The height of the legend.
pub(crate) const LEGEND: u32 = 62;

/// How wide an entry is, in tenths of a pixel.
const ENTRY: u32 = 1700;

// A paint with its letter and what it means.
#[derive(Clone, Copy)]
struct Entry {
    paint: Paint,
    letter: &'static str,
    meaning: &'static str,
}

// Draws an entry at a place of the line at `y`.
fn push_entry(
    alloc: Global,
    shapes: &mut Vec<Shape>,
    entry: Entry,
    x: u32,
    y: u32,
) -> Result<(), AllocError> {
    shapes.push(Shape::area(entry.paint, x, y.saturating_sub(10), 240, 12))?;
    push_letter(alloc, shapes, entry.letter, x.saturating_add(120), y)?;
    let words = Words::fixed(alloc, entry.meaning)?;
    let right = x.saturating_add(290);
    shapes.push(Shape::label(Paint::Plain, right, y, words))?;
    Ok(())
}

// Draws entries side by side in the line at `y`, and answers where the next one would begin.
fn push_entries(
    alloc: Global,
    shapes: &mut Vec<Shape>,
    entries: &[(Paint, &'static str, &'static str)],
    y: u32,
) -> Result<u32, AllocError> {
    let mut x: u32 = 1000;
    for (paint, letter, meaning) in entries {
        let entry = Entry {
            paint: *paint,
            letter,
            meaning,
        };
        push_entry(alloc, shapes, entry, x, y)?;
        x = x.saturating_add(ENTRY);
    }
    Ok(x)
}

// Draws a take-off of a paint with what it means.
fn push_take_off(
    alloc: Global,
    shapes: &mut Vec<Shape>,
    paint: Paint,
    meaning: &'static str,
    x: u32,
    y: u32,
) -> Result<(), AllocError> {
    shapes.push(Shape::area(paint, x, y.saturating_sub(10), 30, 12))?;
    let words = Words::fixed(alloc, meaning)?;
    let right = x.saturating_add(70);
    shapes.push(Shape::label(Paint::Plain, right, y, words))?;
    Ok(())
}

// Draws what a flight waits for.
fn push_reasons(alloc: Global, shapes: &mut Vec<Shape>, y: u32) -> Result<(), AllocError> {
    let reasons = [
        (Paint::Ice, "I", "ICE de-icing"),
        (Paint::Past, "N", "NOW already past"),
        (Paint::Ctot, "C", "CTOT tolerance"),
        (Paint::Closure, "X", "CLOSURE"),
        (Paint::Spacing, "S", "SPACING"),
        (Paint::Rate, "R", "RATE cell is full"),
        (Paint::OffBlock, "O", "off-block"),
        (Paint::Airborne, "A", "airborne"),
    ];
    let words = Words::fixed(alloc, "Waits for")?;
    shapes.push(Shape::label(Paint::Plain, 100, y, words))?;
    push_entries(alloc, shapes, &reasons, y)?;
    Ok(())
}

// Draws what lies behind the flights, and how a take-off is marked.
fn push_grounds(alloc: Global, shapes: &mut Vec<Shape>, y: u32) -> Result<(), AllocError> {
    let grounds = [
        (Paint::Cap, "", "cap of a cell"),
        (Paint::Count, "", "its flights"),
        (Paint::Over, "!", "more than the cap"),
        (Paint::Closed, "", "closed"),
    ];
    let words = Words::fixed(alloc, "Runway")?;
    shapes.push(Shape::label(Paint::Plain, 100, y, words))?;
    let x = push_entries(alloc, shapes, &grounds, y)?;
    push_take_off(
        alloc,
        shapes,
        Paint::TakeOff,
        "AB1  take-off (TTOT) and name",
        x,
        y,
    )?;
    let right = x.saturating_add(ENTRY).saturating_add(600);
    push_take_off(
        alloc,
        shapes,
        Paint::Moved,
        "AB1 *  not as in the day",
        right,
        y,
    )
}

/// The legend, at the head of a picture.
pub(crate) fn legend(alloc: Global) -> Result<Vec<Shape>, AllocError> {
    let mut shapes = Vec::new(alloc);
    push_reasons(alloc, &mut shapes, 22)?;
    push_grounds(alloc, &mut shapes, 44)?;
    Ok(shapes)
}
