//! The hours of a picture, from left to right.
ghost use Rattle.std.specs.Prelude.{◌<◌, ◌≤◌};

use crate::hours::{HALF_HOUR, Hours};
use crate::shape::{Paint, Shape};
use crate::words::Words;
use cdm_time::{Day, Minute};
use std::alloc::{AllocError, Global};

/// The least width from one time to the next, in tenths of a pixel.
const ROOM: u32 = 450;

// After how many half hours the next time is written.
fn step_of(hours: Hours) -> u16
    ensures { 0 < result }
{
    let half = hours.width(hours.first, hours.first.saturating_add(HALF_HOUR));
    match ROOM.div_ceil(half.max(1)) {
        0..=1 => 1,
        2 => 2,
        3..=4 => 4,
        5..=6 => 6,
        _ => 12,
    }
}

// The half hours of the hours, counted from 00:00: from the first up to an end.
fn half_hours(hours: Hours) -> (u16, u16)
    ensures { result.1 ≤ 96 }
{
    let first = hours.first.div_ceil(HALF_HOUR);
    let end = (hours.end / HALF_HOUR + 1).min(96);
    (first, end)
}

/// Draws the lines of the hours and half hours, which begin at `y`.
pub(crate) fn push_lines(
    shapes: &mut Vec<Shape>,
    hours: Hours,
    y: u32,
    height: u32,
) -> Result<(), AllocError> {
    let (first, end) = half_hours(hours);
    for half in first..end {
        let paint = if half % 2 == 0 {
            Paint::Hour
        } else {
            Paint::HalfHour
        };
        let x = hours.x_of(half * HALF_HOUR);
        shapes.push(Shape::area(paint, x, y, 10, height))?;
    }
    Ok(())
}

/// Writes the times of the half hours above `y`, as many as have room.
pub(crate) fn push_times(
    alloc: Global,
    shapes: &mut Vec<Shape>,
    day: Day,
    hours: Hours,
    y: u32,
) -> Result<(), AllocError> {
    let step = step_of(hours);
    let (first, end) = half_hours(hours);
    for half in first..end {
        let number = half * HALF_HOUR;
        if half % step == 0
            && let Some(minute) = Minute::new(number)
        {
            let words = Words::clock(alloc, day, minute)?;
            let x = hours.x_of(number);
            shapes.push(Shape::label(Paint::Middle, x, y.saturating_sub(4), words))?;
        }
    }
    Ok(())
}

/// Draws the line of the minute that it is now, where it is within the hours.
pub(crate) fn push_now(
    alloc: Global,
    shapes: &mut Vec<Shape>,
    hours: Hours,
    now: Minute,
    top: u32,
    bottom: u32,
) -> Result<(), AllocError> {
    let number = now.get();
    if number < hours.first || number >= hours.end {
        return Ok(());
    }
    let x = hours.x_of(number);
    let height = bottom.saturating_sub(top);
    shapes.push(Shape::area(Paint::Now, x, top, 20, height))?;
    let words = Words::fixed(alloc, "NOW")?;
    shapes.push(Shape::label(Paint::NowText, x, bottom.saturating_add(12), words))?;
    Ok(())
}
