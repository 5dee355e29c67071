//! What lies behind the flights of a runway: its cells, and the minutes at which it is closed.
ghost use Rattle.std.specs.Prelude.{◌/◌, ◌<◌, ◌≤◌};

use crate::hours::Hours;
use crate::shape::{Paint, Shape, number_of};
use crate::words::Words;
use cdm_runway::Runway;
use cdm_sequence::Slot;
use cdm_time::Minute;
use cdm_view::{cap_of_cell, cell_count, first_minute, flights_in_cell};
use std::alloc::{AllocError, Global};

/// The height of the upper part of a band, which has the cells, and how much of it the fullest cell takes.
pub(crate) const CELLS: u32 = 54;

const FULLEST: u32 = 34;

/// The least width of a cell in which its numbers have room, in tenths of a pixel.
const ROOM: u32 = 320;

// How high so many flights stand, where the fullest cell has or takes so many.
fn height_of(flights: u32, most: u32) -> u32 {
    flights.saturating_mul(FULLEST) / most.max(1)
}

/// What lies behind the flights of a runway in the hours of a picture: a band from `y` down, of a height.
#[derive(Clone, Copy)]
pub(crate) struct Band<'a> {
    pub(crate) hours: Hours,
    pub(crate) runway: &'a Runway,
    pub(crate) slots: &'a [Slot],
    pub(crate) y: u32,
    pub(crate) height: u32,
}

// Where a cell stands in a band, how many flights it has, and how many it takes.
#[derive(Clone, Copy)]
struct CellBar {
    x: u32,
    width: u32,
    count: u32,
    cap: u32,
}

impl CellBar {
    // Writes the numbers above the cell's flights, where there is room, or a mark where there are too many.
    fn push_numbers(
        self,
        alloc: Global,
        shapes: &mut Vec<Shape>,
        top: u32,
    ) -> Result<(), AllocError> {
        let words = if self.width >= ROOM {
            Words::load(alloc, self.count, self.cap)?
        } else if self.count > self.cap {
            Words::fixed(alloc, "!")?
        } else {
            return Ok(());
        };
        let middle = self.x.saturating_add(self.width / 2);
        shapes.push(Shape::label(Paint::Middle, middle, top.saturating_sub(3), words))?;
        Ok(())
    }

    // Draws the cell on a ground: how many flights it takes as a step, and how many it has. The fullest cell has or
    // takes `most`.
    fn push(
        self,
        alloc: Global,
        shapes: &mut Vec<Shape>,
        ground: u32,
        most: u32,
    ) -> Result<(), AllocError> {
        let (x, width, count, cap) = (self.x, self.width, self.count, self.cap);
        let step = height_of(cap, most);
        shapes.push(Shape::area(Paint::Cap, x, ground.saturating_sub(step), width, step))?;
        if count == 0 {
            return Ok(());
        }
        let paint = if count > cap {
            Paint::Over
        } else {
            Paint::Count
        };
        let height = height_of(count, most);
        let inner = width.saturating_sub(width / 4);
        let left = x.saturating_add(width / 8);
        let top = ground.saturating_sub(height);
        shapes.push(Shape::area(paint, left, top, inner, height))?;
        self.push_numbers(alloc, shapes, top)
    }
}

impl Band<'_> {
    // The cells of the hours, from the first up to an end.
    fn cells(&self) -> (u16, u16)
        ensures { result.1 ≤ 2880 / self.now.runway.now.cell }
    {
        let cell = self.runway.cell().get();
        let first = self.hours.first / cell;
        let end = self.hours.end.div_ceil(cell).min(cell_count(self.runway));
        (first, end)
    }

    // A cell of the runway.
    fn cell_bar(&self, cell: u16) -> CellBar
        requires { cell < 2880 / self.now.runway.now.cell }
    {
        let from = first_minute(self.runway, cell).get();
        let to = self
            .hours
            .nearest(from.saturating_add(self.runway.cell().get()));
        let from = self.hours.nearest(from);
        CellBar {
            x: self.hours.x_of(from),
            width: self.hours.width(from, to),
            count: number_of(flights_in_cell(self.runway, self.slots, cell)),
            cap: u32::from(cap_of_cell(self.runway, cell)),
        }
    }

    // The most flights that a cell of the hours has or takes.
    fn most(&self) -> u32 {
        let (first, end) = self.cells();
        let mut most = 0;
        for cell in first..end {
            let bar = self.cell_bar(cell);
            most = most.max(bar.cap).max(bar.count);
        }
        most
    }

    // Draws the cells of the runway in the upper part of the band.
    fn push_cells(&self, alloc: Global, shapes: &mut Vec<Shape>) -> Result<(), AllocError> {
        let most = self.most();
        let ground = self.y.saturating_add(CELLS - 2);
        let (first, end) = self.cells();
        for cell in first..end {
            self.cell_bar(cell).push(alloc, shapes, ground, most)?;
        }
        Ok(())
    }

    // Draws the minutes of the hours at which the runway is closed.
    fn push_closed(&self, shapes: &mut Vec<Shape>) -> Result<(), AllocError> {
        let mut from = self.hours.first;
        for number in self.hours.first..self.hours.end {
            let closed = match Minute::new(number) {
                Some(minute) => self.runway.closed(minute),
                None => false,
            };
            if !closed {
                self.push_stretch(shapes, from, number)?;
                from = number + 1;
            }
        }
        self.push_stretch(shapes, from, self.hours.end)
    }

    // Draws a stretch of closed minutes, if it has any.
    fn push_stretch(&self, shapes: &mut Vec<Shape>, from: u16, to: u16) -> Result<(), AllocError> {
        if from < to {
            let x = self.hours.x_of(from);
            let width = self.hours.width(from, to);
            shapes.push(Shape::area(Paint::Closed, x, self.y, width, self.height))?;
        }
        Ok(())
    }

    /// Draws the band.
    pub(crate) fn push(&self, alloc: Global, shapes: &mut Vec<Shape>) -> Result<(), AllocError> {
        let (hours, y) = (self.hours, self.y);
        let x = hours.x_of(hours.first);
        let width = hours.width(hours.first, hours.end);
        shapes.push(Shape::area(Paint::Band, x, y, width, self.height))?;
        shapes.push(Shape::area(Paint::Cells, x, y, width, CELLS))?;
        self.push_cells(alloc, shapes)?;
        self.push_closed(shapes)?;
        let name = Words::runway(alloc, self.runway.name())?;
        shapes.push(Shape::label(Paint::Runway, 100, y.saturating_add(22), name))?;
        let cells = Words::cells(alloc, self.runway.cell().get())?;
        shapes.push(Shape::label(Paint::Plain, 100, y.saturating_add(40), cells))?;
        Ok(())
    }
}
