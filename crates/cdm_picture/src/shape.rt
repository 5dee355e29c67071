//! The plain shapes that a picture is made of.
ghost use Rattle.std.specs.Prelude.{◌≡◌};
ghost use Rattle.cdm_picture.specs.Svg.{paint_word};

use crate::words::Words;

/// How an area or a text is painted.
#[derive(Clone, Copy, Debug, PartialEq, Eq)]
pub enum Paint {
    /// The page behind all.
    Page,
    /// A runway's band.
    Band,
    /// The upper part of a band, with its cells.
    Cells,
    /// What a cell takes.
    Cap,
    /// The flights of a cell.
    Count,
    /// The flights of a cell with more than it takes.
    Over,
    /// Closed minutes.
    Closed,
    /// An hour.
    Hour,
    /// A half hour.
    HalfHour,
    /// The minute that it is now.
    Now,
    /// Waiting for de-icing on the stand.
    Ice,
    /// Waiting since it would have had to leave its stand before now.
    Past,
    /// Waiting for a CTOT.
    Ctot,
    /// Waiting for the runway to open.
    Closure,
    /// Waiting for the spacing of flights.
    Spacing,
    /// Waiting for room in a cell.
    Rate,
    /// Taxiing out, off-block.
    OffBlock,
    /// Taxied out, airborne.
    Airborne,
    /// A take-off.
    TakeOff,
    /// A take-off that isn't where it was.
    Moved,
    /// A heading.
    Heading,
    /// A runway's name.
    Runway,
    /// A plain text.
    Plain,
    /// A text in the middle of its place.
    Middle,
    /// A letter on a bar.
    Letter,
    /// A text beside the minute that it is now.
    NowText,
}

impl Paint {
    /// The name of the paint in the picture's style.
    pub(crate) fn word(self) -> &'static str
        ensures { result.now ≡ paint_word self }
    {
        match self {
            Paint::Page => "pg",
            Paint::Band => "bd",
            Paint::Cells => "cs",
            Paint::Cap => "cp",
            Paint::Count => "ct",
            Paint::Over => "ov",
            Paint::Closed => "cl",
            Paint::Hour => "hr",
            Paint::HalfHour => "hf",
            Paint::Now => "nw",
            Paint::Ice => "ri",
            Paint::Past => "rn",
            Paint::Ctot => "rc",
            Paint::Closure => "rx",
            Paint::Spacing => "rs",
            Paint::Rate => "rr",
            Paint::OffBlock => "fo",
            Paint::Airborne => "fa",
            Paint::TakeOff => "to",
            Paint::Moved => "mv",
            Paint::Heading => "hd",
            Paint::Runway => "rw",
            Paint::Plain => "tx",
            Paint::Middle => "md",
            Paint::Letter => "lt",
            Paint::NowText => "nt",
        }
    }
}

/// A rectangle. Its place and its width from left to right are tenths of a pixel, those from top to bottom
/// whole pixels.
#[derive(Clone, Copy, Debug, PartialEq, Eq)]
pub struct Area {
    pub paint: Paint,
    pub x: u32,
    pub y: u32,
    pub width: u32,
    pub height: u32,
}

/// A text at a place: tenths of a pixel from the left, whole ones to its baseline.
#[derive(Debug, Drop)]
pub struct Label {
    pub paint: Paint,
    pub x: u32,
    pub y: u32,
    pub words: Words,
}

/// A plain shape.
#[derive(Debug, Drop)]
pub enum Shape {
    Area(Area),
    Label(Label),
}

impl Shape {
    /// The rectangle of this paint.
    pub(crate) fn area(paint: Paint, x: u32, y: u32, width: u32, height: u32) -> Shape {
        Shape::Area(Area {
            paint,
            x,
            y,
            width,
            height,
        })
    }

    /// The text of this paint.
    pub(crate) fn label(paint: Paint, x: u32, y: u32, words: Words) -> Shape {
        Shape::Label(Label { paint, x, y, words })
    }
}

/// A number of things as one of 32 bits, for a place or a size.
pub(crate) fn number_of(count: usize) -> u32 {
    u32::try_from(count).unwrap_or(u32::MAX)
}
