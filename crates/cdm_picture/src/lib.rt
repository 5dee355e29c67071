//! A day as a picture: the hours of its runways from left to right, with their cells, closures and flights,
//! and its scenarios beneath, as SVG.
#![tactic(auto)]

mod axis;
mod bands;
mod bars;
mod hours;
mod lanes;
mod legend;
mod marks;
mod scenes;
mod section;
mod shape;
mod spans;
mod style;
mod svg;
mod words;

pub use scenes::picture;
