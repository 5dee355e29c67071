//! Marks as SVG 1.1.
ghost use Rattle.std.specs.Prelude.{◌≡◌, ◌++◌, Some, IfOk, OnOk, flat_map};
ghost use Rattle.std.specs.String.{string_bytes};
ghost use Rattle.cdm_picture.specs.Svg.{area_text, blocked_text, flight_text, ground_text, heading_text, label_text, name_text, note_of, opening_text, picture_text, section_text, shape_text, style_text, take_off, tenths_text, title_text};

use crate::marks::{BlockedMark, FlightMark, Section};
use crate::shape::{Area, Label, Paint, Shape};
use crate::style::STYLE;
use cdm_time::Day;
use cdm_view::{Standing, push_standing};
use std::alloc::{AllocError, Global};
use std::fmt;
use std::fmt::Write;

/// Tenths of a pixel as SVG has them, with one digit behind the point.
#[derive(Clone, Copy)]
struct Tenths(u32);

impl fmt::Display for Tenths {
    ghost output = { λ tenths. Some (tenths_text tenths.0) };

    #[tactic(auto, unfolding(crate::specs::Svg::tenths_text))]
    fn fmt<W: fmt::Write>(&self, f: &mut fmt::Formatter<W>) -> fmt::Result {
        let whole = self.0 / 10;
        let tenth = self.0 % 10;
        write!(f, "{whole}.{tenth}")
    }
}

#[tactic(auto, unfolding(crate::specs::Svg::area_text))]
fn push_area(text: &mut String, area: &Area) -> Result<(), AllocError>
    ensures { OnOk result (string_bytes text.new ≡ string_bytes text.old ++ area_text area.now) }
{
    let paint = area.paint.word();
    let x = Tenths(area.x);
    let y = area.y;
    let width = Tenths(area.width);
    let height = area.height;
    writeln!(
        text,
        "<rect class='{paint}' x='{x}' y='{y}' width='{width}' height='{height}'/>"
    )
}

#[tactic(auto, unfolding(crate::specs::Svg::label_text))]
fn push_label(text: &mut String, label: &Label) -> Result<(), AllocError>
    ensures { OnOk result (string_bytes text.new ≡ string_bytes text.old ++ label_text label.now) }
{
    let paint = label.paint.word();
    let x = Tenths(label.x);
    let y = label.y;
    let words = label.words.text();
    writeln!(text, "<text class='{paint}' x='{x}' y='{y}'>{words}</text>")
}

fn push_shape(text: &mut String, shape: &Shape) -> Result<(), AllocError>
    ensures { OnOk result (string_bytes text.new ≡ string_bytes text.old ++ shape_text shape.now) }
{
    match shape {
        Shape::Area(area) => push_area(text, area),
        Shape::Label(label) => push_label(text, label),
    }
}

fn push_shapes(text: &mut String, shapes: &[Shape]) -> Result<(), AllocError>
    ensures { OnOk result (string_bytes text.new ≡ string_bytes text.old ++ flat_map shape_text shapes.now) }
{
    for shape in shapes {
        push_shape(text, shape)?;
    }
    Ok(())
}

// What stands behind a flight that is painted so.
fn note_of(paint: Paint) -> &'static str
    ensures { result.now ≡ note_of paint }
{
    match paint {
        Paint::Moved => " *",
        _ => "",
    }
}

#[tactic(auto, unfolding(crate::specs::Svg::title_text))]
fn push_title(text: &mut String, day: Day, flight: &FlightMark) -> Result<(), AllocError>
    ensures { OnOk result (string_bytes text.new ≡ string_bytes text.old ++ title_text day flight.now) }
{
    let waits = flight.waits.text();
    write!(text, "<title>")?;
    push_standing(text, day, &Standing::OnRunway(flight.runway, flight.slot))?;
    writeln!(text)?;
    writeln!(text, "{waits}</title>")
}

// The mark of a take-off itself.
fn take_off(flight: &FlightMark) -> Area
    ensures { result ≡ take_off flight.now }
{
    Area {
        paint: flight.paint,
        x: flight.x,
        y: flight.y,
        width: 30,
        height: 13,
    }
}

#[tactic(auto, unfolding(crate::specs::Svg::name_text))]
fn push_name(text: &mut String, flight: &FlightMark) -> Result<(), AllocError>
    ensures { OnOk result (string_bytes text.new ≡ string_bytes text.old ++ name_text flight.now) }
{
    let paint = flight.paint.word();
    let x = Tenths(flight.x);
    let y = flight.y;
    let name = flight.slot.name.text();
    let note = note_of(flight.paint);
    writeln!(
        text,
        "<text class='{paint}' x='{x}' y='{y}' dx='5' dy='11'>{name}{note}</text></g>"
    )
}

#[tactic(auto, unfolding(crate::specs::Svg::flight_text))]
fn push_flight(text: &mut String, day: Day, flight: &FlightMark) -> Result<(), AllocError>
    ensures { OnOk result (string_bytes text.new ≡ string_bytes text.old ++ flight_text day flight.now) }
{
    write!(text, "<g>")?;
    push_title(text, day, flight)?;
    push_shapes(text, &flight.bar)?;
    push_area(text, &take_off(flight))?;
    push_name(text, flight)
}

fn push_flights(text: &mut String, day: Day, flights: &[FlightMark]) -> Result<(), AllocError>
    ensures { OnOk result (string_bytes text.new ≡ string_bytes text.old ++ flat_map (flight_text day) flights.now) }
{
    for flight in flights {
        push_flight(text, day, flight)?;
    }
    Ok(())
}

#[tactic(auto, unfolding(crate::specs::Svg::blocked_text))]
fn push_blocked_flight(text: &mut String, mark: &BlockedMark) -> Result<(), AllocError>
    ensures { OnOk result (string_bytes text.new ≡ string_bytes text.old ++ blocked_text mark.now) }
{
    let paint = mark.paint.word();
    let x = Tenths(mark.x);
    let y = mark.y;
    let name = mark.flight.name.text();
    let rule = mark.flight.rule;
    let note = note_of(mark.paint);
    writeln!(
        text,
        "<text class='{paint}' x='{x}' y='{y}'>{name} {rule}{note}</text>"
    )
}

fn push_blocked(text: &mut String, blocked: &[BlockedMark]) -> Result<(), AllocError>
    ensures { OnOk result (string_bytes text.new ≡ string_bytes text.old ++ flat_map blocked_text blocked.now) }
{
    for mark in blocked {
        push_blocked_flight(text, mark)?;
    }
    Ok(())
}

#[tactic(auto, unfolding(crate::specs::Svg::heading_text))]
fn push_heading(text: &mut String, section: &Section) -> Result<(), AllocError>
    ensures { OnOk result (string_bytes text.new ≡ string_bytes text.old ++ heading_text section.now) }
{
    let y = section.y;
    let heading = section.heading.text();
    writeln!(
        text,
        "<g transform='translate(10,{y})'><text class='hd' y='18'>{heading}</text></g>"
    )
}

#[tactic(auto, unfolding(crate::specs::Svg::section_text))]
fn push_section(text: &mut String, day: Day, section: &Section) -> Result<(), AllocError>
    ensures { OnOk result (string_bytes text.new ≡ string_bytes text.old ++ section_text day section.now) }
{
    push_heading(text, section)?;
    push_shapes(text, &section.shapes)?;
    push_flights(text, day, &section.flights)?;
    push_blocked(text, &section.blocked)
}

fn push_sections(text: &mut String, day: Day, sections: &[Section]) -> Result<(), AllocError>
    ensures { OnOk result (string_bytes text.new ≡ string_bytes text.old ++ flat_map (section_text day) sections.now) }
{
    for section in sections {
        push_section(text, day, section)?;
    }
    Ok(())
}

#[tactic(auto, unfolding(crate::specs::Svg::opening_text))]
fn push_opening(text: &mut String, height: u32) -> Result<(), AllocError>
    ensures { OnOk result (string_bytes text.new ≡ string_bytes text.old ++ opening_text height) }
{
    writeln!(
        text,
        "<svg xmlns='http://www.w3.org/2000/svg' version='1.1' width='1600' height='{height}' viewBox='0 0 1600 {height}'>"
    )
}

#[tactic(auto, unfolding(crate::specs::Svg::style_text))]
fn push_style(text: &mut String) -> Result<(), AllocError>
    ensures { OnOk result (string_bytes text.new ≡ string_bytes text.old ++ style_text) }
{
    text.push_str(STYLE)?;
    Ok(())
}

#[tactic(auto, unfolding(crate::specs::Svg::ground_text))]
fn push_ground(text: &mut String, height: u32) -> Result<(), AllocError>
    ensures { OnOk result (string_bytes text.new ≡ string_bytes text.old ++ ground_text height) }
{
    writeln!(text, "<rect class='pg' width='1600' height='{height}'/>")
}

/// A picture of sections under a legend, so high, as SVG 1.1.
#[tactic(auto, unfolding(crate::specs::Svg::picture_text))]
pub(crate) fn picture_text(
    alloc: Global,
    day: Day,
    height: u32,
    legend: &[Shape],
    sections: &[Section],
) -> Result<Vec<u8>, AllocError>
    ensures { IfOk result (λ text. text.items ≡ picture_text day height legend.now sections.now) }
{
    let mut text = String::new(alloc);
    push_opening(&mut text, height)?;
    push_style(&mut text)?;
    push_ground(&mut text, height)?;
    push_shapes(&mut text, legend)?;
    push_sections(&mut text, day, sections)?;
    writeln!(text, "</svg>")?;
    Ok(text.into_bytes())
}
