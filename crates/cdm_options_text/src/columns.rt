//! Columns.
ghost use Rattle.std.specs.Prelude.{◌≡◌, ◌++◌, IfOk, OnOk, replicate};
ghost use Rattle.std.specs.Fmt.{decimal};
ghost use Rattle.std.specs.String.{string_bytes};
ghost use Rattle.cdm_report.specs.Columns.{left_in, right_in};
ghost use Rattle.cdm_report.specs.Delta.{change};
ghost use Rattle.cdm_options_text.specs.Lines.{column, count_columns, gain_text};

use cdm_report::Counts;
use cdm_time::Minute;
use std::alloc::{AllocError, Global};
use std::fmt::Write;

// So many blanks.
fn push_blanks(text: &mut Vec<u8>, blanks: usize) -> Result<(), AllocError>
    ensures { OnOk result (text.new.items ≡ text.old.items ++ replicate blanks 32) }
{
    for _ in 0..blanks {
        text.push(b' ')?;
    }
    Ok(())
}

/// A field on the left of a column, and blanks behind it.
#[tactic(auto, unfolding(cdm_report::specs::Columns::left_in))]
pub(crate) fn push_left(text: &mut Vec<u8>, width: usize, field: &[u8]) -> Result<(), AllocError>
    ensures { OnOk result (text.new.items ≡ text.old.items ++ left_in width field.now) }
{
    text.extend_from_slice(field)?;
    push_blanks(text, width.saturating_sub(field.len()))
}

// A field on the right of a column, and blanks before it.
#[tactic(auto, unfolding(cdm_report::specs::Columns::right_in))]
fn push_right(text: &mut Vec<u8>, width: usize, field: &[u8]) -> Result<(), AllocError>
    ensures { OnOk result (text.new.items ≡ text.old.items ++ right_in width field.now) }
{
    push_blanks(text, width.saturating_sub(field.len()))?;
    text.extend_from_slice(field)
}

// By how much a number grew, with its sign.
#[tactic(auto, unfolding(cdm_report::specs::Delta::change))]
fn change(alloc: Global, from: u32, to: u32) -> Result<Vec<u8>, AllocError>
    ensures { IfOk result (λ text. text.items ≡ change from to) }
{
    let mut text = String::new(alloc);
    if from <= to {
        write!(text, "+{}", to - from)?;
    } else {
        write!(text, "-{}", from - to)?;
    }
    Ok(text.into_bytes())
}

// A number.
fn number(alloc: Global, count: usize) -> Result<Vec<u8>, AllocError>
    ensures { IfOk result (λ text. text.items ≡ decimal count) }
{
    let mut text = String::new(alloc);
    write!(text, "{count}")?;
    Ok(text.into_bytes())
}

/// By how many minutes a take-off is sooner, or a hyphen where there was none before. It isn't later.
#[tactic(auto, unfolding(crate::specs::Lines::gain_text))]
pub(crate) fn gain(
    alloc: Global,
    before: &Option<Minute>,
    ttot: Minute,
) -> Result<Vec<u8>, AllocError>
    ensures { IfOk result (λ text. text.items ≡ gain_text before.now ttot) }
{
    match before {
        Some(before) => number(alloc, usize::from(before.get().saturating_sub(ttot.get()))),
        None => Vec::from_slice(alloc, b"-"),
    }
}

/// A field on the right of a column, behind a blank.
pub(crate) fn push_column(text: &mut Vec<u8>, width: usize, field: &[u8]) -> Result<(), AllocError>
    ensures { OnOk result (text.new.items ≡ text.old.items ++ column width field.now) }
{
    text.push(b' ')?;
    push_right(text, width, field)
}

// By how much a number grew, in a column.
fn push_change(text: &mut Vec<u8>, width: usize, from: u32, to: u32) -> Result<(), AllocError>
    ensures { OnOk result (text.new.items ≡ text.old.items ++ column width (change from to)) }
{
    let field = change(*text.allocator(), from, to)?;
    push_column(text, width, &field)
}

// How many flights stand otherwise, in a column.
fn push_moved(text: &mut Vec<u8>, moved: usize) -> Result<(), AllocError>
    ensures { OnOk result (text.new.items ≡ text.old.items ++ column 6 (decimal moved)) }
{
    let field = number(*text.allocator(), moved)?;
    push_column(text, 6, &field)
}

/// By how much the indicators grow, and how many flights stand otherwise.
#[tactic(auto, unfolding(crate::specs::Lines::count_columns))]
pub(crate) fn push_counts(
    text: &mut Vec<u8>,
    base: &Counts,
    counts: &Counts,
    moved: usize,
) -> Result<(), AllocError>
    ensures { OnOk result (text.new.items ≡ text.old.items ++ count_columns base.now counts.now moved) }
{
    push_change(text, 6, base.delay, counts.delay)?;
    push_change(text, 5, base.greatest, counts.greatest)?;
    push_change(text, 5, base.late, counts.late)?;
    push_change(text, 7, base.blocked, counts.blocked)?;
    push_moved(text, moved)
}
