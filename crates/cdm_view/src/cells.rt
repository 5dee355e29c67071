//! What the cells of a runway tell.
ghost use Rattle.std.specs.Prelude.{◌≡◌, ◌+◌, ◌-◌, ◌*◌, ◌/◌, ◌<◌, ◌≤◌, ◌==◌, length};
ghost use Rattle.std.specs.List.{range_with_len};
ghost use Rattle.cdm_view.specs.Load.{cap_of_cell, closed_in_cell, flights_in_cell, tells, told_cells};
ghost use Rattle.cdm_view.specs.inner.Ends.{AreEnds};

use cdm_runway::Runway;
use cdm_sequence::Slot;
use cdm_time::{HORIZON_MINUTES, Minute};

/// How many cells the horizon has.
pub fn cell_count(runway: &Runway) -> u16
    ensures { result ≡ 2880 / runway.now.cell }
{
    HORIZON_MINUTES / runway.cell().get()
}

/// The cell's first minute.
pub fn first_minute(runway: &Runway, cell: u16) -> Minute
    requires { cell < 2880 / runway.now.cell }
    ensures value { result ≡ cell * runway.now.cell }
    ensures whole { cell * runway.now.cell + runway.now.cell ≤ 2880 }
{
    Minute::at(cell * runway.cell().get())
}

/// Whether the flight takes off in the cell.
pub fn is_in_cell(runway: &Runway, slot: &Slot, cell: u16) -> bool
    ensures { result ≡ (slot.now.ttot / runway.now.cell == cell) }
{
    slot.ttot.get() / runway.cell().get() == cell
}

/// How many flights take off in the cell.
pub fn flights_in_cell(runway: &Runway, slots: &[Slot], cell: u16) -> usize
    ensures { result ≡ length (flights_in_cell runway.now slots.now cell) }
{
    slots
        .iter()
        .filter(|slot| is_in_cell(runway, slot, cell))
        .count()
}

/// How many minutes of the cell are closed.
pub fn closed_in_cell(runway: &Runway, cell: u16) -> u16
    requires { cell < 2880 / runway.now.cell }
    ensures { result ≡ closed_in_cell runway.now cell }
{
    let first = first_minute(runway, cell).get();
    let end = first + runway.cell().get();
    let mut closed = 0;
    for number in first..end {
        if runway.closed(Minute::at(number)) {
            closed += 1;
        }
    }
    closed
}

/// How many flights the cell takes.
pub fn cap_of_cell(runway: &Runway, cell: u16) -> u16
    requires { cell < 2880 / runway.now.cell }
    ensures { result ≡ cap_of_cell runway.now cell }
{
    runway.cap_at(first_minute(runway, cell)).get()
}

// Whether the cell tells something: a flight, a closed minute, or another cap than the usual one.
#[tactic(auto, unfolding(crate::specs::Load::tells))]
fn tells(runway: &Runway, usual: u16, slots: &[Slot], cell: u16) -> bool
    requires { cell < 2880 / runway.now.cell }
    ensures { result ≡ tells runway.now usual slots.now cell }
{
    flights_in_cell(runway, slots, cell) > 0
        || closed_in_cell(runway, cell) > 0
        || cap_of_cell(runway, cell) != usual
}

// The first cell that tells something, and the first one after all that do.
fn ends_of_told(runway: &Runway, usual: u16, slots: &[Slot]) -> (u16, u16)
    ensures { AreEnds (tells runway.now usual slots.now) (2880 / runway.now.cell) result.0 result.1 }
{
    let (mut from, mut to) = (0, 0);
    for cell in 0..cell_count(runway) {
        if tells(runway, usual, slots, cell) {
            if from == to {
                from = cell;
            }
            to = cell + 1;
        }
    }
    (from, to)
}

/// The cells of a runway that are told, by the cap that it usually has: the first that tells something, a flight, a closed minute or
/// another cap, and the first one behind the last that does.
#[tactic(auto, using(crate::proofs::RangeLemmas::between_is_range), unfolding(crate::specs::Load::told_cells))]
pub fn told_cells(runway: &Runway, usual: u16, slots: &[Slot]) -> (u16, u16)
    ensures cells { told_cells runway.now usual slots.now ≡ range_with_len result.0 (result.1 - result.0) }
    ensures order { result.0 ≤ result.1 }
    ensures within { result.1 ≤ 2880 / runway.now.cell }
{
    ends_of_told(runway, usual, slots)
}
