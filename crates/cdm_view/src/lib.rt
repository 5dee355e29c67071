//! Views of a day, each from what is known of it and from its plan: how full its runways are, what
//! holds a flight, and where its flights stand.
#![tactic(auto)]

mod answering;
mod cause;
mod cells;
mod differing;
mod fault;
mod gathering;
mod laws;
mod lines;
mod loading;
mod names;
mod question;
mod reason;
mod rests;
mod runs;
mod slots;
mod standing;
mod standings;
mod turns;
mod waiting;
mod waiting_laws;
mod whys;

pub use answering::answer;
pub use cause::Cause;
pub use cells::{
    cap_of_cell, cell_count, closed_in_cell, first_minute, flights_in_cell, is_in_cell, told_cells,
};
pub use differing::{changes_by, changes_to};
pub use fault::ViewFault;
pub use laws::{counts_add_up, each_flight_in_one_line, one_answer};
pub use lines::{group_letter, push_runs};
pub use loading::{is_asked, load, unknown_in, usual_cap};
pub use names::Names;
pub use question::Question;
pub use reason::Reason;
pub use runs::Run;
pub use slots::slots_on;
pub use standing::{Standing, push_standing};
pub use standings::Standings;
pub use turns::{Turn, Turns};
pub use waiting::{Waiting, exot_to};
pub use waiting_laws::{
    a_blocked_flight_waits_always, a_placed_flight_waits_its_delay, a_reason_has_a_cause,
    a_waiting_flight_is_placed_or_blocked,
};
pub use whys::{own_slot, waits_among, waits_for, waits_of, why};
