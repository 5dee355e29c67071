//! The history of a closed board.
ghost use Rattle.std.specs.Prelude.{◌≡◌, ◌==◌, ◌≤◌, length, Some, MatchOption};
ghost use Rattle.std.specs.List.{slice_get};
ghost use Rattle.cdm_board.specs.Receipts.{entry_of};

use crate::receipt::Entry;
use std::marker::Model;

/// The calls of all desks, in the one order in which the board took them.
#[derive(Drop)]
pub struct History {
    pub(crate) entries: Vec<Entry>,
}

impl Model for History {
    ghost use Rattle.std.specs.Prelude.{List, ℕ, map};
    ghost use Rattle.std.specs.Coded.{codes};
    ghost use Rattle.cdm_day.specs.inner.AirportCode.{airport_code};
    ghost use Rattle.cdm_board.specs.History.{Call};

    ghost Value = { List (ℕ × Call) };

    ghost coded = { Prim.hlevel (codes, airport_code) };

    ghost use Rattle.cdm_board.specs.Receipts.{entry_of};

    ghost view = { λ h. map entry_of h.entries.items };
}

impl History {
    /// How many calls there were.
    pub fn len(&self) -> usize
        ensures { result ≡ length self.now }
    {
        self.entries.len()
    }

    /// Whether there was no call.
    pub fn is_empty(&self) -> bool
        ensures { result ≡ (length self.now == 0) }
    {
        self.entries.is_empty()
    }

    /// The entry at this place, from 0, or None past the last.
    pub fn entry(&self, place: usize) -> Option<&Entry>
        ensures { MatchOption result (length self.now ≤ place) (λ e. slice_get self.now place ≡ Some (entry_of e.now)) }
    {
        self.entries.get(place)
    }
}
