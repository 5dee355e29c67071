//! How many workers a phase has.
ghost use Rattle.std.specs.Prelude.{◌≡◌, ℕ, ◌≤◌, ◌↔◌, IsSome, IfSome};

use std::marker::Model;

/// The most workers that a phase can have.
pub const MOST_WORKERS: usize = 64;

/// How many workers a phase has, 1 to 64. Each is a thread, and the caller is one of them.
#[derive(Clone, Copy, PartialEq, Eq, PartialOrd, Ord, Debug)]
pub struct Workers {
    count: usize,
}

impl Model for Workers {
    ghost Value = { ℕ };

    ghost view = { λ w. w.count };

    ghost invariant = { λ w. (1 ≤ w.count) × (w.count ≤ 64) };

    ghost inverse = { λ n. record { count = n } };
}

impl Workers {
    /// So many workers, or `None` where the number isn't one of 1 to 64.
    pub fn new(count: usize) -> Option<Workers>
        ensures valid { IsSome result ↔ ((1 ≤ count) × (count ≤ 64)) }
        ensures value { IfSome result (λ workers. workers ≡ count) }
    {
        if count == 0 || count > MOST_WORKERS {
            return None;
        }
        Some(Workers { count })
    }

    /// The number of workers.
    pub fn get(self) -> usize
        ensures value { result ≡ self }
        ensures range { (1 ≤ result) × (result ≤ 64) }
    {
        self.count
    }
}
