//! What has happened, which contracts alone read. It takes no memory, and a note does nothing where it runs.
ghost use Rattle.std.specs.Prelude.{◌≡◌, [], ◌∷◌, ◌++◌, List, ℕ};
ghost use Rattle.std.specs.Borrow.{ftrue};

use std::marker::{Model, PhantomData};

/// Notes of all that has happened, the first of them first: what it was, and its bytes, if it has any.
#[derive(Drop)]
pub struct History<H> {
    marker: PhantomData<H>,
    pub ghost notes: { List (H × List ℕ) },
}

impl<H> Model for History<H> {
    ghost also_owns = { λ _. ftrue };
}

impl<H> History<H> {
    /// Nothing has happened.
    pub fn new() -> History<H>
        ensures { result.notes ≡ [] }
    {
        History {
            marker: PhantomData,
        }
    }

    /// This has happened, with these bytes.
    pub fn note(&mut self, _happening: &H, _bytes: &[u8])
        ensures { self.new.notes ≡ self.old.notes ++ (_happening.now, _bytes.now) ∷ [] }
    {}
}
