//! Names of the flights that are in the way of another.
ghost use Rattle.std.specs.Prelude.{◌≡◌, ◌++◌, ◌∷◌, [], IfOk, OnOk};

use cdm_flight::{FlightName, push_last};
use std::alloc::{AllocError, Global};
use std::marker::Model;

// A single name, or any number of them.
#[derive(Debug, Drop)]
enum Kept {
    One(FlightName),
    Any(Vec<FlightName>),
}

/// Names of flights, in order. A single one takes no memory of its own.
#[derive(Debug, Drop)]
pub struct Names {
    kept: Kept,
}

impl Model for Names {
    ghost use Rattle.std.specs.Prelude.{List, ℕ};
    ghost use Rattle.cdm_view.specs.inner.Kept.{names_in};

    ghost Value = { List (List ℕ) };

    ghost view = { λ n. names_in n.kept };
}

impl Names {
    /// No name.
    pub(crate) fn none(alloc: Global) -> Names
        ensures { result ≡ [] }
    {
        Names::of(Vec::new(alloc))
    }

    /// These names.
    pub(crate) fn of(names: Vec<FlightName>) -> Names
        ensures { result ≡ names.items }
    {
        Names {
            kept: Kept::Any(names),
        }
    }

    /// The names.
    pub fn as_slice(&self) -> &[FlightName]
        ensures { result.now ≡ self.now }
    {
        match &self.kept {
            Kept::One(name) => std::slice::from_ref(name),
            Kept::Any(names) => names.as_slice(),
        }
    }

    /// Puts one more name behind the others.
    pub(crate) fn push(&mut self, alloc: Global, name: FlightName) -> Result<(), AllocError>
        ensures { OnOk result (self.new ≡ self.old ++ name ∷ []) }
    {
        let kept = match &mut self.kept {
            Kept::Any(names) if names.is_empty() => Kept::One(name),
            Kept::Any(names) => return push_last(names, name),
            Kept::One(first) => Kept::Any(two(alloc, *first, name)?),
        };
        self.kept = kept;
        Ok(())
    }
}

// A list of two names.
fn two(alloc: Global, first: FlightName, second: FlightName) -> Result<Vec<FlightName>, AllocError>
    ensures { IfOk result (λ names. names.items ≡ first ∷ second ∷ []) }
{
    let mut names = Vec::new(alloc);
    push_last(&mut names, first)?;
    push_last(&mut names, second)?;
    Ok(names)
}
