//! Scenarios.
ghost use Rattle.std.specs.Prelude.{◌≡◌, ◌≤◌, ◌<◌, ◌↔◌, ◌++◌, [], ◌∷◌, Some, None, Err, OnOk, OnErr, if◌then◌else◌, nat_le, length, vec_len, vec_capacity};
ghost use Rattle.std.specs.Option.{option_copied};
ghost use Rattle.cdm_scenario.specs.Scenarios.{empty_scenario, scenario_named};
ghost use Rattle.cdm_scenario.specs.declared.scenario.ScenarioFault.TheVariants as ScenarioFault;

use crate::ScenarioName;
use cdm_flight::Update;
use std::alloc::{AllocError, Global};
use std::marker::Model;
use thiserror::Error;

/// How many updates a scenario has at most (local profile).
pub const MOST_SCENARIO_UPDATES: usize = 64;

/// Why an update is not added to a scenario.
#[derive(Clone, Copy, PartialEq, Eq, Debug, Error)]
pub enum ScenarioFault {
    /// The scenario has 64 updates.
    #[error("64 updates")]
    Full,
    /// Want of memory.
    #[error("out of memory")]
    Memory,
}

impl From<AllocError> for ScenarioFault {
    ghost from_gives = { λ _ e. e ≡ ScenarioFault.Memory };

    fn from(_error: AllocError) -> ScenarioFault {
        ScenarioFault::Memory
    }
}

/// Puts one more item behind the others, for which there is room already.
pub(crate) fn push_reserved<T: Copy>(items: &mut Vec<T>, item: T)
    requires { vec_len items.old < vec_capacity items.old }
    ensures { items.new.items ≡ items.old.items ++ item ∷ [] }
{
    items.push_reserved(item);
}

/// A what-if question: what would the day be if these updates came now, by a role that may make all of
/// them? It has at most 64 (local profile).
#[derive(Debug, Drop)]
pub struct Scenario {
    name: ScenarioName,
    updates: Vec<Update>,
}

impl Model for Scenario {
    ghost use Rattle.std.specs.Prelude.{◌≤◌, length};
    ghost use Rattle.cdm_scenario.specs.Scenarios.{ScenarioRecord};

    ghost Value = { ScenarioRecord };

    ghost view = { λ s. record { name = s.name; updates = s.updates.items } };

    ghost invariant = { λ s. length s.updates.items ≤ 64 };
}

impl Scenario {
    /// The scenario of these updates, or None where there are more than 64, which are dropped then.
    pub fn new(name: ScenarioName, updates: Vec<Update>) -> Option<Scenario>
        ensures { result ≡ (if nat_le (length updates.items) 64
            then Some (record { name = name; updates = updates.items }) else None) }
    {
        if updates.len() > MOST_SCENARIO_UPDATES {
            return None;
        }
        Some(Scenario { name, updates })
    }

    /// The scenario of no update yet.
    pub fn empty(alloc: Global, name: ScenarioName) -> Scenario
        ensures { result ≡ empty_scenario name }
    {
        Scenario {
            name,
            updates: Vec::new(alloc),
        }
    }

    /// Puts one more update behind the others.
    ///
    /// `Full` where there are 64, `Memory` where there is none for one more; the scenario is then as
    /// before.
    pub fn add(&mut self, update: Update) -> Result<(), ScenarioFault>
        ensures ok { OnOk result (self.new ≡ record { name = self.old.name; updates = self.old.updates ++ update ∷ [] }) }
        ensures full { (result ≡ Err ScenarioFault.Full) ↔ (64 ≤ length self.old.updates) }
        ensures err { OnErr result (self.new ≡ self.old) }
    {
        if self.updates.len() >= MOST_SCENARIO_UPDATES {
            return Err(ScenarioFault::Full);
        }
        self.updates.reserve(1)?;
        push_reserved(&mut self.updates, update);
        Ok(())
    }

    /// The scenario's name.
    pub fn name(&self) -> &ScenarioName
        ensures { result.now ≡ self.now.name }
    {
        &self.name
    }

    /// The scenario's updates, in order.
    pub fn updates(&self) -> &[Update]
        ensures value { result.now ≡ self.now.updates }
        ensures few { length self.now.updates ≤ 64 }
    {
        &self.updates
    }
}

/// The first of the scenarios that has this name.
pub fn scenario_named(scenarios: &[Scenario], name: ScenarioName) -> Option<&Scenario>
    ensures { option_copied result ≡ scenario_named scenarios.now name }
{
    scenarios.iter().find(|scenario| *scenario.name() == name)
}
