//! Names of scenarios.
ghost use Rattle.std.specs.Prelude.{◌≡◌, ◌≤◌, ◌<◌, ◌==◌, ◌||◌, ℕ, IsTrue, Some, None, if◌then◌else◌, length, slice_index};
ghost use Rattle.std.specs.Cmp.{partial_equiv_from_equiv};
ghost use Rattle.std.specs.Cmp.Lexicographic.{nat_list_eq_equiv};
ghost use Rattle.std.specs.Cmp.Rules.{hashing};
ghost use Rattle.std.specs.Hash as fed;
ghost use Rattle.std.proofs.Common.{rules};
ghost use Rattle.std.specs.List.{list_all};
ghost use Rattle.cdm_flight.specs.Names.{is_letter_or_digit, same_name};
ghost use Rattle.cdm_scenario.specs.Names.{is_scenario_name};
ghost use Rattle.cdm_scenario.specs.inner.Padded.{padded};

use std::hash::{Hash, Hasher};
use std::marker::Model;
use std::str;

/// The bytes that a scenario's name has at most.
const LONGEST: usize = 16;

/// The name of a scenario: 1 to 16 bytes of `A-Z0-9` and `-` (local profile).
#[derive(Clone, Copy, Debug)]
pub struct ScenarioName {
    text: [u8; 16],
    len: usize,
}

impl Model for ScenarioName {
    ghost use Rattle.std.specs.Prelude.{◌≡◌, ℕ, List, ◌≤◌, length, take};
    ghost use Rattle.std.proofs.Common.{arith, sym, length-take-le};
    ghost use Rattle.cdm_scenario.specs.inner.Padded.{IsScenarioName, padded};

    ghost Value = { List ℕ };

    ghost view = { λ n. take n.len n.text };

    ghost invariant = { λ n. (n.len ≤ 16) × (length n.text ≡ 16) × (n.text ≡ padded (take n.len n.text)) × IsScenarioName (take n.len n.text) };

    ghost inverse = { λ xs. record { text = padded xs; len = length xs } };

    ghost inverse_ok = { λ n h i. record {
      text = sym h.2 i;
      len = length-take-le n.len n.text (omega (arith, h.0, h.1)) i;
    } };
}

fn name_byte(byte: u8) -> bool
    ensures { result ≡ (is_letter_or_digit byte || (byte == 45)) }
{
    byte.is_ascii_uppercase() || byte.is_ascii_digit() || byte == b'-'
}

fn all_name_bytes(text: &[u8]) -> bool
    ensures { result ≡ list_all (λ byte. is_letter_or_digit byte || (byte == 45)) text.now }
{
    text.iter().all(|byte| name_byte(*byte))
}

fn pad(text: &[u8]) -> [u8; 16]
    requires { length text.now ≤ 16 }
    ensures { result ≡ padded text.now }
{
    let mut row = [0; LONGEST];
    row[..text.len()].copy_from_slice(text);
    row
}

impl ScenarioName {
    /// The name that the bytes spell, or None where they are no scenario's name.
    pub fn new(text: &[u8]) -> Option<ScenarioName>
        ensures { result ≡ (if is_scenario_name text.now then Some text.now else None) }
    {
        if text.is_empty() || text.len() > LONGEST || !all_name_bytes(text) {
            return None;
        }
        Some(ScenarioName {
            text: pad(text),
            len: text.len(),
        })
    }

    /// The name's bytes.
    pub fn bytes(&self) -> &[u8]
        ensures value { result.now ≡ self.now }
        ensures name { IsTrue (is_scenario_name self.now) }
    {
        &self.text[..self.len]
    }

    /// The name as text.
    pub fn text(&self) -> &str
        ensures value { result.now ≡ self.now }
        ensures ascii { (k : ℕ) → slice_index result.now k < 128 }
        ensures short { length result.now ≤ 16 }
    {
        str::from_utf8(self.bytes()).unwrap()
    }
}

impl PartialEq for ScenarioName {
    ghost eq = { same_name };

    ghost laws = { partial_equiv_from_equiv nat_list_eq_equiv };

    fn eq(&self, other: &Self) -> bool {
        self.bytes() == other.bytes()
    }
}

impl Eq for ScenarioName {
    ghost laws = { nat_list_eq_equiv };
}

impl Hash for ScenarioName {
    ghost hash_input = { λ s. fed.slice fed.u8 s };

    ghost respects_eq = { Prim.search (hashing, rules) };

    fn hash<H: Hasher>(&self, state: &mut H) {
        self.bytes().hash(state);
    }
}
