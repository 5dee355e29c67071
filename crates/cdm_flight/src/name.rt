//! Names made of capital letters and digits.
ghost use Rattle.std.specs.Prelude.{◌≡◌, ℕ, ◌<◌, ◌≤◌, ◌-◌, List, [], ◌++◌, length, take, drop, replicate, slice_index, Some, None, if◌then◌else◌, nat_eq, refl, IsTrue};
ghost use Rattle.std.specs.Ordering.{nat_cmp};
ghost use Rattle.std.specs.Cmp.{on_equiv, on_total, on_po, on_per, partial_equiv_from_equiv};
ghost use Rattle.std.specs.Cmp.Lexicographic.{slice_cmp, nat_list_eq_equiv, nat_list_cmp_total, texts_po, texts_ties};
ghost use Rattle.std.specs.Cmp.Rules.{hashing};
ghost use Rattle.std.specs.Hash as fed;
ghost use Rattle.std.proofs.Common.{rules};
ghost use Rattle.std.specs.List.{list_all};
ghost use Rattle.cdm_flight.specs.Names.{is_name, is_letter_or_digit, name_cmp, same_name};
ghost use Rattle.cdm_flight.specs.inner.Padded.{digits, padded};

use std::cmp::Ordering;
use std::hash::{Hash, Hasher};
use std::marker::Model;
use std::str;

/// The bytes that a name takes, so that they can be read as one number.
const ROOM: usize = 8;

/// A name of 1 to `MOST` bytes of `A-Z0-9`, where `MOST` is 8 at most.
#[derive(Clone, Copy, Debug)]
pub struct Name<const MOST: usize> {
    text: [u8; ROOM],
    len: u8,
}

impl<const MOST: usize> Model for Name<MOST> {
    ghost use Rattle.std.specs.Prelude.{◌≡◌, ℕ, List, ◌≤◌, ◌-◌, ◌++◌, length, take, drop, replicate};
    ghost use Rattle.std.proofs.Common.{arith, sym, length-take-le};
    ghost use Rattle.cdm_flight.specs.inner.Padded.{IsName, padded};

    ghost Value = { List ℕ };

    ghost view = { λ n. take n.len n.text };

    ghost invariant = { λ n. (n.len ≤ MOST) × (MOST ≤ 8) × (length n.text ≡ 8) × (n.text ≡ padded (take n.len n.text)) × IsName MOST (take n.len n.text) };

    ghost inverse = { λ xs. record { text = padded xs; len = length xs } };

    ghost inverse_ok = { λ n h i. record {
      text = sym h.3 i;
      len = length-take-le n.len n.text (omega (arith, h.0, h.1, h.2)) i;
    } };
}

fn letter_or_digit(byte: u8) -> bool
    ensures { result ≡ is_letter_or_digit byte }
{
    byte.is_ascii_uppercase() || byte.is_ascii_digit()
}

fn all_letters_or_digits(text: &[u8]) -> bool
    ensures { result ≡ list_all is_letter_or_digit text.now }
{
    text.iter().all(|byte| letter_or_digit(*byte))
}

fn pad(text: &[u8]) -> [u8; ROOM]
    requires { length text.now ≤ 8 }
    ensures { result ≡ padded text.now }
{
    let mut row = [0; ROOM];
    row[..text.len()].copy_from_slice(text);
    row
}

impl<const MOST: usize> Name<MOST> {
    /// The name that the bytes spell, or None where they are no name.
    pub fn new(text: &[u8]) -> Option<Self>
        requires { MOST ≤ 8 }
        ensures { result ≡ (if is_name MOST text.now then Some text.now else None) }
    {
        if text.is_empty() || text.len() > MOST || !all_letters_or_digits(text) {
            return None;
        }
        Some(Name {
            text: pad(text),
            len: text.len() as u8,
        })
    }

    /// The name's bytes.
    pub fn bytes(&self) -> &[u8]
        ensures value { result.now ≡ self.now }
        ensures name { IsTrue (is_name MOST self.now) }
    {
        &self.text[..usize::from(self.len)]
    }

    // The bytes with zeros behind them, read as one number.
    fn number(&self) -> u64
        ensures value { result ≡ digits 8 self.now }
        ensures letters { IsTrue (list_all is_letter_or_digit self.now) }
        ensures short { length self.now ≤ 8 }
    {
        u64::from_be_bytes(self.text)
    }

    /// The name as text.
    pub fn text(&self) -> &str
        ensures value { result.now ≡ self.now }
        ensures ascii { (k : ℕ) → slice_index result.now k < 128 }
        ensures short { length result.now ≤ MOST }
    {
        str::from_utf8(self.bytes()).unwrap()
    }
}

impl<const MOST: usize> PartialEq for Name<MOST> {
    ghost eq = { same_name };

    ghost laws = { partial_equiv_from_equiv nat_list_eq_equiv };

    #[tactic(auto, using(crate::proofs::NumberLemmas::number_eq))]
    fn eq(&self, other: &Self) -> bool {
        self.number() == other.number()
    }
}

impl<const MOST: usize> Eq for Name<MOST> {
    ghost laws = { nat_list_eq_equiv };
}

impl<const MOST: usize> PartialOrd for Name<MOST> {
    ghost partial_cmp = { λ s t. Some (name_cmp s t) };

    ghost laws = { texts_po };

    fn partial_cmp(&self, other: &Self) -> Option<Ordering> {
        Some(self.cmp(other))
    }
}

impl<const MOST: usize> Ord for Name<MOST> {
    ghost cmp = { name_cmp };

    ghost total = { nat_list_cmp_total };

    ghost matches_partial_cmp = { λ s t. refl };

    ghost matches_eq = { λ s t. texts_ties s t };

    #[tactic(auto, using(crate::proofs::NumberLemmas::number_cmp))]
    fn cmp(&self, other: &Self) -> Ordering {
        self.number().cmp(&other.number())
    }
}

impl<const MOST: usize> Hash for Name<MOST> {
    ghost hash_input = { λ s. fed.slice fed.u8 s };

    ghost respects_eq = { Prim.search (hashing, rules) };

    fn hash<H: Hasher>(&self, state: &mut H) {
        self.bytes().hash(state);
    }
}
