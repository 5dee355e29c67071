//! A value for each place of a row, told by intervals.
ghost use Rattle.std.specs.Prelude.{◌≡◌, ℕ, ◌<◌, ◌≤◌, true, length, replicate, slice_index_or, IfOk, OnOk, OnErr, MatchOption, if◌then◌else◌};
ghost use Rattle.cdm_time.specs.Windows.{window_has};
ghost use Rattle.cdm_runway.specs.Rules.{with_range};
ghost use Rattle.cdm_runway.specs.inner.Intervals.{value_at, end_of, AreInOrder, IsPushed, NoneAfter, IsNext};

use std::alloc::{AllocError, Global};
use std::marker::Model;

// The places from one up to another, and their value.
#[derive(Clone, Copy, Debug)]
pub struct Interval<V> {
    pub from: u16,
    pub to: u16,
    pub value: V,
}

// The values of the first places of a row: those of its intervals, which are sorted and have no
// place in common, and one value for the rest.
#[derive(Debug, Drop)]
pub struct Intervals<V> {
    alloc: Global,
    places: u16,
    rest: V,
    listed: Vec<Interval<V>>,
}

impl<V> Model for Intervals<V> {
    ghost use Rattle.std.specs.Prelude.{List};
    ghost use Rattle.cdm_runway.specs.inner.Intervals.{values_of, AreOfRow};

    ghost Value = { List V };

    ghost view = { λ a. values_of a.places a.rest a.listed.items };

    ghost invariant = { λ a. AreOfRow a.places a.listed.items };
}

// Puts an interval behind the others, unless it has no place. It becomes one with the last of them
// where that ends at its beginning and has its value.
fn push_joined<V: Copy + PartialEq>(
    listed: &mut Vec<Interval<V>>,
    next: Interval<V>,
) -> Result<(), AllocError>
    requires same { (a b : V) → V.eq a b ≡ true → a ≡ b }
    requires order { AreInOrder 0 listed.old.items }
    requires after { end_of 0 listed.old.items ≤ next.from }
    ensures { OnOk result (IsPushed listed.old.items next listed.new.items) }
{
    if next.from >= next.to {
        return Ok(());
    }
    if let Some(last) = listed.pop() {
        if last.to == next.from && last.value == next.value {
            listed.push(Interval {
                to: next.to,
                ..last
            })?;
            return Ok(());
        }
        listed.push(last)?;
    }
    listed.push(next)?;
    Ok(())
}

// Puts behind the others what the intervals say of the places from one up to another.
fn push_part<V: Copy + PartialEq>(
    kept: &mut Vec<Interval<V>>,
    listed: &[Interval<V>],
    from: u16,
    to: u16,
) -> Result<(), AllocError>
    requires same { (a b : V) → V.eq a b ≡ true → a ≡ b }
    requires kept { AreInOrder 0 kept.old.items }
    requires after { end_of 0 kept.old.items ≤ from }
    requires places { from ≤ to }
    requires order { AreInOrder 0 listed.now }
    ensures order { OnOk result (AreInOrder 0 kept.new.items) }
    ensures end { OnOk result (end_of 0 kept.new.items ≤ to) }
    ensures values { OnOk result ((k : ℕ) (rest : V) → value_at kept.new.items k rest ≡
        (if window_has from to k then value_at listed.now k rest else value_at kept.old.items k rest)) }
{
    for interval in listed {
        let part = Interval {
            from: interval.from.max(from),
            to: interval.to.min(to),
            value: interval.value,
        };
        push_joined(kept, part)?;
    }
    Ok(())
}

// The first of the intervals that end after the place.
fn first_ending_after<V: Copy>(listed: &[Interval<V>], place: u16) -> Option<Interval<V>>
    requires { AreInOrder 0 listed.now }
    ensures { MatchOption result (NoneAfter listed.now place) (IsNext 0 listed.now place) }
{
    let first = listed.partition_point(|interval| interval.to <= place);
    Some(*listed.get(first)?)
}

impl<V: Copy + PartialEq> Intervals<V> {
    // One value at each of the places.
    pub fn new(alloc: Global, places: u16, rest: V) -> Intervals<V>
        ensures { result ≡ replicate places rest }
    {
        Intervals {
            alloc,
            places,
            rest,
            listed: Vec::new(alloc),
        }
    }

    // The value of a place, and the places from it on of which it is known that they have it too.
    pub fn at(&self, place: u16) -> Interval<V>
        requires { place < length self.now }
        ensures from { result.from ≡ place }
        ensures some { place < result.to }
        ensures within { result.to ≤ length self.now }
        ensures values { (k : ℕ) → place ≤ k → k < result.to →
            slice_index_or self.now k result.value ≡ result.value }
    {
        let rest = Interval {
            from: place,
            to: self.places,
            value: self.rest,
        };
        let Some(next) = first_ending_after(&self.listed, place) else {
            return rest;
        };
        if place < next.from {
            return Interval {
                to: next.from,
                ..rest
            };
        }
        Interval {
            from: place,
            ..next
        }
    }

    // Gives the places from one up to another a value.
    pub fn set(&mut self, from: u16, to: u16, value: V) -> Result<(), AllocError>
        requires same { (a b : V) → V.eq a b ≡ true → a ≡ b }
        requires order { from < to }
        requires within { to ≤ length self.old }
        ensures ok { OnOk result (self.new ≡ with_range self.old from to value) }
        ensures err { OnErr result (self.new ≡ self.old) }
    {
        let mut listed = Vec::new(self.alloc);
        push_part(&mut listed, &self.listed, 0, from)?;
        if value != self.rest {
            push_joined(&mut listed, Interval { from, to, value })?;
        }
        push_part(&mut listed, &self.listed, to, self.places)?;
        self.listed = listed;
        Ok(())
    }

    // A copy of the values.
    pub fn copy(&self, alloc: Global) -> Result<Intervals<V>, AllocError>
        ensures { IfOk result (λ copy. copy ≡ self.now) }
    {
        let listed = Vec::from_slice(alloc, &self.listed)?;
        Ok(Intervals {
            alloc,
            places: self.places,
            rest: self.rest,
            listed,
        })
    }
}
