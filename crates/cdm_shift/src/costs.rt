//! Where the minutes of delay come from.
ghost use Rattle.std.specs.Prelude.{◌≡◌, ◌≤◌, IfOk, IsTrue, OnOk, count_by, filter, flat_map, fold, length, map};
ghost use Rattle.std.specs.List.{list_any, prefix_len};
ghost use Rattle.cdm_view.specs.Causes.{same_cause};
ghost use Rattle.cdm_shift.specs.Costs.{costs_by, costs_of, group_before, group_of, groups_of, has_operator, is_blocked, is_digit, is_on_stand, minutes_of, on_stand, operator_of, rows_in, same_group, told_groups, with_group};
ghost use Rattle.cdm_shift.specs.Held.{causes_named as named};

use crate::held::causes_named;
use crate::question::GroupBy;
use crate::start_ups::is_planned;
use cdm_flight::{FlightName, Name, push_last};
use cdm_plan::Records;
use cdm_row::{Row, RowStatus};
use cdm_sequence::Plan;
use cdm_view::Cause;
use std::alloc::{AllocError, Global};

/// The name of a group: of a runway or of an operator, or none.
pub(crate) type Group = Option<Name<3>>;

/// What holds some flights on their stands (local profile): how many have a slot, their delay in whole minutes and the part of
/// each cause in it, and how many have no slot.
#[derive(Clone, Copy, PartialEq, Eq, Debug)]
pub struct Costs {
    pub placed: usize,
    pub delay: usize,
    pub ice: usize,
    pub ctot: usize,
    pub closure: usize,
    pub spacing: usize,
    pub rate: usize,
    pub clock: usize,
    pub blocked: usize,
}

// Whether a flight is on its stand without a slot.
fn is_blocked(status: RowStatus) -> bool
    ensures { result ≡ is_blocked status }
{
    status == RowStatus::Blocked
}

// Whether a flight is on its stand.
fn is_on_stand(row: &Row) -> bool
    ensures { result ≡ is_on_stand row.now }
{
    is_planned(row.status) || is_blocked(row.status)
}

/// The Rows of the flights on their stands.
pub(crate) fn on_stand(alloc: Global, rows: &[Row]) -> Result<Vec<Row>, AllocError>
    ensures { IfOk result (λ found. found.items ≡ on_stand rows.now) }
{
    let mut found = Vec::new(alloc);
    for row in rows {
        if is_on_stand(row) {
            push_last(&mut found, *row)?;
        }
    }
    Ok(found)
}

// Whether the byte is a digit.
fn is_digit(byte: u8) -> bool
    ensures { result ≡ is_digit byte }
{
    byte.is_ascii_digit()
}

// Whether one of the bytes is a digit.
fn has_digit(text: &[u8]) -> bool
    ensures { result ≡ list_any is_digit text.now }
{
    text.iter().any(|byte| is_digit(*byte))
}

// Whether a name begins with three letters and a digit: it has no other bytes.
fn has_operator(text: &[u8]) -> bool
    ensures long { IsTrue result → 4 ≤ length text.now }
    ensures value { result ≡ has_operator text.now }
{
    text.len() > 3 && !has_digit(&text[..3]) && is_digit(text[3])
}

// The operator of a flight: the first three bytes of its name, where they are letters and a digit follows.
#[tactic(auto, unfolding(crate::specs::Costs::operator_of))]
fn operator_of(name: &FlightName) -> Group
    ensures { result ≡ operator_of name.now }
{
    let text = name.bytes();
    if has_operator(text) {
        Name::new(&text[..3])
    } else {
        None
    }
}

// The group of a Row.
fn group_of(by: GroupBy, row: &Row) -> Group
    ensures { result ≡ group_of by row.now }
{
    match by {
        GroupBy::All => None,
        GroupBy::Runway => row.runway,
        GroupBy::Operator => operator_of(&row.flight),
    }
}

// Whether one group stands before another: that without a name first, and then by name.
fn group_before(group: &Group, other: &Group) -> bool
    ensures { result ≡ group_before group.now other.now }
{
    match (group, other) {
        (None, Some(_)) => true,
        (Some(name), Some(other)) => name < other,
        _ => false,
    }
}

// Whether both are one group.
fn same_group(group: &Group, other: &Group) -> bool
    ensures { result ≡ same_group group.now other.now }
{
    match (group, other) {
        (None, None) => true,
        (Some(name), Some(other)) => name == other,
        _ => false,
    }
}

// Whether a group is among the others.
fn has_group(groups: &[Group], group: &Group) -> bool
    ensures { result ≡ list_any (same_group group.now) groups.now }
{
    groups.iter().any(|other| same_group(group, other))
}

// How many groups stand before this one.
fn place_of(groups: &[Group], group: &Group) -> usize
    ensures value { result ≡ prefix_len (λ h. group_before h group.now) groups.now }
    ensures within { result ≤ length groups.now }
{
    groups
        .iter()
        .take_while(|other| group_before(other, group))
        .count()
}

// Puts a group among the others, unless it is there.
#[tactic(auto, unfolding(crate::specs::Costs::with_group))]
fn add_group(groups: &mut Vec<Group>, group: Group) -> Result<(), AllocError>
    ensures { OnOk result (groups.new.items ≡ with_group groups.old.items group) }
{
    if has_group(groups, &group) {
        return Ok(());
    }
    let place = place_of(groups, &group);
    groups.insert(place, group)?;
    Ok(())
}

// The groups of Rows, each once and in their order.
fn groups_of(alloc: Global, by: GroupBy, rows: &[Row]) -> Result<Vec<Group>, AllocError>
    ensures { IfOk result (λ groups. groups.items ≡ groups_of by rows.now) }
{
    let mut groups = Vec::new(alloc);
    for row in rows {
        add_group(&mut groups, group_of(by, row))?;
    }
    Ok(groups)
}

/// The groups to be told: none, where all flights are told together.
pub(crate) fn told_groups(
    alloc: Global,
    by: GroupBy,
    rows: &[Row],
) -> Result<Vec<Group>, AllocError>
    ensures { IfOk result (λ groups. groups.items ≡ told_groups by rows.now) }
{
    match by {
        GroupBy::All => Ok(Vec::new(alloc)),
        GroupBy::Runway | GroupBy::Operator => groups_of(alloc, by, rows),
    }
}

/// The Rows of a group.
pub(crate) fn rows_in(
    alloc: Global,
    by: GroupBy,
    rows: &[Row],
    group: &Group,
) -> Result<Vec<Row>, AllocError>
    ensures { IfOk result (λ found. found.items ≡ rows_in by rows.now group.now) }
{
    let mut found = Vec::new(alloc);
    for row in rows {
        if same_group(&group_of(by, row), group) {
            push_last(&mut found, *row)?;
        }
    }
    Ok(found)
}

// How many minutes have this cause.
fn minutes_of(cause: Cause, causes: &[Cause]) -> usize
    ensures { result ≡ minutes_of cause causes.now }
{
    causes.iter().filter(|other| cause == **other).count()
}

// What holds the flights of these Rows, by the causes of their minutes.
fn costs_by(rows: &[Row], causes: &[Cause]) -> Costs
    ensures { result ≡ costs_by rows.now causes.now }
{
    Costs {
        placed: rows.iter().filter(|row| is_planned(row.status)).count(),
        delay: causes.len(),
        ice: minutes_of(Cause::Ice, causes),
        ctot: minutes_of(Cause::Ctot, causes),
        closure: minutes_of(Cause::Closure, causes),
        spacing: minutes_of(Cause::Spacing, causes),
        rate: minutes_of(Cause::Rate, causes),
        clock: minutes_of(Cause::Now, causes),
        blocked: rows.iter().filter(|row| is_blocked(row.status)).count(),
    }
}

/// What holds the flights of these Rows.
#[tactic(auto, unfolding(crate::specs::Costs::costs_of))]
pub(crate) fn costs_of<R: Records>(
    alloc: Global,
    records: &R,
    plan: &Plan,
    rows: &[Row],
) -> Result<Costs, AllocError>
    ensures { IfOk result (λ costs. costs ≡ costs_of (R.day records.now) plan.entry.now rows.now) }
{
    let mut causes = Vec::new(alloc);
    for row in rows {
        causes.extend_from_slice(&causes_named(alloc, records, plan, row.flight)?)?;
    }
    Ok(costs_by(rows, &causes))
}
