//! The columns of a Row: their names, and what stands in them.
ghost use Rattle.std.specs.Prelude.{◌≡◌, map};
ghost use Rattle.std.specs.Option.{option_map_or};
ghost use Rattle.cdm_row.specs.Columns.{column_names, if_any, minute, number, rule_value, text, value_of, values};

use crate::row::Row;
use cdm_flight::Name;
use cdm_sequence::Rule;
use cdm_time::Minute;
use cdm_view::group_letter;

/// How many columns a Row has.
pub const COLUMN_COUNT: usize = 13;

/// What stands in a column.
#[derive(Clone, Copy, Debug, PartialEq, Eq)]
pub enum Value<'a> {
    /// There is nothing to tell.
    Nothing,
    Text(&'a str),
    Number(u64),
    /// A minute of the horizon.
    Minute(Minute),
}

// A name, if there is one.
fn name_value<const MOST: usize>(name: &Option<Name<MOST>>) -> Value<'_>
    ensures { value_of result ≡ if_any text name.now }
{
    match name {
        Some(name) => Value::Text(name.text()),
        None => Value::Nothing,
    }
}

// A number, if there is one.
fn number_value(value: Option<u16>) -> Value<'static>
    ensures { value_of result ≡ if_any number value }
{
    match value {
        Some(value) => Value::Number(u64::from(value)),
        None => Value::Nothing,
    }
}

// A minute, if there is one.
fn minute_value(value: Option<Minute>) -> Value<'static>
    ensures { value_of result ≡ if_any minute value }
{
    match value {
        Some(value) => Value::Minute(value),
        None => Value::Nothing,
    }
}

// A rule, if there is one.
fn rule_value(rule: Option<Rule>) -> Value<'static>
    ensures { value_of result ≡ if_any rule_value rule }
{
    match rule {
        Some(rule) => Value::Text(rule.text()),
        None => Value::Nothing,
    }
}

/// The names of the columns.
#[tactic(auto, unfolding(crate::specs::Columns::columns))]
pub fn column_names() -> [&'static str; COLUMN_COUNT]
    ensures { map (λ name. name.now) result ≡ column_names }
{
    [
        "flight", "status", "runway", "stand", "priority", "group", "tobt", "exot", "ctot", "tsat",
        "ttot", "delay", "rule",
    ]
}

impl Row {
    /// What the Row has in each column.
    #[tactic(auto, unfolding(crate::specs::Columns::columns))]
    pub fn values(&self) -> [Value<'_>; COLUMN_COUNT]
        ensures { map value_of result ≡ values self.now }
    {
        [
            Value::Text(self.flight.text()),
            Value::Text(self.status.text()),
            name_value(&self.runway),
            name_value(&self.stand),
            Value::Number(u64::from(self.priority.get())),
            Value::Text(group_letter(self.group)),
            minute_value(self.tobt),
            number_value(self.exot),
            minute_value(self.ctot),
            minute_value(self.tsat),
            minute_value(self.ttot),
            number_value(self.delay),
            rule_value(self.rule),
        ]
    }
}
