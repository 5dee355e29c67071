//! What a scenario changes in the indicators.
ghost use Rattle.std.specs.Prelude.{◌≡◌, ◌++◌, IfOk, OnOk, Some, flat_map, zip};
ghost use Rattle.std.specs.String.{string_bytes};
ghost use Rattle.cdm_sequence.specs.Words.{all_rules};
ghost use Rattle.cdm_report.specs.Delta.{change, delta_line, rule_change};

use crate::counts::Counts;
use cdm_sequence::Rule;
use std::alloc::{AllocError, Global};
use std::fmt;
use std::fmt::Write;

/// By how much a number grew, with its sign.
#[derive(Clone, Copy)]
struct Change {
    from: u32,
    to: u32,
}

impl fmt::Display for Change {
    ghost output = { λ c. Some (change c.from c.to) };

    #[tactic(auto, unfolding(crate::specs::Delta::change))]
    fn fmt<W: fmt::Write>(&self, f: &mut fmt::Formatter<W>) -> fmt::Result {
        let Change { from, to } = *self;
        if from <= to {
            write!(f, "+{}", to - from)
        } else {
            write!(f, "-{}", from - to)
        }
    }
}

/// The line that tells by how much each indicator grew from the base to a scenario, each number with
/// its sign (local profile). Only want of memory makes it fail.
#[tactic(auto, unfolding(crate::specs::Delta::delta_line, crate::specs::Report::indicators_told))]
pub fn delta_text(alloc: Global, base: &Counts, scenario: &Counts) -> Result<Vec<u8>, AllocError>
    ensures { IfOk result (λ text. text.items ≡ delta_line base.now scenario.now) }
{
    let mut text = String::new(alloc);
    let placed = Change {
        from: base.placed,
        to: scenario.placed,
    };
    let delay = Change {
        from: base.delay,
        to: scenario.delay,
    };
    let greatest = Change {
        from: base.greatest,
        to: scenario.greatest,
    };
    let late = Change {
        from: base.late,
        to: scenario.late,
    };
    let blocked = Change {
        from: base.blocked,
        to: scenario.blocked,
    };
    write!(
        text,
        "DELTA PLACED {placed} DELAY {delay} MAX {greatest} LATE {late} BLOCKED {blocked}"
    )?;
    push_rule_changes(&mut text, &base.by_rule, &scenario.by_rule)?;
    writeln!(text)?;
    Ok(text.into_bytes())
}

fn push_rule_changes(
    text: &mut String,
    base: &[u32; 8],
    scenario: &[u32; 8],
) -> Result<(), AllocError>
    ensures { OnOk result (string_bytes text.new ≡ string_bytes text.old ++ flat_map rule_change (zip all_rules (zip base.now scenario.now))) }
{
    let rules = Rule::all();
    for place in 0..rules.len() {
        push_rule_change(text, rules[place], base[place], scenario[place])?;
    }
    Ok(())
}

// A rule and by how much its count grew, where it changed.
#[tactic(auto, unfolding(crate::specs::Delta::rule_change))]
fn push_rule_change(text: &mut String, rule: Rule, from: u32, to: u32) -> Result<(), AllocError>
    ensures { OnOk result (string_bytes text.new ≡ string_bytes text.old ++ rule_change (rule, (from, to))) }
{
    if from == to {
        return Ok(());
    }
    let change = Change { from, to };
    write!(text, " {rule} {change}")
}
