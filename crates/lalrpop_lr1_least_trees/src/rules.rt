//! The rules of a grammar's table, with their right sides.

ghost use Rattle.std.specs.Prelude.{◌≡◌, IfOk, drop, map};
ghost use Rattle.lalrpop_lr1_first.specs.Tables.{symbols_until};
ghost use Rattle.lalrpop_lr1_least_trees.specs.NumberedTrees.{rule_view, rule_views};
ghost use Rattle.lalrpop_lr1_least_trees.specs.GrammarTrees.{number_rule, number_rules};

use crate::least_counts::Rule;
use lalrpop_lr1_first::{Numbered, NumberedRule, Place};
use std::alloc::{AllocError, Global};

/// What stands from a place on; nothing where the place is past the end.
fn places_from(places: &[Place], start: usize) -> &[Place]
    ensures { result.now ≡ drop start places.now }
{
    if start < places.len() {
        &places[start..]
    } else {
        &[]
    }
}

/// The symbols up to the end of the right side.
fn symbols_in(alloc: Global, places: &[Place]) -> Result<Vec<usize>, AllocError>
    ensures { IfOk result (λ symbols. symbols.items ≡ symbols_until places.now) }
{
    let mut symbols = Vec::new(alloc);
    for place in places {
        match *place {
            Place::End(_) => return Ok(symbols),
            Place::Symbol(symbol) => symbols.push(symbol)?,
        }
    }
    Ok(symbols)
}

/// The rule with its right side.
fn rule_of(alloc: Global, places: &[Place], rule: &NumberedRule) -> Result<Rule, AllocError>
    ensures { IfOk result (λ own. rule_view own ≡ number_rule places.now rule.now) }
{
    let right = symbols_in(alloc, places_from(places, rule.start))?;
    Ok(Rule {
        left: rule.left,
        right,
    })
}

/// Rules with their right sides.
fn rules_with(
    alloc: Global,
    places: &[Place],
    rules: &[NumberedRule],
) -> Result<Vec<Rule>, AllocError>
    ensures { IfOk result (λ own. rule_views own.items ≡ map (number_rule places.now) rules.now) }
{
    let mut own = Vec::new(alloc);
    for rule in rules {
        own.push(rule_of(alloc, places, rule)?)?;
    }
    Ok(own)
}

/// The table's rules with their right sides.
pub(crate) fn rules_of(alloc: Global, table: &Numbered<'_>) -> Result<Vec<Rule>, AllocError>
    ensures { IfOk result (λ rules. rule_views rules.items ≡ number_rules table.now) }
{
    let rules = rules_with(alloc, table.places(), table.rules())?;
    Ok(rules)
}
