//! With which names the rules of each name begin.

ghost use Rattle.std.specs.Prelude.{◌≡◌, ◌<◌, IfOk, OnOk, length};
ghost use Rattle.lalrpop_lr1_least_trees.specs.Searches.{number_lists};
ghost use Rattle.lalrpop_lr1_first.specs.ClosureTables.{name_behind};
ghost use Rattle.lalrpop_lr1_first.specs.NumberedGrammars.{IsNumberTable};
ghost use Rattle.lalrpop_lr1_check.specs.BeginClauses.{begin_of_rule, begin_to};
ghost use Rattle.lalrpop_lr1_check.specs.BeginLists.{AddsBegins, AreBeginLists};

use lalrpop_lr1_first::{Numbered, NumberedRule, Place};
use lalrpop_lr1_least_trees::least_counts::empty_lists;
use std::alloc::{AllocError, Global};

/// The number of the nonterminal at a place, if one stands there.
fn name_at(table: &Numbered<'_>, place: usize) -> Option<usize>
    ensures { result ≡ name_behind table.now place }
{
    match table.places().get(place) {
        None => None,
        Some(found) => match *found {
            Place::End(_) => None,
            Place::Symbol(symbol) => {
                if symbol < table.names().len() {
                    Some(symbol)
                } else {
                    None
                }
            }
        },
    }
}

/// Lists that a name begins with another, if there is one.
pub(crate) fn add_name(
    from: usize,
    name: Option<usize>,
    begins: &mut Vec<Vec<usize>>,
) -> Result<(), AllocError>
    requires { from < length begins.old.items }
    ensures { OnOk result (AddsBegins (begin_to from name) (number_lists begins.old.items) (number_lists begins.new.items)) }
{
    match name {
        None => Ok(()),
        Some(name) => {
            begins[from].push(name)?;
            Ok(())
        }
    }
}

/// Lists the nonterminal with which the rule's right side begins under its left side.
fn add_begin(
    table: &Numbered<'_>,
    rule: &NumberedRule,
    begins: &mut Vec<Vec<usize>>,
) -> Result<(), AllocError>
    requires { rule.now.left < length begins.old.items }
    ensures { OnOk result (AddsBegins (begin_of_rule table.now rule.now) (number_lists begins.old.items) (number_lists begins.new.items)) }
{
    add_name(rule.left, name_at(table, rule.start), begins)
}

/// For each name, by its number, the names with which the right sides of its rules begin.
pub(crate) fn begin_lists(
    alloc: Global,
    table: &Numbered<'_>,
) -> Result<Vec<Vec<usize>>, AllocError>
    requires { IsNumberTable table.now }
    ensures { IfOk result (λ begins. AreBeginLists table.now (number_lists begins.items)) }
{
    let mut begins = empty_lists(alloc, table.names().len())?;
    let rules = table.rules();
    for number in 0..rules.len() {
        add_begin(table, &rules[number], &mut begins)?;
    }
    Ok(begins)
}
