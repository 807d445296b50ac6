//! The search for least trees.

ghost use Rattle.std.specs.Prelude.{◌≡◌, ◌<◌, ℕ, None, IfOk, length, slice_index_or};
ghost use Rattle.lalrpop_lr1_least_trees.specs.LeastTrees.{AreLeast};
ghost use Rattle.lalrpop_lr1_least_trees.specs.NumberedTrees.{NamesAreBelow, rule_view, rule_views};
ghost use Rattle.lalrpop_lr1_least_trees.specs.Searches.{IsTry, number_lists, rules_again as again_of};

use crate::least_counts::counts::{LeastTree, is_more, side_count};
use crate::least_counts::rule::Rule;
use crate::least_counts::uses::uses_of;
use crate::least_counts::waiting::Worklist;
use std::alloc::{AllocError, Global};

/// A table in which no name has a tree.
fn no_trees(alloc: Global, names: usize) -> Result<Vec<Option<LeastTree>>, AllocError>
    ensures count { IfOk result (λ table. length table.items ≡ names) }
    ensures none { IfOk result (λ table. (s : ℕ) → slice_index_or table.items s None ≡ None) }
{
    let mut table = Vec::new(alloc);
    for _ in 0..names {
        table.push(None)?;
    }
    Ok(table)
}

/// Sets the rule's tree as its name's, where that is a smaller one, and says whether it is.
fn try_rule(rule: &Rule, number: usize, leaves: bool, table: &mut Vec<Option<LeastTree>>) -> bool
    requires { rule.now.left < length table.old.items }
    ensures { IsTry leaves (rule_view rule.now) number table.old.items table.new.items result }
{
    let Some(count) = side_count(table.as_slice(), leaves, rule.right.as_slice()) else {
        return false;
    };
    if !is_more(table[rule.left], count) {
        return false;
    }
    table[rule.left] = Some(LeastTree {
        count,
        rule: number,
    });
    true
}

/// The rules to be looked at again: those on whose right sides the name is, where its count fell.
fn rules_again(uses: &[Vec<usize>], name: usize, fell: bool) -> &[usize]
    requires { name < length uses.now }
    ensures { result.now ≡ again_of (number_lists uses.now) name fell }
{
    if fell { uses[name].as_slice() } else { &[] }
}

/// The least trees of names below a count, by rules for them: with leaves, or those alone that have none.
///
/// A rule is looked at again where the count of a name on its right side fell. An entry gives way to a smaller one only.
///
/// # Errors
///
/// Memory is refused.
pub fn least_trees(
    alloc: Global,
    names: usize,
    rules: &[Rule],
    leaves: bool,
) -> Result<Vec<Option<LeastTree>>, AllocError>
    requires { NamesAreBelow names (rule_views rules.now) }
    ensures { IfOk result (λ table. AreLeast (rule_views rules.now) names leaves table.items) }
{
    let uses = uses_of(alloc, names, rules)?;
    let mut table = no_trees(alloc, names)?;
    let mut waiting = Worklist::all(alloc, rules.len())?;
    while let Some(number) = waiting.pop() {
        let rule = &rules[number];
        let fell = try_rule(rule, number, leaves, &mut table);
        waiting.push_all(rules_again(uses.as_slice(), rule.left, fell))?;
    }
    Ok(table)
}
