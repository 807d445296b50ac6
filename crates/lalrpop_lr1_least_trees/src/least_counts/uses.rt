//! On which rules' right sides a name is.

ghost use Rattle.std.specs.Prelude.{◌≡◌, ℕ, [], IfOk, OnOk, length, slice_index_or};
ghost use Rattle.lalrpop_lr1_least_trees.specs.NumberedTrees.{rule_views};
ghost use Rattle.lalrpop_lr1_least_trees.specs.Searches.{AddsUses, AreUses, number_lists};

use crate::least_counts::rule::Rule;
use std::alloc::{AllocError, Global};

/// As many empty lists.
pub fn empty_lists(alloc: Global, count: usize) -> Result<Vec<Vec<usize>>, AllocError>
    ensures count { IfOk result (λ lists. length lists.items ≡ count) }
    ensures empty { IfOk result (λ lists. (k : ℕ) → slice_index_or (number_lists lists.items) k [] ≡ []) }
{
    let mut lists = Vec::new(alloc);
    for _ in 0..count {
        lists.push(Vec::new(alloc))?;
    }
    Ok(lists)
}

/// Adds the rule at each name on its right side.
fn add_uses(uses: &mut Vec<Vec<usize>>, rule: usize, right: &[usize]) -> Result<(), AllocError>
    ensures { OnOk result (AddsUses rule right.now (number_lists uses.old.items) (number_lists uses.new.items)) }
{
    for symbol in right {
        let name = *symbol;
        if name < uses.len() {
            uses[name].push(rule)?;
        }
    }
    Ok(())
}

/// At each name, the rules on whose right sides it is.
pub(crate) fn uses_of(
    alloc: Global,
    names: usize,
    rules: &[Rule],
) -> Result<Vec<Vec<usize>>, AllocError>
    ensures { IfOk result (λ uses. AreUses (rule_views rules.now) names (number_lists uses.items)) }
{
    let mut uses = empty_lists(alloc, names)?;
    for rule in 0..rules.len() {
        add_uses(&mut uses, rule, rules[rule].right.as_slice())?;
    }
    Ok(uses)
}
