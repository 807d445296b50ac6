//! The moves of least trees.

ghost use Rattle.std.specs.Prelude.{◌≡◌, ◌<◌, IfOk, Some, length, option_map};
ghost use Rattle.lalrpop_lr1_least_trees.specs.LeastTrees.{AreLeast, AreLeastMoves, BuildLeast};
ghost use Rattle.lalrpop_lr1_least_trees.specs.NumberedTrees.{NamesAreBelow, rule_views};
ghost use Rattle.lalrpop_lr1_least_trees.specs.Openings.{HaveRules, IsOpened, entry_at};
ghost use Rattle.lalrpop_lr1_least_trees.specs.Searches.{count_of, sum_of};

use crate::least_counts::counts::{LeastTree, side_count};
use crate::least_counts::rule::{NumberMove, Rule};
use std::alloc::{AllocError, Global};

/// The rule at the root of the name's least tree; none for another symbol, and where the name has no tree.
fn rule_of(table: &[Option<LeastTree>], symbol: usize) -> Option<usize>
    ensures { result ≡ option_map (λ tree. tree.rule) (entry_at table.now symbol) }
{
    match table.get(symbol) {
        Some(Some(tree)) => Some(tree.rule),
        _ => None,
    }
}

/// The last move of the symbol's least tree. The roots of the trees below its own are added to those that are open.
fn open_tree(
    rules: &[Rule],
    table: &[Option<LeastTree>],
    symbol: usize,
    pending: &mut Vec<usize>,
) -> Result<NumberMove, AllocError>
    requires { HaveRules (rule_views rules.now) table.now }
    ensures { IfOk result (λ last. IsOpened (rule_views rules.now) table.now symbol pending.old.items last pending.new.items) }
{
    match rule_of(table, symbol) {
        None => Ok(NumberMove::Shift(symbol)),
        Some(rule) => {
            pending.extend_from_slice(rules[rule].right.as_slice())?;
            Ok(NumberMove::Reduce(rule))
        }
    }
}

/// The moves of least trees, one after another, with as many leaves and nodes as are given, with these symbols at their roots.
fn moves_of(
    alloc: Global,
    rules: &[Rule],
    table: &[Option<LeastTree>],
    leaves: bool,
    symbols: &[usize],
    count: usize,
) -> Result<Vec<NumberMove>, AllocError>
    requires names { NamesAreBelow (length table.now) (rule_views rules.now) }
    requires least { AreLeast (rule_views rules.now) (length table.now) leaves table.now }
    requires count { sum_of (count_of leaves table.now) symbols.now ≡ Some count }
    requires small { count < usize.MAX }
    ensures { IfOk result (λ moves. BuildLeast (rule_views rules.now) (length table.now) leaves symbols.now moves.items) }
{
    let mut moves = Vec::with_capacity(alloc, count)?;
    let mut pending = Vec::from_slice(alloc, symbols)?;
    while let Some(symbol) = pending.pop() {
        moves.push(open_tree(rules, table, symbol, &mut pending)?)?;
    }
    moves.reverse();
    Ok(moves)
}

/// The moves that build least trees with these symbols at their roots; none where one of them has no tree.
///
/// # Errors
///
/// Memory is refused. It is where the trees have as many leaves and nodes as the greatest number or more: that many moves fit in no
/// memory.
pub fn least_moves(
    alloc: Global,
    rules: &[Rule],
    table: &[Option<LeastTree>],
    leaves: bool,
    symbols: &[usize],
) -> Result<Option<Vec<NumberMove>>, AllocError>
    requires names { NamesAreBelow (length table.now) (rule_views rules.now) }
    requires least { AreLeast (rule_views rules.now) (length table.now) leaves table.now }
    ensures { IfOk result (λ found. AreLeastMoves (rule_views rules.now) (length table.now) leaves symbols.now
        (option_map (λ moves. moves.items) found)) }
{
    match side_count(table, leaves, symbols) {
        None => Ok(None),
        Some(usize::MAX) => Err(AllocError),
        Some(count) => Ok(Some(moves_of(alloc, rules, table, leaves, symbols, count - 1)?)),
    }
}
