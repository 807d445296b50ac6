//! Trees of several symbols, with leaves or without.

ghost use Rattle.std.specs.Prelude.{IfOk, false, map, option_map, true};
ghost use Rattle.lalrpop_grammar_repr.specs.declared.grammar.Grammar.{Grammar};
ghost use Rattle.lalrpop_lr1_core.specs.Views.{production_symbol_view};
ghost use Rattle.lalrpop_lr1_first.specs.FirstSetsOf.{IsProductionOf};
ghost use Rattle.lalrpop_lr1_first.specs.NumberedGrammars.{IsNumberTableOf};
ghost use Rattle.lalrpop_lr1_least_trees.specs.GrammarTrees.{AreLeastTrees};
ghost use Rattle.lalrpop_lr1_least_trees.specs.MoveViews.{tree_move_view};
ghost use Rattle.lalrpop_lr1_least_trees.specs.RestForests.{AnyLeaves, CountsRest, HaveRestMoves, LeavesOfKind, NoLeaves};

use crate::rest_trees::symbol::{symbol_count, symbol_moves};
use crate::{LeastTrees, TreeMove};
use lalrpop_grammar_repr::Symbol;
use std::alloc::{AllocError, Global};

/// How many leaves and nodes the least trees of the symbols have, with leaves or without.
fn sum_of_counts(trees: &LeastTrees<'_>, leaves: bool, symbols: &[Symbol]) -> Option<usize>
    requires { AreLeastTrees trees.now }
    ensures { (g : Grammar) → IsNumberTableOf g trees.now.table →
        CountsRest (IsProductionOf g) (map production_symbol_view symbols.now) (LeavesOfKind leaves) result }
{
    let mut count = 0usize;
    for symbol in symbols {
        match symbol_count(trees, leaves, symbol) {
            None => return None,
            Some(more) => count = count.saturating_add(more),
        }
    }
    Some(count)
}

/// The moves that build the least trees of the symbols, with leaves or without.
fn moves_of_all<'g>(
    alloc: Global,
    trees: &LeastTrees<'g>,
    leaves: bool,
    symbols: &'g [Symbol],
) -> Result<Option<Vec<TreeMove<'g>>>, AllocError>
    requires { AreLeastTrees trees.now }
    ensures { IfOk result (λ found. (g : Grammar) → IsNumberTableOf g trees.now.table →
        HaveRestMoves (IsProductionOf g) (map production_symbol_view symbols.now) (LeavesOfKind leaves)
        (option_map (λ moves. map tree_move_view moves.items) found)) }
{
    let mut all = Vec::new(alloc);
    for symbol in symbols {
        match symbol_moves(alloc, trees, leaves, symbol)? {
            None => return Ok(None),
            Some(mut moves) => all.append(&mut moves)?,
        }
    }
    Ok(Some(all))
}

/// How many leaves and nodes the least trees with these symbols at their roots have, all together; the greatest number where they are as
/// many or more. None where there are no such trees over the productions.
pub fn rest_count(trees: &LeastTrees<'_>, symbols: &[Symbol]) -> Option<usize>
    requires { AreLeastTrees trees.now }
    ensures { (g : Grammar) → IsNumberTableOf g trees.now.table →
        CountsRest (IsProductionOf g) (map production_symbol_view symbols.now) AnyLeaves result }
{
    sum_of_counts(trees, true, symbols)
}

/// How many nodes the least trees without leaves have that have these symbols at their roots, all together; the greatest number where
/// they are as many or more. None where the symbols don't derive the empty sentence.
pub fn empty_rest_count(trees: &LeastTrees<'_>, symbols: &[Symbol]) -> Option<usize>
    requires { AreLeastTrees trees.now }
    ensures { (g : Grammar) → IsNumberTableOf g trees.now.table →
        CountsRest (IsProductionOf g) (map production_symbol_view symbols.now) NoLeaves result }
{
    sum_of_counts(trees, false, symbols)
}

/// The moves that build the least trees with these symbols at their roots, one after the other; none where there are no such trees over
/// the productions.
///
/// # Errors
///
/// Memory is refused. It is where the trees have as many leaves and nodes as the greatest number or more.
pub fn rest_moves<'g>(
    alloc: Global,
    trees: &LeastTrees<'g>,
    symbols: &'g [Symbol],
) -> Result<Option<Vec<TreeMove<'g>>>, AllocError>
    requires { AreLeastTrees trees.now }
    ensures { IfOk result (λ found. (g : Grammar) → IsNumberTableOf g trees.now.table →
        HaveRestMoves (IsProductionOf g) (map production_symbol_view symbols.now) AnyLeaves
        (option_map (λ moves. map tree_move_view moves.items) found)) }
{
    let moves = moves_of_all(alloc, trees, true, symbols)?;
    Ok(moves)
}

/// The moves that build the least trees without leaves that have these symbols at their roots, one after the other; none where the
/// symbols don't derive the empty sentence.
///
/// # Errors
///
/// Memory is refused. It is where the trees have as many nodes as the greatest number or more.
pub fn empty_rest_moves<'g>(
    alloc: Global,
    trees: &LeastTrees<'g>,
    symbols: &'g [Symbol],
) -> Result<Option<Vec<TreeMove<'g>>>, AllocError>
    requires { AreLeastTrees trees.now }
    ensures { IfOk result (λ found. (g : Grammar) → IsNumberTableOf g trees.now.table →
        HaveRestMoves (IsProductionOf g) (map production_symbol_view symbols.now) NoLeaves
        (option_map (λ moves. map tree_move_view moves.items) found)) }
{
    let moves = moves_of_all(alloc, trees, false, symbols)?;
    Ok(moves)
}
