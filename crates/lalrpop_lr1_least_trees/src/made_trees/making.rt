//! Trees from moves.

ghost use Rattle.std.specs.Prelude.{◌+◌, ◌<◌, ◌^◌, IfOk, length, map};
ghost use Rattle.lalrpop_lr1_theory.specs.Spans.{without_spans};
ghost use Rattle.lalrpop_lr1_least_trees.specs.MoveViews.{tree_move_view};
ghost use Rattle.lalrpop_lr1_interpret.specs.ExpandedViews.{expanded_views, listed_views};
ghost use Rattle.lalrpop_lr1_least_trees.specs.SpanNumbers.{AreMade, CanMove, IsMoved, LeadSomewhere};

use crate::TreeMove;
use lalrpop_grammar_symbols::Span;
use lalrpop_lr1_interpret::parse::{ExpandedTree, TreeList};
use std::alloc::{AllocError, Global};

/// Makes the move, and tells the number of the next leaf.
fn make_move<'g>(
    tree_move: TreeMove<'g>,
    number: usize,
    trees: &mut TreeList<'g>,
) -> Result<usize, AllocError>
    requires number { number + 1 < 2 ^ 64 }
    requires can { CanMove (tree_move_view tree_move) (without_spans (listed_views trees.old)) }
    ensures { IfOk result (λ next. IsMoved (tree_move_view tree_move.entry) number (listed_views trees.old) next
        (listed_views trees.new)) }
{
    match tree_move {
        TreeMove::Shift(terminal) => {
            trees.push_leaf(terminal.try_clone()?, Span(number, number + 1))?;
            Ok(number + 1)
        }
        TreeMove::Reduce(production) => {
            trees.push_node(production)?;
            Ok(number)
        }
    }
}

/// The trees that the moves build, one beside the other, in one list. Their leaves are numbered from a number on.
pub(crate) fn listed_trees<'g>(
    alloc: Global,
    moves: &[TreeMove<'g>],
    from: usize,
) -> Result<TreeList<'g>, AllocError>
    requires moves { LeadSomewhere (map tree_move_view moves.now) }
    requires numbers { from + length moves.now < 2 ^ 64 }
    ensures { IfOk result (λ trees. AreMade (map tree_move_view moves.now) from (listed_views trees)) }
{
    let mut trees = TreeList::new(alloc);
    let mut number = from;
    for tree_move in moves {
        number = make_move(*tree_move, number, &mut trees)?;
    }
    Ok(trees)
}

/// The trees that the moves build, one beside the other. Their leaves are numbered from a number on: the leaf with the number n has
/// the span n..n+1.
///
/// # Errors
///
/// Memory is refused.
pub fn made_trees<'g>(
    alloc: Global,
    moves: &[TreeMove<'g>],
    from: usize,
) -> Result<Vec<ExpandedTree<'g>>, AllocError>
    requires moves { LeadSomewhere (map tree_move_view moves.now) }
    requires numbers { from + length moves.now < 2 ^ 64 }
    ensures { IfOk result (λ trees. AreMade (map tree_move_view moves.now) from (expanded_views trees.items)) }
{
    listed_trees(alloc, moves, from)?.into_trees()
}
