//! Least trees with numbered leaves.

ghost use Rattle.std.specs.Prelude.{◌≡◌, IfOk, false, map, option_map};
ghost use Rattle.lalrpop_lr1_theory.specs.Spans.{without_spans};
ghost use Rattle.lalrpop_lr1_theory.specs.Trees.{IsTreeOf};
ghost use Rattle.lalrpop_lr1_first.specs.FirstSetsOf.{IsProductionOf};
ghost use Rattle.lalrpop_lr1_first.specs.NumberedGrammars.{IsNumberTableOf};
ghost use Rattle.lalrpop_lr1_least_trees.specs.GrammarTrees.{AreLeastTrees};
ghost use Rattle.lalrpop_lr1_least_trees.specs.LeastForests.{IsTreeOfKind};
ghost use Rattle.lalrpop_lr1_least_trees.specs.MoveViews.{tree_move_view};
ghost use Rattle.lalrpop_lr1_interpret.specs.ExpandedViews.{expanded_view};
ghost use Rattle.lalrpop_lr1_least_trees.specs.LeastExpanded.{HasLeastNumbered, HasTableGrammar};
ghost use Rattle.lalrpop_lr1_least_trees.specs.SpanNumbers.{AreMade, LeadToOne};
ghost use Rattle.lalrpop_grammar_repr.specs.declared.grammar.Grammar.{Grammar};

use crate::made_trees::making::listed_trees;
use crate::{LeastTrees, TreeMove};
use lalrpop_grammar_symbols::NonterminalString;
use lalrpop_lr1_interpret::parse::ExpandedTree;
use std::alloc::{AllocError, Global};

/// The only tree that the moves build. Its leaves are numbered from a number on: the leaf with the number n has the span n..n+1.
///
/// # Errors
///
/// Memory is refused. It is where a leaf's number could be past the greatest one.
pub fn only_tree<'g>(
    alloc: Global,
    moves: &[TreeMove<'g>],
    from: usize,
) -> Result<ExpandedTree<'g>, AllocError>
    requires { LeadToOne (map tree_move_view moves.now) }
    ensures { IfOk result (λ tree. AreMade (map tree_move_view moves.now) from (expanded_view tree)) }
{
    if from.checked_add(moves.len()).is_none() {
        return Err(AllocError);
    }
    Ok(listed_trees(alloc, moves, from)?.into_tree())
}

/// The nonterminal's least tree, whose leaves are numbered from a number on: the leaf with the number n has the span n..n+1. None
/// where no tree over the productions has the nonterminal at its root.
///
/// The trees are those of a grammar. It is made by a loop, however deep it is.
///
/// # Errors
///
/// Memory is refused. It is where the tree has as many leaves and nodes as the greatest number or more, or a leaf's number would be
/// past that.
pub fn least_tree<'g>(
    alloc: Global,
    trees: &LeastTrees<'g>,
    nonterminal: &NonterminalString,
    from: usize,
) -> Result<Option<ExpandedTree<'g>>, AllocError>
    requires trees { AreLeastTrees trees.now }
    requires grammar { HasTableGrammar trees.now }
    ensures { IfOk result (λ found. (g : Grammar) → IsNumberTableOf g trees.now.table →
        HasLeastNumbered (IsTreeOf (IsProductionOf g) nonterminal.now.0) from (option_map expanded_view found)) }
{
    match trees.moves(alloc, nonterminal)? {
        None => Ok(None),
        Some(moves) => Ok(Some(only_tree(alloc, moves.as_slice(), from)?)),
    }
}

/// The nonterminal's least tree without leaves. None where it doesn't derive the empty sentence.
///
/// The trees are those of a grammar. It is made by a loop, however deep it is.
///
/// # Errors
///
/// Memory is refused. It is where the tree has as many nodes as the greatest number or more.
pub fn empty_tree<'g>(
    alloc: Global,
    trees: &LeastTrees<'g>,
    nonterminal: &NonterminalString,
) -> Result<Option<ExpandedTree<'g>>, AllocError>
    requires trees { AreLeastTrees trees.now }
    requires grammar { HasTableGrammar trees.now }
    ensures { IfOk result (λ found. (g : Grammar) → IsNumberTableOf g trees.now.table →
        HasLeastNumbered (IsTreeOfKind (IsProductionOf g) nonterminal.now.0 false) 0 (option_map expanded_view found)) }
{
    match trees.empty_moves(alloc, nonterminal)? {
        None => Ok(None),
        Some(moves) => Ok(Some(only_tree(alloc, moves.as_slice(), 0)?)),
    }
}
