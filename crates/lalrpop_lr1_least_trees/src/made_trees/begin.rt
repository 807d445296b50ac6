//! Trees that begin with a terminal, with numbered leaves.

ghost use Rattle.std.specs.Prelude.{◌≡◌, IfOk, map, option_map};
ghost use Rattle.lalrpop_grammar_repr.specs.declared.grammar.Grammar.{Grammar};
ghost use Rattle.lalrpop_grammar_symbols.specs.Symbols.{Terminal};
ghost use Rattle.lalrpop_lr1_first.specs.FirstSetsOf.{IsProductionOf};
ghost use Rattle.lalrpop_lr1_first.specs.NumberedGrammars.{IsNumberTableOf};
ghost use Rattle.lalrpop_lr1_least_trees.specs.GrammarTrees.{symbols_by};
ghost use Rattle.lalrpop_lr1_least_trees.specs.BeginForests.{IsBeginTreeOf, IsWanted};
ghost use Rattle.lalrpop_lr1_least_trees.specs.BeginTables.{AreBeginTrees};
ghost use Rattle.lalrpop_lr1_interpret.specs.ExpandedViews.{expanded_view};
ghost use Rattle.lalrpop_lr1_least_trees.specs.LeastExpanded.{HasNumbered, HasTableGrammar};

use crate::begin_trees::BeginTrees;
use crate::made_trees::least::only_tree;
use lalrpop_grammar_symbols::NonterminalString;
use lalrpop_lr1_interpret::parse::ExpandedTree;
use std::alloc::{AllocError, Global};

/// A tree of the nonterminal that begins with the terminal, whose leaves are numbered from a number on: the leaf with the number n has
/// the span n..n+1. None where no tree of the nonterminal begins with the terminal.
///
/// The trees are those of a grammar. It is made by a loop, however deep it is.
///
/// # Errors
///
/// Memory is refused. It is where each such tree has as many leaves and nodes as the greatest number or more, or a leaf's number would
/// be past that.
pub fn begin_tree<'g>(
    alloc: Global,
    begins: &BeginTrees<'_, 'g>,
    nonterminal: &NonterminalString,
    from: usize,
) -> Result<Option<ExpandedTree<'g>>, AllocError>
    requires begins { AreBeginTrees begins.now }
    requires grammar { HasTableGrammar begins.now.trees.now }
    ensures { IfOk result (λ found. (g : Grammar) (t : Terminal) → IsNumberTableOf g begins.now.trees.now.table →
        IsWanted (symbols_by begins.now.trees.now.table) t begins.now.wanted →
        HasNumbered (IsBeginTreeOf (IsProductionOf g) nonterminal.now.0 t) from (option_map expanded_view found)) }
{
    match begins.moves(alloc, nonterminal)? {
        None => Ok(None),
        Some(moves) => Ok(Some(only_tree(alloc, moves.as_slice(), from)?)),
    }
}
