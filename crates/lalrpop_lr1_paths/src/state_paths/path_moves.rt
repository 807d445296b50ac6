//! The moves of least trees over symbols.

ghost use Rattle.std.specs.Prelude.{◌≡◌, ◌∷◌, [], IfOk, List, Some, map, option_map};
ghost use Rattle.lalrpop_grammar_repr.specs.declared.grammar.Grammar.{Grammar};
ghost use Rattle.lalrpop_lr1_theory.specs.Productions.{Symbol};
ghost use Rattle.lalrpop_lr1_first.specs.FirstSetsOf.{IsProductionOf};
ghost use Rattle.lalrpop_lr1_first.specs.NumberedGrammars.{IsNumberTableOf};
ghost use Rattle.lalrpop_lr1_first.specs.Numbers.{SpellsSymbols};
ghost use Rattle.lalrpop_lr1_least_trees.specs.GrammarTrees.{AreLeastTrees, symbols_by};
ghost use Rattle.lalrpop_lr1_least_trees.specs.MoveViews.{tree_move_view};
ghost use Rattle.lalrpop_lr1_paths.specs.PathForests.{HaveForestMoves};
ghost use Rattle.lalrpop_lr1_paths.specs.PathTables.{HasSymbol, HaveSymbols};

use crate::state_paths::reversed::symbol_weight;
use lalrpop_lr1_least_trees::{LeastTrees, TreeMove, terminal_at};
use std::alloc::{AllocError, Global};

/// The moves that build the least tree of the symbol with this number; none where it has no tree.
fn symbol_moves<'g>(
    alloc: Global,
    trees: &LeastTrees<'g>,
    symbol: usize,
) -> Result<Option<Vec<TreeMove<'g>>>, AllocError>
    requires trees { AreLeastTrees trees.now }
    requires symbol { HasSymbol trees.now.table symbol }
    ensures { IfOk result (λ found. (g : Grammar) (x : Symbol) → IsNumberTableOf g trees.now.table →
        symbols_by trees.now.table symbol ≡ Some x →
        HaveForestMoves (IsProductionOf g) (x ∷ []) (option_map (λ moves. map tree_move_view moves.items) found)) }
{
    let table = trees.table();
    let names = table.names();
    if symbol < names.len() {
        let moves = trees.moves(alloc, names[symbol])?;
        return Ok(moves);
    }
    let mut moves = Vec::new(alloc);
    moves.push(TreeMove::Shift(terminal_at(table, symbol)))?;
    Ok(Some(moves))
}

/// The moves that build least trees of the symbols with these numbers, one beside the other; none where one has no tree.
pub(crate) fn forest_moves<'g>(
    alloc: Global,
    trees: &LeastTrees<'g>,
    symbols: &[usize],
) -> Result<Option<Vec<TreeMove<'g>>>, AllocError>
    requires trees { AreLeastTrees trees.now }
    requires symbols { HaveSymbols trees.now.table symbols.now }
    ensures { IfOk result (λ found. (g : Grammar) (syms : List Symbol) → IsNumberTableOf g trees.now.table →
        SpellsSymbols (symbols_by trees.now.table) symbols.now syms →
        HaveForestMoves (IsProductionOf g) syms (option_map (λ moves. map tree_move_view moves.items) found)) }
{
    let mut moves = Vec::new(alloc);
    for symbol in symbols {
        match symbol_moves(alloc, trees, *symbol)? {
            None => return Ok(None),
            Some(mut tree) => moves.append(&mut tree)?,
        }
    }
    Ok(Some(moves))
}

/// How many moves these are; the greatest number where they are as many or more, and where a symbol has no tree.
pub(crate) fn forest_count(trees: &LeastTrees<'_>, symbols: &[usize]) -> u64
    requires { AreLeastTrees trees.now }
{
    let mut count = 0u64;
    for symbol in symbols {
        count = count.saturating_add(symbol_weight(trees, *symbol));
    }
    count
}
