//! Trees of one symbol.

ghost use Rattle.std.specs.Prelude.{◌≡◌, ◌∷◌, [], ◌↔◌, IfOk, IsTrue, map, option_map};
ghost use Rattle.lalrpop_grammar_symbols.specs.Views.{terminal_view};
ghost use Rattle.lalrpop_grammar_repr.specs.declared.grammar.Grammar.{Grammar};
ghost use Rattle.lalrpop_lr1_theory.specs.Trees.{shift};
ghost use Rattle.lalrpop_lr1_core.specs.Views.{production_symbol_view};
ghost use Rattle.lalrpop_lr1_first.specs.FirstSetsOf.{IsProductionOf};
ghost use Rattle.lalrpop_lr1_first.specs.NumberedGrammars.{IsNumberTableOf};
ghost use Rattle.lalrpop_lr1_least_trees.specs.GrammarTrees.{AreLeastTrees, symbols_by};
ghost use Rattle.lalrpop_lr1_least_trees.specs.MoveViews.{tree_move_view};
ghost use Rattle.lalrpop_lr1_least_trees.specs.BeginForests.{IsWanted};
ghost use Rattle.lalrpop_lr1_least_trees.specs.BeginTables.{AreBeginTrees};
ghost use Rattle.lalrpop_lr1_least_trees.specs.RestForests.{BeginsWith, CountsRest, HaveRestMoves, LeavesOfKind};

use crate::begin_trees::BeginTrees;
use crate::{LeastTrees, TreeMove};
use lalrpop_grammar_repr::Symbol;
use lalrpop_grammar_symbols::TerminalString;
use std::alloc::{AllocError, Global};

/// Whether the terminals are one.
pub(crate) fn is_same_terminal(terminal: &TerminalString, other: &TerminalString) -> bool
    ensures { IsTrue result ↔ (terminal.now ≡ other.now) }
{
    terminal == other
}

/// The shift of the terminal alone.
fn only_shift<'g>(
    alloc: Global,
    terminal: &'g TerminalString,
) -> Result<Vec<TreeMove<'g>>, AllocError>
    ensures { IfOk result (λ moves. map tree_move_view moves.items ≡ shift (terminal_view terminal.now) ∷ []) }
{
    let mut moves = Vec::new(alloc);
    moves.push(TreeMove::Shift(terminal))?;
    Ok(moves)
}

/// How many leaves and nodes the least tree of the symbol has, with leaves or without.
pub(crate) fn symbol_count(trees: &LeastTrees<'_>, leaves: bool, symbol: &Symbol) -> Option<usize>
    requires { AreLeastTrees trees.now }
    ensures { (g : Grammar) → IsNumberTableOf g trees.now.table →
        CountsRest (IsProductionOf g) (production_symbol_view symbol.now ∷ []) (LeavesOfKind leaves) result }
{
    match symbol {
        Symbol::Terminal(_) => { if leaves { Some(1) } else { None } }
        Symbol::Nonterminal(name) => {
            if leaves {
                trees.count(name)
            } else {
                trees.empty_count(name)
            }
        }
    }
}

/// How many leaves and nodes a light tree of the symbol has that begins with the terminal.
pub(crate) fn begin_symbol_count(
    begins: &BeginTrees<'_, '_>,
    terminal: &TerminalString,
    symbol: &Symbol,
) -> Option<usize>
    requires begins { AreBeginTrees begins.now }
    requires wanted { IsWanted (symbols_by begins.now.trees.now.table) (terminal_view terminal.now) begins.now.wanted }
    ensures { (g : Grammar) → IsNumberTableOf g begins.now.trees.now.table →
        CountsRest (IsProductionOf g) (production_symbol_view symbol.now ∷ []) (BeginsWith (terminal_view terminal.now)) result }
{
    match symbol {
        Symbol::Terminal(own) => {
            if is_same_terminal(own, terminal) {
                Some(1)
            } else {
                None
            }
        }
        Symbol::Nonterminal(name) => begins.count(name),
    }
}

/// The moves that build the least tree of the symbol, with leaves or without.
pub(crate) fn symbol_moves<'g>(
    alloc: Global,
    trees: &LeastTrees<'g>,
    leaves: bool,
    symbol: &'g Symbol,
) -> Result<Option<Vec<TreeMove<'g>>>, AllocError>
    requires { AreLeastTrees trees.now }
    ensures { IfOk result (λ found. (g : Grammar) → IsNumberTableOf g trees.now.table →
        HaveRestMoves (IsProductionOf g) (production_symbol_view symbol.now ∷ []) (LeavesOfKind leaves)
        (option_map (λ moves. map tree_move_view moves.items) found)) }
{
    match symbol {
        Symbol::Terminal(terminal) => {
            if leaves {
                Ok(Some(only_shift(alloc, terminal)?))
            } else {
                Ok(None)
            }
        }
        Symbol::Nonterminal(name) => {
            if leaves {
                let moves = trees.moves(alloc, name)?;
                Ok(moves)
            } else {
                let moves = trees.empty_moves(alloc, name)?;
                Ok(moves)
            }
        }
    }
}

/// The moves that build a light tree of the symbol that begins with the terminal.
pub(crate) fn begin_symbol_moves<'g>(
    alloc: Global,
    begins: &BeginTrees<'_, 'g>,
    terminal: &TerminalString,
    symbol: &'g Symbol,
) -> Result<Option<Vec<TreeMove<'g>>>, AllocError>
    requires begins { AreBeginTrees begins.now }
    requires wanted { IsWanted (symbols_by begins.now.trees.now.table) (terminal_view terminal.now) begins.now.wanted }
    ensures { IfOk result (λ found. (g : Grammar) → IsNumberTableOf g begins.now.trees.now.table →
        HaveRestMoves (IsProductionOf g) (production_symbol_view symbol.now ∷ []) (BeginsWith (terminal_view terminal.now))
        (option_map (λ moves. map tree_move_view moves.items) found)) }
{
    match symbol {
        Symbol::Terminal(own) => {
            if is_same_terminal(own, terminal) {
                Ok(Some(only_shift(alloc, own)?))
            } else {
                Ok(None)
            }
        }
        Symbol::Nonterminal(name) => {
            let moves = begins.moves(alloc, name)?;
            Ok(moves)
        }
    }
}
