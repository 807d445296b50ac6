//! Trees of several symbols that begin with a terminal.

ghost use Rattle.std.specs.Prelude.{◌<◌, IfOk, IfSome, IsTrue, length, map, option_map};
ghost use Rattle.lalrpop_grammar_symbols.specs.Views.{terminal_view};
ghost use Rattle.lalrpop_grammar_repr.specs.declared.grammar.Grammar.{Grammar};
ghost use Rattle.lalrpop_lr1_core.specs.Views.{production_symbol_view};
ghost use Rattle.lalrpop_lr1_first.specs.FirstSetsOf.{IsProductionOf};
ghost use Rattle.lalrpop_lr1_first.specs.NumberedGrammars.{IsNumberTableOf};
ghost use Rattle.lalrpop_lr1_least_trees.specs.GrammarTrees.{symbols_by};
ghost use Rattle.lalrpop_lr1_least_trees.specs.MoveViews.{tree_move_view};
ghost use Rattle.lalrpop_lr1_least_trees.specs.BeginForests.{IsWanted};
ghost use Rattle.lalrpop_lr1_least_trees.specs.BeginTables.{AreBeginTrees};
ghost use Rattle.lalrpop_lr1_least_trees.specs.BeginPlaces.{HasBeginPlace};
ghost use Rattle.lalrpop_lr1_least_trees.specs.RestForests.{BeginsWith, CountsRest, HasNoRest, HaveRestMoves};

use crate::TreeMove;
use crate::begin_trees::BeginTrees;
use crate::rest_trees::begin_place::{BeginPlace, counts_beside, place_before};
use crate::rest_trees::rest::{empty_rest_moves, rest_moves};
use crate::rest_trees::symbol::{
    begin_symbol_count, begin_symbol_moves, is_same_terminal, symbol_count,
};
use lalrpop_grammar_repr::Symbol;
use lalrpop_grammar_symbols::TerminalString;
use std::alloc::{AllocError, Global};

/// Whether the first symbol is another terminal, with which all trees of the symbols begin.
fn begins_otherwise(terminal: &TerminalString, symbols: &[Symbol]) -> bool
    ensures { IsTrue result → (g : Grammar) →
        HasNoRest (IsProductionOf g) (map production_symbol_view symbols.now) (BeginsWith (terminal_view terminal.now)) }
{
    let Some(Symbol::Terminal(own)) = symbols.first() else {
        return false;
    };
    !is_same_terminal(own, terminal)
}

/// The place at which light trees of the symbols begin with the terminal, the lightest of all such places.
fn begin_place(
    begins: &BeginTrees<'_, '_>,
    terminal: &TerminalString,
    symbols: &[Symbol],
) -> Option<BeginPlace>
    requires begins { AreBeginTrees begins.now }
    requires wanted { IsWanted (symbols_by begins.now.trees.now.table) (terminal_view terminal.now) begins.now.wanted }
    ensures inside { IfSome result (λ found. found.place < length symbols.now) }
    ensures place { (g : Grammar) → IsNumberTableOf g begins.now.trees.now.table →
        HasBeginPlace (IsProductionOf g) (map production_symbol_view symbols.now) (terminal_view terminal.now) 0 result }
{
    if begins_otherwise(terminal, symbols) {
        return None;
    }
    let trees = begins.trees();
    let mut behind = Some(0);
    let mut found = None;
    for place in (0..symbols.len()).rev() {
        let symbol = &symbols[place];
        let here = counts_beside(begin_symbol_count(begins, terminal, symbol), behind);
        found = place_before(place, here, symbol_count(trees, false, symbol), found);
        behind = counts_beside(symbol_count(trees, true, symbol), behind);
    }
    found
}

/// How many leaves and nodes light trees have that have these symbols at their roots and begin with the terminal, all together; the
/// greatest number where they are as many or more. They begin at the place at which they have the fewest: those in front of it are the
/// least ones without leaves, that at it is the one that `begins` tells, those behind it are the least ones. None where no such trees
/// over the productions begin with the terminal, which is that of `begins`.
pub fn begin_rest_count(
    begins: &BeginTrees<'_, '_>,
    terminal: &TerminalString,
    symbols: &[Symbol],
) -> Option<usize>
    requires begins { AreBeginTrees begins.now }
    requires wanted { IsWanted (symbols_by begins.now.trees.now.table) (terminal_view terminal.now) begins.now.wanted }
    ensures { (g : Grammar) → IsNumberTableOf g begins.now.trees.now.table →
        CountsRest (IsProductionOf g) (map production_symbol_view symbols.now) (BeginsWith (terminal_view terminal.now)) result }
{
    match begin_place(begins, terminal, symbols) {
        None => None,
        Some(found) => Some(found.count),
    }
}

/// The moves that build the trees that `begin_rest_count` counts, one after the other; none where no trees over the productions that have
/// these symbols at their roots begin with the terminal, which is that of `begins`.
///
/// # Errors
///
/// Memory is refused. It is where the trees have as many leaves and nodes as the greatest number or more.
pub fn begin_rest_moves<'g>(
    alloc: Global,
    begins: &BeginTrees<'_, 'g>,
    terminal: &TerminalString,
    symbols: &'g [Symbol],
) -> Result<Option<Vec<TreeMove<'g>>>, AllocError>
    requires begins { AreBeginTrees begins.now }
    requires wanted { IsWanted (symbols_by begins.now.trees.now.table) (terminal_view terminal.now) begins.now.wanted }
    ensures { IfOk result (λ moves. (g : Grammar) → IsNumberTableOf g begins.now.trees.now.table →
        HaveRestMoves (IsProductionOf g) (map production_symbol_view symbols.now) (BeginsWith (terminal_view terminal.now))
        (option_map (λ moves. map tree_move_view moves.items) moves)) }
{
    let Some(found) = begin_place(begins, terminal, symbols) else {
        return Ok(None);
    };
    let trees = begins.trees();
    let place = found.place;
    let Some(mut all) = empty_rest_moves(alloc, trees, &symbols[..place])? else {
        return Ok(None);
    };
    let Some(mut here) = begin_symbol_moves(alloc, begins, terminal, &symbols[place])? else {
        return Ok(None);
    };
    let Some(mut behind) = rest_moves(alloc, trees, &symbols[place + 1..])? else {
        return Ok(None);
    };
    all.append(&mut here)?;
    all.append(&mut behind)?;
    Ok(Some(all))
}
