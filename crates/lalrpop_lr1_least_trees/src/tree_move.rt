//! Moves by names.

ghost use Rattle.std.specs.Prelude.{IfOk, map};
ghost use Rattle.lalrpop_lr1_least_trees.specs.GrammarTrees.{HasName, HaveNames, production_by, symbols_by};
ghost use Rattle.lalrpop_lr1_least_trees.specs.MoveViews.{IsNumberedMove, SpellsMoves, tree_move_view};

use crate::least_counts::NumberMove;
use crate::table::{production_at, terminal_at};
use lalrpop_grammar_repr::Production;
use lalrpop_grammar_symbols::TerminalString;
use lalrpop_lr1_first::Numbered;
use std::alloc::{AllocError, Global};

/// A move by which trees over productions are built from the left.
#[derive(Clone, Copy)]
pub enum TreeMove<'g> {
    /// The shift of a leaf.
    Shift(&'g TerminalString),
    /// The reduction by the production of a node.
    Reduce(&'g Production),
}

/// The move with this number.
fn name_move<'g>(table: &Numbered<'g>, number: NumberMove) -> TreeMove<'g>
    requires { HasName table.now number }
    ensures { IsNumberedMove (symbols_by table.now) (production_by table.now) number (tree_move_view result) }
{
    match number {
        NumberMove::Shift(symbol) => TreeMove::Shift(terminal_at(table, symbol)),
        NumberMove::Reduce(rule) => TreeMove::Reduce(production_at(table, rule)),
    }
}

/// The moves with these numbers.
pub(crate) fn name_moves<'g>(
    alloc: Global,
    table: &Numbered<'g>,
    numbers: &[NumberMove],
) -> Result<Vec<TreeMove<'g>>, AllocError>
    requires { HaveNames table.now numbers.now }
    ensures { IfOk result (λ moves. SpellsMoves (symbols_by table.now) (production_by table.now) numbers.now
        (map tree_move_view moves.items)) }
{
    let mut moves = Vec::with_capacity(alloc, numbers.len())?;
    for number in numbers {
        moves.push(name_move(table, *number))?;
    }
    Ok(moves)
}
