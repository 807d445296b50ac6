//! What stands in a grammar's table at a number.

ghost use Rattle.std.specs.Prelude.{◌≡◌, ◌<◌, ◌≤◌, ◌-◌, Some, length, slice_get};
ghost use Rattle.lalrpop_grammar_symbols.specs.Views.{terminal_view};
ghost use Rattle.lalrpop_lr1_theory.specs.Productions.{terminal as terminal_symbol};
ghost use Rattle.lalrpop_lr1_core.specs.Views.{production_view};
ghost use Rattle.lalrpop_lr1_least_trees.specs.GrammarTrees.{productions_by, symbols_by};

use lalrpop_grammar_repr::Production;
use lalrpop_grammar_symbols::TerminalString;
use lalrpop_lr1_first::Numbered;

/// The production with this number.
pub fn production_at<'g>(table: &Numbered<'g>, number: usize) -> &'g Production
    requires { number < length table.now.productions.items }
    ensures { slice_get (productions_by table.now) number ≡ Some (production_view result.now) }
{
    let productions = table.productions();
    productions[number]
}

/// The terminal with this number, which are counted on behind the names.
pub fn terminal_at<'g>(table: &Numbered<'g>, number: usize) -> &'g TerminalString
    requires past { length table.now.names.items ≤ number }
    requires within { number - length table.now.names.items < length table.now.terminals.now.all }
    ensures { symbols_by table.now number ≡ Some (terminal_symbol (terminal_view result.now)) }
{
    let terminals = table.terminals().all.as_slice();
    &terminals[number - table.names().len()]
}
