//! Moves by their names.

use lalrpop_grammar_repr::ActionFn;
use lalrpop_grammar_symbols::TerminalString;

/// A move of a parser, as it is named.
#[derive(PartialEq, Eq, Drop)]
pub enum Move {
    /// The shift of this terminal.
    Shift(TerminalString),
    /// The reduction by the production with this action.
    Reduce(ActionFn),
}
