//! The reading of productions and names.

ghost use Rattle.std.specs.Prelude.{IfErr, IfOk};
ghost use Rattle.lalrpop_lr1_first.specs.NumberedGrammars.{HasItsTerminals};
ghost use Rattle.lalrpop_plain_tables.specs.Readings.{IsFaultOfReading};

use crate::answers::fault::AnswerFault;
use crate::answers::own_terminals::has_its_terminals;
use crate::lines::{LinesError, read_lines};
use lalrpop_grammar_repr::Grammar;
use lalrpop_grammar_symbols::{Atom, NonterminalString};
use std::alloc::{AllocError, Global};

/// The grammar whose productions stand in the lines of the text.
///
/// # Errors
///
/// A line is no production, there are too many of them, the terminals aren't numbered by their places, or memory runs out.
pub fn read_productions(alloc: Global, text: &str) -> Result<Grammar, AnswerFault>
    ensures read { IfOk result HasItsTerminals }
    ensures fault { IfErr result (IsFaultOfReading text.now) }
{
    match read_lines(alloc, text) {
        Ok(grammar) if has_its_terminals(&grammar) => Ok(grammar),
        Ok(_) => Err(AnswerFault::Terminals),
        Err(LinesError::Memory) => Err(AnswerFault::Memory),
        Err(LinesError::TooMany) => Err(AnswerFault::Lines(LinesError::TooMany)),
        Err(LinesError::Line(number)) => Err(AnswerFault::Lines(LinesError::Line(number))),
    }
}

/// The nonterminal of that name.
pub fn start_of(alloc: Global, name: &str) -> Result<NonterminalString, AllocError> {
    Ok(NonterminalString(Atom::new(alloc, name)?))
}
