//! The scanner of a grammar.

ghost use Rattle.std.specs.Prelude.{IfErr, IfOk};
ghost use Rattle.lalrpop_grammar.specs.Views.{grammar_view};
ghost use Rattle.lalrpop_grammar_rules.specs.Search.{finds, is_too_deep};
ghost use Rattle.lalrpop_norm_theory.specs.Premises.{IsReadGrammar};
ghost use Rattle.lalrpop_run_prepare.specs.Refused.{IsGrammarRefusal};
ghost use Rattle.lalrpop_run_prepare.specs.Tokenizers.{IsTokenizer};

use crate::refusals::GenerateError;
use crate::tokens::entries::terminals_of;
use crate::tokens::normalized::normalize_for_start;
use lalrpop_grammar::{Atom, Grammar};
use lalrpop_grammar_repr::Session;
use lalrpop_lexer_scan::Scanner;
use std::alloc::Global;

/// The scanner of the grammar's tokens: it cuts texts by the literals and the match block of the grammar that the session's features
/// leave, once its macros are expanded. `start` names the rule to start from. The automaton is made once.
///
/// It is promised for a grammar as one is read, with any prefix of two or more underscores.
///
/// # Errors
///
/// The refusals in their order: an extern block, error recovery in an enabled alternative, a fault of the grammar with its place, a
/// start that no enabled rule without parameters can be, or no public one. `ConditionLimit` only where an alternative of a macro call
/// that is made is under `~~` or `!~`. Or `Memory`.
pub fn tokenizer(
    alloc: Global,
    session: &Session,
    start: &Atom,
    grammar: Grammar,
) -> Result<Scanner, GenerateError<'static>>
    ensures made { IfOk result (λ scanner. IsReadGrammar (grammar_view grammar)
        → IsTokenizer finds is_too_deep session.now.features.items session.now.macro_recursion_limit start.now
        (grammar_view grammar) scanner) }
    ensures refused { IfErr result (λ error. IsReadGrammar (grammar_view grammar)
        → IsGrammarRefusal finds is_too_deep session.now.features.items session.now.macro_recursion_limit start.now
        (grammar_view grammar) error) }
{
    let (made, dfa) = normalize_for_start(alloc, session, start, grammar)?;
    let terminals = terminals_of(alloc, made.entries)?;
    Ok(Scanner::new(dfa, terminals))
}
