//! What a question asks of a grammar, prepared for it.

ghost use Rattle.std.specs.Prelude.{IfErr, IfOk};
ghost use Rattle.lalrpop_grammar.specs.Views.{grammar_view};
ghost use Rattle.lalrpop_norm_theory.specs.Premises.{IsReadGrammar};
ghost use Rattle.lalrpop_run.specs.Parsers.{IsPreparedFor, IsRefusedFor};
ghost use Rattle.lalrpop_run.specs.Questions.{question_view};

use crate::questions::Question;
use lalrpop_grammar::Grammar;
use lalrpop_run_parser::{Prepared, prepare};
use lalrpop_run_prepare::refusals::GenerateError;
use std::alloc::Global;

/// The grammar, prepared for the question, or why it is refused before its states are built. What is prepared is large, so it is boxed.
pub(crate) fn prepare_for(
    alloc: Global,
    question: Question<'_>,
    grammar: Grammar,
) -> Result<Box<Prepared>, GenerateError<'static>>
    ensures prepared { IfOk result (λ prepared. IsReadGrammar (grammar_view grammar)
        → IsPreparedFor (question_view question.entry) grammar prepared.value) }
    ensures refused { IfErr result (λ error. IsReadGrammar (grammar_view grammar)
        → IsRefusedFor (question_view question.entry) (grammar_view grammar) error) }
{
    let Question { start, session, .. } = question;
    let prepared = prepare(alloc, grammar, &start, session)?;
    // what is known of it
    prepared.known();
    let boxed = Box::new(alloc, prepared)?;
    Ok(boxed)
}
