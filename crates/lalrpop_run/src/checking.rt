//! What `check` replies.

ghost use Rattle.std.specs.Prelude.{◌≡◌, IfOk};
ghost use Rattle.lalrpop_grammar.specs.Views.{grammar_view};
ghost use Rattle.lalrpop_grammar.specs.declared.grammar.Grammar.{Grammar as WrittenGrammar};
ghost use Rattle.lalrpop_norm_theory.specs.Premises.{IsReadGrammar};
ghost use Rattle.lalrpop_run.specs.Check.{IsCheckReply};
ghost use Rattle.lalrpop_run.specs.Parsers.{IsPreparedFor};
ghost use Rattle.lalrpop_run.specs.Questions.{Question as AskedQuestion, question_view};

use crate::conflicts::conflicts_reply;
use crate::preparing::prepare_for;
use crate::questions::Question;
use crate::replies::{Reply, refusal_reply};
use lalrpop_grammar::Grammar;
use lalrpop_run_options::Method;
use lalrpop_run_parser::{Prepared, generate};
use std::alloc::{AllocError, Global};

/// What `check` replies to a grammar: how many states its parser has, or why it has none.
///
/// # Errors
///
/// Memory is refused.
pub(crate) fn check_reply(
    alloc: Global,
    question: Question<'_>,
    grammar: Grammar,
) -> Result<Reply, AllocError>
    ensures { IfOk result (λ reply. IsReadGrammar (grammar_view grammar)
        → IsCheckReply (question_view question.entry) grammar reply) }
{
    let method = question.method;
    match prepare_for(alloc, question, grammar) {
        Ok(prepared) => states_reply(alloc, &prepared, method),
        Err(error) => refusal_reply(error),
    }
}

/// The reply once the grammar is prepared: how many states its parser has, or its conflicts.
fn states_reply(alloc: Global, prepared: &Prepared, method: Method) -> Result<Reply, AllocError>
    ensures { IfOk result (λ reply. (q : AskedQuestion) (g : WrittenGrammar) → q.method ≡ method
        → IsPreparedFor q g prepared.now → IsCheckReply q g reply) }
{
    match generate(alloc, prepared, method) {
        Ok(parser) => Ok(Reply::Parser(parser.state_count())),
        Err(error) => conflicts_reply(alloc, prepared, error),
    }
}
