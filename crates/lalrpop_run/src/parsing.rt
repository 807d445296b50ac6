//! What `parse` replies.

ghost use Rattle.std.specs.Prelude.{◌≡◌, IfOk, List};
ghost use Rattle.std.specs.Str.{chars};
ghost use Rattle.lalrpop_grammar.specs.Views.{grammar_view};
ghost use Rattle.lalrpop_grammar.specs.declared.grammar.Grammar.{Grammar as WrittenGrammar};
ghost use Rattle.lalrpop_lexer_scan.specs.Entries.{ScanEntry};
ghost use Rattle.lalrpop_lexer_scan.specs.Scanning.{IsScannerOf};
ghost use Rattle.lalrpop_norm_theory.specs.Premises.{IsReadGrammar};
ghost use Rattle.lalrpop_run.specs.Parse.{IsAnswerTold, IsParseReply};
ghost use Rattle.lalrpop_run.specs.Parsers.{IsPreparedFor};
ghost use Rattle.lalrpop_run.specs.Questions.{Question as AskedQuestion, question_view};

use crate::conflicts::conflicts_reply;
use crate::preparing::prepare_for;
use crate::questions::Question;
use crate::replies::{Reply, refusal_reply};
use lalrpop_grammar::Grammar;
use lalrpop_run_options::Method;
use lalrpop_run_parser::{ParseError, Parser, Prepared, generate};
use std::alloc::{AllocError, Global};

/// What `parse` replies to a grammar and a text: the tree of the text, where it has none, or why the grammar has no parser.
///
/// # Errors
///
/// Memory is refused.
pub(crate) fn parse_reply(
    alloc: Global,
    question: Question<'_>,
    grammar: Grammar,
    text: &str,
) -> Result<Reply, AllocError>
    ensures { IfOk result (λ reply. IsReadGrammar (grammar_view grammar)
        → IsParseReply (question_view question.entry) grammar text.now reply) }
{
    let method = question.method;
    let limit = question.limit;
    match prepare_for(alloc, question, grammar) {
        Ok(prepared) => text_reply(alloc, &prepared, method, text, limit),
        Err(error) => refusal_reply(error),
    }
}

/// The reply once the grammar is prepared: what its parser answers to the text, or the conflicts of the grammar.
fn text_reply(
    alloc: Global,
    prepared: &Prepared,
    method: Method,
    text: &str,
    limit: u64,
) -> Result<Reply, AllocError>
    ensures { IfOk result (λ reply. (q : AskedQuestion) (g : WrittenGrammar) → q.limit ≡ limit
        → IsPreparedFor q g prepared.now → IsParseReply q g text.now reply) }
{
    match generate(alloc, prepared, method) {
        Ok(parser) => tree_reply(alloc, &parser, text, limit),
        Err(error) => conflicts_reply(alloc, prepared, error),
    }
}

/// What the parser answers to the text.
fn tree_reply(
    alloc: Global,
    parser: &Parser<'_>,
    text: &str,
    limit: u64,
) -> Result<Reply, AllocError>
    ensures { IfOk result (λ reply. IsReadGrammar (grammar_view parser.now.prepared.written) → (entries : List ScanEntry)
        → IsScannerOf parser.now.prepared.scanner entries
        → IsAnswerTold parser.now.prepared entries (chars text.now) limit reply) }
{
    match parser.parse(alloc, text, limit) {
        Ok(tree) => Ok(Reply::Tree(tree)),
        Err(ParseError::NoToken(at)) => Ok(Reply::NoToken(at)),
        Err(ParseError::Token { at, text }) => Ok(Reply::WrongToken(at, text)),
        Err(ParseError::End) => Ok(Reply::EarlyEnd),
        Err(ParseError::Limit) => Ok(Reply::OverLimit(limit)),
        Err(ParseError::Memory) => Err(AllocError),
    }
}
