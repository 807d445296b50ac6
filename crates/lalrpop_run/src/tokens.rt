//! What `tokens` replies.

ghost use Rattle.std.specs.Prelude.{◌≡◌, IfOk, List};
ghost use Rattle.lalrpop_grammar.specs.Views.{grammar_view};
ghost use Rattle.lalrpop_grammar.specs.declared.grammar.Grammar.{Grammar as WrittenGrammar};
ghost use Rattle.lalrpop_lexer_scan.specs.Entries.{ScanEntry};
ghost use Rattle.lalrpop_lexer_scan.specs.Scanning.{IsScannerOf};
ghost use Rattle.lalrpop_norm_theory.specs.Premises.{IsReadGrammar};
ghost use Rattle.lalrpop_run.specs.Parsers.{IsPreparedFor};
ghost use Rattle.lalrpop_run.specs.Questions.{Question as AskedQuestion, question_view};
ghost use Rattle.lalrpop_run.specs.Tokens.{IsScanReply, IsTokensReply};

use crate::conflicts::conflicts_reply;
use crate::preparing::prepare_for;
use crate::questions::Question;
use crate::replies::{Reply, TokenLines, refusal_reply};
use lalrpop_grammar::Grammar;
use lalrpop_lexer_scan::ScanError;
use lalrpop_run_options::Method;
use lalrpop_run_parser::{Parser, Prepared, generate};
use std::alloc::{AllocError, Global};

/// What `tokens` replies to a grammar and a text: the tokens, where they end, or why the grammar has no parser.
///
/// # Errors
///
/// Memory is refused.
pub(crate) fn tokens_reply(
    alloc: Global,
    question: Question<'_>,
    grammar: Grammar,
    text: &str,
) -> Result<Reply, AllocError>
    ensures { IfOk result (λ reply. IsReadGrammar (grammar_view grammar)
        → IsTokensReply (question_view question.entry) grammar text.now reply) }
{
    let method = question.method;
    match prepare_for(alloc, question, grammar) {
        Ok(prepared) => text_reply(alloc, &prepared, method, text),
        Err(error) => refusal_reply(error),
    }
}

/// The reply once the grammar is prepared: what the scan of the text tells, or the conflicts of the grammar.
fn text_reply(
    alloc: Global,
    prepared: &Prepared,
    method: Method,
    text: &str,
) -> Result<Reply, AllocError>
    ensures { IfOk result (λ reply. (q : AskedQuestion) (g : WrittenGrammar) → IsPreparedFor q g prepared.now
        → IsTokensReply q g text.now reply) }
{
    match generate(alloc, prepared, method) {
        Ok(parser) => scan_reply(alloc, &parser, text),
        Err(error) => conflicts_reply(alloc, prepared, error),
    }
}

/// The tokens of the text, a line for each, or the first byte without one.
fn scan_reply(alloc: Global, parser: &Parser<'_>, text: &str) -> Result<Reply, AllocError>
    ensures { IfOk result (λ reply. (entries : List ScanEntry) → IsScannerOf parser.now.prepared.scanner entries
        → IsScanReply entries text.now reply) }
{
    let mut lines = TokenLines::new(alloc);
    match parser.scan_into(text, &mut lines) {
        Ok(()) => Ok(Reply::Tokens(lines.into_text())),
        Err(ScanError::NoToken(at)) => Ok(Reply::NoToken(at)),
        Err(ScanError::Memory) => Err(AllocError),
    }
}
