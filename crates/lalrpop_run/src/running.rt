//! The run of the program over its readers and its writer.

ghost use Rattle.std.specs.Prelude.{◌≡◌, ℕ, List, IfOk, IfErr, OnOk, Ok, true, false};
ghost use Rattle.lalrpop_grammar_streams.specs.Streams.{ReadsAll};
ghost use Rattle.lalrpop_json_grammar.specs.Grammars.{grammar_at};
ghost use Rattle.lalrpop_run.specs.Inputs.{IsInput};
ghost use Rattle.lalrpop_run.specs.Questions.{question_of, reads_grammar, reads_text};
ghost use Rattle.lalrpop_run.specs.Replies.{GivesGrammar, HasRead, IsRunReply, RunReader};
ghost use Rattle.lalrpop_run.specs.Runs.{read_fault, HasGrammar, IsRightAnswer, IsRightRun, IsWritten};
ghost use Rattle.lalrpop_run.specs.Outputs.{answer_view, reply_output};

use crate::answering::answer;
use crate::questions::{Input, grammar_input, reads_grammar, reads_text};
use crate::replies::{Answer, Reply, put};
use lalrpop_grammar::Grammar;
use lalrpop_grammar_streams::{Sink, Source, SourceError, read_all, write_all};
use lalrpop_run_options::Options;
use std::alloc::{AllocError, Global};
use std::str;

/// Answers the words over the grammar's JSON and, for `tokens` and `parse`, over the text, and writes the answer; its own answer is
/// the exit status.
///
/// `grammar` is read to its end, but not where the words give `judge` no tree. `judge`, `check` and `report` never read `text`;
/// `tokens` and `parse` read it to its end, once the grammar's JSON has given a grammar, whatever is wrong with that, and not where it gives none. The
/// answer's text is made whole before the first write. Where memory was wanting the status is 5, where a reader or the writer has
/// failed it is 6.
pub fn run<R1: Source, R2: Source, W: Sink>(
    alloc: Global,
    options: &Options,
    grammar: &mut R1,
    text: &mut R2,
    out: &mut W,
) -> u8
    ensures right { W.has_failed out.old ≡ false → IsRightRun (question_of options.now)
        (record {
          known = R1.remaining grammar.old;
          had_ended = R1.ended grammar.old;
          has_failed = R1.has_failed grammar.new;
          has_ended = R1.ended grammar.new;
        })
        (record {
          known = R2.remaining text.old;
          had_ended = R2.ended text.old;
          has_failed = R2.has_failed text.new;
          has_ended = R2.ended text.new;
        })
        (record { before = W.contents out.old; after = W.contents out.new; has_failed = W.has_failed out.new })
        result }
    ensures grammar_unread { reads_grammar (question_of options.now) ≡ false → grammar.new ≡ grammar.old }
    ensures text_unread { reads_text (question_of options.now) ≡ false → text.new ≡ text.old }
    ensures text_unwanted { (HasGrammar (R1.remaining grammar.old) → ⊥)
        → text.new ≡ text.old }
    ensures grammar_uses { R1.ended grammar.old ≡ false → R1.misused grammar.new ≡ R1.misused grammar.old }
    ensures text_uses { R2.ended text.old ≡ false → R2.misused text.new ≡ R2.misused text.old }
{
    match right_answer(alloc, options, grammar, text) {
        Ok(answer) => write(answer.text.as_bytes(), answer.status, out),
        Err(SourceError::Memory) => write(b"out of memory\n", 5, out),
        Err(SourceError::Failed) => write(b"read fault\n", 6, out),
    }
}

/// The answer to what the readers give, or why there is none.
fn right_answer<R1: Source, R2: Source>(
    alloc: Global,
    options: &Options,
    grammar: &mut R1,
    text: &mut R2,
) -> Result<Answer, SourceError>
    ensures answer { IfOk result (λ a. IsRightAnswer (question_of options.now)
        (record {
          known = R1.remaining grammar.old;
          had_ended = R1.ended grammar.old;
          has_failed = R1.has_failed grammar.new;
          has_ended = R1.ended grammar.new;
        })
        (record {
          known = R2.remaining text.old;
          had_ended = R2.ended text.old;
          has_failed = R2.has_failed text.new;
          has_ended = R2.ended text.new;
        })
        (answer_view a)) }
    ensures fault { IfErr result (λ e. e ≡ SourceError.Failed → IsRightAnswer (question_of options.now)
        (record {
          known = R1.remaining grammar.old;
          had_ended = R1.ended grammar.old;
          has_failed = R1.has_failed grammar.new;
          has_ended = R1.ended grammar.new;
        })
        (record {
          known = R2.remaining text.old;
          had_ended = R2.ended text.old;
          has_failed = R2.has_failed text.new;
          has_ended = R2.ended text.new;
        })
        read_fault) }
    ensures grammar_unread { reads_grammar (question_of options.now) ≡ false → grammar.new ≡ grammar.old }
    ensures text_unread { reads_text (question_of options.now) ≡ false → text.new ≡ text.old }
    ensures text_unwanted { (HasGrammar (R1.remaining grammar.old) → ⊥)
        → text.new ≡ text.old }
    ensures grammar_uses { R1.ended grammar.old ≡ false → R1.misused grammar.new ≡ R1.misused grammar.old }
    ensures text_uses { R2.ended text.old ≡ false → R2.misused text.new ≡ R2.misused text.old }
{
    if !reads_grammar(options) {
        let answer = reply_answer(alloc, Reply::WantsTree)?;
        return Ok(answer);
    }
    match read_grammar(alloc, grammar)? {
        Input::Value(grammar) => {
            let answer = answer_over(alloc, options, grammar, text)?;
            Ok(answer)
        }
        Input::NotJson => {
            let answer = reply_answer(alloc, Reply::NotJson)?;
            Ok(answer)
        }
        Input::Fault(fault) => {
            let answer = reply_answer(alloc, Reply::GrammarFault(fault))?;
            Ok(answer)
        }
    }
}

/// The answer that says it.
fn reply_answer(alloc: Global, reply: Reply) -> Result<Answer, SourceError>
    ensures answer { IfOk result (λ a. answer_view a ≡ reply_output reply) }
    ensures fault { IfErr result (λ e. e ≡ SourceError.Memory) }
{
    let answer = put(alloc, reply)?;
    Ok(answer)
}

/// What all that the grammar's reader has left is read as.
fn read_grammar<R: Source>(alloc: Global, grammar: &mut R) -> Result<Input<Grammar>, SourceError>
    ensures read { IfOk result (λ input. (bytes : List ℕ)
        × (ReadsAll (R.remaining grammar.old) bytes × IsInput grammar_at bytes input)) }
    ensures keeps { OnOk result (R.has_failed grammar.new ≡ false) }
    ensures fault { IfErr result (λ e. e ≡ SourceError.Failed → R.has_failed grammar.new ≡ true) }
    ensures before_the_end { IfErr result (λ e. e ≡ SourceError.Failed
        → R.ended grammar.old ≡ false → R.ended grammar.new ≡ false) }
    ensures uses { R.ended grammar.old ≡ false → R.misused grammar.new ≡ R.misused grammar.old }
{
    let bytes = read_all(alloc, grammar)?;
    let input = grammar_input(alloc, bytes.as_slice())?;
    Ok(input)
}

/// The answer over a grammar and, where the task needs it, all that the text's reader has left.
fn answer_over<R: Source>(
    alloc: Global,
    options: &Options,
    grammar: Grammar,
    text: &mut R,
) -> Result<Answer, SourceError>
    ensures answer { IfOk result (λ a. (reply : Reply) × (((bytes : List ℕ)
        → GivesGrammar bytes (Ok grammar)
        → IsRunReply (question_of options.now) bytes
        (record {
          known = R.remaining text.old;
          had_ended = R.ended text.old;
          has_failed = R.has_failed text.new;
          has_ended = R.ended text.new;
        })
        reply)
        × (answer_view a ≡ reply_output reply))) }
    ensures needed { IfErr result (λ e. e ≡ SourceError.Failed → reads_text (question_of options.now) ≡ true) }
    ensures fault { IfErr result (λ e. e ≡ SourceError.Failed → R.has_failed text.new ≡ true) }
    ensures before_the_end { IfErr result (λ e. e ≡ SourceError.Failed
        → R.ended text.old ≡ false → R.ended text.new ≡ false) }
    ensures unread { reads_text (question_of options.now) ≡ false → text.new ≡ text.old }
    ensures uses { R.ended text.old ≡ false → R.misused text.new ≡ R.misused text.old }
{
    if reads_text(options) {
        let bytes = read_all(alloc, text)?;
        let answer = answer_over_bytes(alloc, options, grammar, bytes.as_slice())?;
        return Ok(answer);
    }
    let answer = answer(alloc, options, grammar, "")?;
    Ok(answer)
}

/// The answer over a grammar and the text's bytes.
fn answer_over_bytes(
    alloc: Global,
    options: &Options,
    grammar: Grammar,
    bytes: &[u8],
) -> Result<Answer, AllocError>
    ensures { IfOk result (λ a. (reply : Reply) × (((r : RunReader) (json : List ℕ)
        → reads_text (question_of options.now) ≡ true → HasRead r bytes.now
        → GivesGrammar json (Ok grammar)
        → IsRunReply (question_of options.now) json r reply)
        × (answer_view a ≡ reply_output reply))) }
{
    match str::from_utf8(bytes) {
        Ok(text) => {
            let answer = answer(alloc, options, grammar, text)?;
            Ok(answer)
        }
        Err(_) => {
            let answer = put(alloc, Reply::NotUtf8)?;
            Ok(answer)
        }
    }
}

/// Writes the text and answers its status, or 6 where the writer has failed.
fn write<W: Sink>(text: &[u8], status: u8, out: &mut W) -> u8
    ensures { W.has_failed out.old ≡ false → IsWritten (record { text = text.now; status = status })
        (record { before = W.contents out.old; after = W.contents out.new; has_failed = W.has_failed out.new })
        result }
{
    if write_all(text, out) { status } else { 6 }
}
