//! The answer once grammar and text are read.

ghost use Rattle.std.specs.Prelude.{◌≡◌, IfOk};
ghost use Rattle.lalrpop_run.specs.Questions.{question_of, question_view};
ghost use Rattle.lalrpop_run.specs.Replies.{IsGrammarFor, IsReplyTo};
ghost use Rattle.lalrpop_run.specs.Outputs.{answer_view, reply_output};

use crate::checking::check_reply;
use crate::judging::judge_reply;
use crate::parsing::parse_reply;
use crate::questions::{Question, question_of};
use crate::replies::{Answer, Reply, put};
use crate::reporting::report_reply;
use crate::tokens::tokens_reply;
use lalrpop_grammar::Grammar;
use lalrpop_run_options::{Options, Task};
use std::alloc::{AllocError, Global};

/// The answer once the grammar and the text are read. `judge`, `check` and `report` have no use for the text. What is answered to all tasks but
/// `judge` is promised for a grammar that looks as one that was read, with any prefix of two or more underscores.
pub fn answer(
    alloc: Global,
    options: &Options,
    grammar: Grammar,
    text: &str,
) -> Result<Answer, AllocError>
    ensures { IfOk result (λ answer. (reply : Reply)
        × ((IsGrammarFor options.now.task grammar → IsReplyTo (question_of options.now) grammar text.now reply)
        × (answer_view answer ≡ reply_output reply))) }
{
    let question = question_of(alloc, options)?;
    let reply = reply_to(alloc, question, grammar, text)?;
    let said = put(alloc, reply)?;
    Ok(said)
}

/// The reply to a grammar and a text, by the task.
fn reply_to(
    alloc: Global,
    question: Question<'_>,
    grammar: Grammar,
    text: &str,
) -> Result<Reply, AllocError>
    ensures { IfOk result (λ reply. IsGrammarFor question.entry.task grammar
        → IsReplyTo (question_view question.entry) grammar text.now reply) }
{
    match question.task {
        Task::Judge => {
            let reply = judge_reply(alloc, &question, &grammar)?;
            Ok(reply)
        }
        Task::Tokens => {
            let reply = tokens_reply(alloc, question, grammar, text)?;
            Ok(reply)
        }
        Task::Check => {
            let reply = check_reply(alloc, question, grammar)?;
            Ok(reply)
        }
        Task::Parse => {
            let reply = parse_reply(alloc, question, grammar, text)?;
            Ok(reply)
        }
        Task::Report => {
            let reply = report_reply(alloc, question, grammar)?;
            Ok(reply)
        }
    }
}
