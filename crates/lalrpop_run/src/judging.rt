//! What `judge` replies.

ghost use Rattle.std.specs.Prelude.{◌≡◌, IfOk, Ok, Some};
ghost use Rattle.lalrpop_run.specs.Judge.{GivesTree, IsJudgeReply};
ghost use Rattle.lalrpop_run.specs.Questions.{question_view};

use crate::questions::{Input, Question, tree_input};
use crate::replies::Reply;
use lalrpop_grammar::{Grammar, WrittenTree};
use lalrpop_judge::{JudgeError, judge_tree};
use std::alloc::{AllocError, Global};

/// What `judge` replies to a grammar: whether it admits the question's tree.
///
/// # Errors
///
/// Memory is refused.
pub(crate) fn judge_reply(
    alloc: Global,
    question: &Question<'_>,
    grammar: &Grammar,
) -> Result<Reply, AllocError>
    ensures { IfOk result (IsJudgeReply (question_view question.now) grammar.now) }
{
    match question.tree {
        Some(text) => reply_to_text(alloc, question, grammar, text),
        None => Ok(Reply::WantsTree),
    }
}

/// The reply to a grammar and the tree's JSON.
fn reply_to_text(
    alloc: Global,
    question: &Question<'_>,
    grammar: &Grammar,
    text: &str,
) -> Result<Reply, AllocError>
    ensures { IfOk result (λ reply. (question_view question.now).tree ≡ Some text.now
        → IsJudgeReply (question_view question.now) grammar.now reply) }
{
    match tree_input(alloc, text)? {
        Input::Value(tree) => verdict(alloc, question, grammar, &tree),
        Input::NotJson => Ok(Reply::NotJson),
        Input::Fault(fault) => Ok(Reply::TreeFault(fault)),
    }
}

/// Whether the grammar admits the tree over its own leaves.
fn verdict(
    alloc: Global,
    question: &Question<'_>,
    grammar: &Grammar,
    tree: &WrittenTree,
) -> Result<Reply, AllocError>
    ensures { IfOk result (λ reply. GivesTree (question_view question.now) (Ok tree.now)
        → IsJudgeReply (question_view question.now) grammar.now reply) }
{
    match judge_tree(
        alloc,
        grammar,
        question.session.features.as_slice(),
        &question.start,
        tree,
    ) {
        Ok(admitted) => Ok(Reply::Judged(admitted)),
        Err(JudgeError::Condition) => Ok(Reply::ConditionLimit),
        Err(JudgeError::Memory) => Err(AllocError),
    }
}
