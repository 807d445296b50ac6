//! Replies as answers: texts with the status that the program ends with.

ghost use Rattle.std.specs.Prelude.{◌≡◌, IfOk};
ghost use Rattle.lalrpop_run.specs.ReplyTexts.{refusal_status as status_of_refusal, reply_status};
ghost use Rattle.lalrpop_run.specs.Outputs.{answer_view, reply_output};

use crate::replies::reply::{Answer, Reply};
use lalrpop_run_prepare::refusals::GenerateError;
use std::alloc::{AllocError, Global};

/// The answer that says it.
///
/// # Errors
///
/// Memory is refused.
pub fn put(alloc: Global, reply: Reply) -> Result<Answer, AllocError>
    ensures { IfOk result (λ answer. answer_view answer ≡ reply_output reply) }
{
    match reply {
        // these texts may be long, so they aren't written once more
        Reply::Tokens(text) | Reply::Report(text, false) => Ok(Answer { text, status: 0 }),
        Reply::Report(text, true) => Ok(Answer { text, status: 3 }),
        reply => answer_to(alloc, &reply),
    }
}

fn answer_to(alloc: Global, reply: &Reply) -> Result<Answer, AllocError>
    ensures { IfOk result (λ answer. answer_view answer ≡ reply_output reply.now) }
{
    let text = reply.to_string(alloc)?;
    Ok(Answer {
        text,
        status: status(reply),
    })
}

/// The exit status of a reply.
fn status(reply: &Reply) -> u8
    ensures { result ≡ reply_status reply.now }
{
    match reply {
        Reply::Judged(true) | Reply::Parser(_) | Reply::Tokens(_) | Reply::Tree(_) => 0,
        Reply::Report(_, false) => 0,
        Reply::Judged(false) | Reply::NoToken(_) => 1,
        Reply::WrongToken(_, _) | Reply::EarlyEnd => 1,
        Reply::OverLimit(_) => 2,
        Reply::ConditionLimit => 3,
        Reply::Conflicts(_) | Reply::Report(_, true) => 3,
        Reply::Refused(error) => refusal_status(error),
        Reply::WantsTree | Reply::NotJson | Reply::NotUtf8 => 4,
        Reply::GrammarFault(_) | Reply::TreeFault(_) => 4,
    }
}

/// The exit status of a refusal.
fn refusal_status(error: &GenerateError<'_>) -> u8
    ensures { result ≡ status_of_refusal error.now }
{
    match error {
        GenerateError::Extern | GenerateError::Recovery | GenerateError::Norm(_) => 3,
        GenerateError::UnknownStart(_) | GenerateError::PrivateStart(_) => 3,
        GenerateError::Barren(_) | GenerateError::Conflicts(_) => 3,
        GenerateError::ConditionLimit => 3,
        GenerateError::Memory => 5,
    }
}
