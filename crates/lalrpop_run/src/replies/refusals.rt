//! Refusals as replies.

ghost use Rattle.std.specs.Prelude.{◌≡◌, ◌≢◌, ◌↔◌, IfOk, IsTrue};

use crate::replies::reply::Reply;
use lalrpop_run_prepare::refusals::GenerateError;
use std::alloc::AllocError;

/// The reply that tells the refusal.
///
/// # Errors
///
/// The refusal is want of memory.
pub fn refusal_reply(error: GenerateError<'static>) -> Result<Reply, AllocError>
    ensures { IfOk result (λ reply. (error.entry ≢ GenerateError.Memory) × (reply ≡ Reply.Refused error.entry)) }
{
    if is_memory(&error) {
        return Err(AllocError);
    }
    Ok(Reply::Refused(error))
}

/// Whether the refusal is want of memory.
fn is_memory(error: &GenerateError<'_>) -> bool
    ensures { IsTrue result ↔ (error.now ≡ GenerateError.Memory) }
{
    match error {
        GenerateError::Memory => true,
        GenerateError::Extern | GenerateError::Recovery | GenerateError::Norm(_) => false,
        GenerateError::UnknownStart(_) | GenerateError::PrivateStart(_) => false,
        GenerateError::Barren(_) | GenerateError::Conflicts(_) => false,
        GenerateError::ConditionLimit => false,
    }
}
