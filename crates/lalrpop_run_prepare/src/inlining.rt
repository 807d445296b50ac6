//! The inlined rules of a lowered grammar.

ghost use Rattle.std.specs.Prelude.{◌≡◌, IfErr, IfOk};
ghost use Rattle.lalrpop_lr1_inline.specs.InlinedGrammars.{IsInlinedGrammar};
ghost use Rattle.lalrpop_norm_lower.specs.TableReadiness.{IsReadyForTables};
ghost use Rattle.lalrpop_run_prepare.specs.InlineRefusals.{IsRefusedInlining, inline_refusal_at, is_too_many, told_at};

use crate::refusals::GenerateError;
use lalrpop_grammar_repr::{Grammar, NormError, NormErrorKind};
use lalrpop_grammar_symbols::Span;
use lalrpop_lr1_inline::{InlineFault, inline};
use std::alloc::Global;

/// Whether the fault is that there are more actions than numbers.
fn has_too_many(kind: &NormErrorKind) -> bool
    ensures { result ≡ is_too_many kind.now }
{
    match kind {
        NormErrorKind::TooManyActions => true,
        _ => false,
    }
}

/// The fault with its place: too many actions are told where the whole grammar is written.
fn with_place(mut error: NormError, whole: Span) -> NormError
    ensures { result ≡ told_at whole error }
{
    if has_too_many(&error.kind) {
        error.span = whole;
    }
    error
}

/// Why the rules aren't inlined, as it is told.
fn inline_refusal(fault: InlineFault, whole: Span) -> GenerateError<'static>
    ensures { result ≡ inline_refusal_at whole fault }
{
    match fault {
        InlineFault::Norm(error) => GenerateError::Norm(with_place(error, whole)),
        InlineFault::Memory => GenerateError::Memory,
    }
}

/// The lowered grammar with its inlined rules inlined; `whole` is where the grammar is written.
pub(crate) fn inline_rules(
    alloc: Global,
    lowered: &Grammar,
    whole: Span,
) -> Result<Grammar, GenerateError<'static>>
    requires { IsReadyForTables lowered.now }
    ensures inlined { IfOk result (IsInlinedGrammar lowered.now) }
    ensures refused { IfErr result (IsRefusedInlining whole lowered.now) }
{
    let copy = lowered.try_clone(alloc)?;
    match inline(alloc, copy) {
        Ok(expansion) => Ok(expansion),
        Err(fault) => Err(inline_refusal(fault, whole)),
    }
}
