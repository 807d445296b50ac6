//! Messages of faults that no grammar of the cases has, and what a `?` makes of faults.

use crate::check::{check, is_shown, name_of};
use lalrpop_grammar_repr::{NormError, NormErrorKind, NormFault, NormResult};
use lalrpop_grammar_symbols::Span;
use std::alloc::{AllocError, AllocFailed, Global};
use std::process::Abort;

/// That the fault of this kind prints this, and where it stands isn't printed.
fn prints(rt: &impl Abort, alloc: Global, kind: NormErrorKind, text: &str) {
    check(rt, is_shown(rt, alloc, &kind, text));
    let span = Span(40, 44);
    let fault = NormFault::Norm(NormError { kind, span });
    check(rt, is_shown(rt, alloc, &fault, text));
}

#[test]
fn messages_of_actions_and_inlining(rt: HostRuntime) {
    let alloc = rt.alloc();
    prints(
        &rt,
        alloc,
        NormErrorKind::TooManyActions,
        "too many actions",
    );
    let kind = NormErrorKind::CyclicInline(name_of(&rt, alloc, "A"));
    let text = "cyclic inline directive: `A` would have to be inlined into itself";
    prints(&rt, alloc, kind, text);
}

#[test]
fn messages_of_other_refusals(rt: HostRuntime) {
    let limit = NormFault::ConditionLimit;
    check(&rt, is_shown(&rt, rt.alloc(), &limit, "condition limit"));
    let memory = NormFault::Memory;
    check(&rt, is_shown(&rt, rt.alloc(), &memory, "out of memory"));
}

/// What a `?` makes of the fault.
fn fault_of(error: NormError) -> NormResult<()> {
    Err(error)?
}

/// What a `?` makes of refused memory.
fn without_memory() -> NormResult<()> {
    Err(AllocError)?
}

/// What a `?` makes of a value that could not be stored.
fn not_stored() -> NormResult<()> {
    Err(AllocFailed { value: 7u64 })?
}

/// Whether it is that memory was wanting. The answer is dropped here.
fn is_memory(answer: NormResult<()>) -> bool {
    matches!(&answer, Err(NormFault::Memory))
}

/// Whether it is a fault of the grammar. The answer is dropped here.
fn is_norm(answer: NormResult<()>) -> bool {
    matches!(&answer, Err(NormFault::Norm(_)))
}

#[test]
fn a_fault_of_the_grammar_by_a_question_mark(rt: HostRuntime) {
    let error = NormError {
        kind: NormErrorKind::TooManyActions,
        span: Span(0, 1),
    };
    check(&rt, is_norm(fault_of(error)));
}

#[test]
fn refused_memory_by_a_question_mark(rt: HostRuntime) {
    check(&rt, is_memory(without_memory()));
    check(&rt, is_memory(not_stored()));
}
