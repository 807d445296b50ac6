//! All passes at once.

use crate::check::{check, debug_text, is_debug};
use crate::entries::tells_entries;
use crate::grammars::{COMMAS, grammar_of, plain_session};
use crate::lowering::{lowered_commas, normalized_grammar};
use lalrpop_grammar_repr::Grammar;
use lalrpop_lexer::dfa::Dfa;
use lalrpop_norm::{Normalized, normalize_with_dfa};
use std::alloc::Global;
use std::process::Abort;

/// The comma grammar, normalized, with its automaton.
fn normal_with_dfa(rt: &impl Abort, alloc: Global) -> Box<(Normalized, Dfa)> {
    let grammar = grammar_of(rt, alloc, COMMAS);
    let made = normalize_with_dfa(alloc, &plain_session(alloc), Box::into_inner(grammar));
    Box::new(alloc, made.expect(rt, "a normal grammar")).expect(rt, "memory")
}

/// Whether both grammars are shown alike.
fn is_shown_alike(rt: &impl Abort, alloc: Global, one: &Grammar, other: &Grammar) -> bool {
    let shown = debug_text(rt, alloc, one);
    is_debug(rt, alloc, other, shown.as_str())
}

/// Whether both are the same, in all that there is to see of them.
fn is_same(rt: &impl Abort, alloc: Global, one: &Normalized, other: &Normalized) -> bool {
    let grammars = is_shown_alike(rt, alloc, &one.grammar, &other.grammar);
    grammars & (one.origins == other.origins) & (one.entries == other.entries)
}

/// That an automaton comes with the same.
fn comes_with_dfa(rt: &impl Abort, alloc: Global, wanted: &Normalized) {
    let made = normal_with_dfa(rt, alloc);
    tells_entries(rt, &made.1);
    check(rt, is_same(rt, alloc, wanted, &made.0));
}

#[test]
fn all_passes_at_once_are_pass_after_pass(rt: HostRuntime) {
    let wanted = lowered_commas(&rt, rt.alloc());
    let found = normalized_grammar(&rt, rt.alloc(), COMMAS);
    check(&rt, is_same(&rt, rt.alloc(), &wanted, &found));
    comes_with_dfa(&rt, rt.alloc(), &wanted);
}
