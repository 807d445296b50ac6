//! The construction as an object: how many states it makes, and the items that a nonterminal behind a dot brings.

ghost use Rattle.lalrpop_lr1_first.specs.FirstSetsOf.{AreFirstSetsOf};
ghost use Rattle.lalrpop_lr1_first.specs.NumberedGrammars.{HasItsTerminals};

use crate::check::{check, is_debug};
use crate::grammars::{PAIRS, grammar_of, name_of, production_at};
use lalrpop_grammar_repr::{Grammar, Symbol};
use lalrpop_grammar_symbols::NonterminalString;
use lalrpop_lr1_build::builder::{LookaheadBuild, Lr};
use lalrpop_lr1_core::Item;
use lalrpop_sets::{Nil, TokenSet};
use std::alloc::Global;
use std::process::Abort;

/// That these are the items that the nonterminal brings, where the symbols stand behind it, and then the end.
fn brings(
    rt: &impl Abort,
    alloc: Global,
    lr: &Lr<'_, TokenSet>,
    name: &NonterminalString,
    rest: &[Symbol],
    end: &TokenSet,
    wanted: &str,
)
    requires { AreFirstSetsOf lr.now.grammar.now lr.now.first_sets }
{
    let items = TokenSet::epsilon_moves(alloc, lr, name, rest, end).expect(rt, "memory");
    check(rt, is_debug(rt, alloc, &items, wanted));
}

/// What C brings before C and before the end, "c" and "d" being the tokens 0 and 1 and the end 2; and what no nonterminal brings.
fn c_brings_its_productions(
    rt: &impl Abort,
    alloc: Global,
    grammar: &Grammar,
    lr: &Lr<'_, TokenSet>,
    end: &TokenSet,
)
    requires { AreFirstSetsOf lr.now.grammar.now lr.now.first_sets }
{
    let c = &production_at(rt, alloc, grammar, "C", 0).nonterminal;
    let rest = Item::lr0(production_at(rt, alloc, grammar, "S", 0), 1).prefix();
    let before_c = r#"[C = (*) "c" C {0, 1}, C = (*) "d" {0, 1}]"#;
    brings(rt, alloc, lr, c, rest, end, before_c);
    let before_end = r#"[C = (*) "c" C {2}, C = (*) "d" {2}]"#;
    brings(rt, alloc, lr, c, &[], end, before_end);
    let other = name_of(rt, alloc, "X");
    brings(rt, alloc, lr, &other, &[], end, "[]");
}

fn with_lookaheads(rt: &impl Abort, alloc: Global, grammar: &Grammar, end: &TokenSet)
    requires { HasItsTerminals grammar.now }
{
    let lookahead = TokenSet::eof(alloc, &grammar.terminals).expect(rt, "memory");
    let lr = Lr::new(alloc, grammar, name_of(rt, alloc, "__S"), lookahead).expect(rt, "memory");
    c_brings_its_productions(rt, alloc, grammar, &lr, end);
    let states = lr.build_states(alloc).expect(rt, "states");
    check(rt, states.len() == 10);
}

fn without_lookaheads(rt: &impl Abort, alloc: Global, grammar: &Grammar)
    requires { HasItsTerminals grammar.now }
{
    let lr = Lr::new(alloc, grammar, name_of(rt, alloc, "__S"), Nil).expect(rt, "memory");
    let c = &production_at(rt, alloc, grammar, "C", 0).nonterminal;
    let items = Nil::epsilon_moves(alloc, &lr, c, &[], &Nil).expect(rt, "memory");
    let wanted = r#"[C = (*) "c" C, C = (*) "d"]"#;
    check(rt, is_debug(rt, alloc, &items, wanted));
}

#[test]
fn a_nonterminal_brings_its_productions_before_what_follows(rt: HostRuntime) {
    let alloc = rt.alloc();
    let grammar = grammar_of(&rt, alloc, PAIRS);
    let end = TokenSet::eof(alloc, &grammar.terminals).expect(&rt, "memory");
    with_lookaheads(&rt, alloc, &grammar, &end);
    without_lookaheads(&rt, alloc, &grammar);
}
