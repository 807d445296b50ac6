//! First sets of symbols in a row, by sets of a grammar and by their copy.

ghost use Rattle.lalrpop_lr1_first.specs.NumberedGrammars.{HasItsTerminals};

use crate::check::shows;
use crate::grammars::{grammar_of, production_at, token_of};
use lalrpop_grammar_repr::{Grammar, Symbol, TerminalSet};
use lalrpop_lr1_core::Item;
use lalrpop_lr1_first::FirstSets;
use lalrpop_sets::TokenSet;
use std::alloc::Global;
use std::process::Abort;

/// `A = B "C"; B = "D" or empty; X = "E"`, and a production in which they stand in a row before x.
const LINES: &str = "A: B \"C\"\nB: \"D\"\nB:\nX: \"E\"\nY: B X \"x\"\n";

/// What comes first in B and X, and in nothing; and before x in B, and in nothing.
fn come_first(
    rt: &impl Abort,
    alloc: Global,
    firsts: &FirstSets,
    terminals: &TerminalSet,
    row: &[Symbol],
    ahead: &TokenSet,
) {
    let set = firsts.first0(alloc, terminals, row);
    shows(rt, alloc, set, terminals, r#"["D", "E"]"#);
    let set = firsts.first0(alloc, terminals, &[]);
    shows(rt, alloc, set, terminals, "[Eof]");
    let (_, front) = row.split_last().expect(rt, "a symbol");
    let set = firsts.first1(alloc, terminals, front, ahead);
    shows(rt, alloc, set, terminals, r#"["D", "x"]"#);
    let set = firsts.first1(alloc, terminals, &[], ahead);
    shows(rt, alloc, set, terminals, r#"["x"]"#);
}

fn answer(rt: &impl Abort, alloc: Global, grammar: &Grammar, ahead: &TokenSet)
    requires { HasItsTerminals grammar.now }
{
    let row = Item::lr0(production_at(rt, alloc, grammar, "Y", 0), 2).prefix();
    let firsts = FirstSets::new(alloc, grammar).expect(rt, "memory");
    come_first(rt, alloc, &firsts, &grammar.terminals, row, ahead);
    let copy = firsts.try_clone(alloc).expect(rt, "memory");
    come_first(rt, alloc, &copy, &grammar.terminals, row, ahead);
}

#[test]
fn what_comes_first_in_a_row_and_before_a_token(rt: HostRuntime) {
    let alloc = rt.alloc();
    let grammar = grammar_of(&rt, alloc, LINES);
    let x = token_of(&rt, alloc, "x");
    let ahead = TokenSet::from_token(alloc, &x, &grammar.terminals).expect(&rt, "memory");
    answer(&rt, alloc, &grammar, &ahead);
}
