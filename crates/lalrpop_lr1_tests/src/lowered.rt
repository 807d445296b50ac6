//! Questions of a grammar of plain productions, and of its copy.

use crate::check::check;
use crate::grammars::{grammar_of, name_of};
use lalrpop_grammar_repr::{
    ActionFn, ActionFnDefn, ActionFnDefnKind, Grammar, TypeRepr, UserActionFnDefn,
};
use lalrpop_grammar_symbols::List;
use std::alloc::Global;
use std::process::Abort;

/// Two productions, whose actions can't fail.
const LINES: &str = "__S: S\nS: A\n";

/// How many productions the nonterminal has, and whether it stands on no right side.
fn ask_of(rt: &impl Abort, alloc: Global, grammar: &Grammar, name: &str) -> (usize, bool) {
    let name = name_of(rt, alloc, name);
    let count = grammar.productions_for(&name).len();
    (count, grammar.start_is_alone(&name))
}

fn answers(rt: &impl Abort, alloc: Global, grammar: &Grammar) {
    check(rt, ask_of(rt, alloc, grammar, "__S") == (1, true));
    check(rt, ask_of(rt, alloc, grammar, "S") == (1, false));
    check(rt, ask_of(rt, alloc, grammar, "A") == (0, false));
}

/// An action that may fail.
fn fallible_action(alloc: Global) -> ActionFnDefn {
    ActionFnDefn {
        fallible: true,
        ret_type: TypeRepr::Tuple(List::new(alloc)),
        kind: ActionFnDefnKind::User(UserActionFnDefn { code: None }),
    }
}

fn the_last_may_fail(rt: &impl Abort, grammar: &Grammar) {
    check(rt, grammar.action_fn_defns.len() == 3);
    check(rt, grammar.action_is_fallible(ActionFn::new(2)));
    check(rt, !grammar.action_is_fallible(ActionFn::new(0)));
}

/// A copy of the grammar, with one more action, which may fail.
fn copy_of(rt: &impl Abort, alloc: Global, grammar: &Grammar) -> Box<Grammar> {
    let mut copy = grammar.try_clone(alloc).expect(rt, "memory");
    copy.action_fn_defns
        .push(fallible_action(alloc))
        .expect(rt, "memory");
    Box::new(alloc, copy).expect(rt, "memory")
}

#[test]
fn questions_of_a_grammar_and_of_its_copy(rt: HostRuntime) {
    let grammar = grammar_of(&rt, rt.alloc(), LINES);
    answers(&rt, rt.alloc(), &grammar);
    let copy = copy_of(&rt, rt.alloc(), &grammar);
    answers(&rt, rt.alloc(), &copy);
    the_last_may_fail(&rt, &copy);
}
