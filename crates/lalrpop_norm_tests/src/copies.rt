//! Copies of parts of the lowered grammar, each made alone.

use crate::check::{check, equals};
use crate::parts::name_of;
use lalrpop_grammar::{Atom, List};
use lalrpop_grammar_repr::{
    ActionFn, ActionFnDefnKind, InlineActionFnDefn, InlinedSymbol, Symbol, UserActionFnDefn,
};
use std::alloc::Global;
use std::process::Abort;

/// The action of an alternative with code.
fn user_action(rt: &impl Abort, alloc: Global) -> UserActionFnDefn {
    let code = Atom::new(alloc, "x").expect(rt, "memory");
    UserActionFnDefn { code: Some(code) }
}

/// What became of a symbol that was inlined by the production of number 4, which is empty.
fn inlined_symbol(alloc: Global) -> InlinedSymbol {
    InlinedSymbol::Inlined(ActionFn::new(4), List::new(alloc))
}

/// The action of number 3, in which that symbol was inlined.
fn inline_action(rt: &impl Abort, alloc: Global) -> InlineActionFnDefn {
    let symbols = vec![in alloc; inlined_symbol(alloc)].expect(rt, "memory");
    InlineActionFnDefn {
        action: ActionFn::new(3),
        symbols: List::from_vec(symbols),
    }
}

fn user_is_copied(rt: &impl Abort, alloc: Global) -> bool {
    let user = user_action(rt, alloc);
    equals(&user, user.try_clone().expect(rt, "memory"))
}

fn kind_is_copied(rt: &impl Abort, alloc: Global) -> bool {
    let kind = ActionFnDefnKind::User(user_action(rt, alloc));
    equals(&kind, kind.try_clone(alloc).expect(rt, "memory"))
}

fn inlined_is_copied(rt: &impl Abort, alloc: Global) -> bool {
    let inlined = inlined_symbol(alloc);
    equals(&inlined, inlined.try_clone(alloc).expect(rt, "memory"))
}

fn inline_is_copied(rt: &impl Abort, alloc: Global) -> bool {
    let inline = inline_action(rt, alloc);
    equals(&inline, inline.try_clone(alloc).expect(rt, "memory"))
}

fn symbol_is_copied(rt: &impl Abort, alloc: Global) -> bool {
    let symbol = Symbol::Nonterminal(name_of(rt, alloc, "S"));
    equals(&symbol, symbol.try_clone().expect(rt, "memory"))
}

#[test]
fn copies_of_actions_by_their_parts(rt: HostRuntime) {
    check(&rt, user_is_copied(&rt, rt.alloc()));
    check(&rt, kind_is_copied(&rt, rt.alloc()));
    check(&rt, inlined_is_copied(&rt, rt.alloc()));
    check(&rt, inline_is_copied(&rt, rt.alloc()));
    check(&rt, symbol_is_copied(&rt, rt.alloc()));
}
