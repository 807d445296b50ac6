//! Actions: their numbers, and copies of what they do.

use crate::check::{check, equals};
use crate::lowered::parts::{nonterminal_symbol, terminal_symbol};
use lalrpop_grammar_repr::{
    ActionFn, ActionFnDefn, ActionFnDefnKind, InlineActionFnDefn, InlinedSymbol,
    LookaroundActionFnDefn, TypeRepr, UserActionFnDefn,
};
use lalrpop_grammar_symbols::{Atom, List};
use std::alloc::Global;
use std::process::Abort;

#[test]
fn numbers_of_actions(rt: HostRuntime) {
    check(&rt, ActionFn::new(4_294_967_295).index() == 4_294_967_295);
    check(&rt, ActionFn::new(9) < ActionFn::new(10));
}

/// Whether a copy of the action equals it.
fn equals_its_copy(rt: &impl Abort, alloc: Global, action: &ActionFnDefn) -> bool {
    equals(action, action.try_clone(alloc).expect(rt, "memory"))
}

/// Whether a copy of an action of the kind equals it.
fn is_copied(rt: &impl Abort, alloc: Global, kind: ActionFnDefnKind) -> bool {
    let action = ActionFnDefn {
        fallible: true,
        ret_type: TypeRepr::usize(alloc).expect(rt, "memory"),
        kind,
    };
    equals_its_copy(rt, alloc, &action)
}

#[test]
fn copies_of_actions_of_alternatives_and_places(rt: HostRuntime) {
    let alloc = rt.alloc();
    let code = Some(Atom::new(alloc, "x + 1").expect(&rt, "memory"));
    check(
        &rt,
        is_copied(
            &rt,
            alloc,
            ActionFnDefnKind::User(UserActionFnDefn { code }),
        ),
    );
    let look = LookaroundActionFnDefn::Lookbehind;
    check(
        &rt,
        is_copied(&rt, alloc, ActionFnDefnKind::Lookaround(look)),
    );
}

/// The action of number 3, in which a terminal was kept and the production of number 4 was inlined.
fn inline_action(rt: &impl Abort, alloc: Global) -> InlineActionFnDefn {
    let mut inlined = List::new(alloc);
    inlined
        .push(nonterminal_symbol(rt, alloc, "A"))
        .expect(rt, "memory");
    let mut symbols = List::new(alloc);
    let kept = InlinedSymbol::Original(terminal_symbol(rt, alloc, "b"));
    symbols.push(kept).expect(rt, "memory");
    let inlined = InlinedSymbol::Inlined(ActionFn::new(4), inlined);
    symbols.push(inlined).expect(rt, "memory");
    InlineActionFnDefn {
        action: ActionFn::new(3),
        symbols,
    }
}

#[test]
fn a_copy_of_an_action_made_of_others(rt: HostRuntime) {
    let inline = inline_action(&rt, rt.alloc());
    check(
        &rt,
        is_copied(&rt, rt.alloc(), ActionFnDefnKind::Inline(inline)),
    );
}
