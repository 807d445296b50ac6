//! Types: those that follow from alternatives, and written ones.

use crate::check::{boxed, check, equals, is_debug};
use crate::grammars::{COMMAS, TYPED, checked_grammar, grammar_of};
use crate::parts::{name_of, rule_of};
use lalrpop_grammar::{Grammar, TypeRepr};
use lalrpop_grammar_repr::Types;
use lalrpop_norm::infer_types;
use std::alloc::Global;
use std::process::Abort;

/// `&'input str`, as `Debug` prints it.
const TEXT: &str =
    r#"Ref { lifetime: Some("'input"), mutable: false, referent: Boxed { inner: Nominal(NominalTypeRepr { path: "str", types: List { items: [] } }) } }"#;

/// `Vec<&'input str>`
const TEXTS: &str =
    r#"Nominal(NominalTypeRepr { path: "Vec", types: List { items: [Ref { lifetime: Some("'input"), mutable: false, referent: Boxed { inner: Nominal(NominalTypeRepr { path: "str", types: List { items: [] } }) } }] } })"#;

/// `Option<&'input str>`
const OPTION: &str =
    r#"Nominal(NominalTypeRepr { path: "Option", types: List { items: [Ref { lifetime: Some("'input"), mutable: false, referent: Boxed { inner: Nominal(NominalTypeRepr { path: "str", types: List { items: [] } }) } }] } })"#;

/// `(Vec<&'input str>, Option<&'input str>)`
pub(crate) const LIST: &str =
    r#"Tuple(List { items: [Nominal(NominalTypeRepr { path: "Vec", types: List { items: [Ref { lifetime: Some("'input"), mutable: false, referent: Boxed { inner: Nominal(NominalTypeRepr { path: "str", types: List { items: [] } }) } }] } }), Nominal(NominalTypeRepr { path: "Option", types: List { items: [Ref { lifetime: Some("'input"), mutable: false, referent: Boxed { inner: Nominal(NominalTypeRepr { path: "str", types: List { items: [] } }) } }] } })] })"#;

/// The types of the comma and n: those of texts.
const TERMINAL_TYPES: &str =
    r#"Map { map: {Literal(Quoted(",")): Ref { lifetime: Some("'input"), mutable: false, referent: Boxed { inner: Nominal(NominalTypeRepr { path: "str", types: List { items: [] } }) } }, Literal(Quoted("n")): Ref { lifetime: Some("'input"), mutable: false, referent: Boxed { inner: Nominal(NominalTypeRepr { path: "str", types: List { items: [] } }) } }} }"#;

/// `a::B<&'a mut T, &dyn X, ()>`
const WHOLE: &str =
    r#"Nominal(NominalTypeRepr { path: "a::B", types: List { items: [Ref { lifetime: Some("'a"), mutable: true, referent: Boxed { inner: Nominal(NominalTypeRepr { path: "T", types: List { items: [] } }) } }, Ref { lifetime: None, mutable: false, referent: Boxed { inner: Opaque("dyn X") } }, Tuple(List { items: [] })] } })"#;

/// The type that the table has for the nonterminal of that name.
fn type_at<'t>(
    rt: &impl Abort,
    alloc: Global,
    types: &'t Types,
    name: &str,
) -> Option<&'t TypeRepr> {
    let name = name_of(rt, alloc, name);
    types.lookup_nonterminal_type(&name)
}

/// Whether the nonterminal of that name has this type.
pub(crate) fn gives(
    rt: &impl Abort,
    alloc: Global,
    types: &Types,
    name: &str,
    wanted: &str,
) -> bool {
    match type_at(rt, alloc, types, name) {
        Some(ty) => is_debug(rt, alloc, ty, wanted),
        None => false,
    }
}

/// The types of the comma grammar.
pub(crate) fn comma_types(rt: &impl Abort, alloc: Global) -> Box<Types> {
    let checked = checked_grammar(rt, alloc, COMMAS);
    let types = infer_types(alloc, &checked).expect(rt, "types");
    Box::new(alloc, types).expect(rt, "memory")
}

/// That the types of the comma grammar are those of its terminals, its repeats, its group and its option.
fn follow(rt: &impl Abort, alloc: Global, types: &Types) {
    check(rt, types.nonterminal_types.len() == 6);
    check(
        rt,
        is_debug(rt, alloc, &types.terminal_types, TERMINAL_TYPES),
    );
    check(rt, gives(rt, alloc, types, "L", LIST));
    check(rt, gives(rt, alloc, types, r#"Comma<"n">"#, LIST));
    check(rt, gives(rt, alloc, types, r#"(<"n"> ",")*"#, TEXTS));
    check(rt, gives(rt, alloc, types, r#"(<"n"> ",")+"#, TEXTS));
    check(rt, gives(rt, alloc, types, r#"(<"n"> ",")"#, TEXT));
    check(rt, gives(rt, alloc, types, r#""n"?"#, OPTION));
}

#[test]
fn types_follow_from_alternatives(rt: HostRuntime) {
    let types = comma_types(&rt, rt.alloc());
    follow(&rt, rt.alloc(), &types);
}

/// The type of the same shape as the one that the rule of that name declares.
fn declared_repr(
    rt: &impl Abort,
    alloc: Global,
    grammar: &Grammar,
    name: &str,
) -> Option<TypeRepr> {
    match rule_of(grammar, name) {
        Some(rule) => match &rule.type_decl {
            Some(declared) => declared.type_repr(alloc).expect(rt, "memory"),
            None => None,
        },
        None => None,
    }
}

/// Whether a copy of the type of a name equals it.
fn name_is_copied(rt: &impl Abort, alloc: Global, ty: &TypeRepr) -> bool {
    match ty {
        TypeRepr::Nominal(it) => equals(it, it.try_clone(alloc).expect(rt, "memory")),
        _ => false,
    }
}

/// Whether a copy of the type is of that shape.
fn copy_is_whole(rt: &impl Abort, alloc: Global, ty: &TypeRepr) -> bool {
    let copy = boxed(rt, alloc, ty.try_clone(alloc).expect(rt, "memory"));
    is_debug(rt, alloc, &*copy, WHOLE)
}

/// Whether the last of its three arguments is `()`.
fn ends_with_unit(ty: &TypeRepr) -> bool {
    match ty {
        TypeRepr::Nominal(found) => match found.types.as_slice() {
            [_, _, third] => third.is_unit(),
            _ => false,
        },
        _ => false,
    }
}

/// That it is the type of that shape, and its copies are.
fn keeps_shape(rt: &impl Abort, alloc: Global, ty: &TypeRepr) {
    check(rt, is_debug(rt, alloc, ty, WHOLE));
    check(rt, copy_is_whole(rt, alloc, ty));
    check(rt, name_is_copied(rt, alloc, ty));
    check(rt, ends_with_unit(ty));
}

/// Whether the type that the rule of that name declares has a shape.
fn is_declared(rt: &impl Abort, alloc: Global, grammar: &Grammar, name: &str) -> bool {
    let declared = boxed(rt, alloc, declared_repr(rt, alloc, grammar, name));
    declared.is_some()
}

/// That the type that the rule S declares keeps its shape.
fn declared_type_keeps_shape(rt: &impl Abort, alloc: Global, grammar: &Grammar) {
    let found = boxed(rt, alloc, declared_repr(rt, alloc, grammar, "S"));
    match &*found {
        Some(declared) => keeps_shape(rt, alloc, declared),
        None => panic!(rt; "no type"),
    }
}

/// That the type that the rule S declares keeps its shape, and the one that T declares has none.
fn declared_types_keep_shape(rt: &impl Abort, alloc: Global, grammar: &Grammar) {
    check(rt, !is_declared(rt, alloc, grammar, "T"));
    declared_type_keeps_shape(rt, alloc, grammar);
}

#[test]
fn written_types_and_their_copies_keep_their_shape(rt: HostRuntime) {
    let grammar = grammar_of(&rt, rt.alloc(), TYPED);
    declared_types_keep_shape(&rt, rt.alloc(), &grammar);
}
