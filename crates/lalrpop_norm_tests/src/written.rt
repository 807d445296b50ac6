//! The passes up to the levels, over grammars as they are written.

use crate::check::check;
use crate::grammars::{
    FEATURED, LEFT, LEVELS, enabled_grammar, featured_session, grammar_of, leveled_grammar,
    plain_session, resolved_grammar,
};
use crate::parts::{has_sides, rule_of};
use lalrpop_grammar::{Grammar, Symbol, SymbolKind, TerminalString};
use lalrpop_norm::{
    ASSOC_ATTR, Assoc, INLINE, LVL_ARG, PREC_ATTR, ParseAssocError, SIDE_ARG, Session, cfg_active,
    has_prec_attr, prevalidate,
};
use std::alloc::Global;
use std::process::Abort;
use std::str::FromStr;

/// Whether the rule of that name is there under the session.
fn is_active(grammar: &Grammar, session: &Session, name: &str) -> bool {
    match rule_of(grammar, name) {
        Some(rule) => cfg_active(session, rule.attributes.as_slice()),
        None => false,
    }
}

/// That the rule S is there, and of D and Id only the one that the session asks for.
fn asks_for(rt: &impl Abort, grammar: &Grammar, session: &Session, wanted: &str, other: &str) {
    check(rt, is_active(grammar, session, "S"));
    check(rt, is_active(grammar, session, wanted));
    check(rt, !is_active(grammar, session, other));
}

/// Whether what no feature asks for goes, and all else stays as it is.
fn leaves_the_rest(rt: &impl Abort, alloc: Global) -> bool {
    let left = grammar_of(rt, alloc, LEFT);
    let found = enabled_grammar(rt, alloc, &plain_session(alloc), FEATURED);
    *found == *left
}

/// Whether the first pass takes the grammar.
fn is_valid(alloc: Global, grammar: &Grammar) -> bool {
    prevalidate::validate(alloc, grammar).is_ok()
}

/// That D is there where the feature is on.
fn has_featured(rt: &impl Abort, alloc: Global, grammar: &Grammar) {
    let session = featured_session(rt, alloc);
    asks_for(rt, grammar, &session, "D", "Id");
}

/// That Id is there where no feature is on.
fn has_plain(rt: &impl Abort, alloc: Global, grammar: &Grammar) {
    let session = plain_session(alloc);
    asks_for(rt, grammar, &session, "Id", "D");
}

#[test]
fn features_decide_what_is_there(rt: HostRuntime) {
    check(&rt, leaves_the_rest(&rt, rt.alloc()));
    let grammar = grammar_of(&rt, rt.alloc(), FEATURED);
    check(&rt, is_valid(rt.alloc(), &grammar));
    has_plain(&rt, rt.alloc(), &grammar);
    has_featured(&rt, rt.alloc(), &grammar);
}

/// Whether the name stands for the rule of that name.
fn is_rule(symbol: &Symbol, name: &str) -> bool {
    match &symbol.kind {
        SymbolKind::Nonterminal(found) => found.0.as_str() == name,
        _ => false,
    }
}

/// Whether the name stands for the mapped bare name.
fn is_bare(symbol: &Symbol, name: &str) -> bool {
    match &symbol.kind {
        SymbolKind::Terminal(TerminalString::Bare(found)) => found.as_str() == name,
        _ => false,
    }
}

/// Whether it is a call of the macro of that name with one argument.
fn is_call(symbol: &Symbol, name: &str) -> bool {
    match &symbol.kind {
        SymbolKind::Macro(call) => (call.name.0.as_str() == name) & (call.args.len() == 1),
        _ => false,
    }
}

/// Whether the name is left as a parameter's.
fn is_parameter(symbol: &Symbol, name: &str) -> bool {
    match &symbol.kind {
        SymbolKind::AmbiguousId(found) => found.as_str() == name,
        _ => false,
    }
}

/// The symbols of the first alternative of the rule of that name.
fn first_side<'g>(grammar: &'g Grammar, name: &str) -> &'g [Symbol] {
    match rule_of(grammar, name) {
        Some(rule) => match rule.alternatives.as_slice() {
            [first, ..] => first.expr.as_slice(),
            [] => &[],
        },
        None => &[],
    }
}

/// Whether the rule S names a rule, a bare name and a macro.
fn names_all_kinds(grammar: &Grammar) -> bool {
    match first_side(grammar, "S") {
        [first, second, third] => {
            is_rule(first, "A") & is_bare(second, "N") & is_call(third, "Id")
        }
        _ => false,
    }
}

/// Whether the macro Id names its parameter.
fn names_parameter(grammar: &Grammar) -> bool {
    match first_side(grammar, "Id") {
        [only] => is_parameter(only, "T"),
        _ => false,
    }
}

#[test]
fn names_stand_for_rules_bare_names_macros_and_parameters(rt: HostRuntime) {
    let grammar = resolved_grammar(&rt, rt.alloc(), LEFT);
    check(&rt, names_all_kinds(&grammar));
    check(&rt, names_parameter(&grammar));
}

/// The names of the rules that have levels, each behind a blank.
fn names_with_levels(rt: &impl Abort, alloc: Global, grammar: &Grammar) -> String {
    let mut names = String::new(alloc);
    for rule in grammar.rules() {
        if has_prec_attr(rule) {
            write!(names, " {}", rule.name).expect(rt, "memory");
        }
    }
    names
}

/// Whether these rules have levels, and no other.
fn has_levels_in(rt: &impl Abort, alloc: Global, grammar: &Grammar, names: &str) -> bool {
    let found = names_with_levels(rt, alloc, grammar);
    found.as_str() == names
}

/// Whether E alone has levels before they are expanded.
fn is_written_with_levels(rt: &impl Abort, alloc: Global) -> bool {
    let grammar = grammar_of(rt, alloc, LEVELS);
    has_levels_in(rt, alloc, &grammar, " E")
}

/// That both levels of E are rules, and nothing has levels.
fn has_level_rules(rt: &impl Abort, alloc: Global, grammar: &Grammar) {
    check(rt, has_levels_in(rt, alloc, grammar, ""));
    has_sides(rt, alloc, grammar, "E", r#"| E "+" E1| E1"#);
    has_sides(rt, alloc, grammar, "E1", r#"| "n""#);
    has_sides(rt, alloc, grammar, "T", "| E");
}

#[test]
fn each_level_becomes_a_rule_without_levels(rt: HostRuntime) {
    check(&rt, is_written_with_levels(&rt, rt.alloc()));
    let leveled = leveled_grammar(&rt, rt.alloc(), LEVELS);
    has_level_rules(&rt, rt.alloc(), &leveled);
}

/// Whether the word is read as this.
fn is_side(word: &str, wanted: Result<Assoc, ParseAssocError>) -> bool {
    Assoc::from_str(word) == wanted
}

#[test]
fn sides_and_attributes_by_their_words(rt: HostRuntime) {
    check(&rt, is_side("left", Ok(Assoc::Left)));
    check(&rt, is_side("right", Ok(Assoc::Right)));
    check(&rt, is_side("none", Ok(Assoc::NonAssoc)));
    check(&rt, is_side("all", Ok(Assoc::FullyAssoc)));
    check(&rt, is_side("Left", Err(ParseAssocError)));
    check(&rt, is_side("", Err(ParseAssocError)));
}

#[test]
fn words_of_attributes(rt: HostRuntime) {
    check(&rt, PREC_ATTR == "precedence");
    check(&rt, LVL_ARG == "level");
    check(&rt, ASSOC_ATTR == "assoc");
    check(&rt, SIDE_ARG == "side");
    check(&rt, INLINE == "inline");
}
