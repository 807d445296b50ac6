//! Names, and the rules of a grammar by their names, with their right sides as texts.

use lalrpop_grammar::{
    Alternative, Atom, Grammar, NonterminalData, NonterminalString, TerminalLiteral, TerminalString,
};
use std::alloc::Global;
use std::process::Abort;

/// The nonterminal of that name.
pub(crate) fn name_of(rt: &impl Abort, alloc: Global, name: &str) -> NonterminalString {
    NonterminalString(Atom::new(alloc, name).expect(rt, "memory"))
}

/// Whether it is the quoted literal of that text.
pub(crate) fn is_quoted(literal: &TerminalLiteral, text: &str) -> bool {
    match literal {
        TerminalLiteral::Quoted(found) => found.as_str() == text,
        TerminalLiteral::Regex(_) => false,
    }
}

/// Whether it is the terminal of the quoted literal of that text.
pub(crate) fn is_terminal(terminal: &TerminalString, text: &str) -> bool {
    match terminal.as_literal() {
        Some(literal) => is_quoted(literal, text),
        None => false,
    }
}

/// The rule of that name.
pub(crate) fn rule_of<'g>(grammar: &'g Grammar, name: &str) -> Option<&'g NonterminalData> {
    for rule in grammar.rules() {
        if rule.name.0.as_str() == name {
            return Some(rule);
        }
    }
    None
}

/// The symbols of the alternative, each behind a blank.
fn side_text(rt: &impl Abort, alloc: Global, alternative: &Alternative) -> String {
    let mut text = String::new(alloc);
    for symbol in alternative.expr.as_slice() {
        write!(text, " {symbol}").expect(rt, "memory");
    }
    text
}

/// The alternatives of the rule, each behind a bar.
fn sides_text(rt: &impl Abort, alloc: Global, rule: &NonterminalData) -> String {
    let mut text = String::new(alloc);
    for alternative in rule.alternatives.as_slice() {
        let side = side_text(rt, alloc, alternative);
        write!(text, "|{side}").expect(rt, "memory");
    }
    text
}

/// The alternatives of the rule of that name, each behind a bar, and their symbols, each behind a blank; nothing where there is no
/// such rule.
fn sides_of(rt: &impl Abort, alloc: Global, grammar: &Grammar, name: &str) -> String {
    match rule_of(grammar, name) {
        Some(rule) => sides_text(rt, alloc, rule),
        None => String::new(alloc),
    }
}

/// That the rule of that name has these alternatives, as `sides_of` shows them.
pub(crate) fn has_sides(
    rt: &impl Abort,
    alloc: Global,
    grammar: &Grammar,
    name: &str,
    sides: &str,
) {
    let found = sides_of(rt, alloc, grammar, name);
    assert_eq!(rt; found.as_str(), sides, "{name}");
}
