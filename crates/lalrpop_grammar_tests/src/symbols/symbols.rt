//! Symbols and terminals: texts of what the format can't spell, and small questions.

use crate::check::{boxed, check, equals, is_text};
use lalrpop_grammar_symbols::{
    Atom, Boxed, ExprSymbol, List, MacroSymbol, Name, NonterminalString, RepeatOp, RepeatSymbol,
    Span, Symbol, SymbolKind, TerminalLiteral, TerminalString,
};
use std::alloc::Global;
use std::process::Abort;

/// The text as one that is shared.
fn atom_of(rt: &impl Abort, alloc: Global, text: &str) -> Atom {
    Atom::new(alloc, text).expect(rt, "memory")
}

pub(crate) fn symbol_of_name(rt: &impl Abort, alloc: Global, name: &str) -> Symbol {
    let kind = SymbolKind::AmbiguousId(atom_of(rt, alloc, name));
    Symbol::new(Span(0, 0), kind)
}

/// The same in a box.
fn boxed_symbol(rt: &impl Abort, alloc: Global, name: &str) -> Box<Symbol> {
    boxed(rt, alloc, symbol_of_name(rt, alloc, name))
}

/// Symbols of these names.
pub(crate) fn symbols_of_names(rt: &impl Abort, alloc: Global, names: &[&str]) -> List<Symbol> {
    let mut symbols = List::new(alloc);
    for name in names {
        symbols
            .push(symbol_of_name(rt, alloc, name))
            .expect(rt, "memory");
    }
    symbols
}

/// Whether a copy of the symbol equals it.
pub(crate) fn is_copied(rt: &impl Abort, alloc: Global, symbol: &Symbol) -> bool {
    equals(symbol, symbol.try_clone(alloc).expect(rt, "memory"))
}

/// Whether this is written for the terminal behind what was written before.
fn is_written(rt: &impl Abort, alloc: Global, terminal: TerminalString, text: &str) -> bool {
    let mut out = String::from_str(alloc, "<").expect(rt, "memory");
    terminal.write_text(alloc, &mut out).expect(rt, "memory");
    out.as_str() == text
}

/// Texts of terminals by each way to make one; those of the others are cases.
#[test]
fn texts_of_terminals(rt: HostRuntime) {
    let quoted = TerminalString::quoted(atom_of(&rt, rt.alloc(), "a"));
    check(&rt, is_written(&rt, rt.alloc(), quoted, "<\"a\""));
    let regex = TerminalString::regex(atom_of(&rt, rt.alloc(), "b+"));
    check(&rt, is_written(&rt, rt.alloc(), regex, "<r#\"b+\"#"));
}

/// The text that is written for the literal.
fn literal_text(rt: &impl Abort, alloc: Global, literal: &TerminalLiteral) -> String {
    let mut out = String::new(alloc);
    literal.write_text(alloc, &mut out).expect(rt, "memory");
    out
}

#[test]
fn the_text_of_a_literal(rt: HostRuntime) {
    let literal = TerminalLiteral::Quoted(atom_of(&rt, rt.alloc(), ""));
    let text = literal_text(&rt, rt.alloc(), &literal);
    check(&rt, text.as_str() == "\"\"");
}

#[test]
fn the_text_of_error_recovery(rt: HostRuntime) {
    let error = TerminalString::Error;
    check(&rt, is_text(error.canonical_form(rt.alloc()), "!"));
    check(&rt, error.display_len() == 1);
}

/// The group of these symbols.
fn group_of(rt: &impl Abort, alloc: Global, names: &[&str]) -> ExprSymbol {
    ExprSymbol {
        symbols: symbols_of_names(rt, alloc, names),
    }
}

#[test]
fn the_text_of_a_group(rt: HostRuntime) {
    let group = group_of(&rt, rt.alloc(), &["a", "b"]);
    check(&rt, is_text(group.canonical_form(rt.alloc()), "(a b)"));
}

/// Whether a copy of the group equals it.
fn group_is_copied(rt: &impl Abort, alloc: Global, group: &ExprSymbol) -> bool {
    equals(group, group.try_clone(alloc).expect(rt, "memory"))
}

#[test]
fn a_copy_of_four_symbols_equals_them(rt: HostRuntime) {
    let group = group_of(&rt, rt.alloc(), &["a", "b", "c", "d"]);
    check(&rt, group_is_copied(&rt, rt.alloc(), &group));
    check(&rt, group.symbols.len() == 4);
}

/// The call of the macro with one argument.
fn call_of(rt: &impl Abort, alloc: Global, name: &str, argument: &str) -> MacroSymbol {
    MacroSymbol {
        name: NonterminalString(atom_of(rt, alloc, name)),
        args: symbols_of_names(rt, alloc, &[argument]),
    }
}

#[test]
fn the_text_of_a_call(rt: HostRuntime) {
    let call = call_of(&rt, rt.alloc(), "Comma", "c");
    check(&rt, call.name.len() == 5);
    check(&rt, is_text(call.canonical_form(rt.alloc()), "Comma<c>"));
}

#[test]
fn the_text_of_a_repeat(rt: HostRuntime) {
    let symbol = symbol_of_name(&rt, rt.alloc(), "a");
    let op = RepeatOp::Plus;
    let repeat = boxed(&rt, rt.alloc(), RepeatSymbol { op, symbol });
    check(&rt, is_text(repeat.canonical_form(rt.alloc()), "a+"));
}

/// The text of the symbol behind another.
fn text_behind(rt: &impl Abort, alloc: Global, front: &str, symbol: &Symbol) -> String {
    let mut out = String::from_str(alloc, front).expect(rt, "memory");
    symbol.write_text(alloc, &mut out).expect(rt, "memory");
    out
}

#[test]
fn a_name_behind_another_text_and_its_copy(rt: HostRuntime) {
    let symbol = boxed_symbol(&rt, rt.alloc(), "a");
    let text = text_behind(&rt, rt.alloc(), "= ", &symbol);
    check(&rt, text.as_str() == "= a");
    check(&rt, is_copied(&rt, rt.alloc(), &symbol));
}

/// Whether the literal is that of the terminal that holds a copy of it.
fn is_held(rt: &impl Abort, literal: &TerminalLiteral) -> bool {
    let terminal = TerminalString::Literal(literal.try_clone().expect(rt, "memory"));
    terminal.as_literal() == Some(literal)
}

#[test]
fn a_terminal_may_hold_a_literal(rt: HostRuntime) {
    let literal = TerminalLiteral::Quoted(atom_of(&rt, rt.alloc(), "a"));
    check(&rt, is_held(&rt, &literal));
    check(&rt, TerminalString::Error.as_literal().is_none());
}

/// Whether the symbol of a literal is a terminal.
fn quoted_is_terminal(rt: &impl Abort, alloc: Global) -> bool {
    let kind = SymbolKind::Terminal(TerminalString::quoted(atom_of(rt, alloc, "a")));
    let symbol = boxed(rt, alloc, Symbol::new(Span(0, 0), kind));
    symbol.is_terminal()
}

/// Whether the symbol of a name is a terminal.
fn name_is_terminal(rt: &impl Abort, alloc: Global) -> bool {
    let symbol = boxed_symbol(rt, alloc, "a");
    symbol.is_terminal()
}

#[test]
fn a_symbol_may_be_a_terminal(rt: HostRuntime) {
    check(&rt, quoted_is_terminal(&rt, rt.alloc()));
    check(&rt, !name_is_terminal(&rt, rt.alloc()));
}

#[test]
fn a_name_is_immutable_unless_it_says_mut(rt: HostRuntime) {
    let name = Name::immut(atom_of(&rt, rt.alloc(), "n"));
    let same = Name::new(false, atom_of(&rt, rt.alloc(), "n"));
    check(&rt, equals(&name, same));
}

/// Whether a box gives back the symbol that it holds.
fn is_given_back(rt: &impl Abort, alloc: Global, symbol: &Symbol) -> bool {
    let held = Boxed::new(alloc, symbol_of_name(rt, alloc, "a")).expect(rt, "memory");
    equals(symbol, held.into_inner())
}

#[test]
fn a_box_gives_back_what_it_holds(rt: HostRuntime) {
    let same = boxed_symbol(&rt, rt.alloc(), "a");
    check(&rt, is_given_back(&rt, rt.alloc(), &same));
}

#[test]
fn a_list_gives_back_its_items(rt: HostRuntime) {
    let symbols = symbols_of_names(&rt, rt.alloc(), &["a"]);
    check(&rt, symbols.into_vec().len() == 1);
}
