//! Comparisons of texts and names, and of closed symbols with the arguments that a tree shows.

ghost use Rattle.std.specs.Prelude.{◌≡◌, ◌↔◌, IsTrue, map};
ghost use Rattle.std.specs.Str.{bytes_eq};
ghost use Rattle.lalrpop_grammar_symbols.specs.Symbols.{Closed, Sym};
ghost use Rattle.lalrpop_grammar_symbols.specs.Views.{symbol_view, terminal_view, repeat_op_view, without_marks};
ghost use Rattle.lalrpop_grammar.specs.Trees.{as_argument, as_arguments};
ghost use Rattle.lalrpop_grammar_rules.specs.Views.{closed_view, closeds, list_without_marks, as_is};

use crate::closed::closed_symbol::ClosedSymbol;
use lalrpop_grammar_symbols::{Atom, Name, RepeatOp, Symbol, SymbolKind, TerminalString};

/// Whether the names are equal.
pub fn same_name(a: &Atom, b: &Atom) -> bool
    ensures { IsTrue result ↔ (a.now ≡ b.now) }
{
    *a == *b
}

/// Whether the terminals are equal.
pub fn same_terminal(a: &TerminalString, b: &TerminalString) -> bool
    ensures { IsTrue result ↔ (terminal_view a.now ≡ terminal_view b.now) }
{
    *a == *b
}

fn same_label(a: &Name, b: &Name) -> bool
    ensures { IsTrue result ↔ (a.now ≡ b.now) }
{
    *a == *b
}

fn same_op(a: RepeatOp, b: RepeatOp) -> bool
    ensures { IsTrue result ↔ (repeat_op_view a ≡ repeat_op_view b) }
{
    a == b
}

/// Whether the literal shows as the argument.
fn literal_shows(terminal: &TerminalString, argument: &Symbol) -> bool
    ensures { IsTrue result
        ↔ (as_argument as_is (Closed.terminal (terminal_view terminal.now)) ≡ without_marks (symbol_view argument.now)) }
{
    match (terminal, &argument.kind) {
        (TerminalString::Literal(_), SymbolKind::Terminal(other)) => {
            same_terminal(terminal, other)
        }
        (TerminalString::Bare(name), SymbolKind::AmbiguousId(other)) => same_name(name, other),
        (TerminalString::Error, SymbolKind::Error) => true,
        _ => false,
    }
}

/// Whether the closed symbol shows as the argument in a tree, without levels and with each name as it is read.
#[cycle(shows)]
fn shows(symbol: &ClosedSymbol, argument: &Symbol) -> bool
    ensures { IsTrue result
        ↔ (as_argument as_is (closed_view symbol.now) ≡ without_marks (symbol_view argument.now)) }
{
    match (symbol, &argument.kind) {
        (ClosedSymbol::Terminal(terminal), _) => literal_shows(terminal, argument),
        (ClosedSymbol::Call(name, args, level), _) => {
            call_shows(name, args.as_slice(), *level, argument)
        }
        (ClosedSymbol::Repeat(op, inside), SymbolKind::Repeat(repeat)) => {
            same_op(*op, repeat.get().op) && shows(inside.get(), &repeat.get().symbol)
        }
        (ClosedSymbol::Group(symbols), SymbolKind::Expr(group)) => {
            show_as(symbols.as_slice(), group.symbols.as_slice())
        }
        (ClosedSymbol::Choose(inside), SymbolKind::Choose(other)) => {
            shows(inside.get(), other.get())
        }
        (ClosedSymbol::Name(name, inside), SymbolKind::Name(label, other)) => {
            same_label(name, label) && shows(inside.get(), other.get())
        }
        (ClosedSymbol::Lookahead, SymbolKind::Lookahead) => true,
        (ClosedSymbol::Lookbehind, SymbolKind::Lookbehind) => true,
        (ClosedSymbol::Faulty, SymbolKind::Error) => true,
        _ => false,
    }
}

/// Whether the name shows as the argument.
fn name_shows(name: &Atom, argument: &Symbol) -> bool
    ensures { IsTrue result ↔ (Sym.ambiguous_id tt name.now ≡ without_marks (symbol_view argument.now)) }
{
    match &argument.kind {
        SymbolKind::AmbiguousId(other) => same_name(name, other),
        _ => false,
    }
}

/// Whether the call of a macro shows as the argument.
#[cycle(shows)]
fn macro_shows(name: &Atom, args: &[ClosedSymbol], argument: &Symbol) -> bool
    ensures { IsTrue result
        ↔ (Sym.macro tt name.now (as_arguments as_is (closeds (map closed_view args.now)))
        ≡ without_marks (symbol_view argument.now)) }
{
    match &argument.kind {
        SymbolKind::Macro(other) => {
            same_name(name, &other.name.0) && show_as(args, other.args.as_slice())
        }
        _ => false,
    }
}

/// Whether the call shows as the argument.
#[cycle(shows)]
fn call_shows(name: &Atom, args: &[ClosedSymbol], level: Option<u32>, argument: &Symbol) -> bool
    ensures { IsTrue result
        ↔ (as_argument as_is (Closed.call name.now (closeds (map closed_view args.now)) level)
        ≡ without_marks (symbol_view argument.now)) }
{
    if args.is_empty() {
        name_shows(name, argument)
    } else {
        macro_shows(name, args, argument)
    }
}

/// Whether the closed symbols show as the arguments in a tree, one each and in order: without levels, each name as it
/// is read, and wherever the arguments are written.
#[cycle(shows)]
pub fn show_as(symbols: &[ClosedSymbol], arguments: &[Symbol]) -> bool
    ensures { IsTrue result
        ↔ (as_arguments as_is (closeds (map closed_view symbols.now)) ≡ list_without_marks (map symbol_view arguments.now)) }
{
    match (symbols.split_first(), arguments.split_first()) {
        (None, None) => true,
        (Some((symbol, symbols)), Some((argument, arguments))) => {
            shows(symbol, argument) && show_as(symbols, arguments)
        }
        _ => false,
    }
}
