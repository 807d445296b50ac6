//! Whether arguments are the same, wherever they are written.

ghost use Rattle.std.specs.Prelude.{◌≡◌, ◌↔◌, IsTrue, map};
ghost use Rattle.lalrpop_grammar_symbols.specs.Symbols.{syms};
ghost use Rattle.lalrpop_grammar_symbols.specs.Views.{all_without_marks, symbol_view, without_marks};

use lalrpop_grammar_symbols::{Symbol, SymbolKind};

/// Whether the symbols are the same, wherever they are written.
#[cycle(arguments)]
fn is_same_argument(a: &Symbol, b: &Symbol) -> bool
    ensures { IsTrue result ↔ (without_marks (symbol_view a.now) ≡ without_marks (symbol_view b.now)) }
{
    match (&a.kind, &b.kind) {
        (SymbolKind::Expr(group), SymbolKind::Expr(other)) => {
            are_same_arguments(group.symbols.as_slice(), other.symbols.as_slice())
        }
        (SymbolKind::AmbiguousId(name), SymbolKind::AmbiguousId(other)) => *name == *other,
        (SymbolKind::Terminal(terminal), SymbolKind::Terminal(other)) => *terminal == *other,
        (SymbolKind::Nonterminal(name), SymbolKind::Nonterminal(other)) => *name == *other,
        (SymbolKind::Macro(call), SymbolKind::Macro(other)) => {
            call.name == other.name
                && are_same_arguments(call.args.as_slice(), other.args.as_slice())
        }
        (SymbolKind::Repeat(repeat), SymbolKind::Repeat(other)) => {
            repeat.get().op == other.get().op
                && is_same_argument(&repeat.get().symbol, &other.get().symbol)
        }
        (SymbolKind::Choose(inside), SymbolKind::Choose(other)) => {
            is_same_argument(inside.get(), other.get())
        }
        (SymbolKind::Name(name, inside), SymbolKind::Name(label, other)) => {
            *name == *label && is_same_argument(inside.get(), other.get())
        }
        (SymbolKind::Lookahead, SymbolKind::Lookahead) => true,
        (SymbolKind::Lookbehind, SymbolKind::Lookbehind) => true,
        (SymbolKind::Error, SymbolKind::Error) => true,
        _ => false,
    }
}

/// Whether the arguments are the same, one by one, wherever they are written.
#[cycle(arguments)]
pub(crate) fn are_same_arguments(a: &[Symbol], b: &[Symbol]) -> bool
    ensures { IsTrue result ↔ (all_without_marks (syms (map symbol_view a.now)) ≡ all_without_marks (syms (map symbol_view b.now))) }
{
    match (a.split_first(), b.split_first()) {
        (None, None) => true,
        (Some((symbol, symbols)), Some((other, others))) => {
            is_same_argument(symbol, other) && are_same_arguments(symbols, others)
        }
        _ => false,
    }
}
