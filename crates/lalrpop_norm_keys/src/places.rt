//! Where a call is written: the place of the innermost symbol that has it.

ghost use Rattle.std.specs.Prelude.{◌↔◌, IfSome, IsTrue, map};
ghost use Rattle.lalrpop_grammar_symbols.specs.Views.{symbol_view};
ghost use Rattle.lalrpop_grammar_language.specs.Among.{Among};
ghost use Rattle.lalrpop_grammar_rules.specs.Views.{closed_view, closeds};
ghost use Rattle.lalrpop_norm_theory.specs.Depth.{calls_in, calls_in_all};
ghost use Rattle.lalrpop_norm_theory.specs.CallPlaces.{place_of_symbol};
ghost use Rattle.lalrpop_norm_keys.specs.PlaceSearch.{HasOwnPlace, IsFoundAmong, IsFoundIn};

use crate::key_table::same_symbol;
use lalrpop_grammar_rules::closed::ClosedSymbol;
use lalrpop_grammar_symbols::{Span, Symbol, SymbolKind};

/// Whether the call stands in the symbol, through groups, repeats, names and choices.
#[cycle(has)]
fn has_call(symbol: &ClosedSymbol, call: &ClosedSymbol) -> bool
    ensures { IsTrue result ↔ Among (calls_in (closed_view symbol.now)) (closed_view call.now) }
{
    match symbol {
        ClosedSymbol::Call(_, args, _) => match args.as_slice().split_first() {
            None => false,
            Some(_) => same_symbol(symbol, call),
        },
        ClosedSymbol::Repeat(_, inside) => has_call(inside.get(), call),
        ClosedSymbol::Group(symbols) => have_call(symbols.as_slice(), call),
        ClosedSymbol::Choose(inside) => has_call(inside.get(), call),
        ClosedSymbol::Name(_, inside) => has_call(inside.get(), call),
        ClosedSymbol::Terminal(_) => false,
        ClosedSymbol::Lookahead => false,
        ClosedSymbol::Lookbehind => false,
        ClosedSymbol::Faulty => false,
    }
}

/// Whether the call stands in one of the symbols.
#[cycle(has)]
fn have_call(symbols: &[ClosedSymbol], call: &ClosedSymbol) -> bool
    ensures { IsTrue result ↔ Among (calls_in_all (closeds (map closed_view symbols.now))) (closed_view call.now) }
{
    for symbol in symbols {
        if has_call(symbol, call) {
            return true;
        }
    }
    false
}

/// The place of the written symbol, where the call stands in what it is closed to.
fn own_place(symbol: &Symbol, closed: &ClosedSymbol, call: &ClosedSymbol) -> Option<Span>
    ensures { HasOwnPlace (place_of_symbol (symbol_view symbol.now)) (closed_view closed.now) (closed_view call.now) result }
{
    if has_call(closed, call) {
        Some(symbol.span)
    } else {
        None
    }
}

/// The place of the innermost symbol, of this one and those inside it, in which the call stands, by what it is closed to.
#[cycle(place)]
fn place_in_symbol(symbol: &Symbol, closed: &ClosedSymbol, call: &ClosedSymbol) -> Option<Span>
    ensures there { IfSome result (λ span. Among (calls_in (closed_view closed.now)) (closed_view call.now)) }
    ensures place { IsFoundIn (symbol_view symbol.now) (closed_view closed.now) (closed_view call.now) result }
{
    match &symbol.kind {
        SymbolKind::Expr(group) => match closed {
            ClosedSymbol::Group(inside) => {
                place_in_symbols(group.symbols.as_slice(), inside.as_slice(), call)
            }
            _ => None,
        },
        SymbolKind::Repeat(repeat) => match closed {
            ClosedSymbol::Repeat(_, inside) => {
                place_in_symbol(&repeat.get().symbol, inside.get(), call)
            }
            _ => None,
        },
        SymbolKind::Choose(chosen) => match closed {
            ClosedSymbol::Choose(inside) => place_in_symbol(chosen.get(), inside.get(), call),
            _ => None,
        },
        SymbolKind::Name(_, named) => match closed {
            ClosedSymbol::Name(_, inside) => place_in_symbol(named.get(), inside.get(), call),
            _ => None,
        },
        SymbolKind::AmbiguousId(_) => own_place(symbol, closed, call),
        SymbolKind::Terminal(_) => own_place(symbol, closed, call),
        SymbolKind::Nonterminal(_) => own_place(symbol, closed, call),
        SymbolKind::Macro(_) => own_place(symbol, closed, call),
        SymbolKind::Lookahead => own_place(symbol, closed, call),
        SymbolKind::Lookbehind => own_place(symbol, closed, call),
        SymbolKind::Error => own_place(symbol, closed, call),
    }
}

/// The place of the innermost of these symbols and of those inside them in which the call stands, by what they are closed to.
#[cycle(place)]
pub(crate) fn place_in_symbols(
    symbols: &[Symbol],
    closed: &[ClosedSymbol],
    call: &ClosedSymbol,
) -> Option<Span>
    ensures there { IfSome result (λ span.
        Among (calls_in_all (closeds (map closed_view closed.now))) (closed_view call.now)) }
    ensures place { IsFoundAmong (map symbol_view symbols.now) (map closed_view closed.now) (closed_view call.now) result }
{
    let mut others = closed;
    for symbol in symbols {
        let Some((each, rest)) = others.split_first() else {
            return None;
        };
        if let Some(span) = place_in_symbol(symbol, each, call) {
            return Some(span);
        }
        others = rest;
    }
    None
}
