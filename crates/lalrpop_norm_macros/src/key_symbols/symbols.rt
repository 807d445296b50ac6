//! Closed symbols written back: a terminal as it is, a key by its name; names and choices are kept.

ghost use Rattle.std.specs.Prelude.{◌≡◌, [], ◌∷◌, IfOk, map};
ghost use Rattle.lalrpop_grammar_symbols.specs.Symbols.{Closed, Sym};
ghost use Rattle.lalrpop_grammar_symbols.specs.Views.{span_view, symbol_view, terminal_view};
ghost use Rattle.lalrpop_grammar_rules.specs.Views.{closed_view};
ghost use Rattle.lalrpop_norm_keys.specs.Tables.{IsKeyIndex};
ghost use Rattle.lalrpop_norm_macros.specs.KeyNaming.{AreSymbolsFor, IsKeySymbol, IsSymbolOrNone};

use crate::key_symbols::names::{KeyNames, name_of};
use lalrpop_grammar_rules::closed::ClosedSymbol;
use lalrpop_grammar_symbols::{
    Boxed, List, Name, NonterminalString, Span, Symbol, SymbolKind, TerminalLiteral, TerminalString,
};
use std::alloc::{AllocError, Global};

/// The key by its name, written there, where it has one.
fn key_symbol(
    alloc: Global,
    names: &KeyNames<'_>,
    span: Span,
    key: &ClosedSymbol,
) -> Result<Option<Symbol>, AllocError>
    requires { IsKeyIndex names.now.keys.now }
    ensures { IfOk result (IsKeySymbol names.now (span_view span) (closed_view key.now)) }
{
    match name_of(alloc, names, key)? {
        Some(name) => {
            let name = NonterminalString(name.try_clone()?);
            Ok(Some(Symbol::new(span, SymbolKind::Nonterminal(name))))
        }
        None => Ok(None),
    }
}

/// The terminal, written there; none for that of error recovery.
fn terminal_symbol(
    names: &KeyNames<'_>,
    span: Span,
    terminal: &TerminalString,
) -> Result<Option<Symbol>, AllocError>
    ensures { IfOk result (IsSymbolOrNone names.now (Closed.terminal (terminal_view terminal.now))) }
{
    match terminal {
        TerminalString::Literal(TerminalLiteral::Quoted(_))
        | TerminalString::Literal(TerminalLiteral::Regex(_))
        | TerminalString::Bare(_) => {
            let kind = SymbolKind::Terminal(terminal.try_clone()?);
            Ok(Some(Symbol::new(span, kind)))
        }
        TerminalString::Error => Ok(None),
    }
}

/// A chosen symbol, written there.
pub(crate) fn chosen_at(alloc: Global, span: Span, symbol: Symbol) -> Result<Symbol, AllocError>
    ensures { IfOk result (λ made. symbol_view made ≡ Sym.choose (span_view span) (symbol_view symbol)) }
{
    let chosen = Boxed::new(alloc, symbol)?;
    Ok(Symbol {
        span,
        kind: SymbolKind::Choose(chosen),
    })
}

/// A symbol with a name, written there.
pub(crate) fn named_at(
    alloc: Global,
    span: Span,
    name: &Name,
    symbol: Symbol,
) -> Result<Symbol, AllocError>
    ensures { IfOk result (λ made. symbol_view made
        ≡ Sym.name (span_view span) name.now.mutable name.now.name (symbol_view symbol)) }
{
    let named = Boxed::new(alloc, symbol)?;
    Ok(Symbol {
        span,
        kind: SymbolKind::Name(name.try_clone()?, named),
    })
}

/// The symbol that is written there for the closed one, where that is a terminal or has a rule.
#[cycle(written)]
pub fn written_symbol(
    alloc: Global,
    symbol: &ClosedSymbol,
    names: &KeyNames<'_>,
    span: Span,
) -> Result<Option<Symbol>, AllocError>
    requires { IsKeyIndex names.now.keys.now }
    ensures { IfOk result (IsSymbolOrNone names.now (closed_view symbol.now)) }
{
    match symbol {
        ClosedSymbol::Terminal(terminal) => terminal_symbol(names, span, terminal),
        ClosedSymbol::Choose(inside) => match written_symbol(alloc, inside.get(), names, span)? {
            Some(written) => Ok(Some(chosen_at(alloc, span, written)?)),
            None => Ok(None),
        },
        ClosedSymbol::Name(name, inside) => {
            match written_symbol(alloc, inside.get(), names, span)? {
                Some(written) => Ok(Some(named_at(alloc, span, name, written)?)),
                None => Ok(None),
            }
        }
        ClosedSymbol::Call(_, _, _)
        | ClosedSymbol::Repeat(_, _)
        | ClosedSymbol::Group(_)
        | ClosedSymbol::Lookahead
        | ClosedSymbol::Lookbehind => key_symbol(alloc, names, span, symbol),
        ClosedSymbol::Faulty => Ok(None),
    }
}

/// The symbol that is written there for the closed one. One that can't be written is that of error recovery.
pub fn written_or_error(
    alloc: Global,
    names: &KeyNames<'_>,
    span: Span,
    symbol: &ClosedSymbol,
) -> Result<Symbol, AllocError>
    requires { IsKeyIndex names.now.keys.now }
    ensures { IfOk result (λ made. AreSymbolsFor names.now (closed_view symbol.now ∷ []) (symbol_view made ∷ [])) }
{
    match written_symbol(alloc, symbol, names, span)? {
        Some(written) => Ok(written),
        None => Ok(Symbol::new(span, SymbolKind::Error)),
    }
}

/// The symbols that are written there for the closed ones, in order.
pub fn written_side(
    alloc: Global,
    names: &KeyNames<'_>,
    span: Span,
    side: &[ClosedSymbol],
) -> Result<List<Symbol>, AllocError>
    requires { IsKeyIndex names.now.keys.now }
    ensures { IfOk result (λ made. AreSymbolsFor names.now (map closed_view side.now) (map symbol_view made)) }
{
    let mut made = List::new(alloc);
    for symbol in side {
        made.push(written_or_error(alloc, names, span, symbol)?)?;
    }
    Ok(made)
}
