//! Symbols with their names and calls replaced.

ghost use Rattle.std.specs.Prelude.{◌≡◌, IfOk};
ghost use Rattle.lalrpop_grammar_symbols.specs.SymbolMaps.{SymbolMapping, map_symbol, map_symbols};
ghost use Rattle.lalrpop_grammar_symbols.specs.SymbolWalks.{symbols_view};
ghost use Rattle.lalrpop_grammar_symbols.specs.Symbols.{Sym};
ghost use Rattle.lalrpop_grammar_symbols.specs.Views.{repeat_op_view, span_view, symbol_view};

use crate::atom::Atom;
use crate::boxed::Boxed;
use crate::list::List;
use crate::names::{Name, NonterminalString};
use crate::span::Span;
use crate::symbol::{ExprSymbol, RepeatOp, RepeatSymbol, Symbol, SymbolKind};
use std::alloc::{AllocError, Global};

/// What stands for the names and calls in a symbol. It may change while it is asked, but not in what it answers.
pub trait SymbolMap {
    /// Why it has no answer.
    type Error: From<AllocError> + Drop;

    /// What it answers.
    ghost mapping: { Self → SymbolMapping };

    /// What stands for a name that isn't resolved.
    fn map_name(&mut self, span: Span, name: &Atom) -> Result<Symbol, Self::Error>
        ensures same { mapping self.new ≡ mapping self.old }
        ensures value { IfOk result (λ symbol.
            symbol_view symbol ≡ (mapping self.old).of_name (span_view span) name.now) };

    /// What stands for a nonterminal.
    fn map_nonterminal(
        &mut self,
        span: Span,
        name: &NonterminalString,
    ) -> Result<Symbol, Self::Error>
        ensures same { mapping self.new ≡ mapping self.old }
        ensures value { IfOk result (λ symbol.
            symbol_view symbol ≡ (mapping self.old).of_nonterminal (span_view span) name.now.0) };

    /// What stands for a call of a macro, whose arguments are mapped.
    fn map_call(
        &mut self,
        span: Span,
        name: &NonterminalString,
        args: List<Symbol>,
    ) -> Result<Symbol, Self::Error>
        ensures same { mapping self.new ≡ mapping self.old }
        ensures value { IfOk result (λ symbol. symbol_view symbol
            ≡ (mapping self.old).of_call (span_view span) name.now.0 (symbols_view args)) };
}

/// A group, written there.
fn group_at(span: Span, symbols: List<Symbol>) -> Symbol
    ensures { symbol_view result ≡ Sym.expr (span_view span) (symbols_view symbols) }
{
    Symbol {
        span,
        kind: SymbolKind::Expr(ExprSymbol { symbols }),
    }
}

/// A repeated symbol, written there.
fn repeat_at<E: From<AllocError>>(
    alloc: Global,
    span: Span,
    op: RepeatOp,
    symbol: Symbol,
) -> Result<Symbol, E>
    ensures { IfOk result (λ made.
        symbol_view made ≡ Sym.repeat (span_view span) (repeat_op_view op) (symbol_view symbol)) }
{
    let repeat = Boxed::new(alloc, RepeatSymbol { op, symbol })?;
    Ok(Symbol {
        span,
        kind: SymbolKind::Repeat(repeat),
    })
}

/// A chosen symbol, written there.
fn chosen_at<E: From<AllocError>>(alloc: Global, span: Span, symbol: Symbol) -> Result<Symbol, E>
    ensures { IfOk result (λ made. symbol_view made ≡ Sym.choose (span_view span) (symbol_view symbol)) }
{
    let chosen = Boxed::new(alloc, symbol)?;
    Ok(Symbol {
        span,
        kind: SymbolKind::Choose(chosen),
    })
}

/// A symbol with a name, written there.
fn named_at<E: From<AllocError>>(
    alloc: Global,
    span: Span,
    name: &Name,
    symbol: Symbol,
) -> Result<Symbol, E>
    ensures { IfOk result (λ made. symbol_view made
        ≡ Sym.name (span_view span) name.now.mutable name.now.name (symbol_view symbol)) }
{
    let named = Boxed::new(alloc, symbol)?;
    Ok(Symbol {
        span,
        kind: SymbolKind::Name(name.try_clone()?, named),
    })
}

/// A copy of the symbol.
fn copy_of<E: From<AllocError>>(alloc: Global, symbol: &Symbol) -> Result<Symbol, E>
    ensures { IfOk result (λ copy. copy ≡ symbol.now) }
{
    Ok(symbol.try_clone(alloc)?)
}

impl Symbol {
    /// The symbol with its names and calls replaced as the map says; all other forms keep their shape and their spans.
    ///
    /// # Errors
    ///
    /// Those of the map, and that memory runs out.
    #[cycle(map)]
    pub fn map<F: SymbolMap>(&self, alloc: Global, map: &mut F) -> Result<Symbol, F::Error>
        ensures same { F.mapping map.new ≡ F.mapping map.old }
        ensures value { IfOk result (λ symbol.
            symbol_view symbol ≡ map_symbol (F.mapping map.old) (symbol_view self.now)) }
    {
        let span = self.span;
        match &self.kind {
            SymbolKind::AmbiguousId(name) => map.map_name(span, name),
            SymbolKind::Nonterminal(name) => map.map_nonterminal(span, name),
            SymbolKind::Macro(call) => map_macro(
                alloc,
                map,
                span,
                &call.name,
                call.args.as_slice(),
            ),
            SymbolKind::Expr(group) => map_group(alloc, map, span, group.symbols.as_slice()),
            SymbolKind::Repeat(repeat) => {
                let repeat = repeat.get();
                let symbol = repeat.symbol.map(alloc, map)?;
                repeat_at(alloc, span, repeat.op, symbol)
            }
            SymbolKind::Choose(chosen) => {
                let symbol = chosen.get().map(alloc, map)?;
                chosen_at(alloc, span, symbol)
            }
            SymbolKind::Name(name, named) => {
                let symbol = named.get().map(alloc, map)?;
                named_at(alloc, span, name, symbol)
            }
            SymbolKind::Terminal(_)
            | SymbolKind::Lookahead
            | SymbolKind::Lookbehind
            | SymbolKind::Error => copy_of(alloc, self),
        }
    }
}

/// What stands for a call of a macro, written there, once its arguments are mapped.
#[cycle(map)]
fn map_macro<F: SymbolMap>(
    alloc: Global,
    map: &mut F,
    span: Span,
    name: &NonterminalString,
    args: &[Symbol],
) -> Result<Symbol, F::Error>
    ensures same { F.mapping map.new ≡ F.mapping map.old }
    ensures value { IfOk result (λ symbol. symbol_view symbol ≡ (F.mapping map.old).of_call (span_view span) name.now.0
        (map_symbols (F.mapping map.old) (symbols_view args.now))) }
{
    let args = map_all(alloc, map, args)?;
    map.map_call(span, name, args)
}

/// A group, written there, of the symbols, each with its names and calls replaced.
#[cycle(map)]
fn map_group<F: SymbolMap>(
    alloc: Global,
    map: &mut F,
    span: Span,
    symbols: &[Symbol],
) -> Result<Symbol, F::Error>
    ensures same { F.mapping map.new ≡ F.mapping map.old }
    ensures value { IfOk result (λ symbol. symbol_view symbol
        ≡ Sym.expr (span_view span) (map_symbols (F.mapping map.old) (symbols_view symbols.now))) }
{
    let symbols = map_all(alloc, map, symbols)?;
    Ok(group_at(span, symbols))
}

/// The symbols, in order, each with its names and calls replaced.
#[cycle(map)]
fn map_all<F: SymbolMap>(
    alloc: Global,
    map: &mut F,
    symbols: &[Symbol],
) -> Result<List<Symbol>, F::Error>
    ensures same { F.mapping map.new ≡ F.mapping map.old }
    ensures value { IfOk result (λ mapped.
        symbols_view mapped ≡ map_symbols (F.mapping map.old) (symbols_view symbols.now)) }
{
    let mut mapped = List::new(alloc);
    for symbol in symbols {
        mapped.push(symbol.map(alloc, map)?)?;
    }
    Ok(mapped)
}
