//! Closed symbols as arguments of a macro, with the names under which rules were written.

ghost use Rattle.std.specs.Prelude.{◌≡◌, IfOk, map};
ghost use Rattle.lalrpop_grammar.specs.Trees.{as_argument};
ghost use Rattle.lalrpop_grammar_language.specs.Admitting.{argument_list};
ghost use Rattle.lalrpop_grammar_symbols.specs.Symbols.{Closed, Sym, syms};
ghost use Rattle.lalrpop_grammar_symbols.specs.Views.{
  all_without_marks,
  repeat_op_view,
  span_view,
  symbol_view,
  terminal_view,
  without_marks,
};
ghost use Rattle.lalrpop_grammar_rules.specs.Views.{closed_view, closeds};
ghost use Rattle.lalrpop_norm_macros.specs.WrittenRules.{arguments_view, call_as_argument, spelled_in};

use crate::key_symbols::by_name::{WrittenRules, spelled_name};
use crate::key_symbols::symbols::{chosen_at, named_at};
use lalrpop_grammar_rules::closed::ClosedSymbol;
use lalrpop_grammar_symbols::{
    Atom, Boxed, ExprSymbol, List, MacroSymbol, NonterminalString, RepeatOp, RepeatSymbol, Span,
    Symbol, SymbolKind, TerminalString,
};
use std::alloc::{AllocError, Global};

/// A terminal as an argument: a bare name as it is read.
fn terminal_argument(span: Span, terminal: &TerminalString) -> Result<Symbol, AllocError>
    ensures { IfOk result (λ made. without_marks (symbol_view made)
        ≡ as_argument (λ n. n) (Closed.terminal (terminal_view terminal.now))) }
{
    match terminal {
        TerminalString::Literal(_) => {
            let kind = SymbolKind::Terminal(terminal.try_clone()?);
            Ok(Symbol::new(span, kind))
        }
        TerminalString::Bare(name) => {
            let kind = SymbolKind::AmbiguousId(name.try_clone()?);
            Ok(Symbol::new(span, kind))
        }
        TerminalString::Error => Ok(Symbol::new(span, SymbolKind::Error)),
    }
}

/// A call of a macro, written there.
fn macro_at(span: Span, name: Atom, args: List<Symbol>) -> Symbol
    ensures { symbol_view result ≡ Sym.macro (span_view span) name (syms (map symbol_view args)) }
{
    let name = NonterminalString(name);
    Symbol {
        span,
        kind: SymbolKind::Macro(MacroSymbol { name, args }),
    }
}

/// The call of a rule as an argument, with its arguments.
fn call_argument(span: Span, name: Atom, args: List<Symbol>) -> Symbol
    ensures { without_marks (symbol_view result)
        ≡ call_as_argument name (all_without_marks (syms (map symbol_view args))) }
{
    if args.is_empty() {
        return Symbol::new(span, SymbolKind::AmbiguousId(name));
    }
    macro_at(span, name, args)
}

/// A group, written there.
fn group_at(span: Span, symbols: List<Symbol>) -> Symbol
    ensures { symbol_view result ≡ Sym.expr (span_view span) (syms (map symbol_view symbols)) }
{
    Symbol {
        span,
        kind: SymbolKind::Expr(ExprSymbol { symbols }),
    }
}

/// A repeated symbol, written there.
fn repeat_at(alloc: Global, span: Span, op: RepeatOp, symbol: Symbol) -> Result<Symbol, AllocError>
    ensures { IfOk result (λ made.
        symbol_view made ≡ Sym.repeat (span_view span) (repeat_op_view op) (symbol_view symbol)) }
{
    let repeat = Boxed::new(alloc, RepeatSymbol { op, symbol })?;
    Ok(Symbol {
        span,
        kind: SymbolKind::Repeat(repeat),
    })
}

/// The closed symbol as an argument.
#[cycle(arguments)]
fn argument(
    alloc: Global,
    symbol: &ClosedSymbol,
    rules: &WrittenRules<'_>,
    span: Span,
) -> Result<Symbol, AllocError>
    ensures { IfOk result (λ made. without_marks (symbol_view made)
        ≡ as_argument (spelled_in rules.now) (closed_view symbol.now)) }
{
    match symbol {
        ClosedSymbol::Terminal(terminal) => terminal_argument(span, terminal),
        ClosedSymbol::Call(name, args, _) => {
            let spelled = spelled_name(rules, name)?;
            let args = arguments(alloc, args.as_slice(), rules, span)?;
            Ok(call_argument(span, spelled, args))
        }
        ClosedSymbol::Repeat(op, inside) => {
            let inside = argument(alloc, inside.get(), rules, span)?;
            repeat_at(alloc, span, *op, inside)
        }
        ClosedSymbol::Group(symbols) => {
            let symbols = arguments(alloc, symbols.as_slice(), rules, span)?;
            Ok(group_at(span, symbols))
        }
        ClosedSymbol::Choose(inside) => {
            let inside = argument(alloc, inside.get(), rules, span)?;
            chosen_at(alloc, span, inside)
        }
        ClosedSymbol::Name(name, inside) => {
            let inside = argument(alloc, inside.get(), rules, span)?;
            named_at(alloc, span, name, inside)
        }
        ClosedSymbol::Lookahead => Ok(Symbol::new(span, SymbolKind::Lookahead)),
        ClosedSymbol::Lookbehind => Ok(Symbol::new(span, SymbolKind::Lookbehind)),
        ClosedSymbol::Faulty => Ok(Symbol::new(span, SymbolKind::Error)),
    }
}

/// The closed symbols as arguments, in order.
#[cycle(arguments)]
pub fn arguments(
    alloc: Global,
    symbols: &[ClosedSymbol],
    rules: &WrittenRules<'_>,
    span: Span,
) -> Result<List<Symbol>, AllocError>
    ensures { IfOk result (λ made. arguments_view made
        ≡ argument_list (spelled_in rules.now) (closeds (map closed_view symbols.now))) }
{
    let mut made = List::new(alloc);
    for symbol in symbols {
        made.push(argument(alloc, symbol, rules, span)?)?;
    }
    Ok(made)
}
