//! Symbols of the written grammar.

ghost use Rattle.std.specs.Prelude.{◌≡◌, ◌↔◌, IfOk, IsTrue};

use crate::atom::Atom;
use crate::boxed::Boxed;
use crate::list::List;
use crate::names::{Name, NonterminalString};
use crate::span::Span;
use crate::terminal::TerminalString;
use std::alloc::{AllocError, Global};

/// A symbol and where it is written.
#[cycle(symbol)]
#[derive(PartialEq, Eq, Drop)]
pub struct Symbol {
    /// Where it is written.
    pub span: Span,
    /// What it is.
    pub kind: SymbolKind,
}

/// What a symbol is.
#[cycle(symbol)]
#[derive(PartialEq, Eq, Drop)]
pub enum SymbolKind {
    /// `(A B)`: a group of symbols.
    Expr(ExprSymbol),
    /// `A`: a name that isn't resolved yet.
    AmbiguousId(Atom),
    /// `"a"`, `r"a"` or a resolved bare name.
    Terminal(TerminalString),
    /// A resolved name of a rule.
    Nonterminal(NonterminalString),
    /// `M<A, B>`: a call of a macro.
    Macro(MacroSymbol),
    /// `A*`, `A+` or `A?`.
    Repeat(Boxed<RepeatSymbol>),
    /// `<A>`: a symbol chosen for the action.
    Choose(Boxed<Symbol>),
    /// `<x:A>`: a symbol with a name for the action.
    Name(Name, Boxed<Symbol>),
    /// `@L`: the place where the next token begins.
    Lookahead,
    /// `@R`: the place where the last token ended.
    Lookbehind,
    /// `!`: error recovery.
    Error,
}

/// The symbols of a group.
#[cycle(symbol)]
#[derive(PartialEq, Eq, Drop)]
pub struct ExprSymbol {
    /// The symbols, in order.
    pub symbols: List<Symbol>,
}

/// A call of a macro.
#[cycle(symbol)]
#[derive(PartialEq, Eq, Drop)]
pub struct MacroSymbol {
    /// The macro that is called.
    pub name: NonterminalString,
    /// The arguments, in order.
    pub args: List<Symbol>,
}

/// How often a repeated symbol stands.
#[derive(Clone, Copy, PartialEq, Eq, PartialOrd, Ord, Hash)]
pub enum RepeatOp {
    /// `*`: any number of times.
    Star,
    /// `+`: once or more.
    Plus,
    /// `?`: at most once.
    Question,
}

/// A repeated symbol.
#[cycle(symbol)]
#[derive(PartialEq, Eq, Drop)]
pub struct RepeatSymbol {
    /// How often.
    pub op: RepeatOp,
    /// What is repeated.
    pub symbol: Symbol,
}

impl Symbol {
    ghost use Rattle.lalrpop_grammar_symbols.specs.Views.{symbol_view};
    ghost use Rattle.lalrpop_grammar_symbols.specs.Symbols.{IsTerminal};
    ghost use Rattle.lalrpop_grammar_symbols.specs.declared.symbol.Symbol.{roll-Symbol};

    /// A symbol of that kind, written there.
    pub fn new(span: Span, kind: SymbolKind) -> Symbol
        ensures { result ≡ roll-Symbol (record { span = span; kind = kind }) }
    {
        Symbol { span, kind }
    }

    /// Whether it is a terminal.
    pub fn is_terminal(&self) -> bool
        ensures { IsTrue result ↔ IsTerminal (symbol_view self.now) }
    {
        matches!(&self.kind, SymbolKind::Terminal(_))
    }

    /// A copy that equals it.
    #[cycle(try_clone)]
    pub fn try_clone(&self, alloc: Global) -> Result<Symbol, AllocError>
        ensures { IfOk result (λ copy. copy ≡ self.now) }
    {
        Ok(Symbol {
            span: self.span,
            kind: self.kind.try_clone(alloc)?,
        })
    }
}

impl SymbolKind {
    /// A copy that equals it.
    #[cycle(try_clone)]
    pub fn try_clone(&self, alloc: Global) -> Result<SymbolKind, AllocError>
        ensures { IfOk result (λ copy. copy ≡ self.now) }
    {
        match self {
            SymbolKind::Expr(group) => Ok(SymbolKind::Expr(group.try_clone(alloc)?)),
            SymbolKind::AmbiguousId(name) => Ok(SymbolKind::AmbiguousId(name.try_clone()?)),
            SymbolKind::Terminal(terminal) => Ok(SymbolKind::Terminal(terminal.try_clone()?)),
            SymbolKind::Nonterminal(name) => Ok(SymbolKind::Nonterminal(name.try_clone()?)),
            SymbolKind::Macro(call) => Ok(SymbolKind::Macro(call.try_clone(alloc)?)),
            SymbolKind::Repeat(repeat) => Ok(SymbolKind::Repeat(clone_repeat(alloc, repeat)?)),
            SymbolKind::Choose(symbol) => Ok(SymbolKind::Choose(clone_boxed(alloc, symbol)?)),
            SymbolKind::Name(name, symbol) => {
                let name = name.try_clone()?;
                Ok(SymbolKind::Name(name, clone_boxed(alloc, symbol)?))
            }
            SymbolKind::Lookahead => Ok(SymbolKind::Lookahead),
            SymbolKind::Lookbehind => Ok(SymbolKind::Lookbehind),
            SymbolKind::Error => Ok(SymbolKind::Error),
        }
    }
}

/// A copy of the boxed symbol.
#[cycle(try_clone)]
fn clone_boxed(alloc: Global, symbol: &Boxed<Symbol>) -> Result<Boxed<Symbol>, AllocError>
    ensures { IfOk result (λ copy. copy ≡ symbol.now) }
{
    let copy = symbol.get().try_clone(alloc)?;
    Boxed::new(alloc, copy)
}

/// A copy of the boxed repeat.
#[cycle(try_clone)]
fn clone_repeat(
    alloc: Global,
    repeat: &Boxed<RepeatSymbol>,
) -> Result<Boxed<RepeatSymbol>, AllocError>
    ensures { IfOk result (λ copy. copy ≡ repeat.now) }
{
    let copy = repeat.get().try_clone(alloc)?;
    Boxed::new(alloc, copy)
}

impl ExprSymbol {
    /// A copy that equals it.
    #[cycle(try_clone)]
    pub fn try_clone(&self, alloc: Global) -> Result<ExprSymbol, AllocError>
        ensures { IfOk result (λ copy. copy ≡ self.now) }
    {
        Ok(ExprSymbol {
            symbols: clone_symbols(alloc, self.symbols.as_slice())?,
        })
    }
}

impl MacroSymbol {
    /// A copy that equals it.
    #[cycle(try_clone)]
    pub fn try_clone(&self, alloc: Global) -> Result<MacroSymbol, AllocError>
        ensures { IfOk result (λ copy. copy ≡ self.now) }
    {
        Ok(MacroSymbol {
            name: self.name.try_clone()?,
            args: clone_symbols(alloc, self.args.as_slice())?,
        })
    }
}

impl RepeatSymbol {
    /// A copy that equals it.
    #[cycle(try_clone)]
    pub fn try_clone(&self, alloc: Global) -> Result<RepeatSymbol, AllocError>
        ensures { IfOk result (λ copy. copy ≡ self.now) }
    {
        Ok(RepeatSymbol {
            op: self.op,
            symbol: self.symbol.try_clone(alloc)?,
        })
    }
}

/// Copies of the symbols, in order.
#[cycle(try_clone)]
pub fn clone_symbols(alloc: Global, symbols: &[Symbol]) -> Result<List<Symbol>, AllocError>
    ensures { IfOk result (λ copy. copy ≡ symbols.now) }
{
    let mut copy = List::new(alloc);
    for symbol in symbols {
        copy.push(symbol.try_clone(alloc)?)?;
    }
    Ok(copy)
}
