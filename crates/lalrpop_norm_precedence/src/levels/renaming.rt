//! Symbols of an alternative with the occurrences of its rule under the names of the levels that they may have.

ghost use Rattle.std.specs.Prelude.{◌≡◌, ◌+◌, IfOk, if◌then◌else◌, map};
ghost use Rattle.std.specs.Str.{bytes_eq};
ghost use Rattle.lalrpop_grammar_symbols.specs.Symbols.{Sym, syms};
ghost use Rattle.lalrpop_grammar_symbols.specs.Views.{repeat_op_view, span_view, symbol_view};
ghost use Rattle.lalrpop_grammar_language.specs.Closing.{occurrences as occurrences_seen, occurrences_in};
ghost use Rattle.lalrpop_grammar_rules.specs.Scopes.{binding_view};
ghost use Rattle.lalrpop_norm_precedence.specs.Occurrences.{called_at, inside_under, name_under, symbol_under, symbols_under};

use lalrpop_grammar_rules::Assoc;
use lalrpop_grammar_rules::closed::{Binding, owner_count, rule_count, sum};
use lalrpop_grammar_symbols::{
    Atom, Boxed, ExprSymbol, List, MacroSymbol, Name, NonterminalString, RepeatOp, RepeatSymbol,
    Span, Symbol, SymbolKind,
};
use std::alloc::{AllocError, Global};

/// What the occurrences of a rule in one of its alternatives are called.
#[derive(Clone, Copy)]
pub(crate) struct Occurrences<'n> {
    /// The rule.
    pub(crate) owner: &'n Atom,
    /// Its parameters, whatever they stand for.
    pub(crate) binding: Binding<'n>,
    /// How many occurrences the alternative has.
    pub(crate) count: u64,
    /// Which of them may have the alternative's own level.
    pub(crate) side: Assoc,
    /// What these are called.
    pub(crate) reached: &'n Atom,
    /// What the others are called.
    pub(crate) others: &'n Atom,
}

/// A renamed symbol, and how many occurrences of the owner stand up to its end.
#[derive(Drop)]
struct Renaming {
    symbol: Symbol,
    next: u64,
}

/// Renamed symbols, and how many occurrences of the owner stand up to their end.
#[derive(Drop)]
struct Renamings {
    symbols: List<Symbol>,
    next: u64,
}

/// What the occurrence with so many before it is called.
fn name_at<'n>(occurrences: &Occurrences<'n>, before: u64) -> &'n Atom
    ensures { result.now ≡ called_at occurrences.now before }
{
    let reaches = match occurrences.side {
        Assoc::Left => before == 0,
        Assoc::Right => occurrences.count != 0 && before == occurrences.count - 1,
        Assoc::NonAssoc => false,
        Assoc::FullyAssoc => true,
    };
    if reaches {
        occurrences.reached
    } else {
        occurrences.others
    }
}

/// The name, or what the occurrence is called, where it is the owner's.
fn renamed_name(
    occurrences: &Occurrences<'_>,
    before: u64,
    name: &NonterminalString,
) -> Result<NonterminalString, AllocError>
    ensures { IfOk result (λ n. n.0 ≡ name_under occurrences.now before name.now.0) }
{
    if name.0.as_str() == occurrences.owner.as_str() {
        Ok(NonterminalString(name_at(occurrences, before).try_clone()?))
    } else {
        name.try_clone()
    }
}

/// A copy of the symbol, with so many occurrences up to its end.
fn copy_of(alloc: Global, symbol: &Symbol, next: u64) -> Result<Renaming, AllocError>
    ensures symbol { IfOk result (λ r. r.symbol ≡ symbol.now) }
    ensures count { IfOk result (λ r. r.next ≡ next) }
{
    let symbol = symbol.try_clone(alloc)?;
    Ok(Renaming { symbol, next })
}

/// A copy of the symbol, which is itself so many occurrences.
fn counted_copy(
    alloc: Global,
    symbol: &Symbol,
    before: u64,
    own: u64,
) -> Result<Renaming, AllocError>
    ensures symbol { IfOk result (λ r. r.symbol ≡ symbol.now) }
    ensures count { IfOk result (λ r. r.next ≡ before + own) }
{
    copy_of(alloc, symbol, sum(before, own)?)
}

/// A group of the symbols, written there.
fn group_of(span: Span, inside: Renamings) -> Renaming
    ensures symbol { symbol_view result.symbol ≡ Sym.expr (span_view span) (syms (map symbol_view inside.symbols)) }
    ensures count { result.next ≡ inside.next }
{
    let Renamings { symbols, next } = inside;
    let symbol = Symbol {
        span,
        kind: SymbolKind::Expr(ExprSymbol { symbols }),
    };
    Renaming { symbol, next }
}

/// The rule of that name or its level, written there.
fn rule_of(
    occurrences: &Occurrences<'_>,
    before: u64,
    span: Span,
    name: &NonterminalString,
) -> Result<Renaming, AllocError>
    ensures symbol { IfOk result (λ r.
        symbol_view r.symbol ≡ Sym.nonterminal (span_view span) (name_under occurrences.now before name.now.0)) }
    ensures count { IfOk result (λ r. r.next ≡ before
        + (if bytes_eq name.now.0 occurrences.now.owner.now then 1 else 0)) }
{
    let own = rule_count(occurrences.owner, &name.0);
    let next = sum(before, own)?;
    let name = renamed_name(occurrences, before, name)?;
    let symbol = Symbol::new(span, SymbolKind::Nonterminal(name));
    Ok(Renaming { symbol, next })
}

/// A call of the macro of that name or of its level, with the symbols as its arguments, written there.
fn call_of(
    occurrences: &Occurrences<'_>,
    before: u64,
    span: Span,
    name: &NonterminalString,
    inside: Renamings,
) -> Result<Renaming, AllocError>
    ensures symbol { IfOk result (λ r. symbol_view r.symbol ≡ Sym.macro (span_view span)
        (name_under occurrences.now before name.now.0) (syms (map symbol_view inside.symbols))) }
    ensures count { IfOk result (λ r. r.next ≡ inside.next) }
{
    let name = renamed_name(occurrences, before, name)?;
    let Renamings {
        symbols: args,
        next,
    } = inside;
    let symbol = Symbol {
        span,
        kind: SymbolKind::Macro(MacroSymbol { name, args }),
    };
    Ok(Renaming { symbol, next })
}

/// A repeat of the symbol, written there.
fn repeat_of(
    alloc: Global,
    span: Span,
    op: RepeatOp,
    inside: Renaming,
) -> Result<Renaming, AllocError>
    ensures symbol { IfOk result (λ r.
        symbol_view r.symbol ≡ Sym.repeat (span_view span) (repeat_op_view op) (symbol_view inside.symbol)) }
    ensures count { IfOk result (λ r. r.next ≡ inside.next) }
{
    let Renaming { symbol, next } = inside;
    let repeat = Boxed::new(alloc, RepeatSymbol { op, symbol })?;
    Ok(Renaming {
        symbol: Symbol::new(span, SymbolKind::Repeat(repeat)),
        next,
    })
}

/// The symbol as a chosen one, written there.
fn choice_of(alloc: Global, span: Span, inside: Renaming) -> Result<Renaming, AllocError>
    ensures symbol { IfOk result (λ r. symbol_view r.symbol ≡ Sym.choose (span_view span) (symbol_view inside.symbol)) }
    ensures count { IfOk result (λ r. r.next ≡ inside.next) }
{
    let Renaming { symbol, next } = inside;
    let chosen = Boxed::new(alloc, symbol)?;
    Ok(Renaming {
        symbol: Symbol::new(span, SymbolKind::Choose(chosen)),
        next,
    })
}

/// The symbol as one with that name, written there.
fn named_of(
    alloc: Global,
    span: Span,
    name: &Name,
    inside: Renaming,
) -> Result<Renaming, AllocError>
    ensures symbol { IfOk result (λ r.
        symbol_view r.symbol ≡ Sym.name (span_view span) name.now.mutable name.now.name (symbol_view inside.symbol)) }
    ensures count { IfOk result (λ r. r.next ≡ inside.next) }
{
    let Renaming { symbol, next } = inside;
    let named = Boxed::new(alloc, symbol)?;
    let name = name.try_clone()?;
    Ok(Renaming {
        symbol: Symbol::new(span, SymbolKind::Name(name, named)),
        next,
    })
}

/// The symbol with each occurrence renamed, where so many stand before it.
#[cycle(rename)]
fn rename(
    alloc: Global,
    occurrences: &Occurrences<'_>,
    before: u64,
    symbol: &Symbol,
) -> Result<Renaming, AllocError>
    ensures symbol { IfOk result (λ r. symbol_view r.symbol ≡ symbol_under occurrences.now before (symbol_view symbol.now)) }
    ensures count { IfOk result (λ r. r.next
        ≡ before + occurrences_seen (binding_view occurrences.now.binding) occurrences.now.owner.now (symbol_view symbol.now)) }
{
    let span = symbol.span;
    match &symbol.kind {
        SymbolKind::Expr(group) => {
            let inside = rename_all(alloc, occurrences, before, group.symbols.as_slice())?;
            Ok(group_of(span, inside))
        }
        SymbolKind::AmbiguousId(name) => {
            let own = owner_count(occurrences.binding, occurrences.owner, name);
            counted_copy(alloc, symbol, before, own)
        }
        SymbolKind::Nonterminal(name) => rule_of(occurrences, before, span, name),
        SymbolKind::Macro(call) => {
            let args = call.args.as_slice();
            rename_call(alloc, occurrences, before, span, &call.name, args)
        }
        SymbolKind::Repeat(repeat) => {
            let repeat = repeat.get();
            let inside = rename(alloc, occurrences, before, &repeat.symbol)?;
            repeat_of(alloc, span, repeat.op, inside)
        }
        SymbolKind::Choose(chosen) => {
            let inside = rename(alloc, occurrences, before, chosen.get())?;
            choice_of(alloc, span, inside)
        }
        SymbolKind::Name(name, named) => {
            let inside = rename(alloc, occurrences, before, named.get())?;
            named_of(alloc, span, name, inside)
        }
        SymbolKind::Terminal(_)
        | SymbolKind::Lookahead
        | SymbolKind::Lookbehind
        | SymbolKind::Error => copy_of(alloc, symbol, before),
    }
}

/// The call of the macro of that name, written there, with each occurrence renamed, where so many stand before it.
#[cycle(rename)]
fn rename_call(
    alloc: Global,
    occurrences: &Occurrences<'_>,
    before: u64,
    span: Span,
    name: &NonterminalString,
    args: &[Symbol],
) -> Result<Renaming, AllocError>
    ensures symbol { IfOk result (λ r. symbol_view r.symbol ≡ symbol_under occurrences.now before
        (Sym.macro (span_view span) name.now.0 (syms (map symbol_view args.now)))) }
    ensures count { IfOk result (λ r. r.next
        ≡ before + occurrences_seen (binding_view occurrences.now.binding) occurrences.now.owner.now
        (Sym.macro (span_view span) name.now.0 (syms (map symbol_view args.now)))) }
{
    let own = owner_count(occurrences.binding, occurrences.owner, &name.0);
    let inside = rename_all(alloc, occurrences, sum(before, own)?, args)?;
    call_of(occurrences, before, span, name, inside)
}

/// The symbols, in order, each with its occurrences renamed.
#[cycle(rename)]
fn rename_all(
    alloc: Global,
    occurrences: &Occurrences<'_>,
    before: u64,
    symbols: &[Symbol],
) -> Result<Renamings, AllocError>
    ensures symbols { IfOk result (λ r.
        map symbol_view r.symbols ≡ symbols_under occurrences.now before (map symbol_view symbols.now)) }
    ensures inside { IfOk result (λ r. syms (map symbol_view r.symbols)
        ≡ inside_under occurrences.now before (syms (map symbol_view symbols.now))) }
    ensures count { IfOk result (λ r. r.next ≡ before
        + occurrences_in (binding_view occurrences.now.binding) occurrences.now.owner.now (syms (map symbol_view symbols.now))) }
{
    let mut made = List::new(alloc);
    let mut count = before;
    for symbol in symbols {
        let found = rename(alloc, occurrences, count, symbol)?;
        count = found.next;
        made.push(found.symbol)?;
    }
    Ok(Renamings {
        symbols: made,
        next: count,
    })
}

/// The symbols of an alternative, with each occurrence of its rule renamed.
pub(crate) fn rename_each(
    alloc: Global,
    occurrences: &Occurrences<'_>,
    symbols: &[Symbol],
) -> Result<List<Symbol>, AllocError>
    ensures { IfOk result (λ made. map symbol_view made ≡ symbols_under occurrences.now 0 (map symbol_view symbols.now)) }
{
    let renaming = rename_all(alloc, occurrences, 0, symbols)?;
    Ok(renaming.symbols)
}
