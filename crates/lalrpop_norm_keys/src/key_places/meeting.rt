//! The keys that are met in written symbols, each with its place.

ghost use Rattle.std.specs.Prelude.{◌≡◌, ◌++◌, ◌∷◌, [], IfOk, OnOk, map};
ghost use Rattle.lalrpop_grammar_symbols.specs.Symbols.{Closed, syms};
ghost use Rattle.lalrpop_grammar_symbols.specs.Views.{repeat_op_view, span_view, symbol_view};
ghost use Rattle.lalrpop_grammar_rules.specs.Views.{closed_view, closeds};
ghost use Rattle.lalrpop_norm_theory.specs.KeyTables.{keys_in};
ghost use Rattle.lalrpop_norm_keys.specs.Standing.{keys_of_repeat};
ghost use Rattle.lalrpop_norm_keys.specs.MetKeys.{all_met_at, keys_met, keys_met_in_row};
ghost use Rattle.lalrpop_norm_keys.specs.Views.{met_view};

use crate::key_table::keys_in_symbols;
use lalrpop_grammar_rules::closed::{ClosedSymbol, Shared};
use lalrpop_grammar_symbols::{List, RepeatOp, Span, Symbol, SymbolKind};
use std::alloc::{AllocError, Global};
use std::slice;

/// A key, and where it is met.
#[derive(Drop)]
pub struct MetKey {
    /// The key.
    pub key: ClosedSymbol,
    /// Where it is met.
    pub span: Span,
}

/// Puts the keys behind the others, all at that place.
fn push_all(keys: List<ClosedSymbol>, span: Span, met: &mut List<MetKey>) -> Result<(), AllocError>
    ensures { OnOk result (map met_view met.new
        ≡ map met_view met.old ++ all_met_at (span_view span) (map closed_view keys)) }
{
    for key in keys.into_vec() {
        met.push(MetKey { key, span })?;
    }
    Ok(())
}

/// Puts the keys of the closed symbol behind the others, all at that place.
fn note_all(
    alloc: Global,
    closed: &ClosedSymbol,
    span: Span,
    met: &mut List<MetKey>,
) -> Result<(), AllocError>
    ensures { OnOk result (map met_view met.new
        ≡ map met_view met.old ++ all_met_at (span_view span) (keys_in (closed_view closed.now))) }
{
    let keys = keys_in_symbols(alloc, slice::from_ref(closed))?;
    push_all(keys, span, met)
}

/// The repeat of a copy of the symbol.
fn repeat_of(alloc: Global, op: RepeatOp, inside: &ClosedSymbol) -> Result<ClosedSymbol, AllocError>
    ensures { IfOk result (λ made. closed_view made ≡ Closed.repeat (repeat_op_view op) (closed_view inside.now)) }
{
    let copy = inside.try_clone()?;
    Ok(ClosedSymbol::Repeat(op, Shared::new(alloc, copy)?))
}

/// The repeat of the symbol, and what it is made of.
fn repeats_of(
    alloc: Global,
    op: RepeatOp,
    inside: &ClosedSymbol,
) -> Result<List<ClosedSymbol>, AllocError>
    ensures { IfOk result (λ keys. map closed_view keys ≡ keys_of_repeat (repeat_op_view op) (closed_view inside.now)) }
{
    let mut keys = List::new(alloc);
    keys.push(repeat_of(alloc, op, inside)?)?;
    match op {
        RepeatOp::Star => keys.push(repeat_of(alloc, RepeatOp::Plus, inside)?)?,
        RepeatOp::Plus | RepeatOp::Question => (),
    }
    Ok(keys)
}

/// Puts the repeat of the symbol, and what it is made of, behind the others, all at that place.
fn note_repeats(
    alloc: Global,
    op: RepeatOp,
    inside: &ClosedSymbol,
    span: Span,
    met: &mut List<MetKey>,
) -> Result<(), AllocError>
    ensures { OnOk result (map met_view met.new ≡ map met_view met.old
        ++ all_met_at (span_view span) (keys_of_repeat (repeat_op_view op) (closed_view inside.now))) }
{
    let keys = repeats_of(alloc, op, inside)?;
    push_all(keys, span, met)
}

/// Puts the key behind the others.
fn note_one(key: &ClosedSymbol, span: Span, met: &mut List<MetKey>) -> Result<(), AllocError>
    ensures { OnOk result (map met_view met.new ≡ map met_view met.old ++ (closed_view key.now, span_view span) ∷ []) }
{
    let key = key.try_clone()?;
    met.push(MetKey { key, span })
}

/// Puts the keys that are met in the symbol behind the others, by what it is closed to.
#[cycle(meet)]
fn note_keys_of(
    alloc: Global,
    symbol: &Symbol,
    closed: &ClosedSymbol,
    met: &mut List<MetKey>,
) -> Result<(), AllocError>
    ensures { OnOk result (map met_view met.new
        ≡ map met_view met.old ++ keys_met (symbol_view symbol.now) (closed_view closed.now)) }
{
    match &symbol.kind {
        SymbolKind::Expr(group) => match closed {
            ClosedSymbol::Group(inside) => {
                note_one(closed, symbol.span, met)?;
                note_keys_met(alloc, group.symbols.as_slice(), inside.as_slice(), met)
            }
            _ => Ok(()),
        },
        SymbolKind::Repeat(repeat) => match closed {
            ClosedSymbol::Repeat(op, inside) => {
                note_repeats(alloc, *op, inside.get(), symbol.span, met)?;
                note_keys_of(alloc, &repeat.get().symbol, inside.get(), met)
            }
            _ => Ok(()),
        },
        SymbolKind::Choose(chosen) => match closed {
            ClosedSymbol::Choose(inside) => note_keys_of(alloc, chosen.get(), inside.get(), met),
            _ => Ok(()),
        },
        SymbolKind::Name(_, named) => match closed {
            ClosedSymbol::Name(_, inside) => note_keys_of(alloc, named.get(), inside.get(), met),
            _ => Ok(()),
        },
        SymbolKind::AmbiguousId(_)
        | SymbolKind::Terminal(_)
        | SymbolKind::Nonterminal(_)
        | SymbolKind::Macro(_)
        | SymbolKind::Lookahead
        | SymbolKind::Lookbehind
        | SymbolKind::Error => note_all(alloc, closed, symbol.span, met),
    }
}

/// Puts the keys that are met in the symbols behind the others, in reading order, by what these are closed to: each at the innermost
/// symbol that has it.
#[cycle(meet)]
pub fn note_keys_met(
    alloc: Global,
    symbols: &[Symbol],
    closed: &[ClosedSymbol],
    met: &mut List<MetKey>,
) -> Result<(), AllocError>
    ensures { OnOk result (map met_view met.new ≡ map met_view met.old
        ++ keys_met_in_row (syms (map symbol_view symbols.now)) (closeds (map closed_view closed.now))) }
{
    let mut others = closed;
    for symbol in symbols {
        let Some((each, rest)) = others.split_first() else {
            return Ok(());
        };
        note_keys_of(alloc, symbol, each, met)?;
        others = rest;
    }
    Ok(())
}
