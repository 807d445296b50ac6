//! The walk through symbols: a stack of the lists of symbols that are open, the innermost last.

ghost use Rattle.std.specs.Prelude.{◌≡◌, ◌<◌, ◌≤◌, ◌++◌, [], ◌∷◌, MatchOption, IfOk, min, vec_len, vec_capacity};
ghost use Rattle.lalrpop_grammar_symbols.specs.Subsymbols.{subsymbols_of, symbols_depth};
ghost use Rattle.lalrpop_grammar_symbols.specs.SubsymbolsLeft.{subsymbols_left};
ghost use Rattle.lalrpop_grammar_symbols.specs.SymbolWalks.{most_open, slices_view, symbols_inside, symbols_to_come, symbols_view};
ghost use Rattle.lalrpop_grammar_symbols.specs.Views.{symbol_view};

use crate::subsymbols::Subsymbols;
use crate::symbol::{Symbol, SymbolKind};
use std::alloc::{AllocError, Global};
use std::slice;

/// The symbols and those that stand in them, in reading order, as an iterator. This makes the room for the whole walk: as
/// much as the symbols are deep.
pub fn subsymbols_of<'s>(alloc: Global, symbols: &'s [Symbol]) -> Result<Subsymbols<'s>, AllocError>
    ensures { IfOk result (λ it. subsymbols_left it ≡ subsymbols_of (symbols_view symbols.now)) }
{
    Subsymbols::new(alloc, symbols)
}

/// Puts one more list of symbols on the stack, which has room for it.
fn open_list<'s>(pending: &mut Vec<&'s [Symbol]>, list: &'s [Symbol])
    requires { vec_len pending.old < vec_capacity pending.old }
    ensures items { pending.new.items ≡ pending.old.items ++ list.entry ∷ [] }
    ensures room { vec_capacity pending.old ≤ vec_capacity pending.new }
{
    if pending.push(list).is_err() {
        unreachable!()
    }
}

/// The next symbol of a walk: it takes it off the lists that are open, and opens what stands right inside.
pub(crate) fn next_subsymbol<'s>(pending: &mut Vec<&'s [Symbol]>) -> Option<&'s Symbol>
    requires { most_open (slices_view pending.old.items) ≤ vec_capacity pending.old }
    ensures room { most_open (slices_view pending.new.items) ≤ vec_capacity pending.new }
    ensures gives { let before = symbols_to_come (slices_view pending.old.items) in
        let after = symbols_to_come (slices_view pending.new.items) in
        MatchOption result ((before ≡ []) × (after ≡ [])) (λ x. before ≡ symbol_view x.now ∷ after) }
{
    while let Some(list) = pending.pop() {
        if let Some((first, others)) = list.split_first() {
            open_list(pending, others);
            open_list(pending, first.inside());
            return Some(first);
        }
    }
    None
}

/// How many of the symbols stand one inside the other, at most, or `usize::MAX` where they are more.
pub(crate) fn depth_of(symbols: &[Symbol]) -> usize
    ensures { result ≡ min (symbols_depth (symbols_view symbols.now)) usize.MAX }
{
    let mut deepest = 0usize;
    for symbol in symbols {
        let depth = depth_of(symbol.inside()).saturating_add(1);
        if depth > deepest {
            deepest = depth;
        }
    }
    deepest
}

impl Symbol {
    /// The symbols right inside.
    fn inside(&self) -> &[Symbol]
        ensures { symbols_view result.now ≡ symbols_inside (symbol_view self.now) }
    {
        match &self.kind {
            SymbolKind::Expr(group) => group.symbols.as_slice(),
            SymbolKind::Macro(call) => call.args.as_slice(),
            SymbolKind::Repeat(repeat) => slice::from_ref(&repeat.get().symbol),
            SymbolKind::Choose(symbol) | SymbolKind::Name(_, symbol) => {
                slice::from_ref(symbol.get())
            }
            SymbolKind::AmbiguousId(_)
            | SymbolKind::Terminal(_)
            | SymbolKind::Nonterminal(_)
            | SymbolKind::Lookahead
            | SymbolKind::Lookbehind
            | SymbolKind::Error => &[],
        }
    }
}
