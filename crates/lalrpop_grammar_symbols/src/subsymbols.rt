//! The symbols that stand in a symbol, in reading order.

ghost use Rattle.std.specs.Prelude.{◌≤◌, vec_capacity};
ghost use Rattle.lalrpop_grammar_symbols.specs.SymbolWalks.{most_open, slices_view};

use crate::symbol::Symbol;
use crate::symbol_walk::{depth_of, next_subsymbol};
use std::alloc::{AllocError, Global};
use std::slice;

/// The symbols that stand in symbols, in reading order: each before those inside it. `Symbol::subsymbols` and
/// `subsymbols_of` make it, with room for the whole walk, and `next` takes no memory.
#[derive(Drop)]
pub struct Subsymbols<'s> {
    // The lists of symbols that are open, the innermost last.
    pending: Vec<&'s [Symbol]>,
    // All that will be open at once finds room.
    ghost room: { most_open (slices_view pending.items) ≤ vec_capacity pending },
}

impl<'s> Iterator for Subsymbols<'s> {
    ghost use Rattle.std.specs.Iterator.{YieldsFirstBy, item_count};
    ghost use Rattle.lalrpop_grammar_symbols.specs.Views.{symbol_view};
    ghost use Rattle.lalrpop_grammar_symbols.specs.SubsymbolsLeft.{subsymbols_left};

    type Item = &'s Symbol;

    ghost next_gives = { YieldsFirstBy (λ s. symbol_view s.now) subsymbols_left };

    ghost remaining = { item_count subsymbols_left };

    fn next(&mut self) -> Option<&'s Symbol> {
        next_subsymbol(&mut self.pending)
    }
}

impl<'s> Subsymbols<'s> {
    ghost use Rattle.std.specs.Prelude.{◌≡◌, IfOk};
    ghost use Rattle.lalrpop_grammar_symbols.specs.Subsymbols.{subsymbols_of};
    ghost use Rattle.lalrpop_grammar_symbols.specs.SubsymbolsLeft.{subsymbols_left};
    ghost use Rattle.lalrpop_grammar_symbols.specs.SymbolWalks.{symbols_view};

    /// The walk through these symbols, with room for all of it: as much as they are deep.
    pub(crate) fn new(alloc: Global, symbols: &'s [Symbol]) -> Result<Subsymbols<'s>, AllocError>
        ensures { IfOk result (λ it. subsymbols_left it ≡ subsymbols_of (symbols_view symbols.now)) }
    {
        let mut pending = Vec::with_capacity(alloc, depth_of(symbols).saturating_add(1))?;
        pending.push(symbols)?;
        Ok(Subsymbols { pending })
    }
}

impl Symbol {
    ghost use Rattle.std.specs.Prelude.{◌≡◌, IfOk};
    ghost use Rattle.lalrpop_grammar_symbols.specs.Subsymbols.{subsymbols};
    ghost use Rattle.lalrpop_grammar_symbols.specs.SubsymbolsLeft.{subsymbols_left};
    ghost use Rattle.lalrpop_grammar_symbols.specs.Views.{symbol_view};

    /// The symbol and those that stand in it, in reading order, as an iterator. This makes the room for the whole walk:
    /// as much as the symbol is deep.
    pub fn subsymbols(&self, alloc: Global) -> Result<Subsymbols<'_>, AllocError>
        ensures { IfOk result (λ it. subsymbols_left it ≡ subsymbols (symbol_view self.now)) }
    {
        Subsymbols::new(alloc, slice::from_ref(self))
    }
}
