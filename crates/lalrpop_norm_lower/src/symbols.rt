//! Symbols of right sides.

ghost use Rattle.std.specs.Prelude.{◌≡◌, IfOk, map, option_to_list};
ghost use Rattle.lalrpop_grammar_symbols.specs.Views.{symbol_view};
ghost use Rattle.lalrpop_norm_lower.specs.LoweredSymbols.{lowered_side, lowered_symbol, named_symbol};

use lalrpop_grammar_repr::Symbol as LoweredSymbol;
use lalrpop_grammar_symbols::{List, Symbol, SymbolKind};
use std::alloc::{AllocError, Global};

/// The rule or the terminal that the symbol is, maybe named or chosen.
fn lower_symbol(symbol: &Symbol) -> Result<Option<LoweredSymbol>, AllocError>
    ensures { IfOk result (λ found. map named_symbol (option_to_list found) ≡ lowered_symbol (symbol_view symbol.now)) }
{
    match &symbol.kind {
        SymbolKind::Terminal(terminal) => Ok(Some(LoweredSymbol::Terminal(terminal.try_clone()?))),
        SymbolKind::Nonterminal(name) => Ok(Some(LoweredSymbol::Nonterminal(name.try_clone()?))),
        SymbolKind::Choose(inside) => lower_symbol(inside.get()),
        SymbolKind::Name(_, inside) => lower_symbol(inside.get()),
        SymbolKind::AmbiguousId(_) | SymbolKind::Expr(_) | SymbolKind::Macro(_) => Ok(None),
        SymbolKind::Repeat(_) | SymbolKind::Lookahead | SymbolKind::Lookbehind => Ok(None),
        SymbolKind::Error => Ok(None),
    }
}

/// The right side that the symbols of an alternative are.
pub(crate) fn lower_symbols(
    alloc: Global,
    symbols: &[Symbol],
) -> Result<List<LoweredSymbol>, AllocError>
    ensures { IfOk result (λ side. map named_symbol side ≡ lowered_side (map symbol_view symbols.now)) }
{
    let mut side = List::new(alloc);
    for symbol in symbols {
        if let Some(lowered) = lower_symbol(symbol)? {
            side.push(lowered)?;
        }
    }
    Ok(side)
}
