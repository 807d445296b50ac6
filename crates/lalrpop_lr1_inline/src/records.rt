//! The records of a right side in which a nonterminal is inlined.

ghost use Rattle.std.specs.Prelude.{◌≡◌, ◌++◌, ◌∷◌, [], IfOk, OnOk, map};
ghost use Rattle.std.specs.List.{list_any};
ghost use Rattle.lalrpop_grammar_repr.specs.declared.action.InlinedSymbol.TheVariants as inlined;
ghost use Rattle.lalrpop_lr1_inline.specs.InliningSteps.{record_entries, is_place, longer_records, records_of, side_of_entry};
ghost use Rattle.lalrpop_lr1_inline.specs.InliningSteps.{side_of_record};

use lalrpop_grammar_repr::{InlinedSymbol, Production, Symbol};
use lalrpop_grammar_symbols::{List, NonterminalString};
use std::alloc::{AllocError, Global};

/// What became of each symbol of a right side.
pub(crate) type Record = List<InlinedSymbol>;

/// Whether the symbol is this nonterminal.
pub(crate) fn is_named(symbol: &Symbol, name: &NonterminalString) -> bool
    ensures { result ≡ is_place name.now.0 symbol.now }
{
    match symbol {
        Symbol::Nonterminal(found) => found.0.as_str() == name.0.as_str(),
        Symbol::Terminal(_) => false,
    }
}

/// Whether the nonterminal is among the symbols.
pub(crate) fn has_named(symbols: &[Symbol], name: &NonterminalString) -> bool
    ensures { result ≡ list_any (is_place name.now.0) symbols.now }
{
    for symbol in symbols {
        if is_named(symbol, name) {
            return true;
        }
    }
    false
}

/// Copies of the symbols behind the others.
fn add_symbols(symbols: &[Symbol], side: &mut List<Symbol>) -> Result<(), AllocError>
    ensures { OnOk result (side.new ≡ side.old ++ symbols.now) }
{
    for symbol in symbols {
        side.push(symbol.try_clone()?)?;
    }
    Ok(())
}

/// Puts what the entry stands for behind the others.
fn add_entry(entry: &InlinedSymbol, side: &mut List<Symbol>) -> Result<(), AllocError>
    ensures { OnOk result (side.new ≡ side.old ++ side_of_entry entry.now) }
{
    match entry {
        InlinedSymbol::Original(symbol) => side.push(symbol.try_clone()?),
        InlinedSymbol::Inlined(_, symbols) => add_symbols(symbols.as_slice(), side),
    }
}

/// The right side that the record makes.
pub(crate) fn side_of(alloc: Global, record: &[InlinedSymbol]) -> Result<List<Symbol>, AllocError>
    ensures { IfOk result (λ side. side ≡ side_of_record «record».now) }
{
    let mut side = List::new(alloc);
    for entry in record {
        add_entry(entry, &mut side)?;
    }
    Ok(side)
}

/// A copy of the record.
fn copy_of(alloc: Global, entries: &[InlinedSymbol]) -> Result<Record, AllocError>
    ensures { IfOk result (λ copy. copy ≡ entries.now) }
{
    let mut copy = List::new(alloc);
    for entry in entries {
        copy.push(entry.try_clone(alloc)?)?;
    }
    Ok(copy)
}

/// A record's entry that says that the production has replaced a symbol.
fn entry_by(alloc: Global, production: &Production) -> Result<InlinedSymbol, AllocError>
    ensures { IfOk result (λ made. made ≡ inlined.Inlined production.now.action production.now.symbols) }
{
    let mut symbols = List::new(alloc);
    add_symbols(production.symbols.as_slice(), &mut symbols)?;
    Ok(InlinedSymbol::Inlined(production.action, symbols))
}

/// The records with the symbol kept behind each.
fn keep_symbol(
    alloc: Global,
    fronts: Vec<Record>,
    symbol: &Symbol,
) -> Result<Vec<Record>, AllocError>
    ensures { IfOk result (λ longer. longer.items ≡ longer_records fronts.items (inlined.Original symbol.now ∷ [])) }
{
    let mut longer = Vec::new(alloc);
    for mut front in fronts {
        front.push(InlinedSymbol::Original(symbol.try_clone()?))?;
        longer.push(front)?;
    }
    Ok(longer)
}

/// Adds the record with each of the productions behind it.
fn add_each(
    alloc: Global,
    front: &[InlinedSymbol],
    productions: &[Production],
    longer: &mut Vec<Record>,
) -> Result<(), AllocError>
    ensures { OnOk result (longer.new.items ≡ longer.old.items
        ++ map (λ e. front.now ++ e ∷ []) (map (λ p. inlined.Inlined p.action p.symbols) productions.now)) }
{
    for production in productions {
        let mut made = copy_of(alloc, front)?;
        made.push(entry_by(alloc, production)?)?;
        longer.push(made)?;
    }
    Ok(())
}

/// The records with each of the productions behind each.
fn replace_with_each(
    alloc: Global,
    fronts: &[Record],
    productions: &[Production],
) -> Result<Vec<Record>, AllocError>
    ensures { IfOk result (λ longer. longer.items
        ≡ longer_records fronts.now (map (λ p. inlined.Inlined p.action p.symbols) productions.now)) }
{
    let mut longer = Vec::new(alloc);
    for front in fronts {
        add_each(alloc, front.as_slice(), productions, &mut longer)?;
    }
    Ok(longer)
}

/// The records with one symbol more.
fn lengthen(
    alloc: Global,
    fronts: Vec<Record>,
    symbol: &Symbol,
    name: &NonterminalString,
    productions: &[Production],
) -> Result<Vec<Record>, AllocError>
    ensures { IfOk result (λ longer. longer.items
        ≡ longer_records fronts.items (record_entries name.now.0 productions.now symbol.now)) }
{
    if is_named(symbol, name) {
        replace_with_each(alloc, fronts.as_slice(), productions)
    } else {
        keep_symbol(alloc, fronts, symbol)
    }
}

/// The record of no symbol.
fn first_record(alloc: Global) -> Result<Vec<Record>, AllocError>
    ensures { IfOk result (λ made. made.items ≡ [] ∷ []) }
{
    let mut made = Vec::new(alloc);
    made.push(List::new(alloc))?;
    Ok(made)
}

/// The records of the right side in which each place of the nonterminal is replaced by one of these productions, in order.
pub(crate) fn records(
    alloc: Global,
    symbols: &[Symbol],
    name: &NonterminalString,
    productions: &[Production],
) -> Result<Vec<Record>, AllocError>
    ensures { IfOk result (λ made. made.items ≡ records_of name.now.0 productions.now symbols.now) }
{
    let mut fronts = first_record(alloc)?;
    for symbol in symbols {
        fronts = lengthen(alloc, fronts, symbol, name, productions)?;
    }
    Ok(fronts)
}
