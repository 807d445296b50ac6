//! The productions of a grammar and their names, each once, in order.

ghost use Rattle.std.specs.Prelude.{◌≡◌, ◌∷◌, [], IfOk, OnOk, flat_map};
ghost use Rattle.std.specs.List.Sorted.{IsStrictlySortedBy};
ghost use Rattle.lalrpop_grammar_repr.specs.contracts.production.ProductionOrd.TheImpl as production_order;
ghost use Rattle.lalrpop_lr1_first.specs.Listings.{AddsTo, HoldSame, lent, lent_in, names_in_production, symbol_names};
ghost use Rattle.lalrpop_lr1_core.specs.TheoryGrammars.{productions_of_grammar};

use lalrpop_grammar_repr::{Grammar, Production, Symbol};
use lalrpop_grammar_symbols::NonterminalString;
use std::alloc::{AllocError, Global};
use std::collections::BTreeSet;

/// Puts the production into the set.
fn add_production<'g>(
    production: &'g Production,
    set: &mut BTreeSet<&'g Production>,
) -> Result<(), AllocError>
    ensures { OnOk result (AddsTo (lent_in set.old) (lent_in set.new) (production.now ∷ [])) }
{
    set.insert(production)?;
    Ok(())
}

/// Puts the productions into the set.
fn add_productions<'g>(
    productions: &'g [Production],
    set: &mut BTreeSet<&'g Production>,
) -> Result<(), AllocError>
    ensures { OnOk result (AddsTo (lent_in set.old) (lent_in set.new) productions.now) }
{
    for production in productions {
        add_production(production, set)?;
    }
    Ok(())
}

/// The productions of the grammar, in order, equal ones once.
pub(crate) fn productions_in<'g>(
    alloc: Global,
    grammar: &'g Grammar,
) -> Result<BTreeSet<&'g Production>, AllocError>
    ensures { IfOk result (λ set. HoldSame (lent_in set) (productions_of_grammar grammar.now)) }
{
    let mut set = BTreeSet::new(alloc);
    for (_, data) in grammar.nonterminals.iter() {
        add_productions(data.productions.as_slice(), &mut set)?;
    }
    Ok(set)
}

/// Puts the name into the set.
fn add_name<'g>(
    name: &'g NonterminalString,
    set: &mut BTreeSet<&'g NonterminalString>,
) -> Result<(), AllocError>
    ensures { OnOk result (AddsTo (lent_in set.old) (lent_in set.new) (name.now ∷ [])) }
{
    set.insert(name)?;
    Ok(())
}

/// Puts the symbol's name into the set, where it is a nonterminal.
fn add_name_in<'g>(
    symbol: &'g Symbol,
    set: &mut BTreeSet<&'g NonterminalString>,
) -> Result<(), AllocError>
    ensures { OnOk result (AddsTo (lent_in set.old) (lent_in set.new) (symbol_names symbol.now)) }
{
    match symbol {
        Symbol::Nonterminal(name) => add_name(name, set),
        Symbol::Terminal(_) => Ok(()),
    }
}

/// Puts the names of the symbols into the set.
fn add_names_in<'g>(
    symbols: &'g [Symbol],
    set: &mut BTreeSet<&'g NonterminalString>,
) -> Result<(), AllocError>
    ensures { OnOk result (AddsTo (lent_in set.old) (lent_in set.new) (flat_map symbol_names symbols.now)) }
{
    for symbol in symbols {
        add_name_in(symbol, set)?;
    }
    Ok(())
}

/// Puts the names of the production into the set.
fn add_names_of<'g>(
    production: &'g Production,
    set: &mut BTreeSet<&'g NonterminalString>,
) -> Result<(), AllocError>
    ensures { OnOk result (AddsTo (lent_in set.old) (lent_in set.new) (names_in_production production.now)) }
{
    add_name(&production.nonterminal, set)?;
    add_names_in(production.symbols.as_slice(), set)?;
    Ok(())
}

/// The names of the productions, in order, each once.
pub(crate) fn names_in<'g>(
    alloc: Global,
    productions: &[&'g Production],
) -> Result<BTreeSet<&'g NonterminalString>, AllocError>
    ensures { IfOk result (λ set. HoldSame (lent_in set) (flat_map names_in_production (lent productions.now))) }
{
    let mut set = BTreeSet::new(alloc);
    for production in productions {
        add_names_of(*production, &mut set)?;
    }
    Ok(set)
}

/// The productions of the set, in order.
pub(crate) fn list_productions<'g>(
    alloc: Global,
    set: &BTreeSet<&'g Production>,
) -> Result<Vec<&'g Production>, AllocError>
    ensures same { IfOk result (λ listed. listed.items ≡ set.now.keys) }
    ensures ordered { IfOk result (λ listed. IsStrictlySortedBy (production_order.ghosts).cmp (lent listed.items)) }
{
    let mut listed = Vec::new(alloc);
    for production in set.iter() {
        listed.push(*production)?;
    }
    Ok(listed)
}
