//! The rules of a lowered grammar as a list, while they are worked on, and as a map.

ghost use Rattle.std.specs.Prelude.{◌≡◌, IfOk};
ghost use Rattle.std.specs.List.Sorted.{IsStrictlySortedBy};
ghost use Rattle.std.specs.Map.{keys_of};
ghost use Rattle.lalrpop_grammar_symbols.specs.contracts.names.NonterminalStringOrd.TheImpl as names;

use crate::step::NamedRule;
use lalrpop_grammar_repr::{Map, NonterminalData};
use lalrpop_grammar_symbols::NonterminalString;
use std::alloc::{AllocError, Global};

/// Copies of the rules with their names, in order.
pub(crate) fn rules_in(
    alloc: Global,
    nonterminals: &Map<NonterminalString, NonterminalData>,
) -> Result<Vec<NamedRule>, AllocError>
    ensures rules { IfOk result (λ rules. rules.items ≡ nonterminals.now) }
    ensures ordered { IfOk result (λ rules. IsStrictlySortedBy (names.ghosts).cmp (keys_of rules.items)) }
{
    let mut rules = Vec::new(alloc);
    for (name, found) in nonterminals.iter() {
        rules.push((name.try_clone()?, found.try_clone(alloc)?))?;
    }
    Ok(rules)
}

/// The map of the rules, whose names ascend.
pub(crate) fn map_with(
    alloc: Global,
    rules: Vec<NamedRule>,
) -> Result<Map<NonterminalString, NonterminalData>, AllocError>
    requires { IsStrictlySortedBy (names.ghosts).cmp (keys_of rules.items) }
    ensures { IfOk result (λ map. map ≡ rules.items) }
{
    let mut map = Map::new(alloc);
    for entry in rules {
        let (name, rule) = entry;
        map.insert(name, rule)?;
    }
    Ok(map)
}
