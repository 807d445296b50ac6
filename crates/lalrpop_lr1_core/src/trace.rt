//! One step back over the edges of a graph of states, from a set of states.

ghost use Rattle.std.specs.Prelude.{◌≡◌, ◌↔◌, ◌⊎◌, ℕ, Contains, IfOk, IsTrue, OnOk, map};
ghost use Rattle.std.specs.List.Sorted.{IsStrictlyIncreasing};
ghost use Rattle.lalrpop_lr1_core.specs.Steps.{EntersFrom, IsSourceBy};

use crate::edge::Edge;
use crate::state_index::StateIndex;
use lalrpop_grammar_repr::Symbol;
use std::alloc::{AllocError, Global};
use std::collections::BTreeSet;

/// Whether the edge is by the symbol.
fn is_by(edge: &Edge, symbol: &Symbol) -> bool
    ensures { IsTrue result ↔ (edge.now.symbol ≡ symbol.now) }
{
    edge.symbol == *symbol
}

/// Whether the number is among them.
fn has_number(numbers: &BTreeSet<usize>, number: usize) -> bool
    ensures { IsTrue result ↔ Contains numbers.now.keys number }
{
    numbers.contains(&number)
}

/// Adds the number.
fn add_number(number: usize, numbers: &mut BTreeSet<usize>) -> Result<(), AllocError>
    ensures { OnOk result ((n : ℕ) → Contains numbers.new.keys n ↔ (Contains numbers.old.keys n ⊎ (n ≡ number))) }
{
    numbers.insert(number)?;
    Ok(())
}

/// Adds the state from which the edge leads, where it is by the symbol and leads to one of the states.
fn add_source(
    edge: &Edge,
    symbol: &Symbol,
    targets: &BTreeSet<usize>,
    sources: &mut BTreeSet<usize>,
) -> Result<(), AllocError>
    ensures { OnOk result ((n : ℕ) → Contains sources.new.keys n
        ↔ (Contains sources.old.keys n ⊎ EntersFrom targets.now.keys symbol.now edge.now n)) }
{
    if has_number(targets, edge.target) && is_by(edge, symbol) {
        add_number(edge.source, sources)
    } else {
        Ok(())
    }
}

/// The states from which an edge by the symbol leads to one of the states.
pub(crate) fn sources_by(
    alloc: Global,
    edges: &[Edge],
    symbol: &Symbol,
    targets: &BTreeSet<usize>,
) -> Result<BTreeSet<usize>, AllocError>
    ensures { IfOk result (λ sources. (n : ℕ) → Contains sources.keys n
        ↔ IsSourceBy targets.now.keys symbol.now edges.now n) }
{
    let mut sources = BTreeSet::new(alloc);
    let mut rest = edges;
    while let Some((edge, others)) = rest.split_first() {
        rest = others;
        add_source(edge, symbol, targets, &mut sources)?;
    }
    Ok(sources)
}

/// The numbers as those of states, in order.
pub(crate) fn state_indexes(
    alloc: Global,
    numbers: &BTreeSet<usize>,
) -> Result<Vec<StateIndex>, AllocError>
    ensures same { IfOk result (λ states. map (λ s. s.0) states.items ≡ numbers.now.keys) }
    ensures ascending { IfOk result (λ states. IsStrictlyIncreasing (map (λ s. s.0) states.items)) }
{
    let mut states = Vec::new(alloc);
    for number in numbers.iter() {
        states.push(StateIndex(*number))?;
    }
    Ok(states)
}
