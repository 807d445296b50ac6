//! The edges of a state by names and by terminals.

ghost use Rattle.std.specs.Prelude.{◌≡◌, ◌<◌, ℕ, IfOk, Contains};
ghost use Rattle.lalrpop_lr1_first.specs.FirstNumbers.{name_count, symbol_count};
ghost use Rattle.lalrpop_lr1_first.specs.NumberedGrammars.{IsNumberTable, table_names};
ghost use Rattle.lalrpop_lr1_build.specs.Kernels.{places_of};
ghost use Rattle.lalrpop_lr1_build.specs.PublicStates.{AreGotos, AreShifts};
ghost use Rattle.lalrpop_sets.specs.AscendingLists.{Ascends};

use lalrpop_grammar_repr::Map;
use lalrpop_grammar_symbols::{NonterminalString, TerminalString};
use lalrpop_lr1_core::StateIndex;
use lalrpop_lr1_first::Numbered;
use std::alloc::{AllocError, Global};

/// Where the nonterminals lead.
pub(crate) fn gotos_of(
    alloc: Global,
    table: &Numbered<'_>,
    edges: &[(usize, usize)],
) -> Result<Map<NonterminalString, StateIndex>, AllocError>
    requires table { IsNumberTable table.now }
    requires ascending { Ascends (places_of edges.now) }
    ensures { IfOk result (λ gotos. AreGotos (table_names table.now) edges.now gotos) }
{
    let names = table.names();
    let mut gotos = Map::new(alloc);
    for edge in edges {
        if edge.0 < names.len() {
            gotos.insert(names[edge.0].try_clone()?, StateIndex(edge.1))?;
        }
    }
    Ok(gotos)
}

/// Where the terminals lead.
pub(crate) fn shifts_of(
    alloc: Global,
    table: &Numbered<'_>,
    edges: &[(usize, usize)],
) -> Result<Map<TerminalString, StateIndex>, AllocError>
    requires table { IsNumberTable table.now }
    requires ascending { Ascends (places_of edges.now) }
    requires known { (s m : ℕ) → Contains edges.now (s, m) → s < symbol_count table.now }
    ensures { IfOk result (λ shifts. AreShifts (name_count table.now) table.now.terminals.now.all edges.now shifts) }
{
    let count = table.names().len();
    let terminals = table.terminals().all.as_slice();
    let mut shifts = Map::new(alloc);
    for edge in edges {
        if edge.0 >= count {
            shifts.insert(terminals[edge.0 - count].try_clone()?, StateIndex(edge.1))?;
        }
    }
    Ok(shifts)
}
