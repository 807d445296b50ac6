//! The canonical states, with conflicts or without.

ghost use Rattle.std.specs.Prelude.{◌≡◌, IfOk, flat_map, length};
ghost use Rattle.lalrpop_lr1_core.specs.Conflicts.{token_conflicts};
ghost use Rattle.lalrpop_lr1_first.specs.NumberedGrammars.{HasItsTerminals};
ghost use Rattle.lalrpop_lr1_build.specs.CollapseAnswers.{AreCanonicalOf};

use lalrpop_grammar_repr::Grammar;
use lalrpop_grammar_symbols::NonterminalString;
use lalrpop_lr1_build::build_lr1_states_canonical;
use lalrpop_lr1_core::{Lr1State, TableFault};
use std::alloc::{AllocError, Global};

/// The canonical states of a grammar.
#[derive(Drop)]
pub struct Canonical<'g> {
    /// The states.
    pub states: Vec<Lr1State<'g>>,
    /// How many conflicts they have.
    pub conflicts: usize,
}

/// The canonical states of the grammar for a start, and how many conflicts they have.
pub fn canonical_states<'g>(
    alloc: Global,
    grammar: &'g Grammar,
    start: &NonterminalString,
) -> Result<Canonical<'g>, AllocError>
    requires { HasItsTerminals grammar.now }
    ensures states { IfOk result (λ canonical. AreCanonicalOf grammar.now start.now grammar.now.terminals canonical.states.items) }
    ensures conflicts { IfOk result (λ canonical. canonical.conflicts
        ≡ length (flat_map (token_conflicts grammar.now.terminals) canonical.states.items)) }
{
    match build_lr1_states_canonical(alloc, grammar, start.try_clone()?) {
        Ok(states) => Ok(Canonical {
            states,
            conflicts: 0,
        }),
        Err(TableFault::Conflicts(error)) => Ok(Canonical {
            states: error.states,
            conflicts: error.conflicts.len(),
        }),
        Err(TableFault::Memory) => Err(AllocError),
    }
}
