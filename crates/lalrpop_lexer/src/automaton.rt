//! The automaton that tells which of several patterns a text begins with.

ghost use Rattle.std.specs.Prelude.{◌≡◌, ◌<◌, [], None, length, option_map, slice_index_or};
ghost use Rattle.lalrpop_lexer.specs.Explore.{edges_view};
ghost use Rattle.lalrpop_lexer.specs.StateViews.{kind_of};

use crate::edge::DfaEdge;
use crate::kind::{DfaStateIndex, Kind, NfaIndex};
use crate::slices::Slices;
use crate::state::State;
use std::marker::Model;

/// An automaton that tells which of several patterns a text begins with. It starts in its state 0.
#[derive(Drop)]
pub struct Dfa {
    pub(crate) states: Vec<State>,
    // For each state its edges to other states, ascending.
    pub(crate) edges: Slices<DfaEdge>,
    // For each state and ASCII character where it leads, if anywhere; nothing for a state of few edges.
    pub(crate) rows: Slices<Option<usize>>,
}

impl Model for Dfa {
    ghost use Rattle.std.specs.Prelude.{List, length};
    ghost use Rattle.lalrpop_lexer.specs.Simulation.{StateView};
    ghost use Rattle.lalrpop_lexer.specs.StateViews.{state_views};
    ghost use Rattle.lalrpop_lexer.specs.Tables.{AreTables};

    ghost Value = { List StateView };

    ghost view = { λ dfa. state_views dfa.states.items dfa.edges };

    ghost invariant = { λ dfa. AreTables (length dfa.states.items) dfa.edges dfa.rows };
}

/// What a state says of the words that lead to it, by what it accepts and its edges.
fn kind_by(accepts: Option<NfaIndex>, edges: &[DfaEdge]) -> Kind
    ensures { result ≡ kind_of (option_map (λ i. i.0) accepts, edges_view edges.now) }
{
    match accepts {
        Some(pattern) => Kind::Accepts(pattern),
        None if edges.is_empty() => Kind::Reject,
        None => Kind::Neither,
    }
}

impl Dfa {
    /// How many states the automaton has.
    pub fn state_count(&self) -> usize
        ensures { result ≡ length self.now }
    {
        self.states.len()
    }

    /// What one of the automaton's states says of the words that lead to it.
    pub fn kind(&self, state: DfaStateIndex) -> Kind
        requires { state.0 < length self.now }
        ensures { result ≡ kind_of (slice_index_or self.now state.0 (None, [])) }
    {
        let number = state.0;
        kind_by(self.states[number].accepts, self.edges.get(number))
    }
}
