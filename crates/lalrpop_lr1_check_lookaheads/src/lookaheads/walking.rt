//! Where symbols lead from a state.

ghost use Rattle.std.specs.Prelude.{◌≡◌, ◌↔◌, List, ℕ, Some, map};
ghost use Rattle.lalrpop_lr1_theory.specs.States.{HasEdge, LookaheadSet};
ghost use Rattle.lalrpop_lr1_core.specs.Views.{lr_state_view, production_symbol_view};
ghost use Rattle.lalrpop_lr1_theory.specs.PropagatedNexts.{LeadAlong};
ghost use Rattle.lalrpop_lr1_check_lookaheads.specs.SeenEdges.{HasOrderedEdges, target_at};

use lalrpop_grammar_repr::Symbol;
use lalrpop_lr1_core::Lr1State;

/// Where the symbol leads from the state, whose maps are in order.
fn target_of(state: &Lr1State<'_>, symbol: &Symbol) -> Option<usize>
    ensures target { result ≡ target_at state.now symbol.now }
    ensures ordered { HasOrderedEdges state.now }
{
    let _shifts = state.shifts.iter();
    let _gotos = state.gotos.iter();
    match symbol {
        Symbol::Terminal(terminal) => match state.shifts.get(terminal) {
            Some(target) => Some(target.0),
            None => None,
        },
        Symbol::Nonterminal(name) => match state.gotos.get(name) {
            Some(target) => Some(target.0),
            None => None,
        },
    }
}

/// Where the symbol leads from the state with this number, which may not be there.
fn lead(states: &[Lr1State<'_>], number: usize, symbol: &Symbol) -> Option<usize>
    ensures { (look : List ℕ → LookaheadSet) (m : ℕ) → (result ≡ Some m)
        ↔ HasEdge (map (lr_state_view look) states.now) number (production_symbol_view symbol.now) m }
{
    if number < states.len() {
        target_of(&states[number], symbol)
    } else {
        None
    }
}

/// Where the symbols lead from the state with this number, one after another.
pub(crate) fn walk(states: &[Lr1State<'_>], from: usize, symbols: &[Symbol]) -> Option<usize>
    ensures { (look : List ℕ → LookaheadSet) (m : ℕ) → (result ≡ Some m)
        ↔ LeadAlong (HasEdge (map (lr_state_view look) states.now)) (map production_symbol_view symbols.now) from m }
{
    let mut number = from;
    for symbol in symbols {
        match lead(states, number, symbol) {
            None => return None,
            Some(next) => number = next,
        }
    }
    Some(number)
}
