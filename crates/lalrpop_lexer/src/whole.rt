//! All states of the automaton with their transitions: the subset construction.

ghost use Rattle.std.specs.Prelude.{◌≡◌, ℕ, ◌<◌, List, ◌++◌, ◌∷◌, [], length, IfOk, OnOk, vec_len};
ghost use Rattle.lalrpop_lexer_nfa.specs.Paths.{nfa_view};
ghost use Rattle.lalrpop_lexer.specs.Explore.{AreClassesOf, edges_view, Explores};
ghost use Rattle.lalrpop_lexer.specs.Groups.{AreGroups};
ghost use Rattle.lalrpop_lexer.specs.StateViews.{edges_in};
ghost use Rattle.lalrpop_lexer.specs.States.{AreInside, AreNumbered, IsInterned};
ghost use Rattle.lalrpop_lexer.specs.Tables.{AreTables};
ghost use Rattle.lalrpop_lexer.specs.Automaton.{IsAutomaton};

use crate::alike::groups_of;
use crate::edge::DfaEdge;
use crate::groups::Groups;
use crate::kernels::Kernels;
use crate::pieces::pieces_of;
use crate::row::row_of;
use crate::slices::Slices;
use crate::states::States;
use lalrpop_lexer_nfa::{Nfa, NfaStateSet, START, Test};
use std::alloc::{AllocError, Global};

/// All states of the automaton, before it is known what they accept.
#[derive(Drop)]
pub(crate) struct Whole {
    /// For each state its edges.
    pub(crate) edges: Slices<DfaEdge>,
    /// For each state its row.
    pub(crate) rows: Slices<Option<usize>>,
    /// For each state, the states of the other automaton that its words lead to.
    pub(crate) sets: Slices<usize>,
}

/// Explores the state behind those that have their edges, and adds its edges and their row.
fn push_explored(
    alloc: Global,
    nfa: &Nfa,
    pieces: &[Test],
    groups: &Groups,
    known: &mut States,
    scratch: &mut NfaStateSet,
    edges: &mut Slices<DfaEdge>,
    rows: &mut Slices<Option<usize>>,
) -> Result<(), AllocError>
    requires state { length edges.old < length known.old.sets }
    requires pieces { AreClassesOf (nfa_view nfa.now) pieces.now }
    requires groups { AreGroups (nfa_view nfa.now) pieces.now groups.now.numbers.items groups.now.firsts.items }
    requires tables { AreTables (length edges.old) edges.old rows.old }
    requires bound { vec_len scratch.old.places ≡ vec_len nfa.now.states }
    requires sets { AreInside (vec_len nfa.now.states) known.old.sets }
    requires numbered { AreNumbered (nfa_view nfa.now) known.old.sets known.old.numbers }
    ensures pushed { OnOk result ((out : List DfaEdge) × (edges.new ≡ edges.old ++ out ∷ [])
        × Explores (nfa_view nfa.now) (length edges.old) known.old.sets known.new.sets (edges_view out)) }
    ensures tables { OnOk result (AreTables (length edges.new) edges.new rows.new) }
    ensures sets { OnOk result (AreInside (vec_len nfa.now.states) known.new.sets) }
    ensures numbered { OnOk result (AreNumbered (nfa_view nfa.now) known.new.sets known.new.numbers) }
    ensures bound { vec_len scratch.new.places ≡ vec_len scratch.old.places }
{
    let out = known.explore(alloc, nfa, pieces, groups, edges.len(), scratch)?;
    let row = row_of(alloc, &out)?;
    edges.push(&out)?;
    rows.push(&row)?;
    Ok(())
}

/// The state that the empty word leads to, alone.
fn first_state(alloc: Global, nfa: &Nfa, scratch: &mut NfaStateSet) -> Result<States, AllocError>
    requires bound { vec_len scratch.old.places ≡ vec_len nfa.now.states }
    ensures found { IfOk result (λ known. (n : ℕ) × IsInterned (nfa_view nfa.now) (START.0 ∷ []) [] known.sets n) }
    ensures sets { IfOk result (λ known. AreInside (vec_len nfa.now.states) known.sets) }
    ensures numbered { IfOk result (λ known. AreNumbered (nfa_view nfa.now) known.sets known.numbers) }
    ensures bound { vec_len scratch.new.places ≡ vec_len scratch.old.places }
{
    let numbers = Kernels::new(alloc, nfa.state_count())?;
    let mut known = States {
        sets: Slices::new(alloc),
        numbers,
    };
    known.number_of(alloc, nfa, &[START.0], scratch)?;
    Ok(known)
}

/// The states that words lead to, explored one by one as they are first seen.
fn explored_states(
    alloc: Global,
    nfa: &Nfa,
    pieces: &[Test],
    groups: &Groups,
) -> Result<Whole, AllocError>
    requires pieces { AreClassesOf (nfa_view nfa.now) pieces.now }
    requires groups { AreGroups (nfa_view nfa.now) pieces.now groups.now.numbers.items groups.now.firsts.items }
    ensures states { IfOk result (λ whole. IsAutomaton (nfa_view nfa.now) START.0 whole.sets (edges_in whole.edges) (length whole.sets)) }
    ensures tables { IfOk result (λ whole. AreTables (length whole.sets) whole.edges whole.rows) }
{
    let mut scratch = NfaStateSet::new(alloc, nfa.state_count())?;
    let mut known = first_state(alloc, nfa, &mut scratch)?;
    let mut edges = Slices::new(alloc);
    let mut rows = Slices::new(alloc);
    'states: while edges.len() < known.sets.len() {
        push_explored(
            alloc,
            nfa,
            pieces,
            groups,
            &mut known,
            &mut scratch,
            &mut edges,
            &mut rows,
        )?;
    }
    Ok(Whole {
        edges,
        rows,
        sets: known.sets,
    })
}

/// The states that the automaton's words lead to, numbered as they are first seen.
pub(crate) fn all_states(alloc: Global, nfa: &Nfa) -> Result<Whole, AllocError>
    ensures states { IfOk result (λ whole. IsAutomaton (nfa_view nfa.now) START.0 whole.sets (edges_in whole.edges) (length whole.sets)) }
    ensures tables { IfOk result (λ whole. AreTables (length whole.sets) whole.edges whole.rows) }
{
    let pieces = pieces_of(alloc, nfa)?;
    let groups = groups_of(alloc, nfa, &pieces)?;
    let whole = explored_states(alloc, nfa, &pieces, &groups)?;
    Ok(whole)
}
