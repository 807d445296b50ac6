//! Traces of a conflict's reduction, by a tracer that is asked for more after its memory ran out.

ghost use Rattle.std.specs.Prelude.{◌≡◌, ◌<◌, IfOk, IsFalse, length};
ghost use Rattle.lalrpop_lr1_core.specs.Edges.{edges_of};
ghost use Rattle.lalrpop_lr1_first.specs.FirstSetsOf.{AreFirstSetsOf};

use anyhow::Result;
use lalrpop_grammar_repr::{Grammar, Production};
use lalrpop_grammar_symbols::NonterminalString;
use lalrpop_lane_tables::{ConflictIndex, LaneTracer};
use lalrpop_lr1_core::{Action, Lr1State, Lr1TableConstructionError, StateGraph, StateIndex};
use lalrpop_lr1_first::FirstSets;
use lalrpop_run_parser::Prepared;
use lalrpop_sets::TokenSet;
use std::alloc::{AllocError, Global};

/// What a tracer takes beside the states.
#[derive(Drop)]
struct Ground {
    start: NonterminalString,
    first_sets: FirstSets,
    state_graph: StateGraph,
}

/// The ground of traces over the states.
fn ground_of(
    alloc: Global,
    prepared: &Prepared,
    states: &[Lr1State<'_>],
) -> Result<Ground, AllocError>
    ensures firsts { IfOk result (λ ground. AreFirstSetsOf prepared.now.expansion ground.first_sets) }
    ensures graph { IfOk result (λ ground. ground.state_graph ≡ edges_of states.now) }
{
    prepared.known();
    Ok(Ground {
        start: prepared.start_name().try_clone()?,
        first_sets: FirstSets::new(alloc, prepared.expansion())?,
        state_graph: StateGraph::new(alloc, states)?,
    })
}

/// Asks two tracers for traces of the reduction of the conflict with the number, and tells what they answer: one that was refused
/// memory is so from then on, and the other isn't for that.
pub(crate) fn tell_traces<'p, R: Alloc<A = Global> + Print>(
    rt: &R,
    prepared: &'p Prepared,
    error: &Lr1TableConstructionError<'p>,
    number: usize,
) -> Result<()>
    requires { number < length error.now.conflicts.items }
{
    let conflict = &error.conflicts[number];
    tell_traced(rt, prepared, error, conflict.state, conflict.production)?;
    tell_traced(rt, prepared, error, conflict.state, conflict.production)
}

/// Asks one tracer for traces of the production's reduction in the state.
fn tell_traced<'p, R: Alloc<A = Global> + Print>(
    rt: &R,
    prepared: &'p Prepared,
    error: &Lr1TableConstructionError<'p>,
    state: StateIndex,
    production: &'p Production,
) -> Result<()> {
    match ground_of(rt.alloc(), prepared, error.states.as_slice()) {
        Ok(ground) => {
            let states = error.states.as_slice();
            tell_over(rt, prepared.expansion(), states, ground, state, production)
        }
        Err(_) => {
            println!(rt; "out of memory")?;
            Ok(())
        }
    }
}

/// Asks a tracer over the states and the ground three times.
fn tell_over<'g, R: Alloc<A = Global> + Print>(
    rt: &R,
    grammar: &'g Grammar,
    states: &[Lr1State<'g>],
    ground: Ground,
    state: StateIndex,
    production: &'g Production,
) -> Result<()>
    requires firsts { AreFirstSetsOf grammar.now ground.first_sets }
    requires graph { ground.state_graph ≡ edges_of states.now }
{
    let Ground {
        start,
        first_sets,
        state_graph,
    } = ground;
    let mut tracer = LaneTracer::new(
        rt.alloc(),
        grammar,
        start,
        states,
        &first_sets,
        &state_graph,
        1,
    );
    tell_trace(rt, &mut tracer, state, production)?;
    tell_trace(rt, &mut tracer, state, production)?;
    tell_trace(rt, &mut tracer, state, production)
}

/// Asks the tracer, which has one column, for traces of the production's reduction in the state.
fn tell_trace<'g>(
    rt: &impl Print,
    tracer: &mut LaneTracer<'_, 'g, TokenSet>,
    state: StateIndex,
    production: &'g Production,
) -> Result<()>
    requires { IsFalse tracer.old.refused → tracer.old.table.conflicts ≡ 1 }
    ensures { IsFalse tracer.new.refused → tracer.new.table.conflicts ≡ 1 }
{
    match tracer.start_trace(state, ConflictIndex::new(0), Action::Reduce(production)) {
        Ok(()) => println!(rt; "traced")?,
        Err(_) => println!(rt; "out of memory")?,
    }
    Ok(())
}
