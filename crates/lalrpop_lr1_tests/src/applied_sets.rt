//! Sets of columns that are given to reductions: to those of a state, and to those of the state that a merge is for.

ghost use Rattle.std.specs.Prelude.{◌≡◌, ◌∷◌, [], length};
ghost use Rattle.lalrpop_lr1_core.specs.declared.conflict.Action.TheVariants.{Reduce};
ghost use Rattle.lalrpop_lane_tables.specs.AppliedSets.{HaveActions};
ghost use Rattle.lalrpop_lane_tables.specs.MergeViews.{AreClasses};

use crate::check::check;
use crate::grammars::{PAIRS, grammar_of, production_at};
use crate::lanes::set_of;
use lalrpop_grammar_repr::{Map, Production};
use lalrpop_grammar_symbols::List;
use lalrpop_lane_tables::{ConflictIndex, ContextSet, Merge, StateSet, UnifyTable};
use lalrpop_lr1_core::{Action, Items, Lr1State, StateIndex};
use lalrpop_sets::{Collection, TokenSet};
use std::alloc::Global;
use std::collections::BTreeSet;
use std::process::Abort;

/// The only column.
const COLUMN: ConflictIndex = ConflictIndex { index: 0 };

/// The reduction by the production alone.
fn reduction_alone<'g>(
    rt: &impl Abort,
    alloc: Global,
    production: &'g Production,
) -> BTreeSet<Action<'g>>
    ensures { result.keys ≡ Reduce production.entry ∷ [] }
{
    let mut actions = BTreeSet::new(alloc);
    match actions.insert(Action::Reduce(production)) {
        Ok(_) => actions,
        Err(_) => panic!(rt; "memory"),
    }
}

/// A state that reduces by the production, before nothing.
fn reducing_state<'g>(rt: &impl Abort, alloc: Global, production: &'g Production) -> Lr1State<'g>
    ensures { HaveActions (Reduce production.entry ∷ []) result.reductions }
{
    let mut reductions = List::new(alloc);
    match reductions.push((TokenSet::empty(alloc), production)) {
        Ok(()) => Lr1State {
            index: StateIndex(0),
            items: Items {
                vec: List::new(alloc),
            },
            shifts: Map::new(alloc),
            reductions,
            gotos: Map::new(alloc),
        },
        Err(_) => panic!(rt; "memory"),
    }
}

/// One column, which has the set.
fn column_of(rt: &impl Abort, alloc: Global, set: &TokenSet) -> ContextSet
    ensures { length result ≡ 1 }
{
    let mut columns = ContextSet::new(alloc, 1).expect(rt, "memory");
    let came = columns.insert(COLUMN, set);
    check(rt, came == Ok(true));
    columns
}

/// The class of the state 0 alone, with the columns.
fn class_of_state(
    rt: &impl Abort,
    alloc: Global,
    columns: ContextSet,
) -> (UnifyTable, Map<StateIndex, StateSet>)
    requires { length columns ≡ 1 }
    ensures { AreClasses 1 result.1 result.0 }
{
    let mut unify = UnifyTable::new(alloc);
    let key = unify.new_key(columns).expect(rt, "memory");
    let mut sets = Map::new(alloc);
    match sets.insert(StateIndex(0), key) {
        Ok(()) => (unify, sets),
        Err(_) => panic!(rt; "memory"),
    }
}

/// That the state reduces before the set alone.
fn reduces_before(rt: &impl Abort, state: &Lr1State<'_>, set: &TokenSet) {
    match state.reductions.as_slice() {
        [(before, _)] => check(rt, before == set),
        _ => panic!(rt; "other reductions"),
    }
}

#[test]
fn a_reduction_gets_the_set_of_its_column(rt: HostRuntime) {
    let alloc = rt.alloc();
    let grammar = grammar_of(&rt, alloc, PAIRS);
    let production = production_at(&rt, alloc, &grammar, "S", 0);
    let set = set_of(&rt, alloc, "c", &grammar.terminals);
    let mut state = reducing_state(&rt, alloc, production);
    let actions = reduction_alone(&rt, alloc, production);
    let columns = column_of(&rt, alloc, &set);
    columns
        .apply(alloc, &mut state, &actions)
        .expect(&rt, "memory");
    reduces_before(&rt, &state, &set);
}

#[test]
fn a_merge_gives_its_state_the_sets_of_its_class(rt: HostRuntime) {
    let alloc = rt.alloc();
    let grammar = grammar_of(&rt, alloc, PAIRS);
    let production = production_at(&rt, alloc, &grammar, "S", 0);
    let set = set_of(&rt, alloc, "c", &grammar.terminals);
    let (unify, sets) = class_of_state(&rt, alloc, column_of(&rt, alloc, &set));
    let mut states = [reducing_state(&rt, alloc, production)];
    let actions = reduction_alone(&rt, alloc, production);
    let merge = Merge::new(alloc, StateIndex(0), 0);
    let done = merge.patch_target_starts(&unify, &mut states, &sets, &actions);
    done.expect(&rt, "memory");
    let [state] = &states;
    reduces_before(&rt, state, &set);
}
