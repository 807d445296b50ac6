//! The steps that lead out.

ghost use Rattle.std.specs.Prelude.{◌≡◌, ◌+◌, ◌*◌, ◌<◌, ◌∷◌, [], IfOk, OnOk, length};
ghost use Rattle.lalrpop_grammar_repr.specs.declared.grammar.Grammar.{Grammar};
ghost use Rattle.lalrpop_lr1_first.specs.FirstNumbers.{name_count};
ghost use Rattle.lalrpop_lr1_first.specs.FirstSetsOf.{IsProductionOf};
ghost use Rattle.lalrpop_lr1_first.specs.NumberedGrammars.{IsNumberTableOf};
ghost use Rattle.lalrpop_lr1_least_trees.specs.GrammarTrees.{symbols_by};
ghost use Rattle.lalrpop_lr1_paths.specs.PathTables.{AreStatePaths};
ghost use Rattle.lalrpop_lr1_paths.specs.CompletionSteps.{IsNodeIfSome, StepsAreBelow};
ghost use Rattle.lalrpop_lr1_paths.specs.ToldSteps.{AddsCompletionSteps, AreStepsOfStates};

use crate::state_paths::StatePaths;
use lalrpop_grammar_repr::{Production, Symbol};
use lalrpop_grammar_symbols::NonterminalString;
use lalrpop_lr1_core::{Item, State};
use lalrpop_lr1_least_trees::rest_trees::rest_count;
use std::alloc::{AllocError, Global};

/// A step over an item whose dot stands before a nonterminal.
#[derive(Clone, Copy)]
pub struct CompletionStep<'g> {
    /// The item's production.
    pub production: &'g Production,
    /// What stands behind the nonterminal.
    pub rest: &'g [Symbol],
    /// How many leaves and nodes light trees for that have.
    pub weight: usize,
    /// The node of the nonterminal in the item's state.
    pub from: usize,
    /// The node of the production's nonterminal in the state before the item.
    pub to: usize,
}

/// The node of the name with this number in the state.
///
/// # Errors
///
/// It is no number: so many nodes fit in no memory.
pub(crate) fn node_number(names: usize, state: usize, name: usize) -> Result<usize, AllocError>
    ensures { IfOk result (λ node. node ≡ state * names + name) }
{
    let Some(first) = state.checked_mul(names) else {
        return Err(AllocError);
    };
    match first.checked_add(name) {
        Some(node) => Ok(node),
        None => Err(AllocError),
    }
}

/// The node of the nonterminal in the state; none where the grammar hasn't the nonterminal.
///
/// # Errors
///
/// It is no number: so many nodes fit in no memory.
pub fn node_of(
    paths: &StatePaths<'_, '_>,
    state: usize,
    name: &NonterminalString,
) -> Result<Option<usize>, AllocError>
    requires { AreStatePaths paths.now }
    ensures { IfOk result (IsNodeIfSome (symbols_by paths.now.trees.now.table) (name_count paths.now.trees.now.table) state name.now.0) }
{
    let trees = paths.trees();
    let names = trees.table().names().len();
    match trees.number(name) {
        None => Ok(None),
        Some(number) => Ok(Some(node_number(names, state, number)?)),
    }
}

/// Adds the step over the item, if its dot stands before a nonterminal and what stands behind that has trees. There are so many states.
fn push_step<'g, L>(
    paths: &StatePaths<'_, 'g>,
    count: usize,
    state: usize,
    item: &Item<'g, L>,
    steps: &mut Vec<CompletionStep<'g>>,
) -> Result<(), AllocError>
    requires paths { AreStatePaths paths.now }
    requires state { state < count }
    ensures below { OnOk result (StepsAreBelow (count * name_count paths.now.trees.now.table) steps.old.items →
        StepsAreBelow (count * name_count paths.now.trees.now.table) steps.new.items) }
    ensures steps { OnOk result ((g : Grammar) → IsNumberTableOf g paths.now.trees.now.table →
        AddsCompletionSteps (IsProductionOf g) paths.now count state (item.now ∷ []) steps.old.items steps.new.items) }
{
    let Some((Symbol::Nonterminal(name), rest)) = item.shift_symbol() else {
        return Ok(());
    };
    let Some(weight) = rest_count(paths.trees(), rest) else {
        return Ok(());
    };
    let before = paths.back(state, item.index);
    if before >= count {
        return Ok(());
    }
    let production = item.production;
    let Some(from) = node_of(paths, state, name)? else {
        return Ok(());
    };
    let Some(to) = node_of(paths, before, &production.nonterminal)? else {
        return Ok(());
    };
    steps.push(CompletionStep {
        production,
        rest,
        weight,
        from,
        to,
    })?;
    Ok(())
}

/// Adds the steps over the items of a state.
fn push_steps<'g, L>(
    paths: &StatePaths<'_, 'g>,
    count: usize,
    state: usize,
    items: &[Item<'g, L>],
    steps: &mut Vec<CompletionStep<'g>>,
) -> Result<(), AllocError>
    requires paths { AreStatePaths paths.now }
    requires state { state < count }
    ensures below { OnOk result (StepsAreBelow (count * name_count paths.now.trees.now.table) steps.old.items →
        StepsAreBelow (count * name_count paths.now.trees.now.table) steps.new.items) }
    ensures steps { OnOk result ((g : Grammar) → IsNumberTableOf g paths.now.trees.now.table →
        AddsCompletionSteps (IsProductionOf g) paths.now count state items.now steps.old.items steps.new.items) }
{
    for item in items {
        push_step(paths, count, state, item, steps)?;
    }
    Ok(())
}

/// The steps over all items of the states.
pub(crate) fn steps_of_states<'g, L>(
    alloc: Global,
    paths: &StatePaths<'_, 'g>,
    states: &[State<'g, L>],
) -> Result<Vec<CompletionStep<'g>>, AllocError>
    requires { AreStatePaths paths.now }
    ensures below { IfOk result (λ steps. StepsAreBelow (length states.now * name_count paths.now.trees.now.table) steps.items) }
    ensures steps { IfOk result (λ steps. (g : Grammar) → IsNumberTableOf g paths.now.trees.now.table →
        AreStepsOfStates (IsProductionOf g) paths.now (length states.now) states.now steps.items) }
{
    let mut steps = Vec::new(alloc);
    for number in 0..states.len() {
        let items = states[number].items.vec.as_slice();
        push_steps(paths, states.len(), number, items, &mut steps)?;
    }
    Ok(steps)
}
