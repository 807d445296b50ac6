//! The graphs of steps that lead out.

ghost use Rattle.std.specs.Prelude.{◌≡◌, ◌*◌, ◌<◌, IfOk, OnOk, length, map};
ghost use Rattle.lalrpop_grammar_repr.specs.declared.grammar.Grammar.{Grammar};
ghost use Rattle.lalrpop_lr1_theory.specs.Automata.{IsCover};
ghost use Rattle.lalrpop_lr1_theory.specs.States.{HasEdge, HasItem, LookaheadSet};
ghost use Rattle.lalrpop_lr1_core.specs.Views.{lr_state_view};
ghost use Rattle.lalrpop_lr1_first.specs.FirstNumbers.{name_count};
ghost use Rattle.lalrpop_lr1_first.specs.FirstSetsOf.{IsProductionOf};
ghost use Rattle.lalrpop_lr1_first.specs.NumberedGrammars.{IsNumberTableOf};
ghost use Rattle.lalrpop_lr1_theory.specs.PathTrees.{ArePaths};
ghost use Rattle.lalrpop_lr1_paths.specs.PathTables.{AreStatePaths, last_steps};
ghost use Rattle.lalrpop_lr1_paths.specs.GraphPaths.{GoalsAreBelow};
ghost use Rattle.lalrpop_lr1_paths.specs.Graphs.{IsGraph, graph_edges, graph_node_count};
ghost use Rattle.lalrpop_lr1_least_trees.specs.GrammarTrees.{symbols_by};
ghost use Rattle.lalrpop_lr1_paths.specs.CompletionSteps.{AreEmptyEdges, AreListedEdges, AreStepEdges, LeadsAsStep, StepsAreBelow};
ghost use Rattle.lalrpop_lr1_paths.specs.CompletionGraphs.{AreEndGoals, AreCompletionGraphs, AreCompletions};
ghost use Rattle.lalrpop_lr1_paths.specs.ToldSteps.{HasNameNumber, HasNodeBelow};
ghost use Rattle.lalrpop_lr1_paths.specs.EmptySteps.{ListsStep};

use crate::completion_steps::steps_of_states::{CompletionStep, node_of, steps_of_states};
use crate::graph_paths::{Edge, Goal, Graph};
use crate::state_paths::StatePaths;
use lalrpop_grammar_symbols::NonterminalString;
use lalrpop_lr1_core::State;
use lalrpop_lr1_least_trees::rest_trees::empty_rest_count;
use std::alloc::{AllocError, Global};

/// The steps that lead out of the states of a grammar, as graphs.
#[derive(Drop)]
pub struct CompletionGraphs<'t, 'g> {
    // The paths to the states.
    pub(crate) paths: &'t StatePaths<'t, 'g>,
    // The start in state 0: where all ways end.
    pub(crate) goals: Vec<Goal>,
    // The steps.
    pub(crate) steps: Vec<CompletionStep<'g>>,
    // Their edges.
    pub(crate) any: Graph,
    // The numbers of the steps behind whose nonterminals nothing may come.
    pub(crate) empties: Vec<usize>,
    // Their edges.
    pub(crate) empty: Graph,
}

/// How many nodes there are in so many states.
///
/// # Errors
///
/// It is no number: so many nodes fit in no memory.
fn count_of_nodes(paths: &StatePaths<'_, '_>, states: usize) -> Result<usize, AllocError>
    ensures { IfOk result (λ nodes. nodes ≡ states * name_count paths.now.trees.now.table) }
{
    let names = paths.trees().table().names().len();
    match states.checked_mul(names) {
        Some(nodes) => Ok(nodes),
        None => Err(AllocError),
    }
}

/// The edge of the step. It weighs as much as the trees behind the nonterminal, and one more for the reduction.
fn edge_of_step(step: &CompletionStep<'_>, count: usize) -> Edge
    ensures { LeadsAsStep step.now result }
{
    Edge {
        from: step.from,
        to: step.to,
        weight: (count as u64).saturating_add(1),
    }
}

/// The edges of the steps.
fn edges_of_steps(alloc: Global, steps: &[CompletionStep<'_>]) -> Result<Vec<Edge>, AllocError>
    ensures { IfOk result (λ edges. AreStepEdges steps.now edges.items) }
{
    let mut edges = Vec::new(alloc);
    for step in steps {
        edges.push(edge_of_step(step, step.weight))?;
    }
    Ok(edges)
}

/// Steps that were listed, each with an edge.
#[derive(Drop)]
struct ListedSteps {
    // Their numbers.
    numbers: Vec<usize>,
    // Their edges.
    edges: Vec<Edge>,
}

/// Lists the step with the number, if nothing may come behind its nonterminal.
fn list_empty(
    paths: &StatePaths<'_, '_>,
    step: CompletionStep<'_>,
    number: usize,
    listed: &mut ListedSteps,
) -> Result<(), AllocError>
    requires { AreStatePaths paths.now }
    ensures { OnOk result (ListsStep paths.now.trees.now.table step.entry number listed.old listed.new) }
{
    if let Some(count) = empty_rest_count(paths.trees(), step.rest) {
        listed.numbers.push(number)?;
        listed.edges.push(edge_of_step(&step, count))?;
    }
    Ok(())
}

/// The steps behind whose nonterminals nothing may come.
fn empty_steps(
    alloc: Global,
    paths: &StatePaths<'_, '_>,
    steps: &[CompletionStep<'_>],
) -> Result<ListedSteps, AllocError>
    requires { AreStatePaths paths.now }
    ensures edges { IfOk result (λ listed. AreListedEdges steps.now listed.numbers.items listed.edges.items) }
    ensures empty { IfOk result (λ listed. (g : Grammar) → IsNumberTableOf g paths.now.trees.now.table →
        AreEmptyEdges (IsProductionOf g) steps.now listed.numbers.items listed.edges.items) }
{
    let mut listed = ListedSteps {
        numbers: Vec::new(alloc),
        edges: Vec::new(alloc),
    };
    for number in 0..steps.len() {
        list_empty(paths, steps[number], number, &mut listed)?;
    }
    Ok(listed)
}

/// The graph with an edge for each step, under the step's number.
fn graph_of_steps(
    alloc: Global,
    nodes: usize,
    steps: &[CompletionStep<'_>],
) -> Result<Graph, AllocError>
    requires { StepsAreBelow nodes steps.now }
    ensures graph { IfOk result IsGraph }
    ensures edges { IfOk result (λ graph. AreStepEdges steps.now (graph_edges graph)) }
    ensures nodes { IfOk result (λ graph. graph_node_count graph ≡ nodes) }
{
    let edges = edges_of_steps(alloc, steps)?;
    let graph = Graph::new(alloc, nodes, edges)?;
    Ok(graph)
}

/// The numbers of the steps behind whose nonterminals nothing may come, with the graph of their edges.
fn graph_of_empty_steps(
    alloc: Global,
    paths: &StatePaths<'_, '_>,
    nodes: usize,
    steps: &[CompletionStep<'_>],
) -> Result<(Vec<usize>, Graph), AllocError>
    requires paths { AreStatePaths paths.now }
    requires steps { StepsAreBelow nodes steps.now }
    ensures graph { IfOk result (λ made. IsGraph made.1) }
    ensures edges { IfOk result (λ made. AreListedEdges steps.now made.0.items (graph_edges made.1)) }
    ensures nodes { IfOk result (λ made. graph_node_count made.1 ≡ nodes) }
    ensures empty { IfOk result (λ made. (g : Grammar) → IsNumberTableOf g paths.now.trees.now.table →
        AreEmptyEdges (IsProductionOf g) steps.now made.0.items (graph_edges made.1)) }
{
    let ListedSteps { numbers, edges } = empty_steps(alloc, paths, steps)?;
    let graph = Graph::new(alloc, nodes, edges)?;
    Ok((numbers, graph))
}

/// The goal of all ways: the start in state 0, if there is one among so many nodes.
fn end_goals(
    alloc: Global,
    paths: &StatePaths<'_, '_>,
    nodes: usize,
    start: &NonterminalString,
) -> Result<Vec<Goal>, AllocError>
    requires { AreStatePaths paths.now }
    ensures below { IfOk result (λ goals. GoalsAreBelow nodes goals.items) }
    ensures end { IfOk result (λ goals. HasNodeBelow paths.now nodes start.now →
        AreEndGoals (symbols_by paths.now.trees.now.table) (name_count paths.now.trees.now.table) start.now.0 goals.items) }
{
    let mut goals = Vec::new(alloc);
    if let Some(node) = node_of(paths, 0, start)? {
        if node < nodes {
            goals.push(Goal { node, weight: 0 })?;
        }
    }
    Ok(goals)
}

impl<'t, 'g> CompletionGraphs<'t, 'g> {
    /// The steps that lead out of the states, whose paths these are, to whole trees of the start.
    ///
    /// # Errors
    ///
    /// Memory is refused.
    pub fn new<L>(
        alloc: Global,
        paths: &'t StatePaths<'t, 'g>,
        states: &[State<'g, L>],
        start: &NonterminalString,
    ) -> Result<CompletionGraphs<'t, 'g>, AllocError>
        requires { AreStatePaths paths.now }
        ensures graphs { IfOk result AreCompletionGraphs }
        ensures paths { IfOk result (λ ways. ways.paths.now ≡ paths.now) }
        ensures ways { IfOk result (λ ways. (g : Grammar) (look : L → LookaheadSet) → IsNumberTableOf g paths.now.trees.now.table →
            IsCover (IsProductionOf g) start.now.0 (HasItem (map (lr_state_view look) states.now))
            (HasEdge (map (lr_state_view look) states.now)) →
            ArePaths (map (lr_state_view look) states.now) (last_steps paths.now) → 0 < length states.now →
            HasNameNumber paths.now start.now →
            AreCompletions g start.now.0 (map (lr_state_view look) states.now) ways) }
    {
        let nodes = count_of_nodes(paths, states.len())?;
        let goals = end_goals(alloc, paths, nodes, start)?;
        let steps = steps_of_states(alloc, paths, states)?;
        let any = graph_of_steps(alloc, nodes, steps.as_slice())?;
        let (empties, empty) = graph_of_empty_steps(alloc, paths, nodes, steps.as_slice())?;
        Ok(CompletionGraphs {
            paths,
            goals,
            steps,
            any,
            empties,
            empty,
        })
    }

    /// The paths to the states.
    pub fn paths(&self) -> &'t StatePaths<'t, 'g>
        ensures { result.now ≡ self.now.paths.now }
    {
        self.paths
    }

    /// The goal of all ways: the start in state 0.
    pub fn goals(&self) -> &[Goal]
        ensures { result.now ≡ self.now.goals.items }
    {
        self.goals.as_slice()
    }

    /// The steps.
    pub fn steps(&self) -> &[CompletionStep<'g>]
        ensures { result.now ≡ self.now.steps.items }
    {
        self.steps.as_slice()
    }

    /// The graph with an edge for each step, under the step's number.
    pub fn any(&self) -> &Graph
        ensures { result.now ≡ self.now.any }
    {
        &self.any
    }

    /// The numbers of the steps behind whose nonterminals nothing may come.
    pub fn empties(&self) -> &[usize]
        ensures { result.now ≡ self.now.empties.items }
    {
        self.empties.as_slice()
    }

    /// The graph with an edge for each of these, under its place among them.
    pub fn empty(&self) -> &Graph
        ensures { result.now ≡ self.now.empty }
    {
        &self.empty
    }
}
