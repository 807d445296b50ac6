//! Traces: from which states the lookaheads of a conflicting action come, put into a lane table.

ghost use Rattle.std.specs.Prelude.{◌≡◌, ◌↔◌, ◌<◌, ◌^◌, ◌∷◌, ℕ, [], Contains, IfSome, IsErr, IsFalse, IsTrue, OnErr, OnOk, false, map, slice_get};
ghost use Rattle.lalrpop_grammar_symbols.specs.Views.{terminal_view};
ghost use Rattle.lalrpop_lr1_theory.specs.Productions as theory;
ghost use Rattle.lalrpop_lr1_theory.specs.States.{LookaheadSet};
ghost use Rattle.lalrpop_lr1_theory.specs.Trees.{reduce, shift};
ghost use Rattle.lalrpop_lr1_core.specs.Edges.{edges_of, sources_of};
ghost use Rattle.lalrpop_lr1_core.specs.Views.{production_view};
ghost use Rattle.lalrpop_lr1_first.specs.FirstSetsOf.{AreFirstSetsOf};
ghost use Rattle.lalrpop_lane_tables.specs.LaneTraces.{
  AddsEnd,
  AsksItems,
  IsGround,
  IsItemIn,
  IsTracing,
  StepsToSources,
  TakesSteps,
  TracesMove,
  action_move,
};
ghost use Rattle.lalrpop_lane_tables.specs.NodeKeys.{node_key, rule_hash, same_rule_hash};
ghost use Rattle.lalrpop_lane_tables.specs.TableGains.{
  AddsNothing,
  AddsTokens,
  EntersAt,
  EntersNowhere,
  NotesNothing,
  NotesOne,
  TableGains,
};
ghost use Rattle.lalrpop_lane_tables.specs.TableViews.{TableView, table_view};
ghost use Rattle.lalrpop_lane_tables.specs.TraceNodes.{ExtendsNodes, front_node, moved_node, node_of_item};

use crate::context_sets::ConflictIndex;
use crate::lane_tables::LaneTable;
use indexmap::IndexSet;
use lalrpop_grammar_repr::{Grammar, Production, Symbol};
use lalrpop_grammar_symbols::{NonterminalString, TerminalString};
use lalrpop_lr1_core::{Action, Item, State, StateGraph, StateIndex};
use lalrpop_lr1_first::FirstSets;
use lalrpop_sets::{Collection, Token, TokenSet};
use std::alloc::{AllocError, Global};
use std::hash::{Hash, Hasher};
use std::marker::Model;

/// A production, as nodes have it.
#[derive(Clone, Copy, PartialEq, Eq)]
struct Rule<'g>(&'g Production);

/// A node of a trace.
#[derive(Clone, Copy, PartialEq, Eq, Hash)]
enum Node<'g> {
    /// An item of a state whose dot isn't in front: the state, the production, and the place of the symbol before the dot.
    Moved(usize, Rule<'g>, usize),
    /// The items of a nonterminal in a state that have the dot in front: the state and the nonterminal.
    Front(usize, &'g NonterminalString),
}

// A production is hashed by the number of its action alone, which tells the productions of a grammar apart.
impl<'g> Hash for Rule<'g> {
    ghost hash_input = { λ rule. rule_hash rule.0.now };

    ghost respects_eq = { λ one other equal. same_rule_hash one.0.now other.0.now equal };

    fn hash<H: Hasher>(&self, state: &mut H) {
        self.0.action.hash(state);
    }
}

/// What traces go over: states, with their graph and the first sets of their grammar.
#[derive(Drop)]
struct Ground<'trace, 'g, L> {
    alloc: Global,
    grammar: &'g Grammar,
    start: NonterminalString,
    states: &'trace [State<'g, L>],
    first_sets: &'trace FirstSets,
    state_graph: &'trace StateGraph,
}

/// Traces the lanes of conflicting actions into a lane table, after Pager's construction of 1977.
#[derive(Drop)]
pub struct LaneTracer<'trace, 'g, L> {
    ground: Ground<'trace, 'g, L>,
    table: LaneTable<'g>,
    refused: bool,
}

impl<'trace, 'g, L> Model for LaneTracer<'trace, 'g, L> {
    ghost use Rattle.std.specs.Coded.{codes};
    ghost use Rattle.lalrpop_grammar_repr.specs.contracts.grammar.Grammar as grammars;
    ghost use Rattle.lalrpop_lane_tables.specs.LaneTraces.{IsGround};
    ghost use Rattle.lalrpop_lane_tables.specs.TracerViews.{TracerView};

    ghost Value = { TracerView L };

    ghost coded = { Prim.hlevel (codes, grammars.the_row.coded) };

    ghost view = { λ it. record {
      grammar = it.ground.grammar.now;
      start = it.ground.start.0;
      states = it.ground.states.now;
      table = it.table;
      refused = it.refused;
    } };

    ghost invariant = { λ it. IsGround it.ground.grammar.now it.ground.first_sets.now it.ground.state_graph.now it.ground.states.now };
}

/// The node of an item of a state.
fn node_of<'g>(state: usize, production: &'g Production, dot: usize) -> Node<'g>
    ensures { node_key result ≡ node_of_item state (production_view production.entry.now) dot }
{
    if dot == 0 {
        Node::Front(state, &production.nonterminal)
    } else {
        Node::Moved(state, Rule(production), dot - 1)
    }
}

/// Visits the node, if it wasn't visited.
fn visit<'g>(visited: &mut IndexSet<Node<'g>>, node: Node<'g>) -> Result<(), AllocError>
    ensures { OnOk result (ExtendsNodes (map node_key visited.old.keys) (map node_key visited.new.keys) (λ k. k ≡ node_key node.entry)) }
{
    visited.insert(node)?;
    Ok(())
}

/// Steps back to the item with the dot in this place, in a state from which an edge leads to the other.
fn step_to<'g>(
    from: StateIndex,
    to: usize,
    rule: Rule<'g>,
    place: usize,
    visited: &mut IndexSet<Node<'g>>,
    table: &mut LaneTable<'g>,
) -> Result<(), AllocError>
    ensures nodes { OnOk result (ExtendsNodes (map node_key visited.old.keys) (map node_key visited.new.keys)
        (λ k. k ≡ node_of_item from.0 (production_view rule.entry.0.now) place)) }
    ensures gains { OnOk result ((c : ℕ) → TableGains AddsNothing EntersNowhere (NotesOne from.0 to) c table.old table.new) }
{
    table.add_successor(from, StateIndex(to))?;
    visit(visited, node_of(from.0, rule.0, place))
}

/// Steps back so in each state from which an edge by the symbol leads to the state.
fn step_to_sources<'g>(
    graph: &StateGraph,
    symbol: &Symbol,
    to: usize,
    rule: Rule<'g>,
    place: usize,
    visited: &mut IndexSet<Node<'g>>,
    table: &mut LaneTable<'g>,
) -> Result<(), AllocError>
    ensures { OnOk result ((c : ℕ) → StepsToSources (sources_of to symbol.now graph.now) to (production_view rule.entry.0.now) place c
        (map node_key visited.old.keys) (map node_key visited.new.keys) table.old table.new) }
{
    let mut sources = graph.predecessors(StateIndex(to), symbol);
    while let Some(from) = sources.next() {
        step_to(from, to, rule, place, visited, table)?;
    }
    Ok(())
}

/// Steps back from an item of the state over the symbol in this place, which stands before its dot.
fn step_back<'g, L>(
    ground: &Ground<'_, 'g, L>,
    state: usize,
    rule: Rule<'g>,
    place: usize,
    visited: &mut IndexSet<Node<'g>>,
    table: &mut LaneTable<'g>,
) -> Result<(), AllocError>
    requires ground { IsGround ground.now.grammar.now ground.now.first_sets.now ground.now.state_graph.now ground.now.states.now }
    ensures { OnOk result ((look : L → LookaheadSet) (c : ℕ) → TakesSteps look ground.now.grammar.now ground.now.start.0 ground.now.states.now
        (moved_node state (production_view rule.entry.0.now) place) c (map node_key visited.old.keys) (map node_key visited.new.keys)
        table.old table.new) }
{
    let symbols = rule.0.symbols.as_slice();
    if place < symbols.len() {
        step_to_sources(
            ground.state_graph,
            &symbols[place],
            state,
            rule,
            place,
            visited,
            table,
        )
    } else {
        Ok(())
    }
}

/// Adds the end in the state, where the nonterminal is the start.
fn add_end<'g, L>(
    ground: &Ground<'_, 'g, L>,
    state: usize,
    name: &NonterminalString,
    conflict: ConflictIndex,
    table: &mut LaneTable<'g>,
) -> Result<(), AllocError>
    requires ground { IsGround ground.now.grammar.now ground.now.first_sets.now ground.now.state_graph.now ground.now.states.now }
    requires conflict { conflict.index < table.old.conflicts }
    ensures { OnOk result (AddsEnd ground.now.grammar.now ground.now.start.0 state name.now.0 conflict.index table.old table.new) }
{
    if *name != ground.start {
        return Ok(());
    }
    let end = TokenSet::eof(ground.alloc, &ground.grammar.terminals)?;
    table.add_lookahead(StateIndex(state), conflict, &end)
}

/// Asks an item of the state what can come behind the nonterminal, if its dot stands before that.
fn ask_item<'g, L>(
    ground: &Ground<'_, 'g, L>,
    state: usize,
    name: &NonterminalString,
    item: &Item<'g, L>,
    conflict: ConflictIndex,
    visited: &mut IndexSet<Node<'g>>,
    table: &mut LaneTable<'g>,
) -> Result<(), AllocError>
    requires ground { IsGround ground.now.grammar.now ground.now.first_sets.now ground.now.state_graph.now ground.now.states.now }
    requires conflict { conflict.index < table.old.conflicts }
    ensures { OnOk result (AsksItems ground.now.grammar.now state name.now.0 (item.now ∷ []) conflict.index (map node_key visited.old.keys)
        (map node_key visited.new.keys) table.old table.new) }
{
    if !item.can_shift_nonterminal(name) {
        return Ok(());
    }
    let terminals = &ground.grammar.terminals;
    let mut first = ground
        .first_sets
        .first0(ground.alloc, terminals, item.symbol_sets().suffix)?;
    let ends = first.take_eof(terminals);
    table.add_lookahead(StateIndex(state), conflict, &first)?;
    if ends {
        visit(visited, node_of(state, item.production, item.index))
    } else {
        Ok(())
    }
}

/// Asks the items of the state, one after the other.
fn ask_items<'g, L>(
    ground: &Ground<'_, 'g, L>,
    state: usize,
    name: &NonterminalString,
    items: &[Item<'g, L>],
    conflict: ConflictIndex,
    visited: &mut IndexSet<Node<'g>>,
    table: &mut LaneTable<'g>,
) -> Result<(), AllocError>
    requires ground { IsGround ground.now.grammar.now ground.now.first_sets.now ground.now.state_graph.now ground.now.states.now }
    requires conflict { conflict.index < table.old.conflicts }
    ensures { OnOk result (AsksItems ground.now.grammar.now state name.now.0 items.now conflict.index (map node_key visited.old.keys)
        (map node_key visited.new.keys) table.old table.new) }
{
    for item in items {
        ask_item(ground, state, name, item, conflict, visited, table)?;
    }
    Ok(())
}

/// The items of the state with this number; none where it isn't there.
fn items_of<'s, 'g, L>(states: &'s [State<'g, L>], number: usize) -> &'s [Item<'g, L>]
    ensures { (item : _) → Contains result.now item ↔ IsItemIn states.now number item }
{
    if number < states.len() {
        states[number].items.vec.as_slice()
    } else {
        &[]
    }
}

/// Takes the steps from the items of a nonterminal in the state that have the dot in front.
fn step_up<'g, L>(
    ground: &Ground<'_, 'g, L>,
    state: usize,
    name: &NonterminalString,
    conflict: ConflictIndex,
    visited: &mut IndexSet<Node<'g>>,
    table: &mut LaneTable<'g>,
) -> Result<(), AllocError>
    requires ground { IsGround ground.now.grammar.now ground.now.first_sets.now ground.now.state_graph.now ground.now.states.now }
    requires conflict { conflict.index < table.old.conflicts }
    ensures { OnOk result ((look : L → LookaheadSet) → TakesSteps look ground.now.grammar.now ground.now.start.0 ground.now.states.now
        (front_node state name.now.0) conflict.index (map node_key visited.old.keys) (map node_key visited.new.keys) table.old table.new) }
{
    add_end(ground, state, name, conflict, table)?;
    let items = items_of(ground.states, state);
    ask_items(ground, state, name, items, conflict, visited, table)
}

/// Takes the steps from a node.
fn take_steps<'g, L>(
    ground: &Ground<'_, 'g, L>,
    node: Node<'g>,
    conflict: ConflictIndex,
    visited: &mut IndexSet<Node<'g>>,
    table: &mut LaneTable<'g>,
) -> Result<(), AllocError>
    requires ground { IsGround ground.now.grammar.now ground.now.first_sets.now ground.now.state_graph.now ground.now.states.now }
    requires conflict { conflict.index < table.old.conflicts }
    ensures { OnOk result ((look : L → LookaheadSet) → TakesSteps look ground.now.grammar.now ground.now.start.0 ground.now.states.now
        (node_key node.entry) conflict.index (map node_key visited.old.keys) (map node_key visited.new.keys) table.old table.new) }
{
    match node {
        Node::Moved(state, rule, place) => step_back(ground, state, rule, place, visited, table),
        Node::Front(state, name) => step_up(ground, state, name, conflict, visited, table),
    }
}

/// The node that was visited as this one, counted from 0, if so many were.
fn visited_at<'g>(visited: &IndexSet<Node<'g>>, number: usize) -> Option<Node<'g>>
    ensures node { result ≡ slice_get visited.now.keys number }
    ensures small { IfSome result (λ _. number < 2 ^ 63) }
{
    if number < visited.len() {
        Some(visited.as_slice()[number])
    } else {
        None
    }
}

/// Takes the steps from all nodes that are visited, one after the other.
fn visit_nodes<'g, L>(
    ground: &Ground<'_, 'g, L>,
    conflict: ConflictIndex,
    visited: &mut IndexSet<Node<'g>>,
    table: &mut LaneTable<'g>,
) -> Result<(), AllocError>
    requires ground { IsGround ground.now.grammar.now ground.now.first_sets.now ground.now.state_graph.now ground.now.states.now }
    requires conflict { conflict.index < table.old.conflicts }
    ensures { OnOk result ((look : L → LookaheadSet) (n : ℕ) (p : theory.Production) (before : TableView) →
        IsTracing look ground.now.grammar.now ground.now.start.0 ground.now.states.now n p conflict.index (map node_key visited.old.keys) 0
        before table.old →
        TracesMove look ground.now.grammar.now ground.now.start.0 ground.now.states.now n (reduce p) conflict.index before table.new) }
{
    let mut number = 0;
    while let Some(node) = visited_at(visited, number) {
        take_steps(ground, node, conflict, visited, table)?;
        number += 1;
    }
    Ok(())
}

/// Visits the lane of the production's finished item in the state, where no node was visited.
fn visit_from<'g, L>(
    ground: &Ground<'_, 'g, L>,
    state: usize,
    production: &'g Production,
    conflict: ConflictIndex,
    visited: &mut IndexSet<Node<'g>>,
    table: &mut LaneTable<'g>,
) -> Result<(), AllocError>
    requires ground { IsGround ground.now.grammar.now ground.now.first_sets.now ground.now.state_graph.now ground.now.states.now }
    requires conflict { conflict.index < table.old.conflicts }
    requires empty { visited.old.keys ≡ [] }
    ensures { OnOk result ((look : L → LookaheadSet) (before : TableView) →
        TableGains (AddsTokens state []) (EntersAt state) NotesNothing conflict.index before table.old →
        TracesMove look ground.now.grammar.now ground.now.start.0 ground.now.states.now state (reduce (production_view production.entry.now))
        conflict.index before table.new) }
{
    visit(
        visited,
        node_of(state, production, production.symbols.len()),
    )?;
    visit_nodes(ground, conflict, visited, table)
}

/// Visits the lane of the production's finished item in the state, in which the table has the entry of the state itself.
fn visit_lane<'g, L>(
    ground: &Ground<'_, 'g, L>,
    state: usize,
    production: &'g Production,
    conflict: ConflictIndex,
    table: &mut LaneTable<'g>,
) -> Result<(), AllocError>
    requires ground { IsGround ground.now.grammar.now ground.now.first_sets.now ground.now.state_graph.now ground.now.states.now }
    requires conflict { conflict.index < table.old.conflicts }
    ensures { OnOk result ((look : L → LookaheadSet) (before : TableView) →
        TableGains (AddsTokens state []) (EntersAt state) NotesNothing conflict.index before table.old →
        TracesMove look ground.now.grammar.now ground.now.start.0 ground.now.states.now state (reduce (production_view production.entry.now))
        conflict.index before table.new) }
{
    let mut visited = IndexSet::new(ground.alloc);
    visit_from(ground, state, production, conflict, &mut visited, table)
}

/// Traces the reduction by the production in the state.
fn trace_reduction<'g, L>(
    ground: &Ground<'_, 'g, L>,
    state: StateIndex,
    production: &'g Production,
    conflict: ConflictIndex,
    table: &mut LaneTable<'g>,
) -> Result<(), AllocError>
    requires ground { IsGround ground.now.grammar.now ground.now.first_sets.now ground.now.state_graph.now ground.now.states.now }
    requires conflict { conflict.index < table.old.conflicts }
    ensures { OnOk result ((look : L → LookaheadSet) →
        TracesMove look ground.now.grammar.now ground.now.start.0 ground.now.states.now state.0 (reduce (production_view production.entry.now))
        conflict.index table.old table.new) }
{
    table.add_lookahead(state, conflict, &TokenSet::empty(ground.alloc))?;
    visit_lane(ground, state.0, production, conflict, table)
}

/// Traces the shift of the terminal in the state.
fn trace_shift<'g, L>(
    ground: &Ground<'_, 'g, L>,
    state: StateIndex,
    terminal: &TerminalString,
    conflict: ConflictIndex,
    table: &mut LaneTable<'g>,
) -> Result<(), AllocError>
    requires ground { IsGround ground.now.grammar.now ground.now.first_sets.now ground.now.state_graph.now ground.now.states.now }
    requires conflict { conflict.index < table.old.conflicts }
    ensures { OnOk result ((look : L → LookaheadSet) →
        TracesMove look ground.now.grammar.now ground.now.start.0 ground.now.states.now state.0 (shift (terminal_view terminal.now))
        conflict.index table.old table.new) }
{
    let token = Token::Terminal(terminal.try_clone()?);
    let set = TokenSet::from_token(ground.alloc, &token, &ground.grammar.terminals)?;
    table.add_lookahead(state, conflict, &set)
}

/// Traces the action in the state.
fn trace_action<'g, L>(
    ground: &Ground<'_, 'g, L>,
    state: StateIndex,
    conflict: ConflictIndex,
    action: &Action<'g>,
    table: &mut LaneTable<'g>,
) -> Result<(), AllocError>
    requires ground { IsGround ground.now.grammar.now ground.now.first_sets.now ground.now.state_graph.now ground.now.states.now }
    requires conflict { conflict.index < table.old.conflicts }
    ensures { OnOk result ((look : L → LookaheadSet) →
        TracesMove look ground.now.grammar.now ground.now.start.0 ground.now.states.now state.0 (action_move action.now) conflict.index
        table.old table.new) }
{
    match action {
        Action::Shift(terminal, _) => trace_shift(ground, state, terminal, conflict, table),
        Action::Reduce(production) => trace_reduction(ground, state, production, conflict, table),
    }
}

impl<'trace, 'g, L> LaneTracer<'trace, 'g, L> {
    /// A tracer over the states of a grammar for a start, into an empty table of so many columns. The first sets are those of the
    /// grammar, and the graph is that of the states.
    pub fn new(
        alloc: Global,
        grammar: &'g Grammar,
        start_nt: NonterminalString,
        states: &'trace [State<'g, L>],
        first_sets: &'trace FirstSets,
        state_graph: &'trace StateGraph,
        conflicts: usize,
    ) -> LaneTracer<'trace, 'g, L>
        requires firsts { AreFirstSetsOf grammar.now first_sets.now }
        requires graph { state_graph.now ≡ edges_of states.now }
        ensures { result ≡ record {
          grammar = grammar.now;
          start = start_nt.0;
          states = states.now;
          table = table_view conflicts [] [];
          refused = false;
        } }
    {
        LaneTracer {
            ground: Ground {
                alloc,
                grammar,
                start: start_nt,
                states,
                first_sets,
                state_graph,
            },
            table: LaneTable::new(alloc, grammar, conflicts),
            refused: false,
        }
    }

    /// Traces the action in the state, and puts what comes of it into the column, one of those that there are; after a refusal any column.
    ///
    /// # Errors
    ///
    /// Memory is refused, now or in an earlier call.
    pub fn start_trace(
        &mut self,
        state: StateIndex,
        conflict: ConflictIndex,
        action: Action<'g>,
    ) -> Result<(), AllocError>
        requires { IsFalse self.old.refused → conflict.index < self.old.table.conflicts }
        ensures traced { OnOk result ((look : L → LookaheadSet) →
            TracesMove look self.old.grammar self.old.start self.old.states state.0 (action_move action.entry) conflict.index self.old.table
            self.new.table) }
        ensures given { IsTrue self.old.refused → IsErr result }
        ensures kept { IsErr result ↔ IsTrue self.new.refused }
        ensures rest { self.new ≡ record self.old { table = self.new.table; refused = self.new.refused } }
    {
        if self.refused {
            return Err(AllocError);
        }
        match trace_action(&self.ground, state, conflict, &action, &mut self.table) {
            Ok(()) => Ok(()),
            Err(fault) => {
                self.refused = true;
                Err(fault)
            }
        }
    }

    /// The table with all that was traced.
    pub fn into_table(self) -> LaneTable<'g>
        ensures { result ≡ self.entry.table }
    {
        let LaneTracer {
            ground: _ground,
            table,
            refused: _,
        } = self;
        table
    }
}
