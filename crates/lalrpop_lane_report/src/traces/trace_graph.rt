//! Graphs of traces: how states came to have items.

ghost use Rattle.std.specs.Prelude.{◌≡◌, [], IfOk, OnErr, OnOk, length, map, take};
ghost use Rattle.lalrpop_lane_report.specs.EdgeKeys.{ends_hash, same_ends_hash};
ghost use Rattle.lalrpop_lane_report.specs.GraphViews.{graph_view};
ghost use Rattle.lalrpop_lane_report.specs.TraceGraphs.{GainsEdge, AddsNode, PlacesNode};
ghost use Rattle.lalrpop_lane_report.specs.TraceNodes.{label_view, node_view};

use indexmap::IndexSet;
use lalrpop_grammar_symbols::NonterminalString;
use lalrpop_lr1_core::{Item, Lr0Item, SymbolSets};
use std::alloc::{AllocError, Global};
use std::hash::{Hash, Hasher};
use std::marker::Model;

/// A node of a graph of traces.
#[derive(PartialEq, Eq, Hash, Drop)]
pub enum TraceGraphNode<'g> {
    /// A nonterminal that is asked for.
    Nonterminal(NonterminalString),
    /// An item: traces begin and end at one.
    Item(Lr0Item<'g>),
}

/// An edge of a graph of traces, from a node to one that it leads to.
#[derive(Clone, Copy, PartialEq, Eq)]
pub struct TraceGraphEdge<'g> {
    /// The place of the node from which it leads.
    pub from: usize,
    /// The place of the node to which it leads.
    pub to: usize,
    /// What is shifted before the second node's nonterminal, that nonterminal, and what is shifted behind it.
    pub labels: SymbolSets<'g>,
}

/// How it came that a state has an item: a graph of items, which traces begin and end at, and of nonterminals between them.
///
/// An edge to a nonterminal leads from an item that asks for it, or from the nonterminal of that item where the trace goes on. Nodes and
/// edges are numbered as they came.
#[derive(Drop)]
pub struct TraceGraph<'g> {
    pub(crate) nodes: IndexSet<TraceGraphNode<'g>>,
    pub(crate) edges: IndexSet<TraceGraphEdge<'g>>,
}

// An edge is hashed by its nodes alone, between which there are few.
impl<'g> Hash for TraceGraphEdge<'g> {
    ghost hash_input = { λ edge. ends_hash edge };

    ghost respects_eq = { λ one other equal. same_ends_hash one other equal };

    fn hash<H: Hasher>(&self, state: &mut H) {
        self.from.hash(state);
        self.to.hash(state);
    }
}

impl<'g> Model for TraceGraph<'g> {
    ghost use Rattle.std.specs.Prelude.{map};
    ghost use Rattle.lalrpop_lane_report.specs.TraceGraphs.{GraphView, IsWhole};
    ghost use Rattle.lalrpop_lane_report.specs.TraceNodes.{trace_edge_view, node_view};

    ghost Value = { GraphView };

    ghost view = { λ it. record { nodes = map node_view it.nodes.keys; edges = map trace_edge_view it.edges.keys } };

    ghost invariant = { λ it. IsWhole (record { nodes = map node_view it.nodes.keys; edges = map trace_edge_view it.edges.keys }) };
}

impl<'g> From<NonterminalString> for TraceGraphNode<'g> {
    ghost use Rattle.lalrpop_lane_report.specs.TraceNodes.{node_view, nonterminal_node};

    ghost from_gives = { λ name node. node_view node ≡ nonterminal_node name };

    fn from(name: NonterminalString) -> TraceGraphNode<'g> {
        TraceGraphNode::Nonterminal(name)
    }
}

impl<'g, L: Drop> From<Item<'g, L>> for TraceGraphNode<'g> {
    ghost use Rattle.lalrpop_lane_report.specs.TraceNodes.{graph_node_of, node_view};

    ghost from_gives = { λ item node. node_view node ≡ graph_node_of item };

    fn from(item: Item<'g, L>) -> TraceGraphNode<'g> {
        TraceGraphNode::Item(item.to_lr0())
    }
}

impl<'item, 'g, L> From<&'item Item<'g, L>> for TraceGraphNode<'g> {
    ghost use Rattle.lalrpop_lane_report.specs.TraceNodes.{graph_node_of, node_view};

    ghost from_gives = { λ item node. node_view node ≡ graph_node_of item.now };

    fn from(item: &'item Item<'g, L>) -> TraceGraphNode<'g> {
        TraceGraphNode::Item(item.to_lr0())
    }
}

/// Adds the node, if it isn't there, and tells its place.
fn put_node<'g>(
    nodes: &mut IndexSet<TraceGraphNode<'g>>,
    node: TraceGraphNode<'g>,
) -> Result<usize, AllocError>
    ensures added { IfOk result (λ k. PlacesNode (map node_view nodes.old.keys) (node_view node.entry) k (map node_view nodes.new.keys)) }
    ensures kept { OnErr result (nodes.new.keys ≡ nodes.old.keys) }
{
    let (place, _) = nodes.insert_full(node)?;
    Ok(place)
}

/// Adds the edge with its nodes, where they aren't there. Where memory is refused, nodes may have come.
fn put_all<'g>(
    nodes: &mut IndexSet<TraceGraphNode<'g>>,
    edges: &mut IndexSet<TraceGraphEdge<'g>>,
    from: TraceGraphNode<'g>,
    to: TraceGraphNode<'g>,
    labels: SymbolSets<'g>,
) -> Result<(), AllocError>
    ensures added { OnOk result (GainsEdge (graph_view nodes.old.keys edges.old.keys) (node_view from.entry) (node_view to.entry)
        (label_view labels.entry) (graph_view nodes.new.keys edges.new.keys)) }
    ensures edges { OnErr result (edges.new.keys ≡ edges.old.keys) }
    ensures nodes { OnErr result (take (length nodes.old.keys) (map node_view nodes.new.keys) ≡ map node_view nodes.old.keys) }
{
    let from = put_node(nodes, from)?;
    let to = put_node(nodes, to)?;
    edges.insert(TraceGraphEdge { from, to, labels })?;
    Ok(())
}

impl<'g> TraceGraph<'g> {
    /// A graph without nodes.
    pub fn new(alloc: Global) -> TraceGraph<'g>
        ensures { result ≡ record { nodes = []; edges = [] } }
    {
        TraceGraph {
            nodes: IndexSet::new(alloc),
            edges: IndexSet::new(alloc),
        }
    }

    /// Adds a node, unless it is there, and tells its place. Where memory is refused, the graph is as before.
    pub fn add_node<T: Into<TraceGraphNode<'g>>>(&mut self, node: T) -> Result<usize, AllocError>
        ensures added { IfOk result (λ k. (x : _) × T.converts node x × AddsNode self.old (node_view x) k self.new) }
        ensures kept { OnErr result (self.new ≡ self.old) }
    {
        let place = put_node(&mut self.nodes, node.into())?;
        Ok(place)
    }

    /// Adds an edge, unless it is there, and its nodes, where they aren't. Where memory is refused, the graph is as before.
    pub fn add_edge<F: Into<TraceGraphNode<'g>>, T: Into<TraceGraphNode<'g>>>(
        &mut self,
        from: F,
        to: T,
        labels: SymbolSets<'g>,
    ) -> Result<(), AllocError>
        ensures added { OnOk result ((x : _) × (y : _) × F.converts from x × T.converts to y
            × GainsEdge self.old (node_view x) (node_view y) (label_view labels.entry) self.new) }
        ensures kept { OnErr result (self.new ≡ self.old) }
    {
        let count = self.nodes.len();
        match put_all(
            &mut self.nodes,
            &mut self.edges,
            from.into(),
            to.into(),
            labels,
        ) {
            Ok(()) => Ok(()),
            Err(fault) => {
                self.nodes.truncate(count);
                Err(fault)
            }
        }
    }
}
