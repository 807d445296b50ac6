//! The paths of a graph of traces that fit a lookahead, one after the other.

ghost use Rattle.std.specs.Prelude.{◌≡◌, ◌↔◌, ◌∷◌, ◌<◌, ◌≤◌, ℕ, [], Contains, IfOk, IsTrue, List, OnErr, OnOk, Some, length, slice_get};
ghost use Rattle.lalrpop_grammar_repr.specs.declared.grammar.Grammar.{Grammar};
ghost use Rattle.lalrpop_lr1_first.specs.FirstSetsOf.{AreFirstSetsOf};
ghost use Rattle.lalrpop_lane_report.specs.Enumerators.{TracePath};
ghost use Rattle.lalrpop_lane_report.specs.FittingPaths.{FitsPath, HasFitInFront, SkipsUnfit};
ghost use Rattle.lalrpop_lane_report.specs.Paths.{AreBackwardPaths};
ghost use Rattle.lalrpop_lane_report.specs.TraceGraphs.{path_graph};
ghost use Rattle.lalrpop_lane_report.specs.TraceNodes.{graph_node_of};

use crate::traces::example::Example;
use crate::traces::path_enumerator::PathEnumerator;
use crate::traces::trace_graph::TraceGraph;
use lalrpop_grammar_repr::TerminalSet;
use lalrpop_lr1_core::Lr1Item;
use lalrpop_lr1_first::FirstSets;
use lalrpop_sets::TokenSet;
use std::alloc::{AllocError, Global};
use std::marker::Model;

/// Goes through the paths behind which one of the tokens of a lookahead can come next.
#[derive(Drop)]
pub struct FilteredPathEnumerator<'graph, 'g> {
    alloc: Global,
    paths: PathEnumerator<'graph, 'g>,
    first_sets: &'graph FirstSets,
    terminals: &'graph TerminalSet,
    lookahead: TokenSet,
}

impl<'graph, 'g> Model for FilteredPathEnumerator<'graph, 'g> {
    ghost use Rattle.lalrpop_lane_report.specs.FittingPaths.{FilterView};

    ghost Value = { FilterView };

    ghost view = { λ it. record {
      paths = it.paths;
      firsts = it.first_sets.now;
      terminals = it.terminals.now;
      lookahead = it.lookahead;
    } };
}

/// Whether one of the tokens can come next on the path at which the enumerator stands.
fn fits(
    alloc: Global,
    paths: &PathEnumerator<'_, '_>,
    first_sets: &FirstSets,
    terminals: &TerminalSet,
    lookahead: &TokenSet,
) -> Result<bool, AllocError>
    requires { 0 < length paths.now.left }
    ensures { IfOk result (λ fits. (p : TracePath) (others : List TracePath) → paths.now.left ≡ p ∷ others → (g : Grammar) →
        AreFirstSetsOf g first_sets.now → terminals.now ≡ g.terminals → IsTrue fits ↔ FitsPath g lookahead.now p) }
{
    let first = paths.first0(alloc, first_sets, terminals)?;
    Ok(first.is_intersecting(lookahead))
}

impl<'g> TraceGraph<'g> {
    /// The paths from an item, one of the nodes, behind which a token of its lookahead can come next. The first sets are those of a
    /// grammar, and the terminals its own.
    pub fn lr1_examples<'graph>(
        &'graph self,
        alloc: Global,
        first_sets: &'graph FirstSets,
        terminals: &'graph TerminalSet,
        item: &Lr1Item<'g>,
    ) -> Result<FilteredPathEnumerator<'graph, 'g>, AllocError>
        requires { Contains self.now.nodes (graph_node_of item.now) }
        ensures graph { IfOk result (λ paths. paths.paths.graph ≡ self.now) }
        ensures paths { IfOk result (λ paths. (n : ℕ) → slice_get self.now.nodes n ≡ Some (graph_node_of item.now) →
            AreBackwardPaths (path_graph self.now) n paths.paths.left) }
        ensures firsts { IfOk result (λ paths. paths.firsts ≡ first_sets.now) }
        ensures terminals { IfOk result (λ paths. paths.terminals ≡ terminals.now) }
        ensures lookahead { IfOk result (λ paths. paths.lookahead ≡ item.now.lookahead) }
    {
        let lookahead = item.lookahead.try_clone()?;
        let paths = self.lr0_examples(alloc, item.to_lr0())?;
        Ok(FilteredPathEnumerator {
            alloc,
            paths,
            first_sets,
            terminals,
            lookahead,
        })
    }
}

/// The examples of the paths that fit, one after the other. Where memory is refused, that comes in place of one, and then no more.
impl<'graph, 'g> Iterator for FilteredPathEnumerator<'graph, 'g> {
    ghost use Rattle.std.specs.Iterator.{at_most};
    ghost use Rattle.std.specs.Prelude.{length};
    ghost use Rattle.lalrpop_lane_report.specs.FittingPaths.{GivesFitting};

    type Item = Result<Example, AllocError>;

    ghost next_gives = { GivesFitting };

    ghost remaining = { λ it. at_most (length it.paths.left) };

    fn next(&mut self) -> Option<Result<Example, AllocError>> {
        match skip_unfit(
            self.alloc,
            &mut self.paths,
            self.first_sets,
            self.terminals,
            &self.lookahead,
        ) {
            Ok(()) => self.paths.next(),
            Err(fault) => Some(Err(fault)),
        }
    }
}

/// Goes on to the first path that fits, or to the end. Where memory is refused, no path is left.
fn skip_unfit(
    alloc: Global,
    paths: &mut PathEnumerator<'_, '_>,
    first_sets: &FirstSets,
    terminals: &TerminalSet,
    lookahead: &TokenSet,
) -> Result<(), AllocError>
    ensures skipped { OnOk result ((g : Grammar) → AreFirstSetsOf g first_sets.now → terminals.now ≡ g.terminals →
        SkipsUnfit g lookahead.now paths.old.left paths.new.left × HasFitInFront g lookahead.now paths.new.left) }
    ensures shorter { OnOk result (length paths.new.left ≤ length paths.old.left) }
    ensures refused { OnErr result ((0 < length paths.old.left) × (paths.new.left ≡ [])) }
    ensures graph { paths.new.graph ≡ paths.old.graph }
{
    while paths.found_trace() {
        match fits(alloc, paths, first_sets, terminals, lookahead) {
            Ok(true) => return Ok(()),
            Ok(false) => {
                paths.advance()?;
            }
            Err(fault) => {
                paths.end();
                return Err(fault);
            }
        }
    }
    Ok(())
}
