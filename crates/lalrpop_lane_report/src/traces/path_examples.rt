//! What the path tells that an enumerator stands at.

ghost use Rattle.std.specs.Prelude.{◌≡◌, ◌++◌, ◌+◌, ◌≤◌, ◌<◌, ◌^◌, [], IfOk, OnOk, drop, length, map, slice_get};
ghost use Rattle.lalrpop_lane_report.specs.declared.traces.example.ExampleSymbol.TheVariants as shown;
ghost use Rattle.lalrpop_lane_report.specs.Examples.{
  at_cursor,
  example_symbols,
  name_of_node,
  named_labels,
  joined_prefixes,
  reductions_over,
  joined_suffixes,
  symbols_shown,
};
ghost use Rattle.lalrpop_lane_report.specs.PathSteps.{AreStepsWithin, step_labels, step_path};
ghost use Rattle.lalrpop_lane_report.specs.TraceNodes.{node_view};

use crate::traces::example::{Example, ExampleSymbol, Reduction};
use crate::traces::path_enumerator::TakenEdge;
use crate::traces::trace_graph::TraceGraphNode;
use lalrpop_grammar_repr::Symbol;
use lalrpop_grammar_symbols::NonterminalString;
use std::alloc::{AllocError, Global};

/// Adds the symbols.
fn push_symbols(symbols: &[Symbol], out: &mut Vec<ExampleSymbol>) -> Result<(), AllocError>
    ensures { OnOk result (out.new.items ≡ out.old.items ++ map shown.Symbol symbols.now) }
{
    for symbol in symbols {
        out.push(ExampleSymbol::Symbol(symbol.try_clone()?))?;
    }
    Ok(())
}

/// Adds the prefixes of the steps, from the outermost in.
fn push_prefixes(
    steps: &[TakenEdge<'_, '_>],
    out: &mut Vec<ExampleSymbol>,
) -> Result<(), AllocError>
    ensures { OnOk result (out.new.items ≡ out.old.items ++ map shown.Symbol (joined_prefixes (step_labels steps.now))) }
{
    let mut left = steps.len();
    while 0 < left {
        left -= 1;
        let edge = steps[left].edge;
        push_symbols(edge.labels.prefix, out)?;
    }
    Ok(())
}

/// Adds what stands at the cursor of the innermost step: an epsilon, where its production has no symbols.
fn push_cursor(steps: &[TakenEdge<'_, '_>], out: &mut Vec<ExampleSymbol>) -> Result<(), AllocError>
    ensures { OnOk result (out.new.items ≡ out.old.items ++ at_cursor (step_labels steps.now)) }
{
    let Some(innermost) = steps.first() else {
        return Ok(());
    };
    let edge = innermost.edge;
    if let Some(symbol) = edge.labels.cursor {
        out.push(ExampleSymbol::Symbol(symbol.try_clone()?))?;
        return Ok(());
    }
    if edge.labels.prefix.is_empty() {
        out.push(ExampleSymbol::Epsilon)?;
    }
    Ok(())
}

/// Adds the suffixes of the steps, from the innermost out.
fn push_suffixes(
    steps: &[TakenEdge<'_, '_>],
    out: &mut Vec<ExampleSymbol>,
) -> Result<(), AllocError>
    ensures { OnOk result (out.new.items ≡ out.old.items ++ map shown.Symbol (joined_suffixes (step_labels steps.now))) }
{
    for step in steps {
        let edge = step.edge;
        push_symbols(edge.labels.suffix, out)?;
    }
    Ok(())
}

/// The symbols of an example from its cursor on.
pub(crate) fn next_of(alloc: Global, example: &Example) -> Result<Vec<Symbol>, AllocError>
    requires { example.now.cursor ≤ length example.now.symbols.items }
    ensures { IfOk result (λ symbols. symbols.items ≡ symbols_shown (drop example.now.cursor example.now.symbols.items)) }
{
    let mut next = Vec::new(alloc);
    let behind = &example.symbols[example.cursor..];
    for shown in behind {
        if let ExampleSymbol::Symbol(symbol) = shown {
            next.push(symbol.try_clone()?)?;
        }
    }
    Ok(next)
}

/// The nonterminal of the node at a place: itself, or that of its item.
fn name_at<'s>(nodes: &'s [TraceGraphNode<'_>], place: usize) -> &'s NonterminalString
    requires { place < length nodes.now }
    ensures { result.now ≡ name_of_node (slice_get (map node_view nodes.now) place) }
{
    match &nodes[place] {
        TraceGraphNode::Nonterminal(name) => name,
        TraceGraphNode::Item(item) => &item.production.nonterminal,
    }
}

/// Adds the reductions of the steps, where so many symbols stand before the innermost cursor, and so many at it.
fn push_reductions(
    nodes: &[TraceGraphNode<'_>],
    steps: &[TakenEdge<'_, '_>],
    cursor: usize,
    inside: usize,
    out: &mut Vec<Reduction>,
) -> Result<(), AllocError>
    requires cursor { cursor ≡ length (joined_prefixes (step_labels steps.now)) }
    requires room { cursor + inside + length (joined_suffixes (step_labels steps.now)) < 2 ^ 63 }
    requires within { AreStepsWithin (length nodes.now) steps.now }
    ensures { OnOk result (out.new.items ≡ out.old.items ++ reductions_over inside (named_labels (map node_view nodes.now) (step_path steps.now))) }
{
    let mut start = cursor;
    let mut end = cursor + inside;
    for step in steps {
        let edge = step.edge;
        start -= edge.labels.prefix.len();
        end += edge.labels.suffix.len();
        let nonterminal = name_at(nodes, edge.from).try_clone()?;
        out.push(Reduction {
            start,
            end,
            nonterminal,
        })?;
    }
    Ok(())
}

/// Fills in the symbols and the reductions of the steps, and tells how many symbols are before the innermost cursor.
pub(crate) fn fill_example(
    nodes: &[TraceGraphNode<'_>],
    steps: &[TakenEdge<'_, '_>],
    symbols: &mut Vec<ExampleSymbol>,
    reductions: &mut Vec<Reduction>,
) -> Result<usize, AllocError>
    requires within { AreStepsWithin (length nodes.now) steps.now }
    requires symbols { symbols.old.items ≡ [] }
    requires reductions { reductions.old.items ≡ [] }
    ensures symbols { OnOk result (symbols.new.items ≡ example_symbols (step_labels steps.now)) }
    ensures cursor { IfOk result (λ cursor. cursor ≡ length (joined_prefixes (step_labels steps.now))) }
    ensures reductions { OnOk result (reductions.new.items
        ≡ reductions_over (length (at_cursor (step_labels steps.now))) (named_labels (map node_view nodes.now) (step_path steps.now))) }
{
    push_prefixes(steps, symbols)?;
    let cursor = symbols.len();
    push_cursor(steps, symbols)?;
    let inside = symbols.len() - cursor;
    push_suffixes(steps, symbols)?;
    push_reductions(nodes, steps, cursor, inside, reductions)?;
    Ok(cursor)
}
