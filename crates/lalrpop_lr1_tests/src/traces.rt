//! Traces: how states came to have items, and the examples that their paths tell.

ghost use Rattle.std.specs.Prelude.{Contains};
ghost use Rattle.lalrpop_lane_report.specs.TraceNodes.{graph_node_of};
ghost use Rattle.lalrpop_lr1_first.specs.NumberedGrammars.{HasItsTerminals};

use crate::check::{check, is_shown, text_is};
use crate::grammars::{grammar_of, name_of, production_at, token_of};
use lalrpop_grammar_repr::{Grammar, Symbol, TerminalSet};
use lalrpop_lane_report::{
    Example, ExampleSymbol, FilteredPathEnumerator, PathEnumerator, Reduction, TraceGraph, Tracer,
};
use lalrpop_lr1_build::build_lr1_states_canonical;
use lalrpop_lr1_core::{Item, Lr0Item, Lr1Item, Lr1State, StateIndex};
use lalrpop_lr1_first::FirstSets;
use lalrpop_sets::TokenSet;
use std::alloc::Global;
use std::process::Abort;

/// `__S = S; S = "a" B; B = "b"`
const BEHIND: &str = "__S: S\nS: \"a\" B\nB: \"b\"\n";

/// Its only example.
const STACKED: &str = "\"a\" (*) \"b\" | B 1..2 S 0..2 ; ";

/// `__S = S; S = T "e"; T = "a" B D; D = nothing or "d"; B = "b"`
const EMPTY_REST: &str = "__S: S\nS: T \"e\"\nT: \"a\" B D\nD:\nD: \"d\"\nB: \"b\"\n";

/// `__S = T; T = "a" S; S = S "x" or "b"`
const RECURSIVE: &str = "__S: T\nT: \"a\" S\nS: S \"x\"\nS: \"b\"\n";

/// `__S = S; S = "a" B or "a" B "c"; B = "b"`
const TWO_ASK: &str = "__S: S\nS: \"a\" B\nS: \"a\" B \"c\"\nB: \"b\"\n";

/// `__S = S; S = "a" B "c"; B = nothing`
const NOTHING: &str = "__S: S\nS: \"a\" B \"c\"\nB:\n";

/// The canonical states.
fn states_of<'g>(rt: &impl Abort, alloc: Global, grammar: &'g Grammar) -> Vec<Lr1State<'g>>
    requires { HasItsTerminals grammar.now }
{
    build_lr1_states_canonical(alloc, grammar, name_of(rt, alloc, "__S")).expect(rt, "states")
}

/// Adds the symbol.
fn push_symbol(rt: &impl Abort, symbol: &ExampleSymbol, text: &mut String) {
    match symbol {
        ExampleSymbol::Symbol(Symbol::Nonterminal(name)) => {
            write!(text, "{name} ").expect(rt, "memory");
        }
        ExampleSymbol::Symbol(Symbol::Terminal(terminal)) => {
            write!(text, "{terminal} ").expect(rt, "memory");
        }
        ExampleSymbol::Epsilon => text.push_str("epsilon ").expect(rt, "memory"),
    }
}

/// Adds the symbols.
fn push_symbols(rt: &impl Abort, symbols: &[ExampleSymbol], text: &mut String) {
    for symbol in symbols {
        push_symbol(rt, symbol, text);
    }
}

/// Adds the reductions.
fn push_reductions(rt: &impl Abort, reductions: &[Reduction], text: &mut String) {
    for reduction in reductions {
        let name = &reduction.nonterminal;
        let start = reduction.start;
        let end = reduction.end;
        write!(text, "{name} {start}..{end} ").expect(rt, "memory");
    }
}

/// Adds the example: its symbols with the cursor between them, then its reductions.
fn push_example(rt: &impl Abort, example: &Example, text: &mut String) {
    let symbols = example.symbols.as_slice();
    check(rt, example.cursor <= symbols.len());
    let (stack, rest) = symbols.split_at(example.cursor);
    push_symbols(rt, stack, text);
    text.push_str("(*) ").expect(rt, "memory");
    push_symbols(rt, rest, text);
    text.push_str("| ").expect(rt, "memory");
    push_reductions(rt, example.reductions.as_slice(), text);
    text.push_str("; ").expect(rt, "memory");
}

/// The examples of all paths, one after the other.
fn texts_of(rt: &impl Abort, alloc: Global, paths: &mut PathEnumerator<'_, '_>) -> String {
    let mut text = String::new(alloc);
    while let Some(example) = paths.next() {
        push_example(rt, &example.expect(rt, "memory"), &mut text);
    }
    text
}

/// The graph of the shift's trace of the item in the state.
fn shift_graph<'g>(
    rt: &impl Abort,
    alloc: Global,
    grammar: &'g Grammar,
    state: usize,
    item: Lr0Item<'g>,
) -> TraceGraph<'g>
    requires { HasItsTerminals grammar.now }
    ensures { Contains result.nodes (graph_node_of item.entry) }
{
    let states = states_of(rt, alloc, grammar);
    let firsts = FirstSets::new(alloc, grammar).expect(rt, "memory");
    let terminals = &grammar.terminals;
    let tracer = Tracer::new(alloc, &firsts, states.as_slice(), terminals).expect(rt, "memory");
    match tracer.backtrace_shift(StateIndex(state), item) {
        Ok(graph) => graph,
        Err(_) => panic!(rt; "memory"),
    }
}

/// The graph of the reduction's trace of the item in the state.
fn reduction_graph<'g>(
    rt: &impl Abort,
    alloc: Global,
    grammar: &'g Grammar,
    state: usize,
    item: Lr0Item<'g>,
) -> TraceGraph<'g>
    requires { HasItsTerminals grammar.now }
    ensures { Contains result.nodes (graph_node_of item.entry) }
{
    let states = states_of(rt, alloc, grammar);
    let firsts = FirstSets::new(alloc, grammar).expect(rt, "memory");
    let terminals = &grammar.terminals;
    let tracer = Tracer::new(alloc, &firsts, states.as_slice(), terminals).expect(rt, "memory");
    match tracer.backtrace_reduce(StateIndex(state), item) {
        Ok(graph) => graph,
        Err(_) => panic!(rt; "memory"),
    }
}

/// That the paths from the item tell these examples.
fn tells<'g>(
    rt: &impl Abort,
    alloc: Global,
    graph: &TraceGraph<'g>,
    item: Lr0Item<'g>,
    wanted: &str,
)
    requires { Contains graph.now.nodes (graph_node_of item) }
{
    let mut paths = graph.lr0_examples(alloc, item).expect(rt, "memory");
    check(rt, text_is(texts_of(rt, alloc, &mut paths), wanted));
    check(rt, !paths.found_trace());
}

/// That the shift's trace of the item with the dot in front, of the production at that place, in state 2 tells these examples.
fn shift_tells(
    rt: &impl Abort,
    alloc: Global,
    lines: &str,
    name: &str,
    place: usize,
    wanted: &str,
) {
    let grammar = grammar_of(rt, alloc, lines);
    let item = Item::lr0(production_at(rt, alloc, &grammar, name, place), 0);
    let graph = shift_graph(rt, alloc, &grammar, 2, item);
    tells(rt, alloc, &graph, item, wanted);
}

/// That the reduction's trace of the item of the first production of `B`, with this dot, in the state tells these examples.
fn reduction_tells(
    rt: &impl Abort,
    alloc: Global,
    lines: &str,
    state: usize,
    dot: usize,
    wanted: &str,
) {
    let grammar = grammar_of(rt, alloc, lines);
    let item = Item::lr0(production_at(rt, alloc, &grammar, "B", 0), dot);
    let graph = reduction_graph(rt, alloc, &grammar, state, item);
    tells(rt, alloc, &graph, item, wanted);
}

/// A shift's trace, a reduction's, one behind a rest that may be empty, one through a recursion, and two items that ask for one nonterminal,
/// of which the one that came later is told first.
#[test]
fn examples_are_told(rt: HostRuntime) {
    let alloc = rt.alloc();
    shift_tells(&rt, alloc, BEHIND, "B", 0, STACKED);
    let recursive = "\"a\" (*) \"b\" | S 1..2 T 0..2 ; ";
    shift_tells(&rt, alloc, RECURSIVE, "S", 1, recursive);
    let two = "\"a\" (*) \"b\" \"c\" | B 1..2 S 0..3 ; \"a\" (*) \"b\" | B 1..2 S 0..2 ; ";
    shift_tells(&rt, alloc, TWO_ASK, "B", 0, two);
    let rest = "\"a\" \"b\" (*) D \"e\" | B 1..2 T 0..3 S 0..4 ; ";
    reduction_tells(&rt, alloc, EMPTY_REST, 6, 1, rest);
    let nothing = "\"a\" (*) epsilon \"c\" | B 1..2 S 0..3 ; ";
    reduction_tells(&rt, alloc, NOTHING, 2, 0, nothing);
}

/// That the paths stand at one that tells this example, behind which `b` can come, and there is no other.
fn tells_what_comes_next(
    rt: &impl Abort,
    alloc: Global,
    paths: &mut PathEnumerator<'_, '_>,
    firsts: &FirstSets,
    terminals: &TerminalSet,
) {
    check(rt, paths.found_trace());
    let mut text = String::new(alloc);
    push_example(rt, &paths.example(alloc).expect(rt, "memory"), &mut text);
    check(rt, text_is(text, STACKED));
    let next = paths.first0(alloc, firsts, terminals).expect(rt, "memory");
    check(rt, is_shown(rt, alloc, &next, terminals, "[\"b\"]"));
    check(rt, !paths.advance().expect(rt, "memory"));
}

/// The examples of all paths that fit, one after the other.
fn push_fitting(rt: &impl Abort, fitting: &mut FilteredPathEnumerator<'_, '_>, text: &mut String) {
    while let Some(example) = fitting.next() {
        push_example(rt, &example.expect(rt, "memory"), text);
    }
}

/// That the paths from the item that fit its lookahead tell these examples.
fn fits<'g>(
    rt: &impl Abort,
    alloc: Global,
    graph: &TraceGraph<'g>,
    item: &Lr1Item<'g>,
    firsts: &FirstSets,
    terminals: &TerminalSet,
    wanted: &str,
)
    requires { Contains graph.now.nodes (graph_node_of item.now) }
{
    let mut text = String::new(alloc);
    let mut fitting = graph
        .lr1_examples(alloc, firsts, terminals, item)
        .expect(rt, "memory");
    push_fitting(rt, &mut fitting, &mut text);
    check(rt, text_is(text, wanted));
}

/// What can come next on the path from the item, and which lookaheads fit: `b` alone.
fn lookaheads_fit<'g>(
    rt: &impl Abort,
    alloc: Global,
    graph: &TraceGraph<'g>,
    item: Lr0Item<'g>,
    firsts: &FirstSets,
    terminals: &TerminalSet,
)
    requires { Contains graph.now.nodes (graph_node_of item) }
{
    let mut paths = graph.lr0_examples(alloc, item).expect(rt, "memory");
    tells_what_comes_next(rt, alloc, &mut paths, firsts, terminals);
    let b = TokenSet::from_token(alloc, &token_of(rt, alloc, "b"), terminals).expect(rt, "memory");
    let before_b = item.with_lookahead(b);
    fits(rt, alloc, graph, &before_b, firsts, terminals, STACKED);
    let end = TokenSet::eof(alloc, terminals).expect(rt, "memory");
    let before_end = item.with_lookahead(end);
    fits(rt, alloc, graph, &before_end, firsts, terminals, "");
}

#[test]
fn examples_are_filtered(rt: HostRuntime) {
    let alloc = rt.alloc();
    let grammar = grammar_of(&rt, alloc, BEHIND);
    let item = Item::lr0(production_at(&rt, alloc, &grammar, "B", 0), 0);
    let graph = shift_graph(&rt, alloc, &grammar, 2, item);
    let firsts = FirstSets::new(alloc, &grammar).expect(&rt, "memory");
    lookaheads_fit(&rt, alloc, &graph, item, &firsts, &grammar.terminals);
}

/// That an edge brings both its nodes, or where memory is refused none: the node that comes then has the next place.
fn edge_brings_nodes<'g>(
    rt: &impl Abort,
    alloc: Global,
    graph: &mut TraceGraph<'g>,
    item: Lr0Item<'g>,
) {
    let added = graph.add_edge(name_of(rt, alloc, "B"), item, item.symbol_sets());
    let place = graph.add_node(name_of(rt, alloc, "S")).expect(rt, "memory");
    let count = if added.is_ok() { 2 } else { 0 };
    check(rt, place == count);
    let again = graph.add_node(name_of(rt, alloc, "S")).expect(rt, "memory");
    check(rt, again == place);
}

/// Run with each allocation refused in turn (`rt try --test --fail-alloc N`), this sees that a refused edge brings no node.
#[test]
fn nodes_are_numbered_as_they_come(rt: HostRuntime) {
    let alloc = rt.alloc();
    let grammar = grammar_of(&rt, alloc, BEHIND);
    let item = Item::lr0(production_at(&rt, alloc, &grammar, "B", 0), 0);
    let mut graph = TraceGraph::new(alloc);
    edge_brings_nodes(&rt, alloc, &mut graph, item);
}

/// Whether the enumerator is at its end behind a refusal, if there is one.
fn ends_after_refusal(paths: &mut PathEnumerator<'_, '_>) -> bool {
    while let Some(example) = paths.next() {
        if example.is_err() {
            return paths.next().is_none() & !paths.found_trace();
        }
    }
    true
}

/// Whether the enumerator, where it goes on, tells whether there is a path, and is at its end where memory is refused.
fn goes_on_or_ends(paths: &mut PathEnumerator<'_, '_>) -> bool {
    let more = paths.advance();
    paths.found_trace() == (more == Ok(true))
}

/// That after a refusal none of the paths from the item is left.
fn none_is_left<'g>(rt: &impl Abort, alloc: Global, graph: &TraceGraph<'g>, item: Lr0Item<'g>)
    requires { Contains graph.now.nodes (graph_node_of item) }
{
    if let Ok(mut paths) = graph.lr0_examples(alloc, item) {
        check(rt, goes_on_or_ends(&mut paths));
        check(rt, ends_after_refusal(&mut paths));
    }
}

/// Run with each allocation refused in turn (`rt try --test --fail-alloc N`), this sees that no example comes behind a refusal.
#[test]
fn refusals_end_it(rt: HostRuntime) {
    let alloc = rt.alloc();
    let grammar = grammar_of(&rt, alloc, TWO_ASK);
    let item = Item::lr0(production_at(&rt, alloc, &grammar, "B", 0), 0);
    let graph = shift_graph(&rt, alloc, &grammar, 2, item);
    none_is_left(&rt, alloc, &graph, item);
}
