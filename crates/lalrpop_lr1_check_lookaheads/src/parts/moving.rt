//! How the items of states move along their edges, and back.

ghost use Rattle.std.specs.Prelude.{◌≡◌, ◌↔◌, ◌+◌, ◌<◌, IsTrue, length, map, slice_get};
ghost use Rattle.std.specs.Option.{option_copied};
ghost use Rattle.lalrpop_lr1_core.specs.Dots.{lent_place, symbol_and_place};
ghost use Rattle.lalrpop_lr1_check_lookaheads.specs.ListTests.{HoldsAtEach};
ghost use Rattle.lalrpop_lr1_check_lookaheads.specs.ListedItems.{item_key};
ghost use Rattle.lalrpop_lr1_check_lookaheads.specs.Moves.{ComesBackFrom, ComesBackOver, DoesComeBack, DoesMoveOn, DoesMoveOver};
ghost use Rattle.lalrpop_lr1_check_lookaheads.specs.Moves.{KernelComesBack};
ghost use Rattle.lalrpop_lr1_check_lookaheads.specs.SeenEdges.{noted_edge};

use crate::parts::edges::{StateEdge, is_symbol, target_of};
use crate::parts::listed::{ListedItem, has_item};
use indexmap::IndexSet;
use lalrpop_grammar_repr::{Production, Symbol};
use lalrpop_lr1_core::{Lr1Item, Lr1State};

/// The symbol of the production at the dot.
fn symbol_at<'p>(production: &'p Production, dot: usize) -> Option<&'p Symbol>
    ensures { option_copied result ≡ slice_get production.now.symbols dot }
{
    production.symbols.as_slice().get(dot)
}

/// The symbol of the production at the dot, with the place behind it.
fn symbol_and_next(production: &Production, dot: usize) -> Option<(&Symbol, usize)>
    ensures { lent_place result ≡ symbol_and_place production.now.symbols dot }
{
    let symbols = production.symbols.as_slice();
    if dot < symbols.len() {
        Some((&symbols[dot], dot + 1))
    } else {
        None
    }
}

/// Whether the item moves over the symbol along an edge to a state that has it so.
fn moves_over<'g>(
    listed: &IndexSet<ListedItem<'g>>,
    state: &Lr1State<'g>,
    item: &Lr1Item<'g>,
    dot: usize,
    symbol: &Symbol,
) -> bool
    ensures { IsTrue result ↔ DoesMoveOver (map item_key listed.now.keys) state.now item.now.production.now dot symbol.now }
{
    match target_of(state, symbol) {
        None => false,
        Some(target) => has_item(listed, target, item.production, dot),
    }
}

/// Whether the item, where a symbol stands behind its dot, moves over it along an edge to a state that has it so.
fn item_moves_on<'g>(
    listed: &IndexSet<ListedItem<'g>>,
    state: &Lr1State<'g>,
    item: &Lr1Item<'g>,
) -> bool
    ensures { IsTrue result ↔ DoesMoveOn (map item_key listed.now.keys) state.now item.now }
{
    match symbol_and_next(item.production, item.index) {
        None => true,
        Some((symbol, next)) => moves_over(listed, state, item, next, symbol),
    }
}

/// Whether each of the items of the state does.
fn items_move_on<'g>(
    listed: &IndexSet<ListedItem<'g>>,
    state: &Lr1State<'g>,
    items: &[Lr1Item<'g>],
) -> bool
    ensures { IsTrue result ↔ HoldsAtEach (λ _ item. DoesMoveOn (map item_key listed.now.keys) state.now item) items.now }
{
    for item in items {
        if !item_moves_on(listed, state, item) {
            return false;
        }
    }
    true
}

/// Whether each item of the states with a symbol behind its dot moves over it along an edge to a state that has it so.
pub(crate) fn states_move_on<'g>(listed: &IndexSet<ListedItem<'g>>, states: &[Lr1State<'g>]) -> bool
    ensures { IsTrue result ↔ HoldsAtEach (λ _ state. HoldsAtEach (λ _ item. DoesMoveOn (map item_key listed.now.keys) state item)
        state.items.vec) states.now }
{
    for state in states {
        if !items_move_on(listed, state, state.items.vec.as_slice()) {
            return false;
        }
    }
    true
}

/// Whether the symbol is the edge's, and the edge's source has the item with its dot before it.
fn comes_back_over<'g>(
    listed: &IndexSet<ListedItem<'g>>,
    edge: &StateEdge<'_>,
    production: &'g Production,
    dot: usize,
    symbol: &Symbol,
) -> bool
    ensures { IsTrue result ↔ ComesBackOver (map item_key listed.now.keys) (noted_edge edge.now) production.now dot symbol.now }
{
    if is_symbol(symbol, edge.symbol) {
        has_item(listed, edge.source, production, dot)
    } else {
        false
    }
}

/// Whether the item comes back to this dot along the edge.
fn comes_back_from<'g>(
    listed: &IndexSet<ListedItem<'g>>,
    edge: &StateEdge<'_>,
    production: &'g Production,
    dot: usize,
) -> bool
    ensures { IsTrue result ↔ ComesBackFrom (map item_key listed.now.keys) (noted_edge edge.now) production.now dot }
{
    match symbol_at(production, dot) {
        None => false,
        Some(symbol) => comes_back_over(listed, edge, production, dot, symbol),
    }
}

/// Whether the item comes back along the edge: its dot moved over the edge's symbol, and the edge's source has it before that.
fn item_comes_back<'g>(
    listed: &IndexSet<ListedItem<'g>>,
    edge: &StateEdge<'_>,
    item: &ListedItem<'g>,
) -> bool
    ensures { IsTrue result ↔ DoesComeBack (map item_key listed.now.keys) (noted_edge edge.now) (item_key item.now) }
{
    if item.dot == 0 {
        return false;
    }
    comes_back_from(listed, edge, item.production, item.dot - 1)
}

/// Whether there is one.
fn has_some(items: &[ListedItem<'_>]) -> bool
    ensures { IsTrue result ↔ (0 < length items.now) }
{
    items.len() > 0
}

/// Whether there are items, and each of them comes back along the edge.
fn items_come_back<'g>(
    listed: &IndexSet<ListedItem<'g>>,
    edge: &StateEdge<'_>,
    items: &[ListedItem<'g>],
) -> bool
    ensures { IsTrue result ↔ ((0 < length items.now)
        × HoldsAtEach (λ _ item. DoesComeBack (map item_key listed.now.keys) (noted_edge edge.now) (item_key item)) items.now) }
{
    for item in items {
        if !item_comes_back(listed, edge, item) {
            return false;
        }
    }
    has_some(items)
}

/// The items of the state with this number that have moved, where the state is there.
fn kernel_at<'k, 'g>(
    kernels: &'k [IndexSet<ListedItem<'g>>],
    state: usize,
) -> Option<&'k IndexSet<ListedItem<'g>>>
    ensures { option_copied result ≡ slice_get kernels.now state }
{
    kernels.get(state)
}

/// Whether the edge leads to a state with items that have moved, and each of them comes back along it.
fn edge_comes_back<'g>(
    listed: &IndexSet<ListedItem<'g>>,
    kernels: &[IndexSet<ListedItem<'g>>],
    edge: &StateEdge<'_>,
) -> bool
    ensures { IsTrue result ↔ KernelComesBack (map item_key listed.now.keys) (map (λ k. map item_key k.keys) kernels.now)
        (noted_edge edge.now) }
{
    match kernel_at(kernels, edge.target) {
        None => false,
        Some(kernel) => items_come_back(listed, edge, kernel.as_slice()),
    }
}

/// Whether each edge leads to a state with items that have moved, and each of them comes back along it.
pub(crate) fn edges_come_back<'g>(
    listed: &IndexSet<ListedItem<'g>>,
    kernels: &[IndexSet<ListedItem<'g>>],
    edges: &[StateEdge<'_>],
) -> bool
    ensures { IsTrue result ↔ HoldsAtEach (λ _ edge. KernelComesBack (map item_key listed.now.keys)
        (map (λ k. map item_key k.keys) kernels.now) (noted_edge edge)) edges.now }
{
    for edge in edges {
        if !edge_comes_back(listed, kernels, edge) {
            return false;
        }
    }
    true
}
