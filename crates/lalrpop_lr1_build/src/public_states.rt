//! States as their readers see them, from states by numbers.

ghost use Rattle.std.specs.Prelude.{◌≡◌, ◌<◌, ◌++◌, ◌∷◌, [], ℕ, IfOk, OnOk, Contains, Some, length, slice_get};
ghost use Rattle.std.specs.List.{AllZip};
ghost use Rattle.lalrpop_lr1_theory.specs.Productions as theory;
ghost use Rattle.lalrpop_lr1_first.specs.ClosureTables.{AreItems};
ghost use Rattle.lalrpop_lr1_first.specs.FirstNumbers.{name_count, symbol_count};
ghost use Rattle.lalrpop_lr1_first.specs.NumberedGrammars.{HasItemAt, IsNumberTable, table_names};
ghost use Rattle.lalrpop_sets.specs.AscendingLists.{Ascends};
ghost use Rattle.lalrpop_lr1_build.specs.Kernels.{places_of};
ghost use Rattle.lalrpop_lr1_build.specs.PublicStates.{
  AreGotos,
  ArePublicStates,
  AreShifts,
  IsPublicItem,
  IsPublicState,
  IsWellNumbered,
  TellsRules,
  finished_entries,
};

use crate::map_edges::{gotos_of, shifts_of};
use crate::rule_numbers::rule_numbers;
use crate::states::NumberedState;
use lalrpop_grammar_repr::{Map, Production};
use lalrpop_grammar_symbols::{List, NonterminalString, TerminalString};
use lalrpop_lr1_core::{Item, Items, Lookahead, State, StateIndex};
use lalrpop_lr1_first::Numbered;
use std::alloc::{AllocError, Global};

/// The item at a place.
fn item_at<'g, L>(
    table: &Numbered<'g>,
    numbers: &[usize],
    place: usize,
    lookahead: L,
) -> Item<'g, L>
    requires table { IsNumberTable table.now }
    requires numbers { TellsRules table.now.places.items numbers.now }
    requires item { (p : theory.Production) × (d : ℕ) × HasItemAt table.now place p d }
    ensures { IsPublicItem table.now (place, lookahead) result }
{
    let number = numbers[place];
    Item {
        production: table.productions()[number],
        index: place - table.rules()[number].start,
        lookahead,
    }
}

/// The items at the places, in order.
fn items_at<'g, L: Lookahead>(
    alloc: Global,
    table: &Numbered<'g>,
    numbers: &[usize],
    places: List<(usize, L)>,
) -> Result<List<Item<'g, L>>, AllocError>
    requires table { IsNumberTable table.now }
    requires numbers { TellsRules table.now.places.items numbers.now }
    requires items { AreItems table.now places }
    ensures { IfOk result (λ items. AllZip (IsPublicItem table.now) places items) }
{
    let mut items = List::new(alloc);
    for (place, lookahead) in places.into_vec() {
        items.push(item_at(table, numbers, place, lookahead))?;
    }
    Ok(items)
}

/// The reductions by the finished items, in order.
fn reductions_of<'g, L: Lookahead>(
    alloc: Global,
    items: &[Item<'g, L>],
) -> Result<List<(L, &'g Production)>, AllocError>
    ensures { IfOk result (λ reductions. reductions ≡ finished_entries items.now) }
{
    let mut reductions = List::new(alloc);
    for item in items {
        if item.can_reduce() {
            reductions.push((item.lookahead.try_clone()?, item.production))?;
        }
    }
    Ok(reductions)
}

/// Where the terminals and the nonterminals of the edges lead.
fn maps_of(
    alloc: Global,
    table: &Numbered<'_>,
    edges: &[(usize, usize)],
) -> Result<
    (
        Map<TerminalString, StateIndex>,
        Map<NonterminalString, StateIndex>,
    ),
    AllocError,
>
    requires table { IsNumberTable table.now }
    requires ascending { Ascends (places_of edges.now) }
    requires known { (s m : ℕ) → Contains edges.now (s, m) → s < symbol_count table.now }
    ensures shifts { IfOk result (λ maps. AreShifts (name_count table.now) table.now.terminals.now.all edges.now maps.0) }
    ensures gotos { IfOk result (λ maps. AreGotos (table_names table.now) edges.now maps.1) }
{
    let shifts = shifts_of(alloc, table, edges)?;
    let gotos = gotos_of(alloc, table, edges)?;
    Ok((shifts, gotos))
}

/// The items at the places, in order, and the reductions by those that are finished.
fn items_and_reductions<'g, L: Lookahead>(
    alloc: Global,
    table: &Numbered<'g>,
    numbers: &[usize],
    places: List<(usize, L)>,
) -> Result<(List<Item<'g, L>>, List<(L, &'g Production)>), AllocError>
    requires table { IsNumberTable table.now }
    requires numbers { TellsRules table.now.places.items numbers.now }
    requires items { AreItems table.now places }
    ensures items { IfOk result (λ made. AllZip (IsPublicItem table.now) places made.0) }
    ensures reductions { IfOk result (λ made. made.1 ≡ finished_entries made.0) }
{
    let items = items_at(alloc, table, numbers, places)?;
    let reductions = reductions_of(alloc, items.as_slice())?;
    Ok((items, reductions))
}

/// The state with this number.
fn state_at<'g, L: Lookahead>(
    alloc: Global,
    table: &Numbered<'g>,
    numbers: &[usize],
    number: usize,
    state: NumberedState<L>,
) -> Result<State<'g, L>, AllocError>
    requires table { IsNumberTable table.now }
    requires numbers { TellsRules table.now.places.items numbers.now }
    requires state { IsWellNumbered table.now state }
    ensures { IfOk result (λ public. IsPublicState table.now number state public) }
{
    let NumberedState { items, edges } = state;
    let (shifts, gotos) = maps_of(alloc, table, edges.as_slice())?;
    let (vec, reductions) = items_and_reductions(alloc, table, numbers, items)?;
    Ok(State {
        index: StateIndex(number),
        items: Items { vec },
        shifts,
        reductions,
        gotos,
    })
}

/// Adds the state, with its place as its number.
fn push_state_at<'g, L: Lookahead>(
    alloc: Global,
    table: &Numbered<'g>,
    numbers: &[usize],
    state: NumberedState<L>,
    public: &mut Vec<State<'g, L>>,
) -> Result<(), AllocError>
    requires table { IsNumberTable table.now }
    requires numbers { TellsRules table.now.places.items numbers.now }
    requires state { IsWellNumbered table.now state }
    ensures { OnOk result ((added : _) × (public.new.items ≡ public.old.items ++ added ∷ [])
        × IsPublicState table.now (length public.old.items) state added) }
{
    let added = state_at(alloc, table, numbers, public.len(), state)?;
    public.push(added)?;
    Ok(())
}

/// The states, each with its place as its number.
pub(crate) fn states_at<'g, L: Lookahead>(
    alloc: Global,
    table: &Numbered<'g>,
    states: Vec<NumberedState<L>>,
) -> Result<Vec<State<'g, L>>, AllocError>
    requires table { IsNumberTable table.now }
    requires states { (n : ℕ) (state : _) → slice_get states.items n ≡ Some state → IsWellNumbered table.now state }
    ensures { IfOk result (λ public. ArePublicStates table.now states.items public.items) }
{
    let numbers = rule_numbers(alloc, table.places())?;
    let mut public = Vec::new(alloc);
    for state in states {
        push_state_at(alloc, table, numbers.as_slice(), state, &mut public)?;
    }
    Ok(public)
}
