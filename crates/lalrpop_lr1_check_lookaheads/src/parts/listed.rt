//! The items of all states, to be asked for.

ghost use Rattle.std.specs.Prelude.{◌≡◌, ◌↔◌, ◌∷◌, [], IfOk, IsTrue, OnOk, Contains, length, map};
ghost use Rattle.lalrpop_lr1_check_lookaheads.specs.ItemHashes.{item_hash, same_hash};
ghost use Rattle.lalrpop_lr1_check_lookaheads.specs.ListTests.{GainsElements, HaveSameElements};
ghost use Rattle.lalrpop_lr1_check_lookaheads.specs.ListedItems.{
  AreKernels,
  item_key,
  key_at,
  key_of_item,
  keys_of_states,
  moved_keys,
};

use indexmap::IndexSet;
use lalrpop_grammar_repr::Production;
use lalrpop_lr1_core::{Lr1Item, Lr1State};
use std::alloc::{AllocError, Global};
use std::hash::{Hash, Hasher};

/// An item of a state, without its lookahead.
#[derive(Clone, Copy, PartialEq, Eq)]
pub(crate) struct ListedItem<'g> {
    /// The number of the state.
    pub(crate) state: usize,
    /// The production.
    pub(crate) production: &'g Production,
    /// How many of its symbols stand before the dot.
    pub(crate) dot: usize,
}

// A production is hashed by the number of its action alone, which tells the productions of a grammar apart.
impl<'g> Hash for ListedItem<'g> {
    ghost hash_input = { λ item. item_hash item.state item.production.now.action.0 item.dot };

    ghost respects_eq = { λ one other equal.
        same_hash one.state other.state one.production.now other.production.now one.dot other.dot equal };

    fn hash<H: Hasher>(&self, state: &mut H) {
        self.state.hash(state);
        self.production.action.hash(state);
        self.dot.hash(state);
    }
}

/// Lists an item.
fn list_item<'g>(
    item: ListedItem<'g>,
    listed: &mut IndexSet<ListedItem<'g>>,
) -> Result<(), AllocError>
    ensures { OnOk result (GainsElements (map item_key listed.old.keys) (map item_key listed.new.keys) (item_key item.entry ∷ [])) }
{
    listed.insert(item)?;
    Ok(())
}

/// Lists the items of a state.
fn list_items<'g>(
    state: usize,
    items: &[Lr1Item<'g>],
    listed: &mut IndexSet<ListedItem<'g>>,
) -> Result<(), AllocError>
    ensures { OnOk result (GainsElements (map item_key listed.old.keys) (map item_key listed.new.keys)
        (map (key_of_item state) items.now)) }
{
    for item in items {
        let own = ListedItem {
            state,
            production: item.production,
            dot: item.index,
        };
        list_item(own, listed)?;
    }
    Ok(())
}

/// The items of the states, each once.
pub(crate) fn listed_items<'g>(
    alloc: Global,
    states: &[Lr1State<'g>],
) -> Result<IndexSet<ListedItem<'g>>, AllocError>
    ensures { IfOk result (λ listed. HaveSameElements (map item_key listed.keys) (keys_of_states states.now)) }
{
    let mut listed = IndexSet::new(alloc);
    for state in 0..states.len() {
        list_items(state, states[state].items.vec.as_slice(), &mut listed)?;
    }
    Ok(listed)
}

/// Whether the state has the item.
pub(crate) fn has_item<'g>(
    listed: &IndexSet<ListedItem<'g>>,
    state: usize,
    production: &'g Production,
    dot: usize,
) -> bool
    ensures { IsTrue result ↔ Contains (map item_key listed.now.keys) (key_at state production.now dot) }
{
    listed.contains(&ListedItem {
        state,
        production,
        dot,
    })
}

/// Lists an item of a state, where it has moved.
fn list_if_moved<'g>(
    state: usize,
    item: &Lr1Item<'g>,
    listed: &mut IndexSet<ListedItem<'g>>,
) -> Result<(), AllocError>
    ensures { OnOk result (GainsElements (map item_key listed.old.keys) (map item_key listed.new.keys)
        (moved_keys state (item.now ∷ []))) }
{
    if item.index == 0 {
        return Ok(());
    }
    let own = ListedItem {
        state,
        production: item.production,
        dot: item.index,
    };
    list_item(own, listed)?;
    Ok(())
}

/// Lists the items of a state that have moved.
fn list_moved<'g>(
    state: usize,
    items: &[Lr1Item<'g>],
    listed: &mut IndexSet<ListedItem<'g>>,
) -> Result<(), AllocError>
    ensures { OnOk result (GainsElements (map item_key listed.old.keys) (map item_key listed.new.keys) (moved_keys state items.now)) }
{
    for item in items {
        list_if_moved(state, item, listed)?;
    }
    Ok(())
}

/// The items of a state that have moved, each once.
fn kernel_of<'g>(
    alloc: Global,
    state: usize,
    items: &[Lr1Item<'g>],
) -> Result<IndexSet<ListedItem<'g>>, AllocError>
    ensures { IfOk result (λ kernel. HaveSameElements (map item_key kernel.keys) (moved_keys state items.now)) }
{
    let mut kernel = IndexSet::new(alloc);
    list_moved(state, items, &mut kernel)?;
    Ok(kernel)
}

/// The items of each state that have moved, each once.
pub(crate) fn kernels_of<'g>(
    alloc: Global,
    states: &[Lr1State<'g>],
) -> Result<Vec<IndexSet<ListedItem<'g>>>, AllocError>
    ensures count { IfOk result (λ kernels. length kernels.items ≡ length states.now) }
    ensures kernels { IfOk result (λ kernels. AreKernels (map (λ k. map item_key k.keys) kernels.items) states.now) }
{
    let mut kernels = Vec::new(alloc);
    for state in 0..states.len() {
        kernels.push(kernel_of(alloc, state, states[state].items.vec.as_slice())?)?;
    }
    Ok(kernels)
}
