//! Kernels: the items of which a state is made.

ghost use Rattle.std.specs.Prelude.{◌≡◌, IfOk};
ghost use Rattle.lalrpop_lr1_build.specs.FrontItems.{index_of_number};

use lalrpop_grammar_symbols::List;
use lalrpop_lr1_core::{Item, Lookahead, StateIndex};
use lalrpop_sets::Kernel as StateKernel;
use std::alloc::{AllocError, Global};

/// The items of which a state is made: those of the start with the dot in front, or what was shifted.
#[derive(PartialEq, Eq, PartialOrd, Ord, Hash, Drop)]
pub struct Kernel<'g, L> {
    /// The items, in order.
    pub items: List<Item<'g, L>>,
}

impl<'g, L> Kernel<'g, L> {
    /// The kernel of the first state, of items with the dot in front.
    pub fn start(items: List<Item<'g, L>>) -> Kernel<'g, L>
        ensures { result.items ≡ items.entry }
    {
        Kernel { items }
    }

    /// The kernel of another state, of items whose dot was put past a symbol.
    pub fn shifted(items: List<Item<'g, L>>) -> Kernel<'g, L>
        ensures { result.items ≡ items.entry }
    {
        Kernel { items }
    }
}

impl<'g, L: Lookahead> StateKernel for Kernel<'g, L> {
    type Index = StateIndex;

    ghost index_at = { index_of_number };

    fn index(number: usize) -> StateIndex
        ensures { result ≡ index_of_number number }
    {
        StateIndex(number)
    }

    fn try_clone(&self, alloc: Global) -> Result<Kernel<'g, L>, AllocError>
        ensures { IfOk result (λ copy. copy ≡ self.now) }
    {
        let items = clone_items(alloc, self.items.as_slice())?;
        Ok(Kernel { items })
    }
}

/// Copies of the items, in order.
fn clone_items<'g, L: Lookahead>(
    alloc: Global,
    items: &[Item<'g, L>],
) -> Result<List<Item<'g, L>>, AllocError>
    ensures { IfOk result (λ copy. copy ≡ items.now) }
{
    let mut copy = List::new(alloc);
    for item in items {
        copy.push(item.try_clone()?)?;
    }
    Ok(copy)
}
