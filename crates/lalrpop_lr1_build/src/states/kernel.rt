//! Kernels: the items of which states are made.

ghost use Rattle.std.specs.Prelude.{◌≡◌, IfOk};

use crate::states::kernel_lookahead::KernelLookahead;
use lalrpop_grammar_symbols::List;
use lalrpop_sets::Kernel;
use std::alloc::{AllocError, Global};

/// The items of which a state is made, by their places, each with its lookahead.
#[derive(PartialEq, Eq, Hash, Drop)]
pub struct StateKernel<L> {
    /// The items, in order.
    pub items: List<(usize, L)>,
}

impl<L: KernelLookahead> Kernel for StateKernel<L> {
    type Index = usize;

    ghost index_at = { λ number. number };

    fn index(number: usize) -> usize {
        number
    }

    fn try_clone(&self, alloc: Global) -> Result<StateKernel<L>, AllocError> {
        let items = clone_items(alloc, self.items.as_slice())?;
        Ok(StateKernel { items })
    }
}

/// Copies of the items, in order.
fn clone_items<L: KernelLookahead>(
    alloc: Global,
    items: &[(usize, L)],
) -> Result<List<(usize, L)>, AllocError>
    ensures { IfOk result (λ copy. copy ≡ items.now) }
{
    let mut copy = List::new(alloc);
    for item in items {
        copy.push((item.0, item.1.try_clone()?))?;
    }
    Ok(copy)
}
