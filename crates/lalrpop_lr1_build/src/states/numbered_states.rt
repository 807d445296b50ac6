//! States by numbers.

ghost use Rattle.std.specs.Prelude.{◌≡◌, ◌++◌, ◌∷◌, [], IfOk, OnOk, Some, slice_get};
ghost use Rattle.lalrpop_sets.specs.Queues.{queue_of};
ghost use Rattle.lalrpop_lr1_first.specs.ClosureTables.{IsClosureTable};
ghost use Rattle.lalrpop_lr1_build.specs.Kernels.{AreKernelItems};
ghost use Rattle.lalrpop_lr1_build.specs.Turns.{AreNumberedStates, AreStatesOf, IsTurn};

use crate::states::edges::add_edges;
use crate::states::grouping::{group_items, moves_nothing};
use crate::states::kernel::StateKernel;
use crate::states::kernel_lookahead::KernelLookahead;
use crate::states::merging::close_kernel;
use lalrpop_grammar_symbols::List;
use lalrpop_lr1_first::Closures;
use lalrpop_sets::KernelSet;
use std::alloc::{AllocError, Global};

/// A state by numbers.
#[derive(Drop)]
pub struct NumberedState<L> {
    /// Its items by their places, in order, each with its lookahead.
    pub items: List<(usize, L)>,
    /// The numbers of the symbols behind its dots, in order, each with the number of the state to which it leads.
    pub edges: List<(usize, usize)>,
}

/// The state of a kernel. New kernels are added.
fn state_of<L: KernelLookahead>(
    alloc: Global,
    closures: &Closures<'_>,
    kernel: &StateKernel<L>,
    kernels: &mut KernelSet<StateKernel<L>>,
) -> Result<NumberedState<L>, AllocError>
    requires closures { IsClosureTable closures.now }
    requires kernel { AreKernelItems L.marks L.in_order closures.now.numbered kernel.now.items }
    ensures given { IfOk result (λ _. kernels.new.given ≡ kernels.old.given) }
    ensures turn { IfOk result (λ state. IsTurn L.marks L.firsts L.in_order closures.now.numbered kernel.now
        kernels.old.kernels kernels.new.kernels state) }
{
    let items = close_kernel(alloc, closures, kernel.items.as_slice())?;
    // most states of long chains of rules lead nowhere, so they take no time by the number of symbols
    if moves_nothing(closures.table(), items.as_slice()) {
        return Ok(NumberedState {
            items,
            edges: List::new(alloc),
        });
    }
    let groups = group_items(alloc, closures.table(), items.as_slice())?;
    let edges = add_edges(alloc, groups, kernels)?;
    Ok(NumberedState { items, edges })
}

/// Adds the state of the kernel behind the others. New kernels are added.
fn push_state<L: KernelLookahead>(
    alloc: Global,
    closures: &Closures<'_>,
    kernel: &StateKernel<L>,
    kernels: &mut KernelSet<StateKernel<L>>,
    states: &mut Vec<NumberedState<L>>,
) -> Result<(), AllocError>
    requires closures { IsClosureTable closures.now }
    requires kernel { AreKernelItems L.marks L.in_order closures.now.numbered kernel.now.items }
    ensures given { OnOk result (kernels.new.given ≡ kernels.old.given) }
    ensures turn { OnOk result ((state : _) × (states.new.items ≡ states.old.items ++ state ∷ [])
        × IsTurn L.marks L.firsts L.in_order closures.now.numbered kernel.now kernels.old.kernels kernels.new.kernels state) }
{
    let state = state_of(alloc, closures, kernel, kernels)?;
    states.push(state)?;
    Ok(())
}

/// The states of all kernels, none of which was given yet, and of those that they lead to.
fn states_of_kernels<L: KernelLookahead>(
    alloc: Global,
    closures: &Closures<'_>,
    kernels: &mut KernelSet<StateKernel<L>>,
) -> Result<Vec<NumberedState<L>>, AllocError>
    requires closures { IsClosureTable closures.now }
    requires begun { (start : _) × AreStatesOf L.marks L.firsts L.in_order closures.now.numbered start kernels.old.kernels [] }
    requires given { kernels.old.given ≡ 0 }
    ensures { IfOk result (λ states. (start : _) → slice_get kernels.old.kernels 0 ≡ Some start →
        AreNumberedStates L.marks L.firsts L.in_order closures.now.numbered start states.items) }
{
    let mut states = Vec::new(alloc);
    while let Some(kernel) = kernels.next() {
        push_state(alloc, closures, &kernel, kernels, &mut states)?;
    }
    Ok(states)
}

/// The set of this kernel alone.
fn kernels_from<L: KernelLookahead>(
    alloc: Global,
    start: StateKernel<L>,
) -> Result<KernelSet<StateKernel<L>>, AllocError>
    ensures { IfOk result (λ kernels. kernels ≡ queue_of (start ∷ []) 0) }
{
    let mut kernels = KernelSet::new(alloc);
    kernels.add_state(start)?;
    Ok(kernels)
}

/// The states that are reached from a kernel, numbered as first seen: each has its kernel's closure, and edges to the states of
/// its shifted items.
pub fn states_by_numbers<L: KernelLookahead>(
    alloc: Global,
    closures: &Closures<'_>,
    start: StateKernel<L>,
) -> Result<Vec<NumberedState<L>>, AllocError>
    requires closures { IsClosureTable closures.now }
    requires start { AreKernelItems L.marks L.in_order closures.now.numbered start.items }
    ensures { IfOk result (λ states. AreNumberedStates L.marks L.firsts L.in_order closures.now.numbered start states.items) }
{
    let mut kernels = kernels_from(alloc, start)?;
    states_of_kernels(alloc, closures, &mut kernels)
}
