//! The edges of a state: to which kernels its groups lead.

ghost use Rattle.std.specs.Prelude.{◌≡◌, OnOk, IfOk};
ghost use Rattle.lalrpop_lr1_build.specs.Edges.{AddsEdge, EdgesLead};

use crate::states::kernel::StateKernel;
use crate::states::kernel_lookahead::KernelLookahead;
use lalrpop_grammar_symbols::List;
use lalrpop_sets::KernelSet;
use std::alloc::{AllocError, Global};

/// Adds the edge of a symbol, where its group has items: the group is the kernel to which it leads.
fn add_edge<L: KernelLookahead>(
    symbol: usize,
    group: StateKernel<L>,
    kernels: &mut KernelSet<StateKernel<L>>,
    edges: &mut List<(usize, usize)>,
) -> Result<(), AllocError>
    ensures given { OnOk result (kernels.new.given ≡ kernels.old.given) }
    ensures added { OnOk result (AddsEdge symbol group kernels.old.kernels edges.old kernels.new.kernels edges.new) }
{
    if group.items.is_empty() {
        return Ok(());
    }
    let target = kernels.add_state(group)?;
    edges.push((symbol, target))?;
    Ok(())
}

/// The edges of a state whose items are grouped, by the numbers of their symbols, in order. New kernels are added.
pub(crate) fn add_edges<L: KernelLookahead>(
    alloc: Global,
    groups: Vec<StateKernel<L>>,
    kernels: &mut KernelSet<StateKernel<L>>,
) -> Result<List<(usize, usize)>, AllocError>
    ensures given { IfOk result (λ _. kernels.new.given ≡ kernels.old.given) }
    ensures edges { IfOk result (λ edges. EdgesLead kernels.old.kernels groups.items kernels.new.kernels edges) }
{
    let mut edges = List::new(alloc);
    let mut symbol = 0;
    for group in groups {
        add_edge(symbol, group, kernels, &mut edges)?;
        symbol += 1;
    }
    Ok(edges)
}
