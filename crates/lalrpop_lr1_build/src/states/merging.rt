//! A kernel and what closes it, put together in order.

ghost use Rattle.std.specs.Prelude.{◌≡◌, ◌++◌, IfOk, OnOk};
ghost use Rattle.lalrpop_lr1_first.specs.ClosureTables.{IsClosureTable};
ghost use Rattle.lalrpop_lr1_first.specs.FirstNumbers.{table_end};
ghost use Rattle.lalrpop_lr1_build.specs.Kernels.{HaveOrderedLookaheads, AreKernelItems, IsClosureOf, places_of};
ghost use Rattle.lalrpop_lr1_build.specs.Merges.{AddsJoined, Merges, TakesBefore};
ghost use Rattle.lalrpop_sets.specs.AscendingLists.{Ascends};

use crate::states::kernel_lookahead::KernelLookahead;
use lalrpop_grammar_symbols::List;
use lalrpop_lr1_first::Closures;
use std::alloc::{AllocError, Global};

/// Adds copies of the items in front that stand before the place, and answers the others.
fn add_before<'k, L: KernelLookahead>(
    kernel: &'k [(usize, L)],
    place: usize,
    items: &mut List<(usize, L)>,
) -> Result<&'k [(usize, L)], AllocError>
    ensures { IfOk result (λ rest. TakesBefore place kernel.now items.old items.new rest.now) }
{
    let mut rest = kernel;
    while let Some((item, others)) = rest.split_first() {
        if item.0 >= place {
            return Ok(rest);
        }
        items.push((item.0, item.1.try_clone()?))?;
        rest = others;
    }
    Ok(rest)
}

/// Adds copies of the items.
fn add_all<L: KernelLookahead>(
    kernel: &[(usize, L)],
    items: &mut List<(usize, L)>,
) -> Result<(), AllocError>
    ensures { OnOk result (items.new ≡ items.old ++ kernel.now) }
{
    for item in kernel {
        items.push((item.0, item.1.try_clone()?))?;
    }
    Ok(())
}

/// Adds the item, joined with the first of the kernel where that stands at the same place, and answers the others.
fn add_joined<'k, L: KernelLookahead>(
    alloc: Global,
    kernel: &'k [(usize, L)],
    place: usize,
    lookahead: L,
    items: &mut List<(usize, L)>,
) -> Result<&'k [(usize, L)], AllocError>
    ensures { IfOk result (λ rest. AddsJoined L.marks L.in_order kernel.now place lookahead items.old items.new rest.now) }
{
    if let Some((item, others)) = kernel.split_first() {
        if item.0 == place {
            let mut joined = lookahead;
            joined.join(&item.1)?;
            items.push((place, joined.put_in_order(alloc)?))?;
            return Ok(others);
        }
    }
    items.push((place, lookahead.put_in_order(alloc)?))?;
    Ok(kernel)
}

/// Both lists of items put together in order; items at one place become one, with both lookaheads.
fn merge<L: KernelLookahead>(
    alloc: Global,
    kernel: &[(usize, L)],
    brought: Vec<(usize, L)>,
) -> Result<List<(usize, L)>, AllocError>
    requires kernel { Ascends (places_of kernel.now) }
    requires ordered { HaveOrderedLookaheads L.in_order kernel.now }
    requires brought { Ascends (places_of brought.items) }
    ensures { IfOk result (λ items. Merges L.marks L.in_order kernel.now brought.items items) }
{
    let mut items = List::new(alloc);
    let mut rest = kernel;
    for (place, lookahead) in brought {
        rest = add_before(rest, place, &mut items)?;
        rest = add_joined(alloc, rest, place, lookahead, &mut items)?;
    }
    add_all(rest, &mut items)?;
    Ok(items)
}

/// The items of a kernel with those that close it, in order.
pub(crate) fn close_kernel<L: KernelLookahead>(
    alloc: Global,
    closures: &Closures<'_>,
    kernel: &[(usize, L)],
) -> Result<List<(usize, L)>, AllocError>
    requires closures { IsClosureTable closures.now }
    requires kernel { AreKernelItems L.marks L.in_order closures.now.numbered kernel.now }
    ensures { IfOk result (λ items. IsClosureOf L.marks L.firsts L.in_order closures.now.numbered kernel.now items) }
{
    let brought = closures.close(alloc, kernel)?;
    let items = merge(alloc, kernel, brought)?;
    Ok(items)
}
