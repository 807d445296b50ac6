//! Kernels in order of first sight, and copies of kernels.

use crate::check::check;
use crate::grammars::{PAIRS, grammar_of, production_at};
use lalrpop_grammar_repr::Production;
use lalrpop_grammar_symbols::List;
use lalrpop_lr1_build::builder::Kernel;
use lalrpop_lr1_build::states::StateKernel;
use lalrpop_lr1_core::{Item, Lr0Item, StateIndex};
use lalrpop_sets::{Kernel as AnyKernel, KernelSet, Nil};
use std::alloc::Global;
use std::process::Abort;

/// The production with the dot at this place, alone.
fn item_list<'g>(
    rt: &impl Abort,
    alloc: Global,
    production: &'g Production,
    dot: usize,
) -> List<Lr0Item<'g>> {
    let mut items = List::new(alloc);
    items.push(Item::lr0(production, dot)).expect(rt, "memory");
    items
}

/// That the kernel of the item with its dot there has this number, now if it had none.
fn has_number<'g>(
    rt: &impl Abort,
    alloc: Global,
    kernels: &mut KernelSet<Kernel<'g, Nil>>,
    production: &'g Production,
    dot: usize,
    number: usize,
) {
    let kernel = Kernel::shifted(item_list(rt, alloc, production, dot));
    let found = kernels.add_state(kernel).expect(rt, "memory");
    check(rt, found == StateIndex(number));
}

/// That the next kernel is that of the item with its dot there.
fn gives(rt: &impl Abort, kernels: &mut KernelSet<Kernel<'_, Nil>>, dot: usize) {
    let kernel = kernels.next().expect(rt, "a kernel");
    let first = kernel.items.as_slice().first().expect(rt, "an item");
    check(rt, first.index == dot);
}

// A kernel is its items, however it was made, and also once it was given.
fn equal_kernels_are_one<'g>(
    rt: &impl Abort,
    alloc: Global,
    kernels: &mut KernelSet<Kernel<'g, Nil>>,
    production: &'g Production,
) {
    has_number(rt, alloc, kernels, production, 1, 1);
    has_number(rt, alloc, kernels, production, 0, 0);
    gives(rt, kernels, 0);
    has_number(rt, alloc, kernels, production, 0, 0);
    has_number(rt, alloc, kernels, production, 2, 2);
    gives(rt, kernels, 1);
    gives(rt, kernels, 2);
    check(rt, kernels.next().is_none());
}

fn equal_kernels_have_one_number(rt: &impl Abort, alloc: Global, production: &Production) {
    let mut kernels = KernelSet::new(alloc);
    let start = Kernel::start(item_list(rt, alloc, production, 0));
    let found = kernels.add_state(start).expect(rt, "memory");
    check(rt, found == StateIndex(0));
    equal_kernels_are_one(rt, alloc, &mut kernels, production);
}

/// That a copy equals its kernel, and no longer where that has an item more.
fn equals_its_copy(rt: &impl Abort, alloc: Global) {
    let mut items = List::new(alloc);
    items.push((2, Nil)).expect(rt, "memory");
    let mut kernel = StateKernel { items };
    let copy = kernel.try_clone(alloc).expect(rt, "memory");
    check(rt, copy == kernel);
    kernel.items.push((5, Nil)).expect(rt, "memory");
    check(rt, copy != kernel);
}

#[test]
fn kernels_by_number_and_their_copies(rt: HostRuntime) {
    let alloc = rt.alloc();
    let grammar = grammar_of(&rt, alloc, PAIRS);
    equal_kernels_have_one_number(&rt, alloc, production_at(&rt, alloc, &grammar, "S", 0));
    equals_its_copy(&rt, alloc);
}
