//! The kernel of the first state.

ghost use Rattle.std.specs.Prelude.{◌≡◌, IfOk};
ghost use Rattle.lalrpop_lr1_first.specs.NumberedGrammars.{IsNumberTable, table_productions};
ghost use Rattle.lalrpop_lr1_build.specs.PublicStates.{start_items};

use crate::states::{KernelLookahead, StateKernel};
use lalrpop_grammar_symbols::{List, NonterminalString};
use lalrpop_lr1_first::Numbered;
use std::alloc::{AllocError, Global};

/// The items of the start with the dot in front, each with the lookahead.
pub(crate) fn start_kernel<L: KernelLookahead>(
    alloc: Global,
    table: &Numbered<'_>,
    start: &NonterminalString,
    lookahead: &L,
) -> Result<StateKernel<L>, AllocError>
    requires { IsNumberTable table.now }
    ensures { IfOk result (λ kernel. kernel.items
        ≡ start_items start.now lookahead.now (table_productions table.now) table.now.rules.items) }
{
    let productions = table.productions();
    let rules = table.rules();
    let mut items = List::new(alloc);
    for number in 0..productions.len() {
        if productions[number].nonterminal == *start {
            items.push((rules[number].start, lookahead.try_clone()?))?;
        }
    }
    Ok(StateKernel { items })
}
