//! The numbers of names.

ghost use Rattle.std.specs.Prelude.{◌≡◌, IfOk};
ghost use Rattle.std.specs.List.Sorted.{IsStrictlySortedBy};
ghost use Rattle.lalrpop_grammar_symbols.specs.contracts.names.NonterminalStringOrd.TheImpl as names_order;
ghost use Rattle.lalrpop_lr1_first.specs.Listings.{lent};
ghost use Rattle.lalrpop_lr1_first.specs.Tables.{pairs_from};

use lalrpop_grammar_repr::Map;
use lalrpop_grammar_symbols::NonterminalString;
use std::alloc::{AllocError, Global};

/// The place of each of the names, which are in order.
pub(crate) fn numbers_of(
    alloc: Global,
    names: &[&NonterminalString],
) -> Result<Map<NonterminalString, usize>, AllocError>
    requires { IsStrictlySortedBy (names_order.ghosts).cmp (lent names.now) }
    ensures { IfOk result (λ numbers. numbers ≡ pairs_from 0 (lent names.now)) }
{
    let mut numbers = Map::new(alloc);
    for number in 0..names.len() {
        numbers.insert(names[number].try_clone()?, number)?;
    }
    Ok(numbers)
}
