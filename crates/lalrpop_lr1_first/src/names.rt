//! The names of a grammar in order, with the number of each.

ghost use Rattle.std.specs.Prelude.{◌≡◌, IfOk, Some, Contains, slice_get};
ghost use Rattle.std.specs.List.Sorted.{IsStrictlySortedBy};
ghost use Rattle.lalrpop_grammar_symbols.specs.contracts.names.NonterminalStringOrd.TheImpl as names_order;
ghost use Rattle.lalrpop_lr1_first.specs.Listings.{lent};
ghost use Rattle.lalrpop_lr1_first.specs.Tables.{pairs_from};

use lalrpop_grammar_repr::Map;
use lalrpop_grammar_symbols::NonterminalString;
use std::alloc::{AllocError, Global};
use std::collections::BTreeSet;

/// Names in order, with the number of each.
#[derive(Drop)]
pub(crate) struct NumberedNames<'g> {
    // The names, ascending, each once.
    pub(crate) listed: Vec<&'g NonterminalString>,
    // The place of each.
    pub(crate) numbers: Map<NonterminalString, usize>,
}

impl<'g> NumberedNames<'g> {
    /// The names of the set, numbered in order.
    pub(crate) fn new(
        alloc: Global,
        set: &BTreeSet<&'g NonterminalString>,
    ) -> Result<NumberedNames<'g>, AllocError>
        ensures listed { IfOk result (λ names. names.listed.items ≡ set.now.keys) }
        ensures ordered { IfOk result (λ names. IsStrictlySortedBy (names_order.ghosts).cmp (lent names.listed.items)) }
        ensures numbered { IfOk result (λ names. names.numbers ≡ pairs_from 0 (lent set.now.keys)) }
    {
        let mut listed = Vec::new(alloc);
        let mut numbers = Map::new(alloc);
        for name in set.iter() {
            let number = listed.len();
            numbers.insert(name.try_clone()?, number)?;
            listed.push(*name)?;
        }
        Ok(NumberedNames { listed, numbers })
    }

    /// The number of a name, which is one of them.
    pub(crate) fn number(&self, name: &NonterminalString) -> usize
        requires numbered { self.now.numbers ≡ pairs_from 0 (lent self.now.listed.items) }
        requires known { Contains (lent self.now.listed.items) name.now }
        ensures { slice_get (lent self.now.listed.items) result ≡ Some name.now }
    {
        match self.numbers.get(name) {
            Some(number) => *number,
            None => unreachable!(),
        }
    }
}
