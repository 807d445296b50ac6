//! Slots, by their numbers, with what is propagated to each.

ghost use Rattle.std.specs.Prelude.{◌≡◌, ◌<◌, ◌^◌, [], IfOk, IfSome, OnOk, Some, slice_get};
ghost use Rattle.lalrpop_lr1_check_lookaheads.specs.KeyedSets.{IsMarkIn};
ghost use Rattle.lalrpop_lr1_check_lookaheads.specs.LookaheadSlots.{AreSlots, GainsSlotMarks, slot_key, slot_keys, slot_sets};

use indexmap::IndexSet;
use lalrpop_grammar_repr::TerminalSet;
use lalrpop_grammar_symbols::NonterminalString;
use lalrpop_sets::TokenSet;
use std::alloc::{AllocError, Global};

/// A nonterminal in a state, which may not be there.
#[derive(Clone, Copy, PartialEq, Eq, Hash)]
pub(crate) struct Slot<'g> {
    /// The number of the state.
    pub(crate) state: usize,
    /// The name of the nonterminal.
    pub(crate) name: &'g NonterminalString,
}

/// Slots in the order in which they were found, each with the tokens that are propagated to it.
pub(crate) struct Slots<'g> {
    pub(crate) keys: IndexSet<Slot<'g>>,
    pub(crate) sets: Vec<TokenSet>,
}

impl<'g> Drop for Slots<'g> {
    /// Drops what it holds: where it is owned, that is one call.
    fn drop(self) {
        let Slots {
            keys: _keys,
            sets: _sets,
        } = self;
    }
}

impl<'g> Slots<'g> {
    /// No slots.
    pub(crate) fn new(alloc: Global) -> Slots<'g>
        ensures keys { slot_keys result ≡ [] }
        ensures sets { slot_sets result ≡ [] }
    {
        Slots {
            keys: IndexSet::new(alloc),
            sets: Vec::new(alloc),
        }
    }

    /// The slot with this number, if there is one.
    pub(crate) fn slot_at(&self, number: usize) -> Option<Slot<'g>>
        ensures slot { result ≡ slice_get self.now.keys.keys number }
        ensures small { IfSome result (λ _. number < 2 ^ 63) }
    {
        if number < self.keys.len() {
            Some(self.keys.as_slice()[number])
        } else {
            None
        }
    }

    /// The number of the slot, which is put in without a token if it isn't there.
    pub(crate) fn number_of(
        &mut self,
        alloc: Global,
        terminals: &TerminalSet,
        slot: Slot<'g>,
    ) -> Result<usize, AllocError>
        requires { AreSlots self.old }
        ensures at { IfOk result (λ number. slice_get (slot_keys self.new) number ≡ Some (slot_key slot.entry)) }
        ensures gained { OnOk result (GainsSlotMarks self.old self.new (λ key mark. (key ≡ slot_key slot.entry) × IsMarkIn [] mark)) }
    {
        let (number, is_new) = self.keys.insert_full(slot)?;
        if is_new {
            self.sets.push(TokenSet::new(alloc, terminals)?)?;
        }
        Ok(number)
    }

    /// Propagates the tokens to the slot.
    pub(crate) fn add(
        &mut self,
        alloc: Global,
        terminals: &TerminalSet,
        slot: Slot<'g>,
        tokens: &TokenSet,
    ) -> Result<(), AllocError>
        requires { AreSlots self.old }
        ensures { OnOk result (GainsSlotMarks self.old self.new (λ key mark. (key ≡ slot_key slot.entry) × IsMarkIn tokens.now mark)) }
    {
        let number = self.number_of(alloc, terminals, slot)?;
        self.sets[number].union_with(tokens)?;
        Ok(())
    }
}
