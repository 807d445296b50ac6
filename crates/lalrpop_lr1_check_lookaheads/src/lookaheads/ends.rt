//! Ends of productions in states, with the tokens that come to each.

ghost use Rattle.std.specs.Prelude.{◌≡◌, ◌↔◌, ℕ, [], IfOk, OnOk, Some, slice_get, true};
ghost use Rattle.lalrpop_sets.specs.AscendingLists.{has};
ghost use Rattle.lalrpop_lr1_check_lookaheads.specs.Ends.{AreEnds, GainsEndMarks, HasEndMark, end_key, end_table};
ghost use Rattle.lalrpop_lr1_check_lookaheads.specs.ItemHashes.{end_hash, same_end_hash};
ghost use Rattle.lalrpop_lr1_check_lookaheads.specs.KeyedSets.{IsMarkIn};

use indexmap::IndexSet;
use lalrpop_grammar_repr::{Production, TerminalSet};
use lalrpop_sets::TokenSet;
use std::alloc::{AllocError, Global};
use std::hash::{Hash, Hasher};

/// A production in a state where its symbols end.
#[derive(Clone, Copy, PartialEq, Eq)]
pub(crate) struct End<'g> {
    /// The number of the state.
    pub(crate) state: usize,
    /// The production.
    pub(crate) production: &'g Production,
}

// A production is hashed by the number of its action alone, which tells the productions of a grammar apart.
impl<'g> Hash for End<'g> {
    ghost hash_input = { λ end. end_hash end.state end.production.now.action.0 };

    ghost respects_eq = { λ one other equal. same_end_hash one.state other.state one.production.now other.production.now equal };

    fn hash<H: Hasher>(&self, state: &mut H) {
        self.state.hash(state);
        self.production.action.hash(state);
    }
}

/// Ends in the order in which they were found, each with the tokens that come to it.
pub(crate) struct Ends<'g> {
    pub(crate) keys: IndexSet<End<'g>>,
    pub(crate) sets: Vec<TokenSet>,
}

impl<'g> Drop for Ends<'g> {
    /// Drops what it holds: where it is owned, that is one call.
    fn drop(self) {
        let Ends {
            keys: _keys,
            sets: _sets,
        } = self;
    }
}

impl<'g> Ends<'g> {
    /// No ends.
    pub(crate) fn new(alloc: Global) -> Ends<'g>
        ensures keys { (end_table result).keys ≡ [] }
        ensures sets { (end_table result).sets ≡ [] }
    {
        Ends {
            keys: IndexSet::new(alloc),
            sets: Vec::new(alloc),
        }
    }

    /// The number of the end, which is put in without a token if it isn't there.
    fn number_of(
        &mut self,
        alloc: Global,
        terminals: &TerminalSet,
        end: End<'g>,
    ) -> Result<usize, AllocError>
        requires { AreEnds self.old }
        ensures at { IfOk result (λ number. slice_get (end_table self.new).keys number ≡ Some (end_key end.entry)) }
        ensures gained { OnOk result (GainsEndMarks self.old self.new (λ key mark. (key ≡ end_key end.entry) × IsMarkIn [] mark)) }
    {
        let (number, is_new) = self.keys.insert_full(end)?;
        if is_new {
            self.sets.push(TokenSet::new(alloc, terminals)?)?;
        }
        Ok(number)
    }

    /// Adds the tokens to those of the end.
    pub(crate) fn add(
        &mut self,
        alloc: Global,
        terminals: &TerminalSet,
        end: End<'g>,
        tokens: &TokenSet,
    ) -> Result<(), AllocError>
        requires { AreEnds self.old }
        ensures { OnOk result (GainsEndMarks self.old self.new (λ key mark. (key ≡ end_key end.entry) × IsMarkIn tokens.now mark)) }
    {
        let number = self.number_of(alloc, terminals, end)?;
        self.sets[number].union_with(tokens)?;
        Ok(())
    }

    /// A copy of the tokens of the end; none where it isn't there.
    pub(crate) fn tokens_of(
        &self,
        alloc: Global,
        terminals: &TerminalSet,
        end: End<'g>,
    ) -> Result<TokenSet, AllocError>
        requires { AreEnds self.now }
        ensures { IfOk result (λ set. (k : ℕ) → (has set k ≡ true) ↔ HasEndMark self.now (end_key end.entry) (Some k)) }
    {
        let _keys = self.keys.as_slice();
        match self.keys.get_full(&end) {
            None => TokenSet::new(alloc, terminals),
            Some((number, _)) => self.sets[number].try_clone(),
        }
    }
}
