//! A grammar with its first sets, a start and what follows that.

ghost use Rattle.std.specs.Prelude.{◌≡◌, ◌≤◌, ℕ, [], true, IfErr, IfOk, map};
ghost use Rattle.lalrpop_grammar_repr.specs.Productions.{productions_of};
ghost use Rattle.lalrpop_lr1_build.specs.BuiltStates.{HaveNoConflictBuilt, IsFaultBuilt};
ghost use Rattle.lalrpop_lr1_build.specs.FrontItems.{front_of, shown_front};
ghost use Rattle.lalrpop_lr1_first.specs.FirstSetsOf.{AreFirstSetsOf};
ghost use Rattle.lalrpop_lr1_first.specs.NumberedGrammars.{HasItsTerminals};
ghost use Rattle.lalrpop_lr1_build.specs.Nexts.{IsNextIn};
ghost use Rattle.lalrpop_sets.specs.AscendingLists.{has};
ghost use Rattle.lalrpop_sets.specs.Tokens.{eof_number};

use crate::build_states;
use crate::states::KernelLookahead;
use lalrpop_grammar_repr::Grammar;
use lalrpop_grammar_symbols::NonterminalString;
use lalrpop_lr1_core::{Item, Lookahead, LrResult};
use lalrpop_lr1_first::FirstSets;
use std::alloc::{AllocError, Global};

/// The construction of a grammar's states for a start, which a lookahead follows (Knuth 1965).
#[derive(Drop)]
pub struct Lr<'g, L> {
    pub(crate) grammar: &'g Grammar,
    pub(crate) first_sets: FirstSets,
    pub(crate) start: NonterminalString,
    pub(crate) lookahead: L,
}

impl<'g, L: KernelLookahead> Lr<'g, L> {
    /// The construction for the grammar, the start and what follows that. The terminals of the grammar are numbered by their places,
    /// and each terminal on a right side is one of them.
    ///
    /// # Errors
    ///
    /// Memory is refused.
    pub fn new(
        alloc: Global,
        grammar: &'g Grammar,
        start: NonterminalString,
        lookahead: L,
    ) -> Result<Lr<'g, L>, AllocError>
        requires { HasItsTerminals grammar.now }
        ensures grammar { IfOk result (λ lr. lr.grammar.now ≡ grammar.now) }
        ensures terminals { IfOk result (λ lr. HasItsTerminals lr.grammar.now) }
        ensures firsts { IfOk result (λ lr. AreFirstSetsOf lr.grammar.now lr.first_sets) }
        ensures start { IfOk result (λ lr. lr.start ≡ start) }
        ensures lookahead { IfOk result (λ lr. lr.lookahead ≡ lookahead) }
    {
        let first_sets = FirstSets::new(alloc, grammar)?;
        Ok(Lr {
            grammar,
            first_sets,
            start,
            lookahead,
        })
    }

    /// The states: items, edges, order, numbers and reductions; or these with all their conflicts. What follows the start is in
    /// order and holds only tokens of the grammar and the end.
    ///
    /// # Errors
    ///
    /// Some states conflict, or memory is refused.
    pub fn build_states(&self, alloc: Global) -> LrResult<'g, L>
        requires grammar { HasItsTerminals self.now.grammar.now }
        requires ordered { L.in_order self.now.lookahead }
        requires tokens { (k : ℕ) → has (L.marks self.now.lookahead) k ≡ true → k ≤ eof_number self.now.grammar.now.terminals }
        ensures states { IfOk result (λ states. HaveNoConflictBuilt L.marks (L.look self.now.grammar.now.terminals) L.firsts
            (IsNextIn self.now.grammar.now.terminals (L.marks self.now.lookahead)) self.now.grammar.now self.now.start
            (L.conflicts_in self.now.grammar.now.terminals) states.items) }
        ensures fault { IfErr result (λ fault. IsFaultBuilt L.marks (L.look self.now.grammar.now.terminals) L.firsts
            (IsNextIn self.now.grammar.now.terminals (L.marks self.now.lookahead)) self.now.grammar.now self.now.start
            (L.conflicts_in self.now.grammar.now.terminals) fault) }
    {
        build_states(alloc, self.grammar, &self.start, &self.lookahead)
    }
}

/// The productions of the nonterminal with the dot in front, in order, each before this.
pub(crate) fn front_items<'g, L: Lookahead>(
    alloc: Global,
    grammar: &'g Grammar,
    nonterminal: &NonterminalString,
    lookahead: &L,
) -> Result<Vec<Item<'g, L>>, AllocError>
    ensures { IfOk result (λ items. map shown_front items.items
        ≡ map (front_of lookahead.now) (productions_of grammar.now.nonterminals nonterminal.now)) }
{
    let mut items = Vec::new(alloc);
    for production in grammar.productions_for(nonterminal) {
        let lookahead = lookahead.try_clone()?;
        items.push(Item {
            production,
            index: 0,
            lookahead,
        })?;
    }
    Ok(items)
}
