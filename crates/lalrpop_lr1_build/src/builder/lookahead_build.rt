//! The items that a nonterminal behind a dot brings, by what its lookahead is.

ghost use Rattle.std.specs.Prelude.{List};
ghost use Rattle.lalrpop_grammar_repr.specs.declared.grammar.Grammar.{Grammar as LoweredGrammar};
ghost use Rattle.lalrpop_lr1_build.specs.FrontItems.{AreBroughtItems};
ghost use Rattle.lalrpop_lr1_first.specs.FirstSetsOf.{AreFirstSetsOf, IsFirstSetBefore};
ghost use Rattle.lalrpop_lr1_theory.specs.Productions.{Symbol as TheorySymbol};
ghost use Rattle.lalrpop_sets.specs.declared.nil.Nil.{Nil as NoLookahead};

use crate::builder::lr::{Lr, front_items};
use crate::states::KernelLookahead;
use lalrpop_grammar_repr::Symbol;
use lalrpop_grammar_symbols::NonterminalString;
use lalrpop_lr1_core::Item;
use lalrpop_sets::{Nil, TokenSet};
use std::alloc::{AllocError, Global};

/// A lookahead with which states are built.
pub trait LookaheadBuild: KernelLookahead {
    ghost use Rattle.std.specs.Prelude.{IfOk, List, map};
    ghost use Rattle.lalrpop_grammar_repr.specs.declared.grammar.Grammar.{Grammar as LoweredGrammar};
    ghost use Rattle.lalrpop_lr1_build.specs.FrontItems.{AreBroughtItems};
    ghost use Rattle.lalrpop_lr1_first.specs.FirstSetsOf.{AreFirstSetsOf};
    ghost use Rattle.lalrpop_lr1_core.specs.Views.{production_symbol_view};
    ghost use Rattle.lalrpop_lr1_theory.specs.Productions.{Symbol as TheorySymbol};

    // Whether the last is what follows a nonterminal in an item before the first of both, where the symbols stand behind it.
    ghost follows: { LoweredGrammar → List TheorySymbol → Self → Self → Type 0 };

    /// The items that an item brings in which the dot stands before the nonterminal: `rest` stands behind that, and `lookahead`
    /// follows the item. They are the nonterminal's productions with the dot in front, in order, before all that may follow it
    /// there.
    ///
    /// # Errors
    ///
    /// Memory is refused.
    fn epsilon_moves<'g>(
        alloc: Global,
        lr: &Lr<'g, Self>,
        nonterminal: &NonterminalString,
        rest: &[Symbol],
        lookahead: &Self,
    ) -> Result<Vec<Item<'g, Self>>, AllocError>
        requires { AreFirstSetsOf lr.now.grammar.now lr.now.first_sets }
        ensures { IfOk result (λ items. AreBroughtItems lr.now.grammar.now nonterminal.now
            (follows lr.now.grammar.now (map production_symbol_view rest.now) lookahead.now) items.items) };
}

impl LookaheadBuild for Nil {
    ghost follows = { λ g rest before after. Unit {0} };

    fn epsilon_moves<'g>(
        alloc: Global,
        lr: &Lr<'g, Nil>,
        nonterminal: &NonterminalString,
        _: &[Symbol],
        lookahead: &Nil,
    ) -> Result<Vec<Item<'g, Nil>>, AllocError> {
        front_items(alloc, lr.grammar, nonterminal, lookahead)
    }
}

impl LookaheadBuild for TokenSet {
    ghost follows = { λ g rest before after. IsFirstSetBefore g rest before after };

    fn epsilon_moves<'g>(
        alloc: Global,
        lr: &Lr<'g, TokenSet>,
        nonterminal: &NonterminalString,
        rest: &[Symbol],
        lookahead: &TokenSet,
    ) -> Result<Vec<Item<'g, TokenSet>>, AllocError> {
        let first = lr
            .first_sets
            .first1(alloc, &lr.grammar.terminals, rest, lookahead)?;
        let items = front_items(alloc, lr.grammar, nonterminal, &first)?;
        Ok(items)
    }
}
